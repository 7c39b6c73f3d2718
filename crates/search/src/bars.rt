// A network in unsigned numbers: what the search asks of an arc again and again is worked out once.
ghost use Rattle.std.specs.Prelude.{◌≡◌, ◌<◌, length};
ghost use Rattle.network.specs.Network.{arcs};
ghost use Rattle.network.specs.Rows.{written};
ghost use Rattle.search.specs.Reduced.{bar_of};

use crate::Bar;
use network::WellFormed;
use network::rule::{slack_by, width, working};

// Works one arc out. The last time that it leaves at its later end is at its upper bound after its tail, or at its lower bound before its head.
fn bar_of(network: &WellFormed, arc: usize) -> Bar
    requires { arc < arcs network.now.rows }
    ensures { result ≡ bar_of network.now.rows arc }
{
    let rows = &network.rows;
    let period = network.arc_period(arc);
    let low = rows.lower(arc);
    let high = working(period, low, rows.upper(arc));
    let run = period - 1 - width(low, high);
    let tail = rows.tail(arc);
    let head = rows.head(arc);
    let (near, last, edge) = if tail < head {
        (tail, head, -high)
    } else {
        (head, tail, low)
    };
    Bar {
        near: near as u32,
        last: last as u32,
        shift: slack_by(period, edge, 0, 1),
        run,
        gap: period,
    }
}

// Works all arcs out.
pub fn reduce(network: &WellFormed, bars: &mut [Bar])
    requires { length bars.old ≡ arcs network.now.rows }
    ensures { bars.new ≡ written (bar_of network.now.rows) (arcs network.now.rows) bars.old }
{
    for (arc, bar) in bars.iter_mut().enumerate() {
        *bar = bar_of(network, arc);
    }
}
