// The smallest feasible timetable of a network, or that there is none. Before the search comes the closure: for each two events the span that holds the
// difference of their times in every fitting timetable, cut down through every third event; the search takes the spans as arcs that the network implies.
#![tactic(auto)]

ghost use Rattle.std.specs.Prelude.{◌≡◌, length};
ghost use Rattle.network.specs.Network.{arcs, events};
ghost use Rattle.search.specs.Looked.{Looked};
ghost use Rattle.closure.specs.Longer.{Lengthened};

mod arcs;
mod longer;
mod span;
mod table;

use longer::ARCS;
use network::WellFormed;
use search::{Bar, NO_BAR, Reduced};
pub use span::Span;
use table::{PLACES, Table};

// Room for a longer network.
pub const ROOM: usize = search::ROOM;

// How many rounds the closure made, and how many arcs the longer network then has.
#[derive(Clone, Copy, PartialEq, Eq, Debug)]
pub struct Closed {
    pub rounds: u32,
    pub arcs: usize,
}

// Writes the longer network over rows of scratch. Rows and no arrays: as many bars are lent as there are arcs, and callers lend the longer row as they have it.
fn extend(
    network: &WellFormed,
    bars: &mut [Bar],
    spans: &mut [Span],
    longer: &mut [Bar],
) -> Option<Closed>
    requires bars_long { length bars.old ≡ arcs network.now.rows }
    requires spans_long { length spans.old ≡ PLACES }
    requires room { length longer.old ≡ ROOM }
    ensures { Lengthened network.now.rows longer.new result }
{
    search::reduce(network, bars);
    let reduced = Reduced {
        periods: network.rows.periods,
        bars,
    };
    let mut table = Table::widen(reduced, spans);
    let rounds = table.close()?;
    let arcs = longer::append_all(&table, longer);
    Some(Closed { rounds, arcs })
}

// The longer network of a network, written into the row; or none where nothing is feasible.
pub fn lengthen(network: &WellFormed, longer: &mut [Bar]) -> Option<Closed>
    requires { length longer.old ≡ ROOM }
    ensures { Lengthened network.now.rows longer.new result }
{
    let arcs = network.rows.arcs();
    let mut bars = [NO_BAR; ARCS];
    let mut spans = [Span {
        low: 0,
        width: 0,
        gap: 1,
    }; PLACES];
    extend(network, &mut bars[..arcs], &mut spans, longer)
}

// The smallest feasible timetable, written into the row; or false where there is none.
// A bool beside the row: the row is the caller's, since nothing is allocated.
pub fn smallest(network: &WellFormed, times: &mut [u32]) -> bool
    requires { length times.old ≡ events network.now.rows }
    ensures { Looked network.now.rows times.new result }
{
    let mut longer = [NO_BAR; ROOM];
    let Some(closed) = lengthen(network, &mut longer) else {
        return false;
    };
    let reduced = Reduced {
        periods: network.rows.periods,
        bars: &longer[..closed.arcs],
    };
    search::least(&reduced, times)
}
