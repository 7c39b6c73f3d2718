// What the closure makes of a network, exported for the tests: no contract says how strong the closure is, so they hold it to numbers that are known.
#![tactic(auto)]

ghost use Rattle.std.specs.Prelude.{◌≡◌, ◌*◌, ◌≤◌, ◌++◌, length, drop};
ghost use Rattle.network.specs.Network.{net_at};
ghost use Rattle.network.specs.Refusals.{number};
ghost use Rattle.gauge.specs.Gauge.{gauge, numbers, Shows};

use closure::ROOM;
use network::{Code, Network, WellFormed};
use search::{Bar, NO_BAR};

// How many numbers stand in the row for an arc.
const NUMBERS: usize = 5;

// A code of the table, or 0 and what the closure answered: 0 rounds where nothing fits.
#[repr(C)]
#[derive(Drop)]
pub struct Gauge {
    pub code: u32,
    pub rounds: u32,
    pub arcs: u64,
}

// What is shown under a code of the table.
fn refused(code: Code) -> Gauge
    ensures { result.code ≡ number code }
{
    Gauge {
        code: code as u32,
        rounds: 0,
        arcs: 0,
    }
}

// What is shown under code 0.
fn shown(rounds: u32, arcs: usize) -> Gauge
    ensures { result ≡ gauge 0 rounds arcs }
{
    Gauge {
        code: 0,
        rounds,
        arcs: arcs as u64,
    }
}

// Writes the five numbers of each arc from the row's beginning, side by side for the C interface.
fn write_arcs(bars: &[Bar], row: &mut [u32])
    requires { NUMBERS * length bars.now ≤ length row.old }
    ensures { row.new ≡ numbers bars.now ++ drop (NUMBERS * length bars.now) row.old }
{
    for (arc, bar) in bars.iter().enumerate() {
        let place = NUMBERS * arc;
        let five = [bar.near, bar.last, bar.shift, bar.run, bar.gap];
        row[place..place + NUMBERS].copy_from_slice(&five);
    }
}

// Writes the longer network of a well-formed one into a row with room. A function by itself: its own row of arcs is cleared only where nothing is refused.
#[inline(never)]
fn show(network: &WellFormed, longer: &mut [u32]) -> Gauge
    requires { length longer.old ≡ NUMBERS * ROOM }
    ensures { Shows network.now.rows longer.new result }
{
    let mut bars = [NO_BAR; ROOM];
    let Some(closed) = closure::lengthen(network, &mut bars) else {
        return shown(0, 0);
    };
    write_arcs(&bars[..closed.arcs], longer);
    shown(closed.rounds, closed.arcs)
}

// Writes the longer network, five numbers for each arc, into a row of exactly 11,360 entries; code 9 where the row has another length.
#[unsafe(no_mangle)]
pub extern "C" fn rubblewaltz_gauge(
    periods: &[u32],
    tail: &[u32],
    head: &[u32],
    lower: &[i32],
    upper: &[i32],
    weight: &[u32],
    longer: &mut [u32],
) -> Gauge
    ensures { Shows (net_at periods tail head lower upper weight) longer.new result }
{
    let network = Network {
        periods,
        tails: tail,
        heads: head,
        lowers: lower,
        uppers: upper,
        weights: weight,
    };
    let network = match network.judge(network.arcs()) {
        Ok(network) => network,
        Err(found) => return refused(found.code),
    };
    if longer.len() != NUMBERS * ROOM {
        return refused(Code::Room);
    }
    show(&network, longer)
}
