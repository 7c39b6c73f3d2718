// The smallest timetable that fits a network in unsigned numbers, or that there is none.
#![tactic(auto)]

ghost use Rattle.std.specs.Prelude.{◌≡◌, length};
ghost use Rattle.search.specs.Lent.{lent};
ghost use Rattle.search.specs.Looked.{Sought};

mod bars;
mod blame;
mod depth;
mod marks;
mod reduced;
mod thread;

pub use bars::reduce;
pub use reduced::Reduced;
use thread::ArcThreads;

// The most events of a network.
const EVENTS: usize = 64;

// The most arcs of a longer network: 256 of the network's own, and one more for each two of 64 events.
pub const ROOM: usize = 2272;

// What the search asks of an arc again and again, worked out once: its earlier end and its later one, and the run of times that it bars there in each gap.
#[derive(Clone, Copy, PartialEq, Eq, Debug)]
pub struct Bar {
    pub near: u32,
    pub last: u32,
    pub shift: u32,
    pub run: u32,
    pub gap: u32,
}

// What a row of arcs has before any is written.
pub const NO_BAR: Bar = Bar {
    near: 0,
    last: 0,
    shift: 0,
    run: 0,
    gap: 0,
};

// The smallest timetable that fits, written into the row; or false where there is none.
// A bool beside the row: the row is the caller's, since nothing is allocated.
pub fn least(network: &Reduced, times: &mut [u32]) -> bool
    requires { length times.old ≡ length network.now.periods.now }
    ensures { Sought (lent network.now) times.new result }
{
    let mut firsts = [None; EVENTS];
    let mut nexts = [None; ROOM];
    let threads = ArcThreads::new(*network, &mut firsts, &mut nexts);
    let mut blame = [false; EVENTS];
    depth::place(&threads, times, &mut blame, 0)
}
