// The depth-first search, event by event, lowest number first, over a network in unsigned numbers. Where no time is left for an event, it says which earlier
// ones are to blame, and those that are not are passed over on the way back.
ghost use Rattle.search.specs.Lent.{lent};
ghost use Rattle.search.specs.Steps.{Ready, Placed};

use crate::EVENTS;
use crate::blame::join;
use crate::marks::{mark_event, next_time};
use crate::thread::ArcThreads;

// The longest period.
const PERIOD: usize = 3600;

// Places event k and those after it: true with the smallest timetable that has the first k times, or false with the events to blame where none has.
// A bool beside the row: the row is the caller's, since nothing is allocated.
pub fn place(threads: &ArcThreads, times: &mut [u32], blame: &mut [bool; EVENTS], k: usize) -> bool
    requires { Ready (lent threads.now.network) times.old k }
    ensures { Placed (lent threads.now.network) times.old k times.new blame.new result }
{
    let periods = threads.network.periods;
    if k == periods.len() {
        return true;
    }
    let mut marks = [false; PERIOD];
    let row = &mut marks[..periods[k] as usize];
    let mut deeper = [false; EVENTS];
    mark_event(threads, times, k, row, blame);
    let mut from = 0;
    // The loop follows what the step gives, and counts no index.
    while let Some(time) = next_time(row, from) {
        times[k] = time as u32;
        if place(threads, times, &mut deeper, k + 1) {
            return true;
        }
        if !deeper[k] {
            *blame = deeper;
            return false;
        }
        join(blame, &deeper);
        from = time + 1;
    }
    false
}
