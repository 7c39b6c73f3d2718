// The events that a failed placing blames, in a row with a place for each.
ghost use Rattle.search.specs.Marks.{Joined};

use crate::EVENTS;

// Blames those of another row too.
pub fn join(blame: &mut [bool; EVENTS], other: &[bool; EVENTS])
    ensures { Joined blame.old other.now blame.new }
{
    // By index: with `blame.iter_mut().zip(other)` the proof did not close, since what the loop writes is not known after it.
    for (event, blamed) in other.iter().enumerate() {
        blame[event] |= *blamed;
    }
}
