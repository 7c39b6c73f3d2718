// A network in unsigned numbers.
ghost use Rattle.search.specs.Reduced.{Sized, reduced};

use crate::Bar;

// The periods of its events, and its arcs as the search sees them.
#[derive(Clone, Copy)]
pub struct Reduced<'a> {
    pub periods: &'a [u32],
    pub bars: &'a [Bar],
    ghost sized: { Sized (reduced periods.now bars.now) },
}
