// The arcs that are printed, as they are lent.
ghost use Rattle.text.specs.Put.{FiveRows};

// The five rows of a network's arcs, one entry in each for each arc.
#[derive(Clone, Copy)]
pub struct ArcRows<'a> {
    pub tail: &'a [u32],
    pub head: &'a [u32],
    pub lower: &'a [i32],
    pub upper: &'a [i32],
    pub weight: &'a [u32],
    ghost five_rows: { FiveRows tail.now head.now lower.now upper.now weight.now },
}
