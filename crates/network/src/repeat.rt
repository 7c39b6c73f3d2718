// The same rule entered twice: the first arc that repeats an earlier one.
ghost use Rattle.std.specs.Prelude.{◌≡◌, ◌≤◌, ◌<◌, pos, nat_abs, ◌+ℤ◌, ◌-ℤ◌};
ghost use Rattle.numbers.specs.Remainder.{remainder};
ghost use Rattle.network.specs.Network.{arcs};
ghost use Rattle.network.specs.PublicRule.{working_by};
ghost use Rattle.network.specs.First.{FirstOf};
ghost use Rattle.network.specs.Table.{repeated};
ghost use Rattle.network.specs.Trial.{Sound};
ghost use Rattle.network.specs.Pairs.{AsksWidth, TwoArcs, same_rule, Chained, AsksTwin, AsksMatched, Twin};

use crate::Network;
use crate::rule::{width, working};
use crate::table::{MOST_ARCS, MOST_EVENTS, MOST_LOWER};

// What a lower bound leaves by g, counted from -7,200, the least that there is: no number is then below zero, and the machine's remainder serves.
#[tactic(auto, unfolding(numbers::specs::Remainder::remainder))]
fn offset(g: u32, low: i32) -> u32
    requires { (0 < g) × (nat_abs low ≤ 7200) }
    ensures { result ≡ remainder (low +ℤ pos 7200) g }
{
    ((low + MOST_LOWER) as u32) % g
}

// The working upper bound less lower.
fn working_width(g: u32, low: i32, high: i32) -> u32
    requires { AsksWidth g low high }
    ensures { result ≡ nat_abs (working_by g low high -ℤ low) }
{
    width(low, working(g, low, high))
}

// Has arc a the head of arc b, and by the period g this offset and this width?
#[tactic(auto, unfolding(crate::specs::Pairs::same_rule))]
fn is_same_rule(network: &Network, g: u32, left: u32, wide: u32, a: usize, b: usize) -> bool
    requires { TwoArcs network.now.heads network.now.lowers network.now.uppers g a b }
    ensures { result ≡ same_rule network.now.heads network.now.lowers network.now.uppers g left wide a b }
{
    if network.head(a) != network.head(b) {
        return false;
    }
    let low = network.lower(a);
    offset(g, low) == left && working_width(g, low, network.upper(a)) == wide
}

// From this link down, an arc that this one repeats: the loop follows the links. Its own offset and width are worked out once. A function by itself: few arcs
// come here, and the scan keeps its numbers in registers.
#[inline(never)]
fn matched(network: &Network, befores: &[u32], arc: usize, from: usize) -> Option<usize>
    requires { AsksMatched network.now befores.now arc from }
    ensures { Twin network.now arc result }
{
    let g = network.arc_period(arc);
    let low = network.lower(arc);
    let left = offset(g, low);
    let wide = working_width(g, low, network.upper(arc));
    let mut next = from;
    while 0 < next {
        let other = next - 1;
        if is_same_rule(network, g, left, wide, other, arc) {
            return Some(other);
        }
        next = befores[other] as usize;
    }
    None
}

// An arc before this one that it repeats. The loop follows the links of the arcs that start where it does, and bounds are looked at only where the heads agree.
fn twin(network: &Network, lasts: &[u32], befores: &[u32], arc: usize) -> Option<usize>
    requires { AsksTwin network.now lasts.now befores.now arc }
    ensures { Twin network.now arc result }
{
    let mut next = lasts[network.tail(arc)] as usize;
    while 0 < next {
        let other = next - 1;
        if network.head(other) == network.head(arc) {
            return matched(network, befores, arc, next);
        }
        next = befores[other] as usize;
    }
    None
}

// The first arc that repeats an earlier one, over rows that link each arc passed to the last before it with the same tail.
// A link is one more than its arc, and 0 for none: rows of `Option<u8>` were tried, and the scan is slower, by a third at 60 arcs (measured).
#[tactic(auto, using(crate::proofs::Scans::first_hit, crate::proofs::Repeats::twin_is))]
fn scan(network: &Network, lasts: &mut [u32], befores: &mut [u32]) -> Option<usize>
    requires { Chained network.now lasts.old befores.old 0 }
    ensures { FirstOf (repeated network.now) (arcs network.now) result }
{
    for arc in 0..network.arcs() {
        if twin(network, &lasts[..], &befores[..], arc).is_some() {
            return Some(arc);
        }
        let event = network.tail(arc);
        befores[arc] = lasts[event];
        lasts[event] = arc as u32 + 1;
    }
    None
}

// The same over rows of its own.
pub fn first_repeat(network: &Network) -> Option<usize>
    requires { Sound network.now }
    ensures { FirstOf (repeated network.now) (arcs network.now) result }
{
    let mut lasts = [0u32; MOST_EVENTS];
    let mut befores = [0u32; MOST_ARCS];
    scan(
        network,
        &mut lasts[..network.events()],
        &mut befores[..network.arcs()],
    )
}
