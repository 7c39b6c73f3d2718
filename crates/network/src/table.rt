// A network judged: its first refusal by one scan for all lines of the table, or that it is well-formed.
ghost use Rattle.std.specs.Prelude.{◌≡◌, ◌<◌, length};
ghost use Rattle.network.specs.First.{FirstOf};
ghost use Rattle.network.specs.Judged.{FirstRefusal, Judged};
ghost use Rattle.network.specs.Network.{events, arcs, tail, head};
ghost use Rattle.network.specs.Refusals.{number};
ghost use Rattle.network.specs.Table.{outside, uneven, strays as strays_of, line};
ghost use Rattle.network.specs.Trial.{places_of, Asks, AsksAt};

use crate::repeat::first_repeat;
use crate::{Code, Network, Refused, WellFormed};

// How many events a network has at most.
pub const MOST_EVENTS: usize = 64;

// How many arcs a network has at most.
pub const MOST_ARCS: usize = 256;

// How far from 0 a lower bound is at most.
pub const MOST_LOWER: i32 = 7200;

// The codes in the order in which they are tried.
const ORDER: [Code; 9] = [
    Code::EventCount,
    Code::Period,
    Code::ArcRows,
    Code::Ends,
    Code::Loop,
    Code::Lower,
    Code::Upper,
    Code::Weight,
    Code::Repeat,
];

impl<'a> Network<'a> {
    // Is there no event, or are there too many?
    #[tactic(auto, unfolding(crate::specs::Table::outside))]
    pub fn is_miscounted(&self) -> bool
        ensures { result ≡ outside 1 64 (events self.now) }
    {
        !(1..=MOST_EVENTS).contains(&self.events())
    }

    // Do the arc rows differ in length, with one more of length `further`, or are there too many arcs?
    #[tactic(auto, unfolding(crate::specs::Table::uneven))]
    pub fn is_uneven(&self, further: usize) -> bool
        ensures { result ≡ uneven (arcs self.now) (length self.now.heads) (length self.now.lowers) (length self.now.uppers) (length self.now.weights) further }
    {
        let m = self.arcs();
        self.heads.len() != m
            || self.lowers.len() != m
            || self.uppers.len() != m
            || self.weights.len() != m
            || further != m
            || MOST_ARCS < m
    }

    // Is an end of an arc no event?
    #[tactic(auto, unfolding(crate::specs::Table::strays))]
    fn strays(&self, arc: usize) -> bool
        requires in_heads { arc < length self.now.heads }
        requires in_tails { arc < arcs self.now }
        ensures { result ≡ strays_of (events self.now) (tail self.now arc) (head self.now arc) }
    {
        self.events() <= self.tail(arc) || self.events() <= self.head(arc)
    }

    // How many places a code is tried at: each event, once, each arc.
    #[tactic(auto, unfolding(crate::specs::Trial::places_of))]
    fn places(&self, code: Code) -> usize
        ensures { result ≡ places_of (number code) (events self.now) (arcs self.now) }
    {
        match code {
            Code::Period => self.events(),
            Code::EventCount | Code::ArcRows => 1,
            _ => self.arcs(),
        }
    }

    // Does the line of a code apply at place i? Those before it apply nowhere.
    #[tactic(auto, unfolding(crate::specs::Refusals::named, crate::specs::Table::refusals_with, crate::specs::Table::outside))]
    fn applies(&self, further: usize, code: Code, i: usize) -> bool
        requires { AsksAt self.now further code i }
        ensures { result ≡ (line self.now further (number code)).applies i }
    {
        match code {
            Code::EventCount => self.is_miscounted(),
            Code::Period => !(1..=3600).contains(&self.period(i)),
            Code::ArcRows => self.is_uneven(further),
            Code::Ends => self.strays(i),
            Code::Loop => self.tail(i) == self.head(i),
            Code::Lower => !(-MOST_LOWER..=MOST_LOWER).contains(&self.lower(i)),
            Code::Upper => self.upper(i) < self.lower(i),
            Code::Weight => 10000 < self.weight(i),
            _ => false,
        }
    }

    // The first place where the line of a code applies.
    #[tactic(auto, using(crate::proofs::Scans::first_hit), unfolding(crate::specs::Refusals::named, crate::specs::Table::refusals_with))]
    fn first_place(&self, further: usize, code: Code) -> Option<usize>
        requires { Asks self.now further (number code) }
        ensures { FirstOf (line self.now further (number code)).applies (line self.now further (number code)).places result }
    {
        if code == Code::Repeat {
            return first_repeat(self);
        }
        for i in 0..self.places(code) {
            if self.applies(further, code, i) {
                return Some(i);
            }
        }
        None
    }

    // The first refusal of the table; a row of length `further` counts as an arc row. A function by itself, so that
    // `judge` is small enough for its callers, and its network does not go through memory.
    #[inline(never)]
    fn refusal(&self, further: usize) -> Option<Refused>
        ensures { FirstRefusal self.now further result }
    {
        for code in ORDER {
            if let Some(place) = self.first_place(further, code) {
                return Some(Refused::at(code, place));
            }
        }
        None
    }

    // The network as it is, if no line of the table applies; a row of length `further` counts as an arc row.
    #[inline]
    pub fn judge(&self, further: usize) -> Result<WellFormed<'a>, Refused>
        ensures { Judged self.now further result }
    {
        if let Some(refused) = self.refusal(further) {
            return Err(refused);
        }
        Ok(WellFormed { rows: self.again() })
    }
}
