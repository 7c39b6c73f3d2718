// A network lent as six rows: the public rule at one arc and over all, and the first refusal of the table.
#![tactic(auto)]

ghost use Rattle.std.specs.Prelude.{◌≡◌, ◌<◌};
ghost use Rattle.network.specs.Refusals.{refused_at, answered, counted};

mod repeat;
mod rows;
pub mod rule;
mod table;
mod timed;
mod well_formed;

pub use rows::Network;
pub use table::{MOST_ARCS, MOST_EVENTS};
pub use timed::Timed;
pub use well_formed::WellFormed;

// Why a call refuses: the codes of the table.
#[derive(Clone, Copy, PartialEq, Eq, Debug)]
pub enum Code {
    EventCount = 1,
    Period = 2,
    ArcRows = 3,
    Ends = 4,
    Loop = 5,
    Lower = 6,
    Upper = 7,
    Weight = 8,
    Room = 9,
    Infeasible = 10,
    OtherPeriod = 11,
    Tension = 12,
    Walk = 13,
    Late = 14,
    Unmet = 15,
    Header = 16,
    Record = 17,
    Repeat = 18,
}

// Why a call refuses, and at which event, arc, text or record; 0 where the code has no place.
#[derive(Clone, Copy, PartialEq, Eq, Debug)]
pub struct Refused {
    pub code: Code,
    pub place: u32,
}

impl Refused {
    // The refusal with this code at this place.
    pub fn at(code: Code, place: usize) -> Refused
        requires { place < 256 }
        ensures { result ≡ refused_at code place }
    {
        Refused {
            code,
            place: place as u32,
        }
    }
}

// What a call answers in C: a code of the table and its place, or code 0 and the cost.
#[repr(C)]
#[derive(Drop)]
pub struct Answer {
    pub code: u32,
    pub place: u32,
    pub cost: u64,
}

impl From<Result<u64, Refused>> for Answer {
    ghost from_gives = { λ outcome answer. answer ≡ answered outcome };

    fn from(outcome: Result<u64, Refused>) -> Answer {
        match outcome {
            Ok(cost) => Answer {
                code: 0,
                place: 0,
                cost,
            },
            Err(refused) => Answer {
                code: refused.code as u32,
                place: refused.place,
                cost: 0,
            },
        }
    }
}

// How many entries or bytes a call has filled: of the events, and of the arcs.
#[derive(Clone, Copy, PartialEq, Eq, Debug)]
pub struct Counts {
    pub events: usize,
    pub arcs: usize,
}

// What a call that fills rows or texts answers in C: both counts are 0 under any code but 0.
#[repr(C)]
#[derive(Drop)]
pub struct Filled {
    pub code: u32,
    pub place: u32,
    pub cost: u64,
    pub events: usize,
    pub arcs: usize,
}

impl From<Result<Counts, Refused>> for Filled {
    ghost from_gives = { λ outcome filled. filled ≡ counted outcome };

    fn from(outcome: Result<Counts, Refused>) -> Filled {
        match outcome {
            Ok(counts) => Filled {
                code: 0,
                place: 0,
                cost: 0,
                events: counts.events,
                arcs: counts.arcs,
            },
            Err(refused) => Filled {
                code: refused.code as u32,
                place: refused.place,
                cost: 0,
                events: 0,
                arcs: 0,
            },
        }
    }
}
