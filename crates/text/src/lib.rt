// The office's two texts: read record by record, and printed.
#![tactic(auto)]

pub mod cursor;
pub mod fields;
pub mod fill;
pub mod judge;
pub mod print;
pub mod value;

// An event's record: its period.
pub type Period = u32;

// An arc's record: its two events, its limits and its weight.
#[derive(Drop)]
pub struct Arc {
    pub tail: u32,
    pub head: u32,
    pub lower: i32,
    pub upper: i32,
    pub weight: u32,
}

// The first fault of a text: its header, or the record of that number.
#[derive(Clone, Copy, PartialEq, Eq, Debug)]
pub enum Fault {
    Header,
    Record(u32),
}
