// The public calls, a module for each. None asks anything of its caller.
#![tactic(auto)]

pub mod check;
pub mod measure;
pub mod print_text;
pub mod read_text;
pub mod rebuild;
pub mod solve;
