//! The machine: one call at a time, whichever side it is for, and whole lists of calls.
#![tactic(auto)]

mod machines;
mod runs;
mod steps;

pub use machines::Machine;
pub use runs::{Ended, run, run_nested};
