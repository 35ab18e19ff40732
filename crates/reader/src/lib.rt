//! Reads the lines of a trace: a call from each line after the header.
#![tactic(auto)]

mod laws;
mod readers;

pub use laws::one_text;
pub use readers::read_call;
