//! Plays a trace: makes a machine, gives it the call of each line, and writes the report.
#![tactic(auto)]

mod plays;

pub use plays::play;
