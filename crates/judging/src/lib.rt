//! Judges a trace before anything is played: its header, how many calls it has, and the room that their report takes.
#![tactic(auto)]

mod inputs;
mod judges;
mod openings;
mod plans;
mod sizes;

pub use inputs::judge_input;
pub use judges::judge;
pub use plans::Plan;
