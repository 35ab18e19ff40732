//! The two sides of a machine, which are given up for each other, and the calls of each.
#![tactic(auto)]

mod guest_side;
mod host_side;
mod sides;

pub use sides::{GuestSide, HostSide};
