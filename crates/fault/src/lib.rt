//! Faults, nested as they happen, and the six numbers of each.
#![tactic(auto)]

mod faults;
mod numbers;

pub use faults::{Fault, GuestFault, HostFault, Unreached};
pub use numbers::{Numbers, Place, Stage};
