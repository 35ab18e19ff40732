//! A machine at one of its sides.
use sides::{GuestSide, HostSide};

/// A machine, by the side whose turn it is.
#[derive(Drop)]
pub enum Machine {
    AtHost(HostSide),
    AtGuest(GuestSide),
}
