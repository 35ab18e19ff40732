//! The two sides of a machine. A side is moved: `enter` and `leave` give one up for the other, and none can be made outside.
use registers::Roots;

// A side does not hold the memory and the translator, which are lent to each call side by side: a load only reads the memory, and
// between calls both are their owner's.

/// The host side, by the roots of the machine.
#[derive(Drop)]
pub struct HostSide {
    pub(crate) roots: Roots,
}

/// The guest side, by the roots of the machine.
#[derive(Drop)]
pub struct GuestSide {
    pub(crate) roots: Roots,
}
