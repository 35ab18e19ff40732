//! The two root registers: their layouts, and the tables that they name.
#![tactic(auto)]

mod guest_roots;
mod host_roots;
mod roots;

pub use guest_roots::GuestRoot;
pub use host_roots::HostRoot;
pub use roots::Roots;
