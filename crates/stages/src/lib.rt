//! The two-stage walk, and what an access comes to.
#![tactic(auto)]

mod hosts;
mod landings;
mod laws;
mod outcomes;
mod translations;
mod worlds;

pub use hosts::{GuestMemory, HostMemory};
pub use landings::Landing;
pub use laws::both_bare;
pub use outcomes::Translation;
pub use translations::is_canonical;
pub use worlds::World;
