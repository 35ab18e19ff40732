//! Accesses of one word, and what the leaves of the two stages allow of them.
#![tactic(auto)]

mod accesses;
mod rights;

pub use accesses::{Access, Kind, Mode};
