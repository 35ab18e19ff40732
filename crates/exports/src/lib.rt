//! The player and the loads of a machine as C functions, on numbers and slices.
//!
//! A slice is a pointer and a length, and a `Global` takes no bytes, so that C passes nothing for it. Nothing holds C to
//! what a reference promises: it owes slices that are there and aligned, and none that is written may overlap another.
//!
//! C names no type parameter, so there is one function for each machine, of one line over what they share.
#![tactic(auto)]

mod loads;
mod plays;
mod results;

pub use loads::{cardreader_loads_nested, cardreader_loads_shadow, cardreader_loads_tlb};
pub use plays::{cardreader_play_nested, cardreader_play_shadow, cardreader_play_tlb_tlb_shadow};
pub use results::{Loaded, Played};

#[cfg(test)]
mod tests;
