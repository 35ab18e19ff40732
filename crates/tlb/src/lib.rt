//! A translation look-aside buffer over any translator: sixteen sets of four ways.
#![tactic(auto)]

mod layers;
mod tables;
mod ways;

pub use layers::Tlb;
