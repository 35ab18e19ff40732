//! Tests of the look-aside buffer: where grants go, which are replaced, what fences leave, and what lies below it.
#![tactic(auto)]

mod onces;

pub use onces::Once;

#[cfg(test)]
mod tests;
