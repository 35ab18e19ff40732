//! The translator that keeps Sv39 tables in a pool of words, one tree for each ASID.
#![tactic(auto)]

mod accesses;
mod laws;
mod shadows;

pub use laws::{book_is_exact, book_is_found};
pub use shadows::Shadow;
