//! Page tables in a pool of words: one tree for each ASID, found by the walk, grown, cleared and reset.
#![tactic(auto)]

mod changes;
mod finds;
mod pools;
mod reads;
mod sources;
mod words;

pub use pools::Pool;
