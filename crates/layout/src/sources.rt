//! The fault of a pool as a source of table words.

/// The word asked for is not in the pool.
#[derive(Clone, Copy, PartialEq, Eq, Debug)]
pub struct OutsidePool;
