//! One walk over any source of table words.
#![tactic(auto)]

mod laws;
mod walks;

pub use laws::{one_word_a_level, reads_decide};
pub use walks::{Leaf, RootIndex, Table, TableSource, WalkFault, walk};
