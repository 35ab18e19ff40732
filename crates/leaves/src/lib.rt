//! Grants as leaves of the tables in a pool: the entry of a grant, the grant that answers an access, and what a fence clears.
#![tactic(auto)]

mod entries;
mod fences;
mod lookups;

pub use entries::{has_some_right, leaf_entry};
pub use fences::fence_pool;
pub use lookups::answering;
