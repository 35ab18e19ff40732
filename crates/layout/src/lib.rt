//! The layout of a pool: which pools are accepted, ASIDs, pages and leaf entries, the trees of tables, what each change leaves, what
//! a look-up finds, and its laws.
#![tactic(auto)]

mod asid_pages;
mod asids;
mod checks;
mod leaves;
mod pages;
mod sources;
mod words;

pub use asid_pages::AsidPage;
pub use asids::Asid;
pub use checks::check_pool;
pub use leaves::LeafEntry;
pub use pages::VirtualPage;
pub use sources::OutsidePool;
pub use words::{decode, word};
