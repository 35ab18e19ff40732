//! Grants, fences, the rules that every translator keeps, and the translator that remembers nothing.
#![tactic(auto)]

mod fences;
mod grants;
mod nested;
mod replies;
mod translators;

pub use fences::Fence;
pub use grants::Grant;
pub use nested::Nested;
pub use replies::{Reply, walked};
pub use translators::Translator;
