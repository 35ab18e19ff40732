//! Reads the fields of a call that follow its letter.
#![tactic(auto)]

mod reads;
mod sides;

pub use reads::take;
pub use sides::SideCall;
