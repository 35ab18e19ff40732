//! Page-table entries, the numbers of frames and pages, and fields of numbers.
#![tactic(auto)]

mod bits;
mod entries;
mod frames;
mod pages;

pub use bits::{field, high, low, test};
pub use entries::Entry;
pub use frames::Frame;
pub use pages::Page;
