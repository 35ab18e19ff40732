//! The fields of a line, in the order in which they stand: a key, `=`, and a value that has no space and no LF.
#![tactic(auto)]

mod cursors;
mod endings;
mod scans;
mod steps;
mod tags;

pub use cursors::Fields;
pub use endings::Ending;
pub use scans::scan;
pub use steps::{Field, Step, field_at};
pub use tags::Tag;
