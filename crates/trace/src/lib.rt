//! The text of a trace: its lines, its header, and texts cut at a mark.
#![tactic(auto)]

mod headers;
mod laws;
mod lines;
mod marks;

pub use headers::read_header;
pub use laws::lines_join;
pub use lines::{Lines, next_line};
pub use marks::{Cut, Mark, cut_at};
