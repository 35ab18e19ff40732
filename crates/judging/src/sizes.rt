//! The sizes by which traces are judged.

/// The bytes of a frame.
pub(crate) const FRAME_BYTES: usize = 4096;

/// The most calls of a trace.
pub(crate) const MOST_CALLS: usize = 9_999;

/// The room that a report has besides that of its lines.
pub(crate) const SPARE_ROOM: usize = 64;

/// The most frames of an input of the program.
pub(crate) const INPUT_FRAMES: u16 = 8;

/// The most calls of an input.
pub(crate) const INPUT_CALLS: usize = 500;

/// The most bytes of an input.
pub(crate) const INPUT_BYTES: usize = 16_384;
