//! What an input of the program asks for.
ghost use Rattle.std.specs.Prelude.{◌≡◌, ◌+◌, ◌*◌, ◌≤◌};

use crate::sizes::{FRAME_BYTES, SPARE_ROOM};
use report::LINE_ROOM;

/// The frames of the image, and how many calls there are.
#[derive(Clone, Copy)]
pub struct Plan {
    pub frames: u16,
    pub calls: usize,
    ghost few_frames: { frames ≤ 8 },
    ghost few_calls: { calls ≤ 500 },
}

impl Plan {
    /// The length of the image.
    pub fn image_len(self) -> usize
        ensures { result ≡ 4096 * self.frames }
    {
        FRAME_BYTES * self.frames as usize
    }

    /// A length that has room for the report.
    pub fn report_len(self) -> usize
        ensures { result ≡ 64 + 128 * self.calls }
    {
        SPARE_ROOM + LINE_ROOM * self.calls
    }
}
