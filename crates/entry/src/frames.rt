//! The number of a frame.
ghost use Rattle.std.specs.Prelude.{◌<◌, ◌^◌};

/// The number of a frame of physical memory, 44 bits as entries and root registers hold it.
#[derive(Clone, Copy)]
pub struct Frame {
    pub number: u64,
    ghost fits: { number < 2 ^ 44 },
}
