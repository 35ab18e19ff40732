//! A trace as its header and its calls.

/// The frames that the header says, and the text of the calls.
#[derive(Clone, Copy)]
pub(crate) struct Opened<'a> {
    pub(crate) frames: u16,
    pub(crate) calls: &'a [u8],
}
