//! What a granted access comes to.
use table::Leaf;

/// Where a granted access goes: the frame, the word in it, and the leaves of its page, each none where its stage is Bare.
#[derive(Clone, Copy)]
pub struct Translation {
    /// Inside the memory, so below 4,096.
    pub frame: u16,
    /// One of the 512 words of the frame.
    pub word: u16,
    pub guest: Option<Leaf>,
    pub host: Option<Leaf>,
}
