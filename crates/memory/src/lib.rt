//! Memories of 64-bit words in whole frames: words handed in, bytes handed in, two memories joined, and a memory lent.
#![tactic(auto)]

ghost use Rattle.std.specs.Prelude.{◌≡◌, ℕ, ◌*◌, ◌≤◌, List, length, slice_set};
ghost use Rattle.memory.specs.Words.{read_of, write_of};

mod bytes;
mod frames;
mod joined;
mod lent;
mod words;

pub use bytes::Bytes;
pub use joined::Joined;
pub use words::Words;

/// The words in a frame.
pub const FRAME_WORDS: u64 = 512;

/// The most frames that a memory shows.
pub const MAX_FRAMES: u64 = 4096;

/// The word asked for is not below the memory's length.
#[derive(Clone, Copy, PartialEq, Eq, Debug)]
pub struct Outside;

/// A list of 64-bit words of fixed length: whole frames of 512 words, at most 4,096 of them.
pub trait Memory {
    // The words that it shows, in order.
    ghost words: { Self → List ℕ };

    // What lies past them, as it is stored: no call touches it.
    ghost rest: { Self → List ℕ };

    // The ghost names of what it borrows to write to. Every call keeps them, so that a lender knows its own values afterwards.
    ghost lenders: { Self → List ℕ };

    /// The number of frames.
    fn frames(&self) -> u64
        ensures whole { length (words self.now) ≡ 512 * result }
        ensures few { result ≤ 4096 };

    /// The word at the index.
    fn read(&self, index: u64) -> Result<u64, Outside>
        ensures { result ≡ read_of (words self.now) index };

    /// Puts the word at the index. A refused write changes nothing.
    fn write(&mut self, index: u64, word: u64) -> Result<(), Outside>
        ensures answer { result ≡ write_of (words self.old) index }
        ensures after { words self.new ≡ slice_set (words self.old) index word }
        ensures rest_kept { rest self.new ≡ rest self.old }
        ensures lenders_kept { lenders self.new ≡ lenders self.old };
}
