//! Bytes handed in.
ghost use Rattle.std.specs.Prelude.{◌≡◌, ◌+◌, ◌*◌, ◌≤◌, [], ◌∷◌, length};
ghost use Rattle.memory.specs.Bytes.{shown_words, unshown_bytes, word_at};

use crate::frames::{shown_frames, shown_words};
use crate::{Memory, Outside};

// The bytes in a word.
const WORD_BYTES: usize = 8;

/// Lent bytes, as a memory of the words that they hold in little-endian order.
#[derive(Drop)]
pub struct Bytes<'a> {
    pub bytes: &'a mut [u8],
}

impl Memory for Bytes<'_> {
    ghost words = { λ s. shown_words s.bytes.now };

    ghost rest = { λ s. unshown_bytes s.bytes.now };

    ghost lenders = { λ s. s.bytes.ghost_name ∷ [] };

    fn frames(&self) -> u64 {
        self.bytes.frames()
    }

    fn read(&self, index: u64) -> Result<u64, Outside> {
        self.bytes.read(index)
    }

    fn write(&mut self, index: u64, word: u64) -> Result<(), Outside> {
        self.bytes.write(index, word)
    }
}

// A lent slice is the same memory. It differs from a slice of words in how a word is read and written, and its methods do nothing
// else: one impl for both would rest on a trait with the same two methods for each. Two slices that are joined as they are come
// back to their lenders with what they hold.
impl Memory for &mut [u8] {
    ghost words = { λ s. shown_words s.now };

    ghost rest = { λ s. unshown_bytes s.now };

    ghost lenders = { λ s. s.ghost_name ∷ [] };

    fn frames(&self) -> u64 {
        shown_frames(self.len() / WORD_BYTES)
    }

    fn read(&self, index: u64) -> Result<u64, Outside> {
        if index < shown_words(self.len() / WORD_BYTES) {
            Ok(word_at(self, index as usize))
        } else {
            Err(Outside)
        }
    }

    fn write(&mut self, index: u64, word: u64) -> Result<(), Outside> {
        if index >= shown_words(self.len() / WORD_BYTES) {
            return Err(Outside);
        }
        let start = WORD_BYTES * index as usize;
        self[start..start + WORD_BYTES].copy_from_slice(&word.to_le_bytes());
        Ok(())
    }
}

// The word at an index: eight bytes, the lowest first.
fn word_at(bytes: &[u8], index: usize) -> u64
    requires { 8 * index + 8 ≤ length bytes.now }
    ensures { result ≡ word_at bytes.now index }
{
    let start = WORD_BYTES * index;
    let part = &bytes[start..start + WORD_BYTES];
    u64::from_le_bytes(*part.first_chunk::<8>().unwrap())
}
