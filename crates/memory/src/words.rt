//! Words handed in.
ghost use Rattle.std.specs.Prelude.{[], ◌∷◌};
ghost use Rattle.memory.specs.Words.{shown, unshown};

use crate::frames::{shown_frames, shown_words};
use crate::{Memory, Outside};

/// Lent words, as a memory of their first whole frames.
// `Words` and `Bytes` stand beside the slices that they hold. With a slice alone, a function that is lent one and lends it on as a
// memory, as a play does, could not be proved to leave in it what the memory held at its end.
#[derive(Drop)]
pub struct Words<'a> {
    pub words: &'a mut [u64],
}

impl Memory for Words<'_> {
    ghost words = { λ s. shown s.words.now };

    ghost rest = { λ s. unshown s.words.now };

    ghost lenders = { λ s. s.words.ghost_name ∷ [] };

    fn frames(&self) -> u64 {
        self.words.frames()
    }

    fn read(&self, index: u64) -> Result<u64, Outside> {
        self.words.read(index)
    }

    fn write(&mut self, index: u64, word: u64) -> Result<(), Outside> {
        self.words.write(index, word)
    }
}

// A lent slice is the same memory. Two slices that are joined as they are come back to their lenders with what they hold.
impl Memory for &mut [u64] {
    ghost words = { λ s. shown s.now };

    ghost rest = { λ s. unshown s.now };

    ghost lenders = { λ s. s.ghost_name ∷ [] };

    fn frames(&self) -> u64 {
        shown_frames(self.len())
    }

    fn read(&self, index: u64) -> Result<u64, Outside> {
        if index < shown_words(self.len()) {
            Ok(self[index as usize])
        } else {
            Err(Outside)
        }
    }

    fn write(&mut self, index: u64, word: u64) -> Result<(), Outside> {
        if index >= shown_words(self.len()) {
            return Err(Outside);
        }
        self[index as usize] = word;
        Ok(())
    }
}
