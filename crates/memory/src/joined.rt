//! Two memories joined.
ghost use Rattle.std.specs.Prelude.{◌++◌};
ghost use Rattle.memory.specs.Words.{shown, unshown};

use crate::{FRAME_WORDS, MAX_FRAMES, Memory, Outside};

/// Two memories, the second after the first.
#[derive(Drop)]
pub struct Joined<A, B> {
    pub first: A,
    pub second: B,
}

impl<A: Memory, B: Memory> Memory for Joined<A, B> {
    ghost words = { λ s. shown (A.Memory.words s.first ++ B.Memory.words s.second) };

    ghost rest = { λ s. unshown (A.Memory.words s.first ++ B.Memory.words s.second) ++ (A.Memory.rest s.first ++ B.Memory.rest s.second) };

    ghost lenders = { λ s. A.Memory.lenders s.first ++ B.Memory.lenders s.second };

    fn frames(&self) -> u64 {
        (self.first.frames() + self.second.frames()).min(MAX_FRAMES)
    }

    fn read(&self, index: u64) -> Result<u64, Outside> {
        let start = FRAME_WORDS * self.first.frames();
        if index < start {
            self.first.read(index)
        } else if index < FRAME_WORDS * self.frames() {
            self.second.read(index - start)
        } else {
            Err(Outside)
        }
    }

    fn write(&mut self, index: u64, word: u64) -> Result<(), Outside> {
        let start = FRAME_WORDS * self.first.frames();
        if index < start {
            self.first.write(index, word)
        } else if index < FRAME_WORDS * (*self).frames() {
            self.second.write(index - start, word)
        } else {
            Err(Outside)
        }
    }
}
