//! A memory lent.
ghost use Rattle.std.specs.Prelude.{◌∷◌};

use crate::{Memory, Outside};

impl<M: Memory> Memory for &mut M {
    ghost words = { λ s. M.Memory.words s.now };

    ghost rest = { λ s. M.Memory.rest s.now };

    ghost lenders = { λ s. s.ghost_name ∷ M.Memory.lenders s.now };

    fn frames(&self) -> u64 {
        (**self).frames()
    }

    fn read(&self, index: u64) -> Result<u64, Outside> {
        (**self).read(index)
    }

    fn write(&mut self, index: u64, word: u64) -> Result<(), Outside> {
        (**self).write(index, word)
    }
}
