//! What a walk depends on.
ghost use Rattle.std.specs.Prelude.{◌≡◌};
ghost use Rattle.stages.specs.Stages.{World as Seen, world_of};

use memory::Memory;
use registers::Roots;
use std::marker::Model;

/// A memory, and the two root registers: everything that a walk depends on.
#[derive(Drop)]
pub struct World<'a, M: Memory> {
    pub(crate) memory: &'a M,
    pub(crate) roots: Roots,
}

// It is seen as the words of the memory and the two registers.
impl<'a, M: Memory> Model for World<'a, M> {
    ghost Value = { Seen };

    ghost view = { λ s. world_of (M.Memory.words s.memory.now) s.roots };
}

impl<'a, M: Memory> World<'a, M> {
    /// The world of a memory and the two root registers.
    pub fn new(memory: &'a M, roots: Roots) -> World<'a, M>
        ensures { result ≡ world_of (M.Memory.words memory.now) roots }
    {
        World { memory, roots }
    }

    /// The memory, to read words of it, or to walk one stage alone over `HostMemory` or `GuestMemory`.
    pub fn memory(&self) -> &'a M
        ensures { M.Memory.words result.now ≡ self.now.words }
    {
        self.memory
    }

    /// The two root registers.
    pub fn roots(&self) -> Roots
        ensures { (result.guest.register ≡ self.now.guest) × (result.host.register ≡ self.now.host) }
    {
        self.roots
    }
}
