//! Leaf entries of level 0.
ghost use Rattle.std.specs.Prelude.{◌≡◌, true};
ghost use Rattle.layout.specs.Sound.{is_leaf};

use entry::Entry;

/// A leaf entry that a walk accepts at level 0, of a frame whose number has 16 bits.
#[derive(Clone, Copy)]
pub struct LeafEntry {
    pub entry: Entry,
    ghost leaf: { is_leaf entry.word ≡ true },
}
