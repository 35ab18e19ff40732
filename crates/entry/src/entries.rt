//! Table entries.
ghost use Rattle.std.specs.Prelude.{◌≡◌};
ghost use Rattle.entry.specs.Entry.{is_valid, is_readable, is_writable, is_executable, is_user, is_global, is_accessed, is_dirty, frame_of, is_malformed, is_pointer, is_marked, is_misaligned, stops};

use crate::bits::{field, low, test};
use crate::frames::Frame;

/// A table entry, as the word that holds it.
#[derive(Clone, Copy, PartialEq, Eq, Debug)]
pub struct Entry {
    pub word: u64,
}

// Each flag has a function of its own, since its name is what the rules say of it; they share `test`, and a flag as an argument
// would be no plainer.
impl Entry {
    /// V: the entry is valid.
    pub fn is_valid(self) -> bool
        ensures { result ≡ is_valid self.word }
    {
        test(self.word, 0)
    }

    /// R: a leaf that may be loaded from.
    pub fn is_readable(self) -> bool
        ensures { result ≡ is_readable self.word }
    {
        test(self.word, 1)
    }

    /// W: a leaf that may be stored to.
    pub fn is_writable(self) -> bool
        ensures { result ≡ is_writable self.word }
    {
        test(self.word, 2)
    }

    /// X: a leaf that may be fetched from.
    pub fn is_executable(self) -> bool
        ensures { result ≡ is_executable self.word }
    {
        test(self.word, 3)
    }

    /// U: a leaf for mode u.
    pub fn is_user(self) -> bool
        ensures { result ≡ is_user self.word }
    {
        test(self.word, 4)
    }

    /// G: for every ASID.
    pub fn is_global(self) -> bool
        ensures { result ≡ is_global self.word }
    {
        test(self.word, 5)
    }

    /// A: a leaf that has been accessed.
    pub fn is_accessed(self) -> bool
        ensures { result ≡ is_accessed self.word }
    {
        test(self.word, 6)
    }

    /// D: a leaf that has been stored to.
    pub fn is_dirty(self) -> bool
        ensures { result ≡ is_dirty self.word }
    {
        test(self.word, 7)
    }

    /// The frame number.
    pub fn frame(self) -> Frame
        ensures { result.number ≡ frame_of self.word }
    {
        Frame {
            number: field(self.word, 10, 44),
        }
    }

    // Whether no walk can use the entry at any level.
    fn is_malformed(self) -> bool
        ensures { result ≡ is_malformed self.word }
    {
        !self.is_valid()
            || !self.is_readable() && self.is_writable()
            || field(self.word, 54, 10) != 0
    }

    /// Whether it points to a table of the next lower level.
    pub fn is_pointer(self) -> bool
        ensures { result ≡ is_pointer self.word }
    {
        !self.is_readable() && !self.is_executable()
    }

    // Whether it has a flag that a pointer must not have.
    fn is_marked(self) -> bool
        ensures { result ≡ is_marked self.word }
    {
        self.is_user() || self.is_accessed() || self.is_dirty()
    }

    // Whether a leaf of this level has frame bits that belong to the page.
    fn is_misaligned(self, level: u8) -> bool
        ensures { result ≡ is_misaligned level self.word }
    {
        low(self.frame().number, 9 * level as u32) != 0
    }

    /// Whether a walk that meets it at this level stops there with a fault.
    pub fn stops(self, level: u8) -> bool
        ensures { result ≡ stops level self.word }
    {
        if self.is_malformed() {
            return true;
        }
        if self.is_pointer() {
            self.is_marked() || level == 0
        } else {
            self.is_misaligned(level)
        }
    }
}
