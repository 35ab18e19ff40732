//! What a guest asks for.
ghost use Rattle.std.specs.Prelude.{◌≡◌};
ghost use Rattle.access.specs.Accesses.{word_of, is_aligned};

/// What an access does with its word.
#[derive(Clone, Copy, PartialEq, Eq, Debug)]
pub enum Kind {
    Load,
    Store,
    Fetch,
}

/// The guest's mode: s or u.
#[derive(Clone, Copy, PartialEq, Eq, Debug)]
pub enum Mode {
    Supervisor,
    User,
}

/// An access of one word at a guest-virtual address.
#[derive(Clone, Copy, PartialEq, Eq, Debug)]
pub struct Access {
    pub kind: Kind,
    pub mode: Mode,
    /// SUM: mode s may load from user pages and store to them.
    pub sum: bool,
    /// MXR: a load may use the right to fetch.
    pub mxr: bool,
    pub address: u64,
}

impl Access {
    /// Whether the address is a multiple of 8.
    pub fn is_aligned(self) -> bool
        ensures { result ≡ is_aligned self }
    {
        self.address % 8 == 0
    }

    /// Which of the 512 words of its page it is for.
    pub fn word(self) -> u16
        ensures { result ≡ word_of self }
    {
        (self.address / 8 % 512) as u16
    }
}
