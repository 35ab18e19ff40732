//! The calls that a machine takes, and its answers.
#![tactic(auto)]

ghost use Rattle.std.specs.Prelude.{◌≡◌, MatchResult};
ghost use Rattle.calls.specs.declared.Answer.TheVariants.{Done, Word, Faulted, Refused};
ghost use Rattle.calls.specs.Targets.{target_in, access_of};

use access::{Access, Kind, Mode};
use fault::Fault;
use refusal::Refusal;
use translator::Fence;

/// Where a guest's load, store or fetch goes, and in which mode: an access without its kind.
// An access does not hold a target in place of these fields: definitions of the walk name them on accesses alone.
#[derive(Clone, Copy, PartialEq, Eq, Debug)]
pub struct Target {
    pub mode: Mode,
    pub sum: bool,
    pub mxr: bool,
    pub address: u64,
}

/// A call of the host side.
#[derive(Clone, Copy, PartialEq, Eq, Debug)]
pub enum HostCall {
    /// Loads the word at a host address.
    Load { address: u64 },
    /// Stores a word at a host address.
    Store { address: u64, data: u64 },
    /// Writes the host root register.
    Root { register: u64 },
    /// Forgets everything that was remembered of walks.
    Fence,
    /// Gives the host side up for the guest side.
    Enter,
}

/// A call of the guest side.
#[derive(Clone, Copy, PartialEq, Eq, Debug)]
pub enum GuestCall {
    Load { target: Target },
    Store { target: Target, data: u64 },
    Fetch { target: Target },
    /// Forgets what the fence covers.
    Fence { fence: Fence },
    /// Writes the guest root register.
    Root { register: u64 },
    /// Gives the guest side up for the host side.
    Leave,
}

/// A call.
#[derive(Clone, Copy, PartialEq, Eq, Debug)]
pub enum Call {
    Host(HostCall),
    Guest(GuestCall),
    /// A line that could not be read.
    Unreadable,
}

/// What a call answers.
#[derive(Clone, Copy, PartialEq, Eq, Debug)]
pub enum Answer {
    Done,
    Word(u64),
    Faulted(Fault),
    Refused(Refusal),
}

impl Target {
    /// An address in a mode, with SUM and MXR 0.
    pub fn new(mode: Mode, address: u64) -> Target
        ensures { result ≡ target_in mode address }
    {
        Target {
            mode,
            sum: false,
            mxr: false,
            address,
        }
    }

    /// The access of this kind.
    pub fn access(self, kind: Kind) -> Access
        ensures { result ≡ access_of kind self }
    {
        Access {
            kind,
            mode: self.mode,
            sum: self.sum,
            mxr: self.mxr,
            address: self.address,
        }
    }
}

impl From<()> for Answer {
    ghost from_gives = { λ _ x. x ≡ Done };

    fn from(_done: ()) -> Answer {
        Answer::Done
    }
}

impl From<u64> for Answer {
    ghost from_gives = { λ word x. x ≡ Word word };

    fn from(word: u64) -> Answer {
        Answer::Word(word)
    }
}

impl From<Fault> for Answer {
    ghost from_gives = { λ fault x. x ≡ Faulted fault };

    fn from(fault: Fault) -> Answer {
        Answer::Faulted(fault)
    }
}

impl From<Refusal> for Answer {
    ghost from_gives = { λ refusal x. x ≡ Refused refusal };

    fn from(refusal: Refusal) -> Answer {
        Answer::Refused(refusal)
    }
}

// What came of a call, or why nothing did.
impl<T: Into<Answer>, E: Into<Answer>> From<Result<T, E>> for Answer {
    ghost from_gives = { λ r x. MatchResult r (λ value. T.converts value x) (λ error. E.converts error x) };

    fn from(res: Result<T, E>) -> Answer {
        match res {
            Ok(value) => value.into(),
            Err(error) => error.into(),
        }
    }
}
