//! What the tables of cases are made of. The tables are written by the model, so all of it is plain data that a static can hold.
use crate::cases::DEEP;
use access::Access;
use fault::Fault;
use stages::Translation;
use table::Leaf;

// The frames of the deep memory.
const DEEP_FRAMES: u16 = 16;

/// The memory that a scenario begins with.
#[derive(Clone, Copy)]
pub enum Start {
    /// So many frames of zero words.
    Zeros(u16),
    /// The deep memory.
    Deep,
}

/// What an access comes to. The tables have hundreds of them, each on a line of its own. With a name before each number it
/// would take seven lines, so the numbers have none.
#[derive(Clone, Copy, PartialEq, Eq, Debug)]
pub enum Answer {
    /// Frame and word, and the levels of the guest's and of the host's leaf: none where that stage is Bare.
    Granted(u16, u16, Option<u8>, Option<u8>),
    /// The same, by a guest walk that met a global entry.
    Global(u16, u16, Option<u8>, Option<u8>),
    /// Cause, guest-physical address, stage, guest level and host level. The virtual address is the access's own.
    Faulted(u8, u64, u8, u8, u8),
}

/// A memory and two root registers, and the accesses that are made there.
#[derive(Clone, Copy)]
pub struct Scenario {
    pub name: &'static str,
    pub start: Start,
    pub guest: u64,
    pub host: u64,
    /// The words that the memory has besides those that it begins with, each after its address.
    pub words: &'static [(u64, u64)],
    /// The accesses, each with its address and with what it has to come to.
    pub cases: &'static [(Access, u64, Answer)],
}

/// Whose root a register may be.
#[derive(Clone, Copy)]
pub enum Holder {
    Either,
    GuestOnly,
    Neither,
}

impl Start {
    /// How many frames it has.
    pub fn frames(self) -> u16 {
        match self {
            Start::Zeros(frames) => frames,
            Start::Deep => DEEP_FRAMES,
        }
    }

    /// The words that are not zero, each after its address.
    pub fn words(self) -> &'static [(u64, u64)] {
        match self {
            Start::Zeros(_) => &[],
            Start::Deep => &DEEP,
        }
    }
}

fn level(leaf: Option<Leaf>) -> Option<u8> {
    leaf.map(|leaf| leaf.level)
}

impl From<Translation> for Answer {
    fn from(to: Translation) -> Answer {
        let (guest, host) = (level(to.guest), level(to.host));
        if to.guest.is_some_and(|leaf| leaf.global) {
            Answer::Global(to.frame, to.word, guest, host)
        } else {
            Answer::Granted(to.frame, to.word, guest, host)
        }
    }
}

impl From<Fault> for Answer {
    fn from(fault: Fault) -> Answer {
        let is = fault.numbers();
        Answer::Faulted(
            is.cause,
            is.guest_physical,
            is.stage,
            is.guest_level,
            is.host_level,
        )
    }
}
