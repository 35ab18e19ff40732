//! What the functions hand back to C. A status is 0 for done, the number of a refusal, or 255 where no memory could be had.
//!
//! A result for C is a status with a value beside it, and one struct for each kind of result: C has no enum with a value,
//! and reads each by its own names.

use refusal::Refusal;

/// The status of what is done.
const DONE: u64 = 0;

/// The status where no memory could be had.
const NO_MEMORY: u64 = 255;

/// What a play comes to: its status, and the bytes of the report that were written.
#[repr(C)]
#[derive(Clone, Copy)]
pub struct Played {
    pub status: u64,
    pub length: u64,
}

impl Played {
    /// Nothing was played, for want of memory.
    pub(crate) const NO_MEMORY: Played = Played {
        status: NO_MEMORY,
        length: 0,
    };
}

impl From<Result<usize, Refusal>> for Played {
    ghost use Rattle.std.specs.Prelude.{◌≡◌};
    ghost use Rattle.exports.specs.Results.{played_of};

    ghost from_gives = { λ play played. played ≡ played_of play };

    fn from(play: Result<usize, Refusal>) -> Played {
        let (status, length) = match play {
            Ok(length) => (DONE, length as u64),
            Err(refusal) => (u64::from(refusal.number()), 0),
        };
        Played { status, length }
    }
}

/// What loads come to: their status, and the sum of the words that they answered.
#[repr(C)]
#[derive(Clone, Copy)]
pub struct Loaded {
    pub status: u64,
    pub sum: u64,
}

impl Loaded {
    /// Nothing was loaded, for want of memory.
    pub(crate) const NO_MEMORY: Loaded = Loaded {
        status: NO_MEMORY,
        sum: 0,
    };
}

impl From<Result<u64, Refusal>> for Loaded {
    ghost use Rattle.std.specs.Prelude.{◌≡◌};
    ghost use Rattle.exports.specs.Results.{loaded_of};

    ghost from_gives = { λ loads loaded. loaded ≡ loaded_of loads };

    fn from(loads: Result<u64, Refusal>) -> Loaded {
        let (status, sum) = match loads {
            Ok(sum) => (DONE, sum),
            Err(refusal) => (u64::from(refusal.number()), 0),
        };
        Loaded { status, sum }
    }
}
