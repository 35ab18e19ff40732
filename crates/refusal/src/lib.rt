//! What is refused, and the number that each refusal has.
#![tactic(auto)]

ghost use Rattle.std.specs.Prelude.{◌≡◌};
ghost use Rattle.refusal.specs.Numbers.{number_of};

/// What is refused, by the number that is reported.
#[derive(Clone, Copy, PartialEq, Eq, Debug)]
pub enum Refusal {
    /// The image is not 1 to 4,096 whole frames, the trace's first line is bad, or the two differ.
    Frames = 1,
    /// The pool is not whole frames, or has fewer than 4.
    Pool = 2,
    /// The guest root register breaks its layout.
    GuestRoot = 3,
    /// The host root register breaks its layout.
    HostRoot = 4,
    /// The host address is not a multiple of 8, or lies outside the memory.
    HostAddress = 5,
    /// The call belongs to the other side.
    OtherSide = 6,
    /// The ASID of the fence is over 15.
    FenceAsid = 7,
    /// The call could not be read.
    Unreadable = 8,
    /// Too many calls, or too small a report.
    Room = 9,
}

impl Refusal {
    /// The number by which it is reported.
    pub fn number(self) -> u8
        ensures { result ≡ number_of self }
    {
        self as u8
    }
}
