//! The number of an address space.
ghost use Rattle.std.specs.Prelude.{◌≡◌, ◌<◌, ◌≤◌, MatchOption};

/// An ASID that has a root word in a pool: 0 to 15.
#[derive(Clone, Copy)]
pub struct Asid {
    pub number: u16,
    ghost few: { number < 16 },
}

impl Asid {
    /// The ASID of this number, if there is one. As `new` of std's numbers that are not 0, it gives an `Option`: an error could say
    /// no more than that there is no such ASID.
    // The test comes first and the value after it, for its ghost field holds only where the test passes.
    pub fn new(number: u16) -> Option<Asid>
        ensures { MatchOption result (16 ≤ number) (λ asid. asid.number ≡ number) }
    {
        if number < 16 {
            Some(Asid { number })
        } else {
            None
        }
    }
}
