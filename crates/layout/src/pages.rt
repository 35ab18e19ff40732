//! The number of a virtual page.
ghost use Rattle.std.specs.Prelude.{◌≡◌, ◌<◌, true, false, MatchOption};
ghost use Rattle.stages.specs.Stages.{is_canonical};
ghost use Rattle.layout.specs.Tables.{index};

use entry::field;
use stages::is_canonical;

/// The number of a canonical page: bits 63 to 39 of its addresses equal bit 38.
#[derive(Clone, Copy)]
pub struct VirtualPage {
    pub number: u64,
    ghost canonical: { is_canonical number ≡ true },
}

impl VirtualPage {
    /// The page of this number, if it is canonical. As `new` of std's numbers that are not 0, it gives an `Option`: an error could
    /// say no more than that there is no such page.
    // The test comes first and the value after it, for its ghost field holds only where the test passes.
    pub fn new(number: u64) -> Option<VirtualPage>
        ensures { MatchOption result (is_canonical number ≡ false) (λ page. page.number ≡ number) }
    {
        if is_canonical(number) {
            Some(VirtualPage { number })
        } else {
            None
        }
    }

    /// Its index in a table of this level: a table of leaves has level 0, a root table level 2.
    pub fn index(self, level: u8) -> usize
        ensures value { result ≡ index self.number level }
        ensures small { result < 512 }
    {
        field(self.number, 9 * u32::from(level), 9) as usize
    }
}
