//! The number of a page.
ghost use Rattle.std.specs.Prelude.{◌≡◌, ◌<◌, ◌/◌, ◌^◌};

/// The number of a 4 KiB page of a 64-bit address space: an address shifted right by 12.
#[derive(Clone, Copy)]
pub struct Page {
    pub number: u64,
    ghost fits: { number < 2 ^ 52 },
}

impl Page {
    /// The page that `address` lies in.
    pub fn of(address: u64) -> Page
        ensures { result.number ≡ address / 2 ^ 12 }
    {
        Page {
            number: address >> 12,
        }
    }
}
