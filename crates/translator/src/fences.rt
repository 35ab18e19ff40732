//! Guest fences.
ghost use Rattle.std.specs.Prelude.{◌≡◌};
ghost use Rattle.translator.specs.Fences.{covers_grant};

use crate::grants::Grant;

/// A guest fence: of the page of one address or of all, and of one ASID or of all.
#[derive(Clone, Copy, PartialEq, Eq, Debug)]
pub struct Fence {
    pub address: Option<u64>,
    pub asid: Option<u16>,
}

impl Fence {
    /// The fence of every address and every ASID.
    pub const EVERYTHING: Fence = Fence {
        address: None,
        asid: None,
    };

    /// Whether it covers the grant.
    pub fn covers(self, grant: Grant) -> bool
        ensures { result ≡ covers_grant self grant }
    {
        self.address
            .is_none_or(|address| address >> 12 == grant.page)
            && self
                .asid
                .is_none_or(|asid| asid == grant.asid && !grant.global)
    }
}
