//! Pages under ASIDs.
ghost use Rattle.std.specs.Prelude.{◌≡◌, ◌≤◌, ◌⊎◌, false, MatchOption};
ghost use Rattle.stages.specs.Stages.{is_canonical};

use crate::asids::Asid;
use crate::pages::VirtualPage;

/// A page under an ASID: what a leaf is of.
#[derive(Clone, Copy)]
pub struct AsidPage {
    pub asid: Asid,
    pub page: VirtualPage,
}

impl AsidPage {
    /// The page of this number under the ASID of this number, if there is such an ASID and the page is canonical.
    pub fn new(asid: u16, page: u64) -> Option<AsidPage>
        ensures { MatchOption result ((16 ≤ asid) ⊎ (is_canonical page ≡ false)) (λ place. (place.asid.number ≡ asid) × (place.page.number ≡ page)) }
    {
        let asid = Asid::new(asid)?;
        let page = VirtualPage::new(page)?;
        Some(AsidPage { asid, page })
    }
}
