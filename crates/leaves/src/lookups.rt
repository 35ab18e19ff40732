//! The grant that a pool answers an access with.
ghost use Rattle.std.specs.Prelude.{◌≡◌};
ghost use Rattle.leaves.specs.Lookups.{grant_at, hit};

use crate::entries::grant_of;
use access::Access;
use layout::AsidPage;
use pool::Pool;
use registers::GuestRoot;
use translator::Grant;

// The grant that the pool holds for a page under an ASID.
fn grant_at(pool: &Pool, asid: u16, page: u64) -> Option<Grant>
    ensures { result ≡ grant_at pool.now.words.items asid page }
{
    let place = AsidPage::new(asid, page)?;
    let entry = pool.find(place)?;
    Some(grant_of(place, entry))
}

/// The grant that answers the access, if one does.
pub fn answering(pool: &Pool, root: GuestRoot, access: Access) -> Option<Grant>
    ensures { result ≡ hit pool.now.words.items root.register access }
{
    if !access.is_aligned() {
        return None;
    }
    let asid = root.paged_asid()?;
    let grant = grant_at(pool, asid, access.address >> 12)?;
    grant.allows(access).then_some(grant)
}
