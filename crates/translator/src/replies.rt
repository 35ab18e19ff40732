//! What a translator answers to one access.
ghost use Rattle.std.specs.Prelude.{◌≡◌, ℕ, Ok, Some};
ghost use Rattle.translator.specs.Truth.{both_give};
ghost use Rattle.translator.specs.Walked.{grant_of, walked_reply};

use crate::grants::Grant;
use access::{Access, Kind};
use fault::Fault;
use memory::Memory;
use stages::{Translation, World};
use table::Leaf;

/// The frame that an access goes to, or the whole fault; and the grant that is handed out.
#[derive(Clone, Copy)]
pub struct Reply {
    pub outcome: Result<u16, Fault>,
    pub grant: Option<Grant>,
}

// What a grant answers: its frame, and itself.
impl From<Grant> for Reply {
    ghost from_gives = { λ g r. r ≡ record { outcome = Ok g.frame; grant = Some g } };

    fn from(grant: Grant) -> Reply {
        Reply {
            outcome: Ok(grant.frame),
            grant: Some(grant),
        }
    }
}

// Whether both leaves give a kind of access its right.
fn both_give(kind: Kind, guest: Leaf, host: Option<Leaf>) -> bool
    ensures { result ≡ both_give kind guest host }
{
    kind.is_given(guest.entry) && host.is_none_or(|leaf| kind.host_allows(leaf.entry))
}

// The fullest true grant of the page of a translated access: none where the guest is Bare.
fn fullest(asid: u16, access: Access, translation: Translation) -> Option<Grant>
    ensures { result ≡ grant_of asid access translation }
{
    let guest = translation.guest?;
    let host = translation.host;
    Some(Grant {
        asid,
        page: access.address >> 12,
        frame: translation.frame,
        read: both_give(Kind::Load, guest, host),
        write: both_give(Kind::Store, guest, host),
        fetch: both_give(Kind::Fetch, guest, host),
        user: guest.entry.is_user(),
        global: guest.global,
    })
}

/// What the walk answers: its frame or fault, and after a walk that grants the fullest true grant.
pub fn walked<M: Memory>(world: &World<'_, M>, access: Access) -> Reply
    ensures { result ≡ walked_reply world.now access }
{
    let asid = world.roots().guest.asid();
    let walked = world.translate(access);
    Reply {
        outcome: walked.map(|to| to.frame),
        grant: walked.ok().and_then(|to| fullest(asid, access, to)),
    }
}
