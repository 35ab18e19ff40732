//! The table of the buffer: sixteen sets, and each grant in the set of its page.
ghost use Rattle.std.specs.Prelude.{◌≡◌, [], IfOk, vec_len};
ghost use Rattle.stages.specs.Stages.{world_of};
ghost use Rattle.tlb.specs.Tables.{Placed, Ready, hit, stored, sets_after, empty_sets};

use crate::ways::Set;
use access::Access;
use registers::Roots;
use std::alloc::{AllocError, Global};
use translator::{Fence, Grant};

/// How many sets there are.
const SETS: u64 = 16;

/// Sixteen sets, each grant in the set of its page, each counter below 4.
// A `Vec`, on the heap that `Tlb::new` is handed: an array would need no length, but is moved whole wherever a buffer is, and of a
// set lent from it nothing would be known afterwards.
#[derive(Drop)]
pub(crate) struct Table {
    pub(crate) sets: Vec<Set>,
    ghost size: { vec_len sets ≡ 16 },
    ghost placed: { Placed sets.items },
    ghost ready: { Ready sets.items },
}

impl Table {
    /// Every way empty, every counter 0.
    pub(crate) fn new(heap: Global) -> Result<Table, AllocError>
        ensures { IfOk result (λ t. t.sets.items ≡ empty_sets) }
    {
        let sets = vec![in heap; Set::default(); SETS as usize]?;
        Ok(Table { sets })
    }

    /// The grant that answers the access, if a way of its page's set holds one. Of the world it looks at the roots alone.
    pub(crate) fn find(&self, roots: Roots, access: Access) -> Option<Grant>
        ensures { result ≡ hit (world_of [] roots) access self.now.sets.items }
    {
        if !access.is_aligned() {
            return None;
        }
        let asid = roots.guest.paged_asid()?;
        let page = access.address >> 12;
        self.sets[(page % SETS) as usize].find(asid, access)
    }

    /// Stores the grant, if there is one, in the set of its page.
    pub(crate) fn store(&mut self, handed: Option<Grant>)
        ensures { self.new.sets.items ≡ stored handed self.old.sets.items }
    {
        if let Some(grant) = handed {
            self.sets[(grant.page % SETS) as usize].fill(grant);
        }
    }

    /// Empties each way that the fence covers.
    pub(crate) fn clear(&mut self, fence: Fence)
        ensures { self.new.sets.items ≡ sets_after fence self.old.sets.items }
    {
        for set in self.sets.iter_mut() {
            set.clear(fence);
        }
    }
}
