//! One set of the buffer: four ways, and which of them is replaced next.
ghost use Rattle.std.specs.Prelude.{◌≡◌, ◌<◌, position};
ghost use Rattle.tlb.specs.Ways.{is_serving, is_alike, is_empty, first_serving, filled, spared, cleared};

use access::Access;
use translator::{Fence, Grant};

/// The ways of a set.
pub(crate) const WAYS: usize = 4;

/// Four ways, each empty or with a grant, and the way to replace next.
#[derive(Clone, Copy, Default)]
pub(crate) struct Set {
    pub(crate) ways: [Option<Grant>; WAYS],
    pub(crate) next: usize,
}

// What a fence leaves in a way.
fn spare(fence: Fence, way: Option<Grant>) -> Option<Grant>
    ensures { result ≡ spared fence way }
{
    way.filter(|grant| !fence.covers(*grant))
}

impl Set {
    // The first way that can answer the access under this ASID.
    fn serving_way(&self, asid: u16, access: Access) -> Option<usize>
        ensures { result ≡ position (is_serving asid access) self.now.ways }
    {
        self.ways
            .iter()
            .position(|way| way.is_some_and(|grant| grant.serves(asid, access)))
    }

    // The first way with the page and the ASID of the grant.
    fn alike_way(&self, grant: Grant) -> Option<usize>
        ensures { result ≡ position (is_alike grant) self.now.ways }
    {
        self.ways.iter().position(|way| {
            way.is_some_and(|held| held.page == grant.page && held.asid == grant.asid)
        })
    }

    // The first empty way.
    fn empty_way(&self) -> Option<usize>
        ensures { result ≡ position is_empty self.now.ways }
    {
        self.ways.iter().position(|way| way.is_none())
    }

    /// The grant of the first way that can answer the access under this ASID.
    // By its place: the chain `.copied().flatten().find(..)` takes one and a half times as long for a hit.
    pub(crate) fn find(&self, asid: u16, access: Access) -> Option<Grant>
        ensures { result ≡ first_serving asid access self.now.ways }
    {
        let i = self.serving_way(asid, access)?;
        self.ways[i]
    }

    /// Puts the grant in the first way of its page and ASID, else in the first empty way, else in the next way.
    // That `next` is a way is a ghost field of the table, of all its sets: with one here a set could derive no `Default`.
    pub(crate) fn fill(&mut self, grant: Grant)
        requires { self.old.next < 4 }
        ensures { self.new ≡ filled grant self.old }
    {
        if let Some(i) = self.alike_way(grant).or_else(|| self.empty_way()) {
            self.ways[i] = Some(grant);
            return;
        }
        self.ways[self.next] = Some(grant);
        self.next = (self.next + 1) % WAYS;
    }

    /// Empties each way that the fence covers.
    pub(crate) fn clear(&mut self, fence: Fence)
        ensures { self.new ≡ cleared fence self.old }
    {
        for way in &mut self.ways {
            *way = spare(fence, *way);
        }
    }
}
