//! What an access comes to.
ghost use Rattle.std.specs.Prelude.{◌≡◌, ℕ, ◌^◌, ◌<◌, ◌↔◌, IfOk, Ok};
ghost use Rattle.stages.specs.declared.outcomes.Translation.{Translation};
ghost use Rattle.stages.specs.Paths.{Granted};
ghost use Rattle.stages.specs.Stages.{is_canonical, guest_path, guest_stage, final_stage, two_stages, translate_of};

use crate::hosts::GuestMemory;
use crate::landings::Landing;
use crate::outcomes::Translation;
use crate::worlds::World;
use access::Access;
use entry::Page;
use fault::{Fault, GuestFault, Unreached};
use memory::Memory;
use table::walk;

/// Whether the page of this number is canonical: bits 63 to 39 of its addresses equal bit 38.
pub fn is_canonical(page: u64) -> bool
    ensures { result ≡ is_canonical page }
{
    let high = page >> 26;
    high == 0 || high == (1 << 26) - 1
}

impl<'a, M: Memory> World<'a, M> {
    // The guest's physical memory.
    fn guest_memory(&self) -> GuestMemory<'a, M>
        ensures memory { M.Memory.words result.memory.now ≡ self.now.words }
        ensures root { result.root.register ≡ self.now.host }
    {
        GuestMemory {
            memory: self.memory,
            root: self.roots.host,
        }
    }

    // The path of a virtual page to a guest frame, whatever the rights.
    fn guest_path(&self, page: Page) -> Result<Landing, GuestFault>
        ensures answer { result ≡ guest_path self.now page.number }
        ensures fits { IfOk result (λ at. at.frame < 2 ^ 52) }
    {
        let Some(table) = self.roots.guest.table() else {
            return Ok(Landing::bare(page));
        };
        if !is_canonical(page.number) {
            return Err(GuestFault::NotCanonical);
        }
        let leaf = walk(&self.guest_memory(), table, page)?;
        Ok(Landing::by_leaf(leaf))
    }

    // The guest stage of an access.
    fn guest_stage(&self, access: Access) -> Result<Landing, GuestFault>
        ensures answer { result ≡ guest_stage self.now access }
        ensures fits { IfOk result (λ at. at.frame < 2 ^ 52) }
    {
        let at = self.guest_path(Page::of(access.address))?;
        match at.leaf {
            Some(leaf) if !access.guest_allows(leaf.entry) => Err(GuestFault::Denied {
                level: leaf.level,
            }),
            _ => Ok(at),
        }
    }

    // The host stage of the final address, whose page came to the guest frame of `at`.
    fn final_stage(&self, access: Access, at: Landing) -> Result<Landing, Unreached>
        requires { at.frame < 2 ^ 52 }
        ensures answer { result ≡ final_stage self.now access at }
        ensures inside { IfOk result (λ end. end.frame < 4096) }
    {
        let page = Page { number: at.frame };
        self.guest_memory()
            .reach(access.kind, page)
            .map_err(|fault| Unreached {
                address: at.frame * (1 << 12) + access.address % (1 << 12),
                fault,
            })
    }

    // Both stages, in order.
    fn two_stages(&self, access: Access) -> Result<Translation, GuestFault>
        ensures { result ≡ two_stages self.now access }
    {
        if !access.is_aligned() {
            return Err(GuestFault::Misaligned);
        }
        let at = self.guest_stage(access)?;
        let end = self.final_stage(access, at)?;
        Ok(Translation {
            frame: end.frame as u16,
            word: access.word(),
            guest: at.leaf,
            host: end.leaf,
        })
    }

    /// The two-stage walk of an access: the frame, the word in it and the leaves, or the whole fault.
    pub fn translate(&self, access: Access) -> Result<Translation, Fault>
        ensures answer { result ≡ translate_of self.now access }
        ensures granted { (t : Translation) → (result ≡ Ok t) ↔ Granted self.now access t }
    {
        self.two_stages(access).map_err(|reason| Fault {
            kind: access.kind,
            address: access.address,
            reason,
        })
    }
}
