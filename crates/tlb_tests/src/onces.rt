//! A translator of a kind of its own, within the rules: it forgets earlier than it must.
ghost use Rattle.std.specs.Prelude.{◌≡◌, [], None, MatchOption, refl};
ghost use Rattle.std.proofs.Common.{ap};
ghost use Rattle.std.specs.Option.{option_to_list};
ghost use Rattle.stages.specs.Stages.{world_of};
ghost use Rattle.translator.specs.Grants.{answering};
ghost use Rattle.translator.specs.Walked.{walked_reply};
ghost use Rattle.tlb.specs.Layer.{served};
ghost use Rattle.tlb_tests.specs.OnceTranslatorLemmas.{by_answer};

use access::Access;
use memory::Memory;
use registers::Roots;
use stages::World;
use translator::{Fence, Grant, Reply, Translator, walked};

/// Remembers the grant of its last walk, until it has answered once or any fence comes.
#[derive(Drop)]
pub struct Once {
    pub grant: Option<Grant>,
}

impl Once {
    // Its grant, if that answers the access. Of the world it looks at the roots alone.
    fn answering(&self, roots: Roots, access: Access) -> Option<Grant>
        ensures { result ≡ answering (world_of [] roots) access (option_to_list self.now.grant) }
    {
        if !access.is_aligned() {
            return None;
        }
        let asid = roots.guest.paged_asid()?;
        self.grant.filter(|grant| grant.serves(asid, access))
    }
}

impl Translator for Once {
    ghost book = { λ s. option_to_list s.grant };

    ghost answers = { λ s w a r t. MatchOption (answering w a (option_to_list s.grant)) ((r ≡ walked_reply w a) × (t.grant ≡ r.grant)) (λ g. (r ≡ served g) × (t.grant ≡ None)) };

    ghost forgets = { λ s f t. t.grant ≡ None };

    ghost clears = { λ s t. t.grant ≡ None };

    ghost answered = { λ s t w a r l. by_answer s t w a r (answering w a (option_to_list s.grant)) refl l };

    ghost fenced = { λ s t f e. rw e tt };

    ghost cleared = { λ s t e. ap option_to_list e };

    fn access<M: Memory>(&mut self, world: &World<'_, M>, access: Access) -> Reply {
        if let Some(grant) = self.answering(world.roots(), access) {
            self.grant = None;
            return grant.into();
        }
        let reply = walked(world, access);
        self.grant = reply.grant;
        reply
    }

    fn fence(&mut self, _fence: Fence) {
        self.grant = None;
    }

    fn host_fence(&mut self) {
        self.grant = None;
    }
}
