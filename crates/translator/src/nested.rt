//! The translator that remembers nothing.
ghost use Rattle.std.specs.Prelude.{◌≡◌, []};
ghost use Rattle.std.proofs.Common.{refl, sym, subst};
ghost use Rattle.translator.specs.Walked.{walked_reply};
ghost use Rattle.translator.specs.declared.replies.Reply.{Reply};
ghost use Rattle.translator.specs.Rules.{Answered};
ghost use Rattle.translator.specs.Firsts.{answering_none};
ghost use Rattle.translator.specs.Walks.{walked_outcome, walked_handed, walked_bare};

use crate::fences::Fence;
use crate::replies::{Reply, walked};
use crate::translators::Translator;
use access::Access;
use memory::Memory;
use stages::World;

/// Walks both stages at every access: its book is empty.
#[derive(Drop)]
pub struct Nested;

impl Translator for Nested {
    ghost book = { λ _. [] };

    ghost answers = { λ s w a r t. r ≡ walked_reply w a };

    ghost forgets = { λ s f t. Unit {0} };

    ghost clears = { λ s t. Unit {0} };

    ghost answered = { λ s t w a r e.
        let none = answering_none w a in
        subst (λ (q : Reply). Answered [] w a q []) (sym e)
        (record { outcome = walked_outcome [] w a none; kept = tt; handed = walked_handed [] w a none; bare = walked_bare [] w a }) };

    ghost fenced = { λ s t f e. tt };

    ghost cleared = { λ s t e. refl };

    fn access<M: Memory>(&mut self, world: &World<'_, M>, access: Access) -> Reply {
        walked(world, access)
    }

    fn fence(&mut self, _fence: Fence) {}

    fn host_fence(&mut self) {}
}
