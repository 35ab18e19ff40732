//! The rules of a translator.
ghost use Rattle.std.specs.Prelude.{◌≡◌, ℕ, List, []};
ghost use Rattle.access.specs.declared.accesses.Access.{Access};
ghost use Rattle.stages.specs.Stages.{World as Seen};
ghost use Rattle.translator.specs.declared.grants.Grant.{Grant};
ghost use Rattle.translator.specs.declared.fences.Fence.{Fence};
ghost use Rattle.translator.specs.declared.replies.Reply.{Reply};
ghost use Rattle.translator.specs.Rules.{Answered, Fenced};

use crate::fences::Fence;
use crate::replies::Reply;
use access::Access;
use memory::Memory;
use stages::World;

/// What answers accesses, from grants that it remembers or by the walk. Code above knows these rules and nothing else of it.
pub trait Translator {
    // The grants that it remembers, in order.
    ghost book: { Self → List Grant };

    // What one access does to a translator of this kind: before, world, access, reply, after.
    ghost answers: { Self → Seen → Access → Reply → Self → Type 0 };

    // What one guest fence does.
    ghost forgets: { Self → Fence → Self → Type 0 };

    // What one host fence does.
    ghost clears: { Self → Self → Type 0 };

    /// Answers an access of the world. Its memory is only read.
    fn access<M: Memory>(&mut self, world: &World<'_, M>, access: Access) -> Reply
        ensures { answers self.old world.now access result self.new };

    /// Forgets each grant that the fence covers.
    fn fence(&mut self, fence: Fence)
        ensures { forgets self.old fence self.new };

    /// Forgets every grant.
    fn host_fence(&mut self)
        ensures { clears self.old self.new };

    ghost answered: { (s t : Self) (w : Seen) (a : Access) (r : Reply) → answers s w a r t → Answered (book s) w a r (book t) };

    ghost fenced: { (s t : Self) (f : Fence) → forgets s f t → Fenced (book s) f (book t) };

    ghost cleared: { (s t : Self) → clears s t → book t ≡ [] };
}
