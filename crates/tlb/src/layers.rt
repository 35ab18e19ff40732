//! The buffer as a translator over the translator below it.
ghost use Rattle.std.specs.Prelude.{◌≡◌, ◌++◌, IfOk};
ghost use Rattle.tlb.specs.Tables.{book_of, sets_after, everything, empty_sets};
ghost use Rattle.tlb.specs.Layer.{sets_of, Layered};
ghost use Rattle.tlb.specs.Laws.{layer_answers, fence_keeps, none_left};

use crate::tables::Table;
use access::Access;
use memory::Memory;
use stages::World;
use std::alloc::{AllocError, Global};
use translator::{Fence, Reply, Translator};

/// Sixteen sets of four ways over a translator: it answers from the grants that it holds, and asks below for the rest.
#[derive(Drop)]
pub struct Tlb<T> {
    table: Table,
    below: T,
}

impl<T: Drop> Tlb<T> {
    /// A buffer with every way empty. Nothing is allocated later.
    pub fn new(heap: Global, below: T) -> Result<Tlb<T>, AllocError>
        ensures empty { IfOk result (λ t. sets_of t ≡ empty_sets) }
        ensures over { IfOk result (λ t. t.below ≡ below) }
    {
        let table = Table::new(heap)?;
        Ok(Tlb { table, below })
    }
}

impl<T> Tlb<T> {
    /// Gives the translator below back.
    pub fn into_below(self) -> T
        ensures { result ≡ self.below }
    {
        let Tlb { table: _, below } = self;
        below
    }
}

impl<T: Translator> Translator for Tlb<T> {
    ghost book = { λ s. book_of (sets_of s) ++ T.Translator.book s.below };

    ghost answers = { λ s w a r t. Layered T.Translator.answers s w a r t };

    ghost forgets = { λ s f t. (sets_of t ≡ sets_after f (sets_of s)) × T.Translator.forgets s.below f t.below };

    ghost clears = { λ s t. (sets_of t ≡ sets_after everything (sets_of s)) × T.Translator.clears s.below t.below };

    ghost answered = { λ s t w a r l. layer_answers T.Translator.book T.Translator.answers T.Translator.answered s t w a r l };

    ghost fenced = { λ s t f (e, l). rw e (fence_keeps f (sets_of s) (T.Translator.book s.below) (T.Translator.book t.below) (T.Translator.fenced s.below t.below f l)) };

    ghost cleared = { λ s t (e, l). rw (e, none_left (sets_of s)) (T.Translator.cleared s.below t.below l) };

    fn access<M: Memory>(&mut self, world: &World<'_, M>, access: Access) -> Reply {
        if let Some(grant) = self.table.find(world.roots(), access) {
            return grant.into();
        }
        let reply = self.below.access(world, access);
        self.table.store(reply.grant);
        reply
    }

    fn fence(&mut self, fence: Fence) {
        self.table.clear(fence);
        self.below.fence(fence);
    }

    fn host_fence(&mut self) {
        self.table.clear(Fence::EVERYTHING);
        self.below.host_fence();
    }
}
