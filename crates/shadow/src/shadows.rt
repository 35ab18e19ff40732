//! The shadow.
ghost use Rattle.std.specs.Prelude.{◌≡◌};
ghost use Rattle.layout.specs.Changes.{reset as reset_of};
ghost use Rattle.shadow.specs.Shadows.{words_of, grants_of, Answers, Forgets, Clears, MadeOf};
ghost use Rattle.shadow.specs.Lawful;
ghost use Rattle.shadow.specs.Lawful.{fences};

use crate::accesses::access_pool;
use access::Access;
use leaves::fence_pool;
use memory::Memory;
use pool::Pool;
use stages::World;
use translator::{Fence, Reply, Translator, walked};

/// Remembers grants as leaves of Sv39 tables in a pool that it owns; in a pool of fewer than four frames it remembers nothing.
#[derive(Drop)]
pub struct Shadow {
    store: Result<Pool, Vec<u64>>,
}

impl Shadow {
    /// A shadow over a pool, which is reset; a pool of fewer than four frames is left as it is.
    pub fn new(pool: Vec<u64>) -> Shadow
        ensures { MadeOf pool.items result.store }
    {
        Shadow {
            store: Pool::new(pool),
        }
    }

    /// The pool back, as it is.
    pub fn into_pool(self) -> Vec<u64>
        ensures { result.items ≡ words_of self.store }
    {
        match self.store {
            Ok(pool) => pool.into_words(),
            Err(words) => words,
        }
    }
}

impl Translator for Shadow {
    ghost book = { λ s. grants_of s.store };

    ghost answers = { λ s w a r t. Answers s.store w a r t.store };

    ghost forgets = { λ s f t. Forgets s.store f t.store };

    ghost clears = { λ s t. Clears s.store t.store };

    ghost answered = { λ s t w a r e. Lawful.answered s.store t.store w a r e };

    ghost fenced = { λ s t f e. fences s.store t.store f e };

    ghost cleared = { λ s t e. Lawful.clears s.store t.store e };

    fn access<M: Memory>(&mut self, world: &World<'_, M>, access: Access) -> Reply {
        match &mut self.store {
            Ok(pool) => access_pool(pool, world, access),
            Err(_) => walked(world, access),
        }
    }

    fn fence(&mut self, fence: Fence) {
        if let Ok(pool) = &mut self.store {
            fence_pool(pool, fence);
        }
    }

    fn host_fence(&mut self) {
        if let Ok(pool) = &mut self.store {
            pool.reset();
        }
    }
}
