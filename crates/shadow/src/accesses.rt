//! Accesses that a pool answers, or learns from.
ghost use Rattle.std.specs.Prelude.{◌≡◌, true, Some};
ghost use Rattle.stages.specs.Stages.{is_canonical};
ghost use Rattle.translator.specs.Walked.{walked_reply};
ghost use Rattle.leaves.specs.Lookups.{hit};
ghost use Rattle.shadow.specs.Steps.{learnt, reply_by, after_by};

use access::Access;
use layout::{AsidPage, LeafEntry};
use leaves::{answering, has_some_right, leaf_entry};
use memory::Memory;
use pool::Pool;
use stages::World;
use translator::{Grant, Reply, walked};

// Writes the leaf of a grant that a walk handed out, if it has some right.
fn learn(pool: &mut Pool, grant: Grant)
    requires page { is_canonical grant.page ≡ true }
    requires rights { grant.write ≡ true → grant.read ≡ true }
    ensures { pool.new.words.items ≡ learnt pool.old.words.items (Some grant) }
{
    if !has_some_right(grant) {
        return;
    }
    let Some(place) = AsidPage::new(grant.asid, grant.page) else {
        return;
    };
    let leaf = LeafEntry {
        entry: leaf_entry(grant),
    };
    pool.insert(place, leaf);
}

// Answers an access from the pool, or by the walk, from which the pool learns.
pub(crate) fn access_pool<M: Memory>(pool: &mut Pool, world: &World<'_, M>, access: Access) -> Reply
    ensures reply { result ≡ reply_by (hit pool.old.words.items world.now.guest access) (walked_reply world.now access) }
    ensures after { pool.new.words.items ≡ after_by pool.old.words.items (hit pool.old.words.items world.now.guest access) (walked_reply world.now access) }
{
    if let Some(grant) = answering(pool, world.roots().guest, access) {
        return grant.into();
    }
    let reply = walked(world, access);
    if let Some(grant) = reply.grant {
        learn(pool, grant);
    }
    reply
}
