//! Fences on a pool.
ghost use Rattle.std.specs.Prelude.{◌≡◌};
ghost use Rattle.leaves.specs.Fences.{unmapped, emptied, fenced};

use layout::{Asid, AsidPage, VirtualPage};
use pool::Pool;
use translator::Fence;

// Clears the leaf of a page, under one ASID or under all; an ASID over 15 has no tables.
fn unmap(pool: &mut Pool, page: VirtualPage, asid: Option<u16>)
    ensures { pool.new.words.items ≡ unmapped pool.old.words.items page.number asid }
{
    match asid {
        Some(number) => {
            if let Some(asid) = Asid::new(number) {
                pool.remove(AsidPage { asid, page });
            }
        }
        None => pool.remove_everywhere(page),
    }
}

// Clears every leaf, of one ASID or of all: roots and not leaves, so that it is no twin of the function above; an ASID over 15 has no tables.
fn empty(pool: &mut Pool, asid: Option<u16>)
    ensures { pool.new.words.items ≡ emptied pool.old.words.items asid }
{
    match asid {
        Some(number) => {
            if let Some(asid) = Asid::new(number) {
                pool.drop_asid(asid);
            }
        }
        None => pool.reset(),
    }
}

/// What a fence clears; at an address that is not canonical, nothing.
pub fn fence_pool(pool: &mut Pool, fence: Fence)
    ensures { pool.new.words.items ≡ fenced pool.old.words.items fence.address fence.asid }
{
    match fence.address {
        Some(address) => {
            if let Some(page) = VirtualPage::new(address >> 12) {
                unmap(pool, page, fence.asid);
            }
        }
        None => empty(pool, fence.asid),
    }
}
