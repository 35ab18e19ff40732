//! Changes of a pool.
ghost use Rattle.std.specs.Prelude.{◌≡◌, ◌<◌, ◌≤◌, MatchResult};
ghost use Rattle.layout.specs.Tables.{frames as frames_of};
ghost use Rattle.layout.specs.Changes.{reset as reset_of, ready, inserted, removed, removed_below, dropped};
ghost use Rattle.layout.specs.Laws.{Inserts, Removes, RemovesEverywhere, Drops, Resets, LeavesApart, RestKept};

use crate::pools::Pool;
use crate::words::{FRAME, build, restart};
use layout::{Asid, AsidPage, LeafEntry, VirtualPage};

// The words of the fewest frames that a pool works with: the roots, and the tables of one page.
const MIN_WORDS: usize = 4 * FRAME;

impl Pool {
    /// A pool in `words`, which is reset; or the words as they were, where they are fewer than four frames.
    pub fn new(mut words: Vec<u64>) -> Result<Pool, Vec<u64>>
        ensures { MatchResult result (λ pool. (4 ≤ frames_of words.items) × (pool.words.items ≡ reset_of words.items) × RestKept words.items pool.words.items) (λ back. (frames_of words.items < 4) × (back ≡ words)) }
    {
        if words.len() < MIN_WORDS {
            return Err(words);
        }
        restart(&mut words);
        Ok(Pool { words })
    }

    /// Clears every root, and makes frame 1 the next unused one.
    pub fn reset(&mut self)
        ensures after { self.new.words.items ≡ reset_of self.old.words.items }
        ensures law { Resets self.old.words.items }
        ensures rest { RestKept self.old.words.items self.new.words.items }
    {
        restart(&mut self.words);
    }

    // Makes room for the tables that are missing: resets the pool where too few frames are unused.
    fn prepare(&mut self, place: AsidPage)
        ensures { self.new.words.items ≡ ready self.old.words.items place.asid.number place.page.number }
    {
        if !self.has_room(place) {
            self.reset();
        }
    }

    /// Puts in the leaf of a page under an ASID, and takes the tables that are missing.
    pub fn insert(&mut self, place: AsidPage, leaf: LeafEntry)
        ensures after { self.new.words.items ≡ inserted self.old.words.items place.asid.number place.page.number leaf.entry.word }
        ensures law { Inserts self.old.words.items place.asid.number place.page.number leaf.entry.word }
        ensures rest { RestKept self.old.words.items self.new.words.items }
        ensures apart { LeavesApart self.new.words.items }
    {
        self.prepare(place);
        let low = build(&mut self.words, place);
        self.words[low * FRAME + place.page.index(0)] = leaf.entry.word;
    }

    /// Clears the leaf of a page under an ASID, where its table is there.
    pub fn remove(&mut self, place: AsidPage)
        ensures after { self.new.words.items ≡ removed self.old.words.items place.asid.number place.page.number }
        ensures law { Removes self.old.words.items place.asid.number place.page.number }
        ensures rest { RestKept self.old.words.items self.new.words.items }
    {
        if let Some(low) = self.leaf_table(place) {
            self.words[low * FRAME + place.page.index(0)] = 0;
        }
    }

    /// Clears the leaf of a page under every ASID.
    pub fn remove_everywhere(&mut self, page: VirtualPage)
        ensures after { self.new.words.items ≡ removed_below self.old.words.items page.number 16 }
        ensures law { RemovesEverywhere self.old.words.items page.number }
        ensures rest { RestKept self.old.words.items self.new.words.items }
    {
        for number in 0..16 {
            let asid = Asid { number };
            self.remove(AsidPage { asid, page });
        }
    }

    /// Clears the root of an ASID.
    pub fn drop_asid(&mut self, asid: Asid)
        ensures after { self.new.words.items ≡ dropped self.old.words.items asid.number }
        ensures law { Drops self.old.words.items asid.number }
        ensures rest { RestKept self.old.words.items self.new.words.items }
    {
        self.words[asid.number as usize] = 0;
    }
}
