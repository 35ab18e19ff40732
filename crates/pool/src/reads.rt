//! What a pool has, read word by word.
ghost use Rattle.std.specs.Prelude.{◌≡◌, ◌<◌, ◌≤◌, IfSome, slice_index};
ghost use Rattle.layout.specs.Tables.{frames as frames_of, next as next_of, IsFrame, names, below as below_of, path_of, leaf_table};
ghost use Rattle.layout.specs.Changes.{missing as missing_of, has_room};

use crate::pools::Pool;
use crate::words::{FRAME, NEXT};
use layout::{Asid, AsidPage, decode, word};

// The most frames that are used.
const MAX_FRAMES: usize = 512;

impl Pool {
    /// The words back, as they are.
    pub fn into_words(self) -> Vec<u64>
        ensures { result ≡ self.words }
    {
        let Pool { words } = self;
        words
    }

    // The frame of the root table of an ASID, if it has one. That a frame is below the next unused one is a fact of it and of this
    // pool, which no type of a frame could say.
    pub(crate) fn root(&self, asid: Asid) -> Option<usize>
        ensures value { IsFrame (slice_index self.now.words.items asid.number) result }
        ensures small { IfSome result (λ frame. frame < next_of self.now.words.items) }
    {
        let i = asid.number as usize;
        decode(i, word(&self.words, i))
    }

    // The next unused frame.
    fn next(&self) -> usize
        ensures value { result ≡ next_of self.now.words.items }
        ensures small { result ≤ 512 }
    {
        word(&self.words, NEXT) as usize
    }

    // The number of frames that are used.
    fn frames(&self) -> usize
        ensures { result ≡ frames_of self.now.words.items }
    {
        (self.words.len() / FRAME).min(MAX_FRAMES)
    }

    // The frame of the table that entry `k` of the table at frame `f` names, if it names one.
    fn below(&self, f: usize, k: usize) -> Option<usize>
        requires f { (0 < f) × (f < next_of self.now.words.items) }
        requires k { k < 512 }
        ensures value { IsFrame (below_of (names self.now.words.items) f k) result }
        ensures small { IfSome result (λ frame. frame < next_of self.now.words.items) }
    {
        let i = f * FRAME + k;
        decode(i, word(&self.words, i))
    }

    /// The frame of the table that has the leaf of a page under an ASID, if that table is there.
    pub fn leaf_table(&self, place: AsidPage) -> Option<usize>
        ensures value { IsFrame (leaf_table self.now.words.items place.asid.number place.page.number) result }
        ensures small { IfSome result (λ frame. frame < next_of self.now.words.items) }
    {
        let root = self.root(place.asid)?;
        let middle = self.below(root, place.page.index(2))?;
        self.below(middle, place.page.index(1))
    }

    // How many tables are missing on the way to the leaf of a page under an ASID.
    fn missing(&self, place: AsidPage) -> usize
        ensures value { result ≡ missing_of self.now.words.items place.asid.number (path_of place.page.number) }
        ensures small { result ≤ 3 }
    {
        let Some(root) = self.root(place.asid) else {
            return 3;
        };
        let Some(middle) = self.below(root, place.page.index(2)) else {
            return 2;
        };
        usize::from(self.below(middle, place.page.index(1)).is_none())
    }

    /// Whether enough frames are unused for the tables that are missing on the way to the leaf of a page under an ASID.
    pub fn has_room(&self, place: AsidPage) -> bool
        ensures { result ≡ has_room self.now.words.items place.asid.number place.page.number }
    {
        self.next() + self.missing(place) <= self.frames()
    }
}
