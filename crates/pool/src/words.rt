//! The words of a pool, as they are written.
//!
//! These functions take the words alone and say what they need of them. As methods of `Pool` they would have to keep its
//! ghost fields after each table, which hold again when a whole insertion is done; and `new` restarts words that are no pool yet.
ghost use Rattle.std.specs.Prelude.{◌≡◌, ◌+◌, ◌*◌, ◌<◌, ◌≤◌, true, length};
ghost use Rattle.layout.specs.Tables.{frames as frames_of, next as next_of, names, path_of, leaf_table};
ghost use Rattle.layout.specs.Changes.{cleared, reset as reset_of, naming, taken, grown, built, has_room};
ghost use Rattle.layout.specs.Sound.{Sound};

use layout::{AsidPage, decode, word};

// The words in a frame.
pub(crate) const FRAME: usize = 512;

// The word that holds the next unused frame; the words before it hold the roots.
pub(crate) const NEXT: usize = 16;

// Sets `count` words from `start` on to 0.
fn clear(words: &mut [u64], start: usize, count: usize)
    requires { start + count ≤ length words.old }
    ensures { words.new ≡ cleared words.old start count }
{
    words[start..start + count].fill(0);
}

// Clears every root, and makes frame 1 the next unused one.
pub(crate) fn restart(words: &mut [u64])
    requires { 16 < length words.old }
    ensures { words.new ≡ reset_of words.old }
{
    clear(words, 0, NEXT);
    words[NEXT] = 1;
}

// The word that names a frame at index `i`.
fn encode(i: usize, frame: usize) -> u64
    requires { frame < 512 }
    ensures { result ≡ naming i frame }
{
    if i < NEXT {
        frame as u64
    } else {
        frame as u64 * 1024 + 1
    }
}

// Takes the next unused frame for a table of zeros that word `i` names.
fn take(words: &mut [u64], i: usize) -> usize
    requires inside { i < length words.old }
    requires free { next_of words.old < frames_of words.old }
    ensures after { words.new ≡ taken words.old i }
    ensures frame { result ≡ next_of words.old }
{
    let frame = word(words, NEXT) as usize;
    clear(words, frame * FRAME, FRAME);
    words[NEXT] = frame as u64 + 1;
    words[i] = encode(i, frame);
    frame
}

// The frame of the table that word `i` names, which is taken where there is none.
fn grow(words: &mut [u64], i: usize) -> usize
    requires inside { i < length words.old }
    requires fits { names words.old i < frames_of words.old }
    requires free { names words.old i ≡ 0 → next_of words.old < frames_of words.old }
    ensures after { words.new ≡ grown words.old i }
    ensures frame { result ≡ names words.new i }
    ensures small { result < frames_of words.new }
{
    match decode(i, word(words, i)) {
        Some(frame) => frame,
        None => take(words, i),
    }
}

// Takes the tables that are missing on the way to the leaf of a page under an ASID, and gives the last one.
pub(crate) fn build(words: &mut [u64], place: AsidPage) -> usize
    requires sound { Sound words.old }
    requires room { has_room words.old place.asid.number place.page.number ≡ true }
    ensures after { words.new ≡ built words.old place.asid.number (path_of place.page.number) }
    ensures frame { result ≡ leaf_table words.new place.asid.number place.page.number }
    ensures inside { result * 512 + 512 ≤ length words.new }
{
    let root = grow(words, place.asid.number as usize);
    let middle = grow(words, root * FRAME + place.page.index(2));
    grow(words, middle * FRAME + place.page.index(1))
}
