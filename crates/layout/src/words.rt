//! Words of a pool, as they are read.
ghost use Rattle.std.specs.Prelude.{◌≡◌, slice_index};
ghost use Rattle.layout.specs.Tables.{IsFrame, named};

// The roots are the words before this index.
const ROOTS: usize = 16;

/// The word at index `i`; 0 where there is none, as definitions read a list past its end.
pub fn word(words: &[u64], i: usize) -> u64
    ensures { result ≡ slice_index words.now i }
{
    words.get(i).copied().unwrap_or(0)
}

// The frame of this number; no table lies in frame 0.
fn frame(number: u64) -> Option<usize>
    ensures { IsFrame number result }
{
    (number != 0).then_some(number as usize)
}

/// The frame that `word` names at index `i`, if it names one.
pub fn decode(i: usize, word: u64) -> Option<usize>
    ensures { IsFrame (named i word) result }
{
    if i < ROOTS {
        frame(word)
    } else if word % 1024 == 1 {
        frame(word / 1024)
    } else {
        None
    }
}
