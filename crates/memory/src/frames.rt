//! How much of what is stored a memory shows.
ghost use Rattle.std.specs.Prelude.{◌≡◌, ◌/◌, min};
ghost use Rattle.memory.specs.Words.{shown_length};

use crate::{FRAME_WORDS, MAX_FRAMES};

// The whole frames of so many words, as far as they are shown.
pub(crate) fn shown_frames(words: usize) -> u64
    ensures { result ≡ min 4096 (words / 512) }
{
    (words as u64 / FRAME_WORDS).min(MAX_FRAMES)
}

// How many of so many words are shown.
pub(crate) fn shown_words(words: usize) -> u64
    ensures { result ≡ shown_length words }
{
    FRAME_WORDS * shown_frames(words)
}
