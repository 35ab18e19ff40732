//! A pool of words.
ghost use Rattle.std.specs.Prelude.{◌≤◌};
ghost use Rattle.layout.specs.Tables.{frames, next};
ghost use Rattle.layout.specs.Sound.{Inside, Apart, Shaped};

/// A pool of at least four frames, with the tables in them.
///
/// Tables are frames of one `Vec`, named by their numbers: the layout of these words is a rule of the project, since callers read
/// them back. Words 0 to 15 hold the roots, word 16 the next unused frame, and at most 512 whole frames of 512 words are used.
// Clauses name the words themselves, which is what every definition of a pool speaks of.
#[derive(Drop)]
pub struct Pool {
    pub(crate) words: Vec<u64>,
    ghost large: { 4 ≤ frames words.items },
    ghost some: { 1 ≤ next words.items },
    ghost fits: { next words.items ≤ frames words.items },
    ghost inside: { Inside words.items },
    ghost apart: { Apart words.items },
    ghost shaped: { Shaped words.items },
}
