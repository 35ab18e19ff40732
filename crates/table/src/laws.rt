//! The laws of walks, whatever faults a source has.
ghost use Rattle.table.specs.Laws.{ReadsDecide, OneWordALevel};

/// Sources that agree on the words that a walk reads give the same walk.
pub fn reads_decide<F>()
    ensures { ReadsDecide F }
{}

/// A walk reads at most one word of each level.
pub fn one_word_a_level<F>()
    ensures { OneWordALevel F }
{}
