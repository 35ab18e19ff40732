//! Lists of calls that are settled or not, worked to the end.
#![tactic(auto)]

ghost use Rattle.history_examples.specs.Editing.{FencedAnswers, FencedSettled, UnfencedUnsettled, UnfencedStale};

/// What the plain machine answers to the calls with the fence.
pub fn fenced_answers()
    ensures { FencedAnswers }
{}

/// With the fence every access is settled.
pub fn fenced_settled()
    ensures { FencedSettled }
{}

/// Without it the last load is not.
pub fn unfenced_unsettled()
    ensures { UnfencedUnsettled }
{}

/// And it may answer what the plain machine does not.
pub fn unfenced_stale()
    ensures { UnfencedStale }
{}
