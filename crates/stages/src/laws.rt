//! The laws of the two-stage walk.
ghost use Rattle.stages.specs.Laws.{BothBare};

/// With both stages Bare an access goes to the address itself.
pub fn both_bare()
    ensures { BothBare }
{}
