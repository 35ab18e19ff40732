//! What the words of the agreement theorem mean, and what follows from it.
ghost use Rattle.history.specs.Vocabulary.{GrantsCovered, MomentsCovered, MomentsBear, GrantsTrue};
ghost use Rattle.history.specs.Consequences.{FencesRefresh, NextIsPlain, FaultsAreWalked, StillIsSettled};

/// Which grants a guest fence covers, and which it spares.
pub fn grants_covered()
    ensures { GrantsCovered }
{}

/// Which calls cover a page as it was at a moment, and which do not.
pub fn moments_covered()
    ensures { MomentsCovered }
{}

/// Which moments bear on an access.
pub fn moments_bear()
    ensures { MomentsBear }
{}

/// Which grants are true, and which is the fullest.
pub fn grants_true()
    ensures { GrantsTrue }
{}

/// After an accepted fence of everything a call goes as in the plain machine, as long as words and roots are the same.
pub fn fences_refresh()
    ensures { FencesRefresh }
{}

/// The call right after an accepted fence of everything goes as in the plain machine.
pub fn next_is_plain()
    ensures { NextIsPlain }
{}

/// An access that answers a fault answers the walk's own.
pub fn faults_are_walked()
    ensures { FaultsAreWalked }
{}

/// Where words and roots are always the same, every access is settled.
pub fn still_is_settled()
    ensures { StillIsSettled }
{}
