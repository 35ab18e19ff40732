//! The agreement theorem.
ghost use Rattle.history.specs.Theorem.{RunsAgree, WalksAgree};

use translator::Translator;

/// The agreement theorem, of any translator.
pub fn runs_agree<T: Translator>()
    ensures { RunsAgree T.Translator }
{}

/// A translator whose every reply is the walk's own needs no settled accesses.
pub fn walks_agree<T: Translator>()
    ensures { WalksAgree T.Translator }
{}
