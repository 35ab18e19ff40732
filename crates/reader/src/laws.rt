//! The law of the calls' texts.
ghost use Rattle.reader.specs.Laws.{OneText};

/// No two calls whose numbers fit their digits share a text.
pub fn one_text()
    ensures { OneText }
{}
