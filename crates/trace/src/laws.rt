//! The law of lines.
ghost use Rattle.trace.specs.Lines.{LinesJoin};

/// The lines of a text, joined, are the text.
pub fn lines_join()
    ensures { LinesJoin }
{}
