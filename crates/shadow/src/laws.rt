//! What the book of a shadow holds.
ghost use Rattle.shadow.specs.Book.{BookIsFound};
ghost use Rattle.shadow.specs.Laws.{KeptByRights, FillsExactly, FencesExactly};

/// A grant stands in the book exactly if the pool holds it for its page under its ASID.
pub fn book_is_found()
    ensures { BookIsFound }
{}

/// What is kept of a walk, and what the book holds after a grant is kept and after a fence.
pub fn book_is_exact()
    ensures kept { KeptByRights }
    ensures filled { FillsExactly }
    ensures fenced { FencesExactly }
{}
