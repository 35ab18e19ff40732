//! Cutting a text into lines.
ghost use Rattle.std.specs.Prelude.{◌≡◌, ◌^◌, ◌<◌, length};
ghost use Rattle.std.specs.Iterator.{YieldsFirstRef, item_count};
ghost use Rattle.trace.specs.Lines.{CutsLine, lines_of, lines_left};

/// The first line of a text, with its LF where it has one, and the rest of the text: `None` of an empty text.
pub fn next_line(text: &[u8]) -> Option<(&[u8], &[u8])>
    ensures { CutsLine text.now result }
{
    let line = text.split_inclusive(|byte| *byte == b'\n').next()?;
    Some(text.split_at(line.len()))
}

/// The lines that are left of a text.
// Over `split_inclusive`, with the list of lines as what is left: callers' proofs count and follow that list.
#[derive(Clone, Drop)]
pub struct Lines<'a> {
    rest: &'a [u8],
}

impl<'a> Lines<'a> {
    /// The lines of a text, from the first on.
    pub fn new(text: &'a [u8]) -> Lines<'a>
        ensures lines { lines_left result ≡ lines_of text.now }

        // Their count fits a `usize`.
        ensures few { length (lines_of text.now) < 2 ^ 64 }
    {
        Lines { rest: text }
    }
}

impl<'a> Iterator for Lines<'a> {
    type Item = &'a [u8];

    ghost next_gives = { YieldsFirstRef lines_left };

    ghost remaining = { item_count lines_left };

    fn next(&mut self) -> Option<&'a [u8]> {
        let (line, rest) = next_line(self.rest)?;
        self.rest = rest;
        Some(line)
    }
}
