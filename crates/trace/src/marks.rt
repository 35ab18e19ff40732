//! The bytes that end a part of a text, and texts cut at the first of them.
ghost use Rattle.std.specs.Prelude.{Decides};
ghost use Rattle.trace.specs.Marks.{Is, Cuts};

/// What ends a part of a text.
#[derive(Clone, Copy)]
pub enum Mark {
    /// `=`, which ends a key.
    Equals,
    /// A space or LF, which ends a value.
    Stop,
    /// LF, which ends a line.
    LineFeed,
}

impl Mark {
    // Whether a byte is such a mark.
    fn is(self, byte: u8) -> bool
        ensures { Decides result (Is self byte) }
    {
        match self {
            Mark::Equals => byte == b'=',
            Mark::Stop => byte == b' ' || byte == b'\n',
            Mark::LineFeed => byte == b'\n',
        }
    }
}

/// A text cut at its first mark.
#[derive(Clone, Copy)]
pub struct Cut<'a> {
    pub before: &'a [u8],
    pub mark: u8,
    pub after: &'a [u8],
}

/// The text before its first mark, the mark, and the text after it.
pub fn cut_at<'a>(text: &'a [u8], mark: Mark) -> Option<Cut<'a>>
    ensures { Cuts mark text.now result }
{
    let at = text.iter().position(|byte| mark.is(*byte))?;
    Some(Cut {
        before: &text[..at],
        mark: text[at],
        after: &text[at + 1..],
    })
}
