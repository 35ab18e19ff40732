//! What ends a value.
ghost use Rattle.std.specs.Prelude.{◌≡◌};
ghost use Rattle.trace.specs.Marks.{Is};
ghost use Rattle.trace.specs.declared.marks.Mark.TheVariants.{Stop};
ghost use Rattle.fields.specs.Endings.{byte_of};

/// What ends the value of a field: a space, where another field follows, or the LF of its line.
#[derive(Clone, Copy, PartialEq, Eq, Debug)]
pub enum Ending {
    Space,
    LineFeed,
}

impl Ending {
    /// The ending that a stop is.
    pub(crate) fn at(stop: u8) -> Ending
        requires { Is Stop stop }
        ensures { byte_of result ≡ stop }
    {
        if stop == b'\n' {
            Ending::LineFeed
        } else {
            Ending::Space
        }
    }

    /// Its byte.
    pub fn byte(self) -> u8
        ensures { result ≡ byte_of self }
    {
        match self {
            Ending::Space => b' ',
            Ending::LineFeed => b'\n',
        }
    }
}
