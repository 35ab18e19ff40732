//! Values of one character.
ghost use Rattle.std.specs.Prelude.{[], ◌∷◌};
ghost use Rattle.values.specs.Texts.{mode_text, bit_text};

use crate::value::Value;
use access::Mode;

// The one byte of a value.
impl Value for u8 {
    ghost text = { λ b. b ∷ [] };

    fn read(value: &[u8]) -> Option<u8> {
        match value {
            [byte] => Some(*byte),
            _ => None,
        }
    }
}

// A mode: s or u.
impl Value for Mode {
    ghost text = { mode_text };

    fn read(value: &[u8]) -> Option<Mode> {
        match value {
            b"s" => Some(Mode::Supervisor),
            b"u" => Some(Mode::User),
            _ => None,
        }
    }
}

// A bit: 0 or 1.
impl Value for bool {
    ghost text = { bit_text };

    fn read(value: &[u8]) -> Option<bool> {
        match value {
            b"0" => Some(false),
            b"1" => Some(true),
            _ => None,
        }
    }
}
