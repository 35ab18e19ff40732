//! Values of hexadecimal digits.
ghost use Rattle.std.specs.Prelude.{◌≤◌};
ghost use Rattle.digits.specs.Hexadecimal.{hex_of};
ghost use Rattle.values.specs.Texts.{all_or};
ghost use Rattle.values.specs.Reads.{ReadsBy, Fits};

use crate::value::Value;
use digits::read_hex;

// A number of exactly k digits.
fn number_of(value: &[u8], k: usize) -> Option<u64>
    requires { k ≤ 16 }
    ensures reads { ReadsBy (hex_of k) value.now result }
    ensures small { Fits k result }
{
    if value.len() != k {
        return None;
    }
    read_hex(value)
}

// A word: 16 digits.
impl Value for u64 {
    ghost text = { hex_of 16 };

    fn read(value: &[u8]) -> Option<u64> {
        number_of(value, 16)
    }
}

// An ASID: 4 digits.
impl Value for u16 {
    ghost text = { hex_of 4 };

    fn read(value: &[u8]) -> Option<u16> {
        Some(number_of(value, 4)? as u16)
    }
}

// What a fence names: one of these, or all of them.
impl<V: Value> Value for Option<V> {
    ghost text = { all_or V.text };

    fn read(value: &[u8]) -> Option<Option<V>> {
        match value {
            b"all" => Some(None),
            _ => V::read(value).map(Some),
        }
    }
}
