//! Hexadecimal digits, lowercase.
ghost use Rattle.std.specs.Prelude.{◌≡◌, ◌<◌, [], ◌∷◌};
ghost use Rattle.digits.specs.Hexadecimal.{digit_char, hex_of, ReadsDigit, ReadsHex};

use arrayvec::ArrayString;

/// The value of a hexadecimal digit: `0` to `9`, `a` to `f`. The library's `to_digit` would read capitals too.
pub fn hex_digit(byte: u8) -> Option<u8>
    ensures { ReadsDigit byte result }
{
    match byte {
        b'0'..=b'9' => Some(byte - b'0'),
        b'a'..=b'f' => Some(byte - b'a' + 10),
        _ => None,
    }
}

/// The number that at most 16 digits write.
pub fn read_hex(bytes: &[u8]) -> Option<u64>
    ensures { ReadsHex bytes.now result }
{
    if bytes.len() > 16 {
        return None;
    }
    // A loop and not a `try_fold`: that no step overflows follows from how many digits came before, which a fold does not say.
    let mut n = 0;
    for &b in bytes {
        let digit = hex_digit(b)?;
        n = n * 16 + u64::from(digit);
    }
    Some(n)
}

// All the digits, each at its value.
const DIGITS: &str = "0123456789abcdef";

// The text of a digit. A `char` would be encoded anew at each push.
fn digit_str(digit: usize) -> &'static str
    requires { digit < 16 }
    ensures { result.now ≡ digit_char digit ∷ [] }
{
    &DIGITS[digit..=digit]
}

/// The 16 digits of a number. They are pushed, since a `write!` of `{:016x}` may fail as far as its contract says.
pub fn hex16(n: u64) -> ArrayString<16>
    ensures { result.bytes ≡ hex_of 16 n }
{
    let mut digits = ArrayString::new();
    for place in (0..16u32).rev() {
        let digit = (n >> (4 * place)) as usize % 16;
        digits.push_str(digit_str(digit));
    }
    digits
}
