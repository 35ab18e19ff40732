//! Reading decimal digits.
ghost use Rattle.digits.specs.Decimal.{ReadsDecimal};

use std::str;

// No number below 2^16 has more digits.
const MOST_DIGITS: usize = 5;

/// The number from 1 to `limit` that is written so, with no leading zero. However many digits there are, nothing wraps.
#[tactic(auto, using(crate::proofs::Reading::first, crate::proofs::Reading::short))]
pub fn read_decimal(bytes: &[u8], limit: u16) -> Option<u16>
    ensures { ReadsDecimal limit bytes.now result }
{
    // `from_utf8` would go over every byte, and `parse` over every leading zero.
    if bytes.len() > MOST_DIGITS {
        return None;
    }
    let n = str::from_utf8(bytes).ok()?.parse::<u16>().ok()?;
    // `parse` reads a plus and leading zeros too, and both stand before 1.
    if bytes[0] < b'1' {
        return None;
    }
    (1..=limit).contains(&n).then_some(n)
}
