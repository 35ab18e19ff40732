//! Fields of a number, at any place and of any width.
ghost use Rattle.std.specs.Prelude.{◌≡◌, ℕ, ◌/◌, ◌%◌, ◌^◌};
ghost use Rattle.entry.specs.Bits.{bit, bits};

/// What is left of `word` without its low `count` bits.
pub fn high(word: u64, count: u32) -> u64
    ensures { result ≡ word / 2 ^ count }
{
    if count < 64 { word >> count } else { 0 }
}

/// The low `count` bits of `word`.
pub fn low(word: u64, count: u32) -> u64
    ensures { result ≡ word % 2 ^ count }
{
    if count < 64 {
        word % (1 << count)
    } else {
        word
    }
}

/// The field of `word` that begins at bit `start` and has `count` bits.
pub fn field(word: u64, start: u32, count: u32) -> u64
    ensures { result ≡ bits start count word }
{
    low(high(word, start), count)
}

/// Bit `place` of `word`.
pub fn test(word: u64, place: u32) -> bool
    ensures { result ≡ bit place word }
{
    high(word, place) % 2 == 1
}
