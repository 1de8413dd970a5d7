//! Numbers as they are written: each in one way.
ghost use Rattle.std.specs.Prelude.{◌≡◌};
ghost use Rattle.hr_answer_reader.specs.Numbers as spec;

use hr_line::{Number, Signed, number_of, signed_of};

/// The number of 64 bits that a word is.
pub fn long(word: &[u8]) -> Option<u64>
    ensures { result ≡ spec.long word.now }
{
    match number_of(word)? {
        Number::Of(n) => Some(n),
        Number::TooLarge => None,
    }
}

/// The number of 32 bits that a word is.
pub fn short(word: &[u8]) -> Option<u32>
    ensures { result ≡ spec.short word.now }
{
    let number = long(word)?;
    if number < 1 << 32 {
        Some(number as u32)
    } else {
        None
    }
}

/// The number of 64 bits with a sign that a word is; `-0` is none.
pub fn key(word: &[u8]) -> Option<i64>
    ensures { result ≡ spec.key word.now }
{
    if word == b"-0".as_slice() {
        return None;
    }
    match signed_of(word)? {
        Signed::Of(n) => Some(n),
        Signed::TooLarge => None,
    }
}
