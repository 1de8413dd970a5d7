//! Texts within quotes.

ghost use Rattle.std.specs.Prelude.{◌≡◌, ◌≤◌, ◌+◌, ◌<◌, ◌^◌, length, IfOk, false};
ghost use Rattle.hr_lex.specs.Quotes as spec;

use hr_base::is_printable;

/// Why a quote is not closed.
#[derive(Clone, Copy, Debug)]
pub enum QuoteFault {
    /// The bytes end before.
    Open,
    /// A byte that may not stand within quotes, and its place.
    BadByte(u32),
}

/// The place behind the closing quote, for bytes at `at` that stand behind the opening one.
pub fn closing(mut bytes: &[u8], at: u32) -> Result<u32, QuoteFault>
    requires { at + length bytes.now < 2 ^ 32 }
    ensures value { result ≡ spec.closing false at bytes.entry.now }
    ensures within { IfOk result (λ end. (at ≤ end) × (end ≤ at + length bytes.entry.now)) }
{
    let mut place = at;
    let mut after_quote = false;
    while let [b, rest @ ..] = bytes {
        let is_quote = *b == b'\'';
        if after_quote && !is_quote {
            return Ok(place);
        }
        if !after_quote && !is_printable(*b) {
            return Err(QuoteFault::BadByte(place));
        }
        after_quote = is_quote && !after_quote;
        place += 1;
        bytes = rest;
    }
    if after_quote {
        Ok(place)
    } else {
        Err(QuoteFault::Open)
    }
}
