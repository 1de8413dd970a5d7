//! Numbers in a line.

ghost use Rattle.std.specs.Prelude.{◌≡◌, ◌≤◌, ◌<◌, ◌^◌, true, length, IfSome, IfNone};
ghost use Rattle.std.specs.Char.{is_ascii_digit};
ghost use Rattle.std.specs.List.{list_all};
ghost use Rattle.std.specs.Str.Parse.{digits_value};
ghost use Rattle.hr_line.specs.Numbers as spec;

use std::str;

/// A number without a sign.
#[derive(Clone, Copy, Debug, PartialEq, Eq)]
pub enum Number {
    Of(u64),
    /// More than 64 bits hold.
    TooLarge,
}

/// A number that may have a sign.
#[derive(Clone, Copy, Debug, PartialEq, Eq)]
pub enum Signed {
    Of(i64),
    /// Less or more than 64 bits hold.
    TooLarge,
}

/// The number that a word is: digits, with no 0 before others.
#[tactic(auto, unfolding(crate::specs::Numbers::number_of))]
pub fn number_of(word: &[u8]) -> Option<Number>
    ensures { result ≡ spec.number_of word.now }
{
    if is_number(word) {
        Some(value_of(word))
    } else {
        None
    }
}

fn is_number(word: &[u8]) -> bool
    ensures { result ≡ spec.is_number word.now }
{
    !word.is_empty() && all_digits(word) && (word[0] != b'0' || word.len() == 1)
}

fn all_digits(word: &[u8]) -> bool
    ensures { result ≡ list_all is_ascii_digit word.now }
{
    word.iter().all(|b| b.is_ascii_digit())
}

/// The number that digits write.
fn value_of(digits: &[u8]) -> Number
    requires { spec.is_number digits.now ≡ true }
    ensures { result ≡ spec.number (digits_value 10 digits.now) }
{
    match parsed(digits) {
        Some(value) => Number::Of(value),
        None => Number::TooLarge,
    }
}

#[tactic(auto, using(crate::proofs::NumberLemmas::number_text))]
fn parsed(digits: &[u8]) -> Option<u64>
    requires { spec.is_number digits.now ≡ true }
    ensures some { IfSome result (λ n. n ≡ digits_value 10 digits.now) }
    ensures none { IfNone result (2 ^ 64 ≤ digits_value 10 digits.now) }
{
    let Ok(text) = str::from_utf8(digits) else {
        unreachable!()
    };
    text.parse().ok()
}

/// The number that a word is, where `-` may stand before its digits.
#[tactic(auto, unfolding(crate::specs::Numbers::signed_of))]
pub fn signed_of(word: &[u8]) -> Option<Signed>
    ensures { result ≡ spec.signed_of word.now }
{
    match word {
        [] => None,
        [first, digits @ ..] if *first == b'-' => Some(negated(number_of(digits)?)),
        _ => Some(plain(number_of(word)?)),
    }
}

fn plain(number: Number) -> Signed
    ensures { result ≡ spec.plain number }
{
    match number {
        Number::Of(n) if n < 1 << 63 => Signed::Of(n as i64),
        _ => Signed::TooLarge,
    }
}

fn negated(number: Number) -> Signed
    ensures { result ≡ spec.negated number }
{
    match number {
        Number::Of(n) if n <= 1 << 63 => Signed::Of((-i128::from(n)) as i64),
        _ => Signed::TooLarge,
    }
}
