//! Names of tables and columns.

ghost use Rattle.std.specs.Prelude.{◌≡◌, ◌≤◌, true, length, map, IfOk};
ghost use Rattle.std.specs.List.{list_all, list_any};
ghost use Rattle.std.specs.Option.{is_some};
ghost use Rattle.std.specs.Str.{str_eq_ignore_ascii_case, str_to_ascii_lowercase};
ghost use Rattle.hr_lex.specs.Bytes as lex;
ghost use Rattle.hr_lex.specs.Keywords.{keyword};
ghost use Rattle.hr_line.specs.Names as spec;

use hr_base::limits::MAX_NAME_BYTES;
use hr_rel::Name;
use std::alloc::{AllocError, Global};

/// A name as a line gives it.
#[derive(Clone, Copy)]
pub enum LineName {
    /// In small letters, at most [`MAX_NAME_BYTES`] bytes.
    Short(Name),
    /// Longer than a name may be.
    TooLong,
}

/// The words that SQL keeps for itself.
const KEYWORDS: [&[u8]; 33] = [
    b"SELECT",
    b"FROM",
    b"INNER",
    b"JOIN",
    b"ON",
    b"WHERE",
    b"GROUP",
    b"BY",
    b"INSERT",
    b"INTO",
    b"VALUES",
    b"UPDATE",
    b"SET",
    b"DELETE",
    b"AND",
    b"OR",
    b"NOT",
    b"IS",
    b"NULL",
    b"BETWEEN",
    b"IN",
    b"AS",
    b"COUNT",
    b"SUM",
    b"MIN",
    b"MAX",
    b"BEGIN",
    b"COMMIT",
    b"ROLLBACK",
    b"ORDER",
    b"LIMIT",
    b"ASC",
    b"DESC",
];

/// The name that a word is.
#[tactic(auto, unfolding(crate::specs::Names::name_of))]
pub fn name_of(alloc: Global, word: &[u8]) -> Result<Option<LineName>, AllocError>
    ensures { IfOk result (λ name. name ≡ spec.name_of word.now) }
{
    if is_name(word) {
        Ok(Some(named(alloc, word)?))
    } else {
        Ok(None)
    }
}

fn is_name(word: &[u8]) -> bool
    ensures { result ≡ spec.is_name word.now }
{
    !word.is_empty() && is_letter(word[0]) && all_name_bytes(word) && !is_keyword(word)
}

/// Whether a name may begin with the byte.
fn is_letter(b: u8) -> bool
    ensures { result ≡ lex.is_letter b }
{
    b.is_ascii_uppercase() || b.is_ascii_lowercase() || b == b'_'
}

fn all_name_bytes(word: &[u8]) -> bool
    ensures { result ≡ list_all lex.is_name_byte word.now }
{
    word.iter().all(|b| is_name_byte(*b))
}

fn is_name_byte(b: u8) -> bool
    ensures { result ≡ lex.is_name_byte b }
{
    is_letter(b) || b.is_ascii_digit()
}

fn is_keyword(word: &[u8]) -> bool
    ensures { result ≡ is_some (keyword word.now) }
{
    is_among(word, &KEYWORDS)
}

/// Whether a word is one of these, in either case.
fn is_among(word: &[u8], words: &[&[u8]]) -> bool
    ensures { result ≡ list_any (λ one. str_eq_ignore_ascii_case one.now word.now) words.now }
{
    words.iter().any(|one| one.eq_ignore_ascii_case(word))
}

fn named(alloc: Global, word: &[u8]) -> Result<LineName, AllocError>
    requires { spec.is_name word.now ≡ true }
    ensures { IfOk result (λ name. name ≡ spec.named word.now) }
{
    if word.len() > MAX_NAME_BYTES {
        return Ok(LineName::TooLong);
    }
    let small = in_small_letters(alloc, word)?;
    match Name::new(&small) {
        Some(name) => Ok(LineName::Short(name)),
        None => unreachable!(),
    }
}

fn in_small_letters(alloc: Global, bytes: &[u8]) -> Result<Vec<u8>, AllocError>
    ensures { IfOk result (λ small. small.items ≡ str_to_ascii_lowercase bytes.now) }
{
    bytes.iter().map(|b| b.to_ascii_lowercase()).collect(alloc)
}
