//! The first line of an answer's text.
ghost use Rattle.std.specs.Prelude.{◌≡◌};
ghost use Rattle.std.specs.Option.{option_copied};
ghost use Rattle.hr_answer_reader.specs.Answers as spec;

use crate::number::{key, long, short};
use hr_rel::RunError;

/// What the first line of an answer says: of rows, how many there are; of any other answer, all of it.
#[derive(Clone, Copy, Debug, PartialEq, Eq)]
pub enum FirstLine {
    Rows(u64),
    Count(u64),
    Failed(RunError),
}

/// What a line says as the first of an answer.
#[tactic(auto, unfolding(crate::specs::Answers::first_of))]
pub fn first_of(line: &[u8]) -> Option<FirstLine>
    ensures { result ≡ spec.first_of line.now }
{
    if let Some(word) = line.strip_prefix(b"rows ") {
        return Some(FirstLine::Rows(long(word)?));
    }
    if let Some(word) = line.strip_prefix(b"count ") {
        return Some(FirstLine::Count(long(word)?));
    }
    if let Some(word) = line.strip_prefix(b"failed ") {
        return Some(FirstLine::Failed(error_of(word)?));
    }
    None
}

fn error_of(word: &[u8]) -> Option<RunError>
    ensures { result ≡ spec.error_of word.now }
{
    if let Some(word) = word.strip_prefix(b"duplicate ") {
        return Some(RunError::DuplicateKey(key(word)?));
    }
    if let Some(word) = word.strip_prefix(b"null ") {
        return Some(RunError::NullRefused(short(word)?));
    }
    plain_error_of(word)
}

fn plain_error_of(word: &[u8]) -> Option<RunError>
    ensures { result ≡ spec.plain_error_of word.now }
{
    if word == b"overflow".as_slice() {
        return Some(RunError::Overflow);
    }
    if word == b"toomany".as_slice() {
        return Some(RunError::TooManyRows);
    }
    if word == b"unfit".as_slice() {
        return Some(RunError::Unfit);
    }
    None
}
