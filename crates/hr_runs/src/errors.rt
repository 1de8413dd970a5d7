//! Why a text is none, in words.

use hr_lex::LexError;
use hr_parse::ParseError;
use std::alloc::{AllocError, Global};

/// Why a text has no tokens.
pub fn of_tokens(alloc: Global, error: LexError) -> Result<String, AllocError> {
    match error {
        LexError::BadChar(at) => format!(in alloc; "bad character at {at}"),
        LexError::OpenText(at) => format!(in alloc; "open text at {at}"),
        LexError::NumberTooLarge(at) => format!(in alloc; "number too large at {at}"),
        LexError::NameTooLong(at) => format!(in alloc; "name too long at {at}"),
        LexError::TooLong => String::from_str(alloc, "too long"),
        LexError::Memory => Err(AllocError),
    }
}

/// Why a text is no statement, or no tuple.
pub fn of_parts(alloc: Global, error: ParseError) -> Result<String, AllocError> {
    match error {
        ParseError::Lex(error) => of_tokens(alloc, error),
        ParseError::Unexpected(at) => format!(in alloc; "unexpected at {at}"),
        ParseError::Memory => Err(AllocError),
    }
}
