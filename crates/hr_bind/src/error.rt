//! Why a tree isn't bound, and why a text isn't a statement of a catalog.
ghost use Rattle.std.specs.Prelude.{◌≡◌};
ghost use Rattle.hr_bind.specs.declared.error.BindError.TheVariants as bind;
ghost use Rattle.hr_bind.specs.declared.error.PrepareError.TheVariants as prepare;

use hr_lex::LexError;
use hr_parse::ParseError;
use hr_problem::Problem;
use std::alloc::AllocError;
use std::fmt;
use thiserror::Error;

/// Why a tree is not bound.
#[derive(Clone, Copy, Debug, PartialEq, Eq, Error)]
pub enum BindError {
    /// The statement has a problem.
    #[error("{0}")]
    Refused(Problem),
    #[error("out of memory")]
    NoMemory,
}

/// Why a text is no statement of a catalog: no statement at all, or one with a problem. Want of memory is none of these.
#[derive(Clone, Copy, Debug, PartialEq, Eq)]
pub enum StatementError {
    Parse(ParseError),
    Bind(Problem),
}

/// Why no bound statement is given for a text.
#[derive(Clone, Copy, Debug, PartialEq, Eq, Error)]
pub enum PrepareError {
    #[error("{0}")]
    Refused(StatementError),
    #[error("out of memory")]
    NoMemory,
}

impl From<AllocError> for BindError {
    ghost from_gives = { λ _ e. e ≡ bind.NoMemory };

    fn from(_refused: AllocError) -> BindError {
        BindError::NoMemory
    }
}

impl From<AllocError> for PrepareError {
    ghost from_gives = { λ _ e. e ≡ prepare.NoMemory };

    fn from(_refused: AllocError) -> PrepareError {
        PrepareError::NoMemory
    }
}

impl fmt::Display for StatementError {
    fn fmt<W: fmt::Write>(&self, f: &mut fmt::Formatter<W>) -> fmt::Result {
        match self {
            StatementError::Bind(problem) => write!(f, "{problem}"),
            StatementError::Parse(ParseError::Unexpected(place)) => {
                write!(f, "at {place}: unexpected")
            }
            StatementError::Parse(ParseError::Lex(error)) => lexical(f, *error),
            StatementError::Parse(ParseError::Memory) => f.write_str("out of memory"),
        }
    }
}

fn lexical<W: fmt::Write>(f: &mut fmt::Formatter<W>, error: LexError) -> fmt::Result {
    match error {
        LexError::BadChar(place) => write!(f, "at {place}: a character that isn't read"),
        LexError::OpenText(place) => write!(f, "at {place}: a text that doesn't end"),
        LexError::NumberTooLarge(place) => write!(f, "at {place}: a number that is too large"),
        LexError::NameTooLong(place) => write!(f, "at {place}: a name of more than 32 bytes"),
        LexError::TooLong => f.write_str("more than 1024 bytes"),
        LexError::Memory => f.write_str("out of memory"),
    }
}
