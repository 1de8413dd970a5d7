//! Why a text wasn't read.

ghost use Rattle.std.specs.Prelude.{◌≡◌};
ghost use Rattle.hr_reader.specs.declared.error.ReadError.TheVariants.{NoMemory};

use hr_said::InputKind;
use std::alloc::AllocError;
use thiserror::Error;

/// Why a text was not read to a scenario.
#[derive(Clone, Copy, Debug, PartialEq, Eq, Error)]
pub enum ReadError {
    /// The text is no scenario.
    #[error("{0}")]
    Refused(InputError),
    #[error("out of memory")]
    NoMemory,
}

/// What is wrong with a text, and at which line. For whom the word of the kind is too little: a kind `Statement` has the
/// place within what the line holds, without the blanks before it, and a kind `Row` has the cause.
#[derive(Clone, Copy, Debug, PartialEq, Eq, Error)]
#[error("line {line}: {kind}")]
pub struct InputError {
    /// The line, counted from 1; one more than there are where the text ends too early, and 0 where the text as a whole is
    /// refused.
    pub line: u32,
    pub kind: InputKind,
}

impl From<AllocError> for ReadError {
    ghost from_gives = { λ _ e. e ≡ NoMemory };

    fn from(_refused: AllocError) -> ReadError {
        ReadError::NoMemory
    }
}
