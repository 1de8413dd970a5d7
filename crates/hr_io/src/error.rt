//! Why a call of the outside gave no answer.

ghost use Rattle.std.specs.Prelude.{◌≡◌};
ghost use Rattle.hr_io.specs.declared.error.ReadError.TheVariants.{Memory};

use std::alloc::AllocError;
use thiserror::Error;

/// A source or a sink failed at a call, and moved nothing in it.
#[derive(Clone, Copy, Debug, PartialEq, Eq, Error)]
#[error("input or output failed")]
pub struct Failed;

/// Why a whole text wasn't read.
#[derive(Clone, Copy, Debug, PartialEq, Eq, Error)]
pub enum ReadError {
    /// The source had more bytes than the caller takes.
    #[error("too long")]
    TooLong,
    #[error("read fault")]
    Fault,
    #[error("out of memory")]
    Memory,
}

impl From<AllocError> for ReadError {
    ghost from_gives = { λ _ e. e ≡ Memory };

    fn from(_refused: AllocError) -> ReadError {
        ReadError::Memory
    }
}
