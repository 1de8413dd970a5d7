ghost use Rattle.std.specs.Prelude.{◌≡◌};
ghost use Rattle.hr_shepherd.specs.declared.refusal.Refusal.TheVariants as refusal;

use std::alloc::AllocError;
use thiserror::Error;

/// Why a call is refused. A refused call changes nothing.
#[derive(Clone, Copy, Debug, PartialEq, Eq, Error)]
pub enum Refusal {
    /// The transaction is no open one of the caller's session.
    #[error("no such open transaction")]
    NotOpen,
    /// The session has an open transaction already.
    #[error("a transaction is open already")]
    AlreadyOpen,
    /// No more statements may be submitted, in this transaction or at all.
    #[error("too many statements")]
    StatementLimit,
    /// The session waits for a reply.
    #[error("a reply is still to come")]
    Busy,
    #[error("out of memory")]
    Memory,
}

impl From<AllocError> for Refusal {
    ghost from_gives = { λ _ e. e ≡ refusal.Memory };

    fn from(_refused: AllocError) -> Refusal {
        Refusal::Memory
    }
}
