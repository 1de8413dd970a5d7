//! Why a line wasn't read.

ghost use Rattle.std.specs.Prelude.{◌≡◌};
ghost use Rattle.hr_said.specs.declared.error.LineError.TheVariants.{NoMemory};

use hr_bind::StatementError;
use hr_rel::RunError;
use std::alloc::AllocError;
use std::fmt;

/// What may be wrong with a text. Of several that apply to a line, the first of these is told.
#[derive(Clone, Copy, Debug, PartialEq, Eq)]
pub enum InputKind {
    /// The text has more bytes than a scenario may have.
    TooLong,
    /// The line has more bytes than a line may have.
    LineTooLong,
    /// The line has a byte that may not stand in a line.
    BadByte,
    /// The first line names another version.
    Version,
    /// The line has no form that may stand there.
    Form,
    /// The line passes a limit.
    Limit,
    /// It names an engine, a table, a column, a replica or a session that isn't there.
    Unknown,
    /// It names a table, a column, an index or a replica's call again.
    Repeated,
    /// Its statement, or its tuple, isn't one of the catalog; why, and where in the line.
    Statement(StatementError),
    /// Its row can't be inserted; why.
    Row(RunError),
    /// The text ends too early, or a transaction has no end where its session ends.
    Unended,
}

/// Why a line wasn't read.
#[derive(Clone, Copy, Debug, PartialEq, Eq)]
pub enum LineError {
    Refused(InputKind),
    NoMemory,
}

impl fmt::Display for InputKind {
    fn fmt<W: fmt::Write>(&self, f: &mut fmt::Formatter<W>) -> fmt::Result {
        f.write_str(match self {
            InputKind::TooLong => "toolong",
            InputKind::LineTooLong => "linetoolong",
            InputKind::BadByte => "badbyte",
            InputKind::Version => "version",
            InputKind::Form => "form",
            InputKind::Limit => "limit",
            InputKind::Unknown => "unknown",
            InputKind::Repeated => "repeated",
            InputKind::Statement(_) => "statement",
            InputKind::Row(_) => "row",
            InputKind::Unended => "unended",
        })
    }
}

impl From<AllocError> for LineError {
    ghost from_gives = { λ _ e. e ≡ NoMemory };

    fn from(_refused: AllocError) -> LineError {
        LineError::NoMemory
    }
}
