use crate::{Row, Seq, TryCopy};
use std::alloc::{AllocError, Global};

/// What a statement answers: the rows of a SELECT, the number of rows that another statement inserted, changed or
/// removed, or the error at which it failed and changed nothing.
#[derive(Debug, PartialEq, Eq)]
pub enum Answer {
    Rows(Seq<Row>),
    Count(u64),
    Failed(RunError),
}

impl Drop for Answer {
    fn drop(self) {
        match self {
            Answer::Rows(_part) => {}
            Answer::Count(_part) => {}
            Answer::Failed(_part) => {}
        }
    }
}

/// Why a statement failed when it ran.
#[derive(Clone, Copy, PartialEq, Eq, Debug)]
pub enum RunError {
    /// An inserted row has this key, and so has another row.
    DuplicateKey(i64),
    /// A number that isn't a signed number of 64 bits.
    Overflow,
    /// NULL for a column that isn't nullable; the column's place from 1.
    NullRefused(u32),
    /// More rows than an answer may have.
    TooManyRows,
    /// The statement doesn't fit the catalog.
    Unfit,
}

impl TryCopy for Answer {
    fn try_copy(&self, alloc: Global) -> Result<Answer, AllocError> {
        match self {
            Answer::Rows(rows) => Ok(Answer::Rows(rows.try_copy(alloc)?)),
            Answer::Count(count) => Ok(Answer::Count(*count)),
            Answer::Failed(error) => Ok(Answer::Failed(*error)),
        }
    }
}
