use crate::Cause;
use hr_rel::Answer;

/// The reply to a session's last statement, or to its asking for a commit.
#[derive(Drop)]
pub enum Reply {
    Answered(Answer),
    /// Committed, at this place in the log, from 1.
    Committed(u64),
    Refused(Cause),
}

/// How a transaction ended.
#[derive(Drop)]
pub enum Ending {
    /// Committed, at this place in the log, from 1.
    Committed(u64),
    RolledBack,
    Refused(Cause),
}
