//! The rows, from their first call on.

use crate::play::Step;
use crate::told::Told;

/// Refusals in their order, of a fresh shepherd of one replica and one session.
pub const SHEPHERD_REFUSALS: [Step; 5] = [
    Step::Begin(1),
    Step::Begin(1),
    Step::Submit(1, 1, 7),
    Step::Submit(1, 1, 8),
    Step::Submit(1, 2, 8),
];

/// Then the primary answers.
pub const PRIMARY_ANSWERS: [Step; 4] = [
    Step::Collect(1),
    Step::Take(0),
    Step::Give(0, Told::Wrote),
    Step::Collect(1),
];

/// Then the commit is decided in the turn in which it is asked for.
pub const DECIDED_AT_ONCE: [Step; 6] = [
    Step::AskCommit(1, 1),
    Step::Ending(1),
    Step::AskRollback(1, 1),
    Step::Suspect(0),
    Step::Take(0),
    Step::Collect(1),
];

/// The primary has no memory for a statement.
pub const PRIMARY_MEMORY: [Step; 6] = [
    Step::Begin(1),
    Step::Submit(1, 1, 7),
    Step::Take(0),
    Step::Give(0, Told::NoMemory),
    Step::Collect(1),
    Step::Ending(1),
];

/// The only replica is lost in a commit that it had made, so it can't be the primary before it is restarted.
pub const COMMIT_IN_DOUBT: [Step; 9] = [
    Step::Begin(1),
    Step::AskCommit(1, 1),
    Step::Take(0),
    Step::Give(0, Told::EndLost),
    Step::Take(0),
    Step::Give(0, Told::StillLost),
    Step::Take(0),
    Step::Restarted(0, 1),
    Step::Collect(1),
];

/// A reader's answer was given after a commit, and at a replica that hasn't processed it the reader waits.
pub const BARRIER_CALLS: [Step; 18] = [
    Step::Begin(1),
    Step::Begin(2),
    Step::Submit(1, 1, 7),
    Step::Take(0),
    Step::Give(0, Told::Wrote),
    Step::Take(1),
    Step::Give(1, Told::Wrote),
    Step::AskCommit(1, 1),
    Step::Submit(2, 2, 8),
    Step::Take(0),
    Step::Give(0, Told::Ended),
    Step::Take(0),
    Step::Give(0, Told::Read(9)),
    Step::TakeJob(2),
    Step::Give(2, Told::Wrote),
    Step::TakeJob(2),
    Step::Give(2, Told::Ended),
    Step::TakeJob(2),
];

/// Every refusal of every call: of a transaction that isn't there, of another session's, while the session waits, and of one
/// that has ended.
pub const EVERY_REFUSAL: [Step; 30] = [
    Step::Submit(1, 1, 7),
    Step::AskCommit(1, 1),
    Step::AskRollback(1, 1),
    Step::Submit(1, 0, 7),
    Step::Collect(1),
    Step::Ending(1),
    Step::Take(0),
    Step::TakeJob(0),
    Step::Begin(1),
    Step::Begin(1),
    Step::Submit(2, 1, 7),
    Step::AskCommit(2, 1),
    Step::AskRollback(2, 1),
    Step::Submit(1, 1, 7),
    Step::Submit(1, 1, 8),
    Step::AskCommit(1, 1),
    Step::AskRollback(1, 1),
    Step::Submit(2, 1, 8),
    Step::Take(0),
    Step::Take(0),
    Step::Give(0, Told::Wrote),
    Step::AskRollback(1, 1),
    Step::Ending(1),
    Step::Collect(1),
    Step::Submit(1, 1, 8),
    Step::AskCommit(1, 1),
    Step::AskRollback(1, 1),
    Step::Take(0),
    Step::Give(0, Told::Ended),
    Step::Take(0),
];

/// Every cause for which a transaction is refused, and every reason for which a primary goes.
pub const EVERY_CAUSE: [Step; 66] = [
    // the primary tells of a cycle of waits
    Step::Begin(1),
    Step::Begin(2),
    Step::Submit(1, 1, 7),
    Step::Take(0),
    Step::Give(0, Told::Wrote),
    Step::Submit(2, 2, 7),
    Step::Take(0),
    Step::Give(0, Told::Wrote),
    Step::Submit(1, 1, 8),
    Step::Take(0),
    Step::Give(0, Told::Blocked(2)),
    Step::Submit(2, 2, 8),
    Step::Take(0),
    Step::Give(0, Told::Deadlock(2, 1)),
    Step::Collect(2),
    Step::Ending(2),
    // it is suspected
    Step::Suspect(0),
    Step::Collect(1),
    // the next one is lost
    Step::Begin(1),
    Step::Submit(1, 3, 7),
    Step::Take(1),
    Step::Give(1, Told::RunLost),
    Step::Collect(1),
    Step::Take(1),
    Step::Give(1, Told::StillLost),
    Step::Take(1),
    Step::Restarted(1, 0),
    Step::Take(1),
    // the next one gives an answer that the two others contradict
    Step::Begin(1),
    Step::Begin(2),
    Step::Submit(1, 4, 7),
    Step::Take(2),
    Step::Give(2, Told::Wrote),
    Step::AskCommit(1, 4),
    Step::Submit(1, 4, 8),
    Step::AskCommit(1, 4),
    Step::AskRollback(1, 4),
    Step::Begin(1),
    Step::Collect(1),
    Step::Ending(4),
    Step::Take(0),
    Step::Give(0, Told::Ended),
    Step::Take(0),
    Step::Give(0, Told::Ended),
    Step::Take(0),
    Step::Give(0, Told::Read(9)),
    Step::Take(1),
    Step::Give(1, Told::Read(9)),
    Step::Collect(1),
    Step::Ending(4),
    Step::Collect(2),
    Step::Ending(5),
    // a replica that is no primary is lost, and tells a wrong count
    Step::Take(1),
    Step::Give(1, Told::EndLost),
    Step::Take(1),
    Step::Restarted(1, 5),
    Step::Take(1),
    // and the primary is all that is left
    Step::Suspect(0),
    Step::Begin(1),
    Step::Submit(1, 6, 7),
    Step::Take(0),
    Step::Give(0, Told::Ended),
    Step::Take(0),
    Step::Give(0, Told::NoMemory),
    Step::Collect(1),
    Step::Ending(9),
];

/// Of a transaction of one session that has had 99 answers: while the session waits it is busy, and not at the limit.
pub const STATEMENT_LIMIT: [Step; 6] = [
    Step::Submit(1, 1, 7),
    Step::Submit(1, 1, 8),
    Step::Take(0),
    Step::Give(0, Told::Wrote),
    Step::Submit(1, 1, 8),
    Step::AskCommit(1, 1),
];

/// After 4,000 answers, of 41 sessions.
pub const HISTORY_LIMIT: [Step; 3] = [
    Step::Begin(41),
    Step::Submit(41, 41, 7),
    Step::AskRollback(41, 41),
];
