use crate::{CauseAt, Evidence, Job, JobReply};
use hr_engine::TxnId;
use hr_rel::Stmt;

/// One entry of a history: what happened, and whose call it was.
#[derive(Drop)]
pub struct Entry {
    /// 0 is the root, replica `r` is `r + 1`, and session `s` is `2f + 1 + s`. What follows from a call carries the
    /// number of that call's caller.
    pub caller: u64,
    pub event: Event,
}

/// What happened. Sessions are numbered from 1, replicas from 0, and transactions and statements from 1.
///
/// The first eight are calls. The others follow from a call, in the same turn.
#[derive(Drop)]
pub enum Event {
    /// A session began its next transaction.
    Begin { session: u32, txn: TxnId },
    /// A session submitted the next statement of its open transaction.
    Submit { txn: TxnId, index: u32, stmt: Stmt },
    /// A session asked for its open transaction to be committed.
    AskCommit { txn: TxnId },
    /// A session had its open transaction rolled back.
    AskRollback { txn: TxnId },
    /// A replica was given a job.
    Take { replica: u32, job: Job },
    /// A replica replied to its job.
    Give { replica: u32, reply: JobReply },
    /// A replica was restarted, and told how many commits it has made.
    Restarted { replica: u32, count: u64 },
    /// Somebody suspects the primary.
    Suspect,
    /// A transaction is decided: it is the next of the log, and its given answers are accepted.
    Decide { txn: TxnId },
    /// A transaction is refused.
    Refuse { txn: TxnId, cause: CauseAt },
    /// A replica is convicted, and is given no more jobs.
    Convict { replica: u32, evidence: Evidence },
    /// A replica becomes the primary.
    NewPrimary { replica: u32 },
    /// A transaction is to be rolled back at one replica, and to run again there.
    Preempt { replica: u32, txn: TxnId },
}
