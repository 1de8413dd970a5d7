//! Entries as they are stored.

use hr_engine::{EndReply, TxnId};
use hr_history::{CauseAt, Evidence, Job};

/// One entry of the history: what happened, and whose call it was.
#[derive(Clone, Copy, Debug, PartialEq, Eq)]
pub struct Stored {
    /// 0 is the root, replica `r` is `r + 1`, and session `s` is `2f + 1 + s`.
    pub caller: u64,
    pub event: StoredEvent,
}

/// What happened, with `at` for the place of a statement among all that were submitted, or of a reply among all replies to
/// runs, from 0.
#[derive(Clone, Copy, Debug, PartialEq, Eq)]
pub enum StoredEvent {
    Begin { session: u32, txn: TxnId },
    Submit { txn: TxnId, index: u32, at: usize },
    AskCommit { txn: TxnId },
    AskRollback { txn: TxnId },
    Take { replica: u32, job: Job },
    /// A replica replied to a run.
    Ran { replica: u32, at: usize },
    /// A replica replied to a commit or a rollback.
    Ended { replica: u32, reply: EndReply },
    /// A restart didn't end the loss.
    StillLost { replica: u32 },
    Restarted { replica: u32, count: u64 },
    Suspect,
    Decide { txn: TxnId },
    Refuse { txn: TxnId, cause: CauseAt },
    Convict { replica: u32, evidence: Evidence },
    NewPrimary { replica: u32 },
    Preempt { replica: u32, txn: TxnId },
}
