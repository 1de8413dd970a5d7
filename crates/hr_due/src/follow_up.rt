use hr_engine::TxnId;
use hr_history::{CauseAt, Evidence};

/// What follows from a call, in its turn.
#[derive(Clone, Copy, Debug, PartialEq, Eq)]
pub enum FollowUp {
    /// The transaction is the next of the log.
    Decide { txn: TxnId },
    Refuse { txn: TxnId, cause: CauseAt },
    Convict { replica: u32, evidence: Evidence },
    NewPrimary { replica: u32 },
    /// The transaction is to be rolled back at the replica, and to run again there.
    Preempt { replica: u32, txn: TxnId },
}
