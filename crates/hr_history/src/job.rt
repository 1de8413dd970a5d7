use hr_engine::{EndReply, RunReply, TxnId};

/// What a replica is to do.
#[derive(Clone, Copy, Debug, PartialEq, Eq)]
pub enum Job {
    /// Run the statement with this index, from 1, of a transaction.
    Run(TxnId, u32),
    Commit(TxnId),
    Rollback(TxnId),
    Restart,
}

/// What a replica replied to its job. A restart that ends the loss tells a count and isn't among these.
#[derive(Drop)]
pub enum JobReply {
    /// To a run.
    Ran(RunReply),
    /// To a commit or a rollback.
    Ended(EndReply),
    /// To a restart: the replica is still lost.
    StillLost,
}
