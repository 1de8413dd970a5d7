use hr_engine::TxnId;
use hr_rel::Seq;

/// Where a transaction stands. It is open while it is Active or Asked.
#[derive(Clone, Copy, Debug, PartialEq, Eq)]
pub enum Phase {
    Active,
    /// Its commit was asked for; this was the history's AskCommit with this number, from 1.
    Asked(u64),
    /// It is decided, at this place in the log, from 1.
    Logged(u64),
    RolledBack,
    Refused,
}

/// The last reply of a replica to a transaction, as far as it still tells of waits.
#[derive(Drop)]
pub enum Last {
    /// It waits for nobody.
    Answered,
    /// It waits for these.
    Blocked(Seq<TxnId>),
    /// This cycle of waits stands.
    Deadlock(Seq<TxnId>),
}

/// The run that the call of this turn replied to.
#[derive(Clone, Copy, Debug, PartialEq, Eq)]
pub struct Fresh {
    pub replica: u32,
    pub txn: TxnId,
}
