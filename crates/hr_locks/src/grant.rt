use crate::TxnId;

/// What a request is answered.
#[derive(Debug, Drop)]
pub enum Grant {
    /// All that it needs is locked.
    Granted,
    /// It has to wait for these: all others that hold what conflicts with it, each once, in ascending order.
    Blocked(Vec<TxnId>),
    /// It would have to wait for itself. The asker comes first; each waits for the next, and the last for the asker.
    Deadlock(Vec<TxnId>),
}

/// The last grant, as long as it can be undone.
#[derive(Clone, Copy)]
pub struct LastGrant {
    pub txn: TxnId,
    /// How many locks there were before.
    pub locks: usize,
}
