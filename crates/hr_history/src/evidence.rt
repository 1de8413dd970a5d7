use hr_engine::TxnId;

/// What shows that a replica isn't correct.
#[derive(Clone, Copy, Debug, PartialEq, Eq)]
pub enum Evidence {
    /// As primary it gave an answer on which more than `f` other replicas agree otherwise.
    Contradicted { txn: TxnId, index: u32 },
    /// It answered the statement of the transaction that it has to commit next otherwise than was accepted.
    Differs { txn: TxnId, index: u32 },
    /// It told this transaction to wait for a list that can't be right.
    BadBlocked { txn: TxnId },
    /// It told this transaction of a cycle of waits that isn't there.
    BadDeadlock { txn: TxnId },
    /// At a restart it told a count of commits that can't be right.
    BadRestart { count: u64 },
}
