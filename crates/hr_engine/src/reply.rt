use hr_rel::{Answer, Seq};

/// A transaction's number. Transactions are numbered from 1.
pub type TxnId = u64;

/// What a backend replies to a statement.
#[derive(Debug, PartialEq, Eq, Drop)]
pub enum RunReply {
    /// The statement ran; its answer is canonical. A statement that fails is answered so too, and changes nothing.
    Done(Answer),
    /// The statement has to wait for these transactions to end, in ascending order. Nothing changed.
    Blocked(Seq<TxnId>),
    /// The statement would close this cycle of waits: the asker first, then each waits for the next, and the last
    /// for the asker. Nothing changed, and nobody was rolled back.
    Deadlock(Seq<TxnId>),
    /// The backend has lost its running transactions. Nothing else is answered before a restart.
    Lost,
    /// There was no memory for it. Nothing changed.
    NoMemory,
}

/// What a backend replies to a commit or a rollback.
#[derive(Clone, Copy, Debug, PartialEq, Eq)]
pub enum EndReply {
    Done,
    /// The backend has lost its running transactions. A commit that is answered so is in doubt until the restart.
    Lost,
}

/// A restart failed: the backend is still lost.
#[derive(Clone, Copy, Debug, PartialEq, Eq)]
pub struct Lost;
