use hr_engine::TxnId;
use hr_rel::{Answer, Seq};

/// Why a transaction was refused, as its session is told.
#[derive(Drop)]
pub enum Cause {
    /// The primary told that the statement would close this cycle of waits.
    Deadlock(Seq<TxnId>),
    /// The primary that gave its answers is primary no more.
    PrimaryChanged {
        from: u32,
        why: Why,
    },
    /// More than `f` replicas agree on an answer that isn't the one given to this statement.
    Differ {
        index: u32,
        given: Answer,
        agreed: Answer,
    },
    /// The primary had no memory for the statement.
    PrimaryMemory,
}

/// Why a transaction was refused, as the history keeps it: with the place in it, from 0, of the entry that shows the
/// cause.
#[derive(Clone, Copy, Debug, PartialEq, Eq)]
pub enum CauseAt {
    /// `at` is the Give of the primary's Deadlock.
    Deadlock { at: u64 },
    /// `at` is the Convict, Give or Suspect by which the primary went.
    PrimaryChanged { from: u32, why: Why, at: u64 },
    /// `by` is the lowest of the replicas that agree, and `at` is its Give of that answer.
    Differ { index: u32, by: u32, at: u64 },
    /// `at` is the Give of the primary's NoMemory.
    PrimaryMemory { at: u64 },
}

/// Why a replica is primary no more.
#[derive(Clone, Copy, Debug, PartialEq, Eq)]
pub enum Why {
    Convicted,
    Lost,
    Suspected,
}
