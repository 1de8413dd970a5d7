/// What the votes say of a transaction.
#[derive(Clone, Copy, Debug, PartialEq, Eq)]
pub enum Tally {
    /// Its commit wasn't asked for, or no `f + 1` ready replicas agree.
    Undecided,
    /// `f + 1` ready replicas agree on the given answers.
    Accept,
    /// `f + 1` ready replicas agree on others. The first that differs is the answer to the statement with this index, from
    /// 1, and `by` is the lowest of these replicas.
    Differ { index: u32, by: u32 },
}

/// What a restart's count of commits says.
#[derive(Clone, Copy, Debug, PartialEq, Eq)]
pub enum Settled {
    /// The replica has committed so many transactions.
    At(u64),
    /// No correct replica tells this count.
    Wrong,
}
