use hr_engine::TxnId;

/// One try of a block of a session's script.
#[derive(Clone, Copy, Debug, PartialEq, Eq)]
pub struct Try {
    /// The block's number in the script, from 1.
    pub block: usize,
    /// Which try of the block this is, from 1.
    pub number: u64,
    /// The transaction that it began.
    pub txn: TxnId,
}
