//! What stands at one place, and what becomes of it.
ghost use Rattle.std.specs.Prelude.{◌≡◌, Some};
ghost use Rattle.std.specs.Option.{option_map};
ghost use Rattle.hr_store.specs.Cells.{seen_in, is_pending_of, with_pending, ended, is_empty};

use crate::ending::Ending;
use hr_rel::Row;

/// The number of a transaction.
pub type TxnId = u64;

/// What stands at a place: the committed row, and beside it what a running transaction has made of it.
pub struct Cell {
    pub committed: Option<Row>,
    pub pending: Option<Pending>,
}

impl Drop for Cell {
    fn drop(self) {
        let Cell {
            committed: _committed,
            pending: _pending,
        } = self;
    }
}

/// What a running transaction has made of a row: another row, or none.
#[derive(Drop)]
pub struct Pending {
    pub txn: TxnId,
    pub row: Option<Row>,
}

impl Cell {
    /// The row that a transaction sees: its own pending one first.
    pub fn seen(&self, txn: TxnId) -> Option<&Row>
        ensures { option_map (λ row. row.now) result ≡ seen_in txn self.now }
    {
        match &self.pending {
            Some(pending) if pending.txn == txn => pending.row.as_ref(),
            _ => self.committed.as_ref(),
        }
    }

    /// Whether nothing stands here.
    pub fn is_empty(&self) -> bool
        ensures { result ≡ is_empty self.now }
    {
        self.committed.is_none() && self.pending.is_none()
    }

    /// Puts a pending row, or that there is none, beside the committed one.
    pub fn write(&mut self, txn: TxnId, row: Option<Row>)
        ensures { self.new ≡ with_pending txn row self.old }
    {
        self.pending = Some(Pending { txn, row });
    }

    /// What a transaction wrote becomes the committed row, or goes.
    pub fn end(&mut self, txn: TxnId, ending: Ending)
        ensures { self.new ≡ ended ending txn self.old }
    {
        if !self.is_pending_of(txn) {
            return;
        }
        let pending = self.pending.take();
        if let (Ending::Commit, Some(pending)) = (ending, pending) {
            self.committed = pending.row;
        }
    }

    fn is_pending_of(&self, txn: TxnId) -> bool
        ensures { result ≡ is_pending_of txn self.now }
    {
        match &self.pending {
            Some(pending) => pending.txn == txn,
            None => false,
        }
    }
}
