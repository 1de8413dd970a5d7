ghost use Rattle.std.specs.Prelude.{IsTrue};
ghost use Rattle.hr_base.specs.Lists.{is_ascending};

use crate::TxnId;

/// Whom a transaction waits for.
pub struct Wait {
    pub txn: TxnId,
    /// Each once, in ascending order.
    pub names: Vec<TxnId>,
    ghost ascending: { IsTrue (is_ascending names.items) },
}

impl Drop for Wait {
    fn drop(self) {
        let Wait {
            txn: _txn,
            names: _names,
        } = self;
    }
}
