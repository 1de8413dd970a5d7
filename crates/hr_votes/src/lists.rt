//! Lists of transactions.
ghost use Rattle.std.specs.Prelude.{◌≡◌};
ghost use Rattle.hr_base.specs.Lists as lists;

use hr_engine::TxnId;

/// Whether a list has a transaction.
pub fn has(txns: &[TxnId], txn: TxnId) -> bool
    ensures { result ≡ lists.has txns.now txn }
{
    'txns: for one in txns {
        if *one == txn {
            return true;
        }
    }
    false
}

/// Whether each is greater than the one before.
pub fn is_ascending(txns: &[TxnId]) -> bool
    ensures { result ≡ lists.is_ascending txns.now }
{
    'txns: for place in 1..txns.len() {
        if txns[place] <= txns[place - 1] {
            return false;
        }
    }
    true
}

/// Whether none stands in it twice.
pub fn is_distinct(txns: &[TxnId]) -> bool
    ensures { result ≡ lists.is_distinct txns.now }
{
    'txns: for place in 0..txns.len() {
        let (_front, behind) = txns.split_at(place + 1);
        if has(behind, txns[place]) {
            return false;
        }
    }
    true
}
