//! Which places each running transaction has written.
ghost use Rattle.std.specs.Prelude.{◌≡◌, ℕ, true, IsSome, IfSome, IfNone, OnOk};
ghost use Rattle.std.specs.Ordering.{nat_cmp};
ghost use Rattle.std.specs.BTreeMap.{get, IsEmpty};
ghost use Rattle.hr_store.specs.Cells.{written_by, is_listed};

use crate::cell::TxnId;
use crate::place::Place;
use hr_rel::Seq;
use std::alloc::{AllocError, Global};
use std::collections::BTreeMap;

/// The places that each transaction may have written, so that its end needs to look at no others.
pub type Written = BTreeMap<TxnId, Seq<Place>>;

/// Lists a place as one that a transaction may write. An error is want of memory.
pub fn list_at(
    alloc: Global,
    written: &mut Written,
    txn: TxnId,
    place: Place,
) -> Result<(), AllocError>
    ensures listed { OnOk result (is_listed place (written_by written.new txn) ≡ true) }
    ensures stays { (u : ℕ) (q : _) → is_listed q (written_by written.old u) ≡ true → is_listed q (written_by written.new u) ≡ true }
{
    if let Some(places) = written.get_mut(&txn) {
        return places.push(place);
    }
    let mut places = Seq::new(alloc);
    places.push(place)?;
    written.insert(txn, places)?;
    Ok(())
}

/// One of the transactions under which places are listed, if there is one.
pub fn first_of(written: &Written) -> Option<TxnId>
    ensures some { IfSome result (λ txn. IsSome (get nat_cmp written.now txn)) }
    ensures none { IfNone result (IsEmpty written.now) }
{
    match written.first_key_value() {
        Some((txn, _)) => Some(*txn),
        None => None,
    }
}
