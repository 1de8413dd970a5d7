//! What a statement has changed is put beside what is committed: rows that its transaction hasn't seen so, and keys at which
//! there is none any more.
ghost use Rattle.std.specs.Prelude.{◌≡◌, ◌++◌, [], ◌∷◌, if◌then◌else◌, true, ℕ, ℤ, IfOk, OnOk, OnErr};
ghost use Rattle.std.specs.List.{list_any};
ghost use Rattle.std.specs.Option.{option_map};
ghost use Rattle.std.specs.Ordering.{is_eq};
ghost use Rattle.hr_rel.specs.Holds.{is_ordered};
ghost use Rattle.hr_meaning.specs.Order.{row_cmp};
ghost use Rattle.hr_meaning.specs.Insert.{has_key};
ghost use Rattle.hr_store.specs.Store.{cell_at, tables_of, put_cell, remove_cell};
ghost use Rattle.hr_range_engine.specs.Shown.{SameCells, seen_by};
ghost use Rattle.hr_range_engine.specs.Changed.{is_row, seen_at, is_seen, new_rows, gone_keys};

use hr_engine::TxnId;
use hr_keys::near;
use hr_rel::{Row, TryCopy, key_of};
use hr_store::Store;
use std::alloc::{AllocError, Global};

/// Puts what a transaction has changed in a table: these are the rows that it leaves, and the keys at which it saw rows. An
/// error is want of memory, and then nothing has changed.
pub fn put_changes(
    alloc: Global,
    store: &mut Store,
    txn: TxnId,
    table: u32,
    rows: &[Row],
    keys: &[i64],
) -> Result<(), AllocError>
    requires { is_ordered rows.now ≡ true }
    ensures changed { OnOk result ((t : ℕ) (k : ℤ) → cell_at store.new t k ≡ put_cell txn table (new_rows (seen_by store.old txn table) rows.now) t k (remove_cell txn table (gone_keys rows.now keys.now) t k (cell_at store.old t k))) }
    ensures err { OnErr result (SameCells store.old store.new) }
    ensures tables { tables_of store.new ≡ tables_of store.old }
{
    let new = new_rows(alloc, store, txn, table, rows)?;
    let gone = gone_keys(alloc, rows, keys)?;
    store.change(alloc, txn, table, new, &gone)
}

fn new_rows(
    alloc: Global,
    store: &Store,
    txn: TxnId,
    table: u32,
    rows: &[Row],
) -> Result<Vec<Row>, AllocError>
    ensures { IfOk result (λ new. new.items ≡ new_rows (seen_by store.now txn table) rows.now) }
{
    let mut new = Vec::new(alloc);
    'rows: for row in rows {
        if !is_seen(store, txn, table, row) {
            new.push(row.try_copy(alloc)?)?;
        }
    }
    Ok(new)
}

fn is_seen(store: &Store, txn: TxnId, table: u32, row: &Row) -> bool
    ensures { result ≡ is_seen (seen_by store.now txn table) row.now }
{
    is_row(row, seen_at(store, txn, table, key_of(row)))
}

fn seen_at(store: &Store, txn: TxnId, table: u32, key: Option<i64>) -> Option<&Row>
    ensures { option_map (λ row. row.now) result ≡ seen_at (seen_by store.now txn table) key }
{
    match key {
        Some(key) => store.get(txn, table, key),
        None => None,
    }
}

fn is_row(row: &Row, other: Option<&Row>) -> bool
    ensures { result ≡ is_row row.now (option_map (λ r. r.now) other.entry) }
{
    match other {
        Some(other) => is_same(row, other),
        None => false,
    }
}

fn is_same(row: &Row, other: &Row) -> bool
    ensures { result ≡ is_eq (row_cmp row.now other.now) }
{
    row.cmp(other).is_eq()
}

fn gone_keys(alloc: Global, rows: &[Row], keys: &[i64]) -> Result<Vec<i64>, AllocError>
    requires { is_ordered rows.now ≡ true }
    ensures { IfOk result (λ gone. gone.items ≡ gone_keys rows.now keys.now) }
{
    let mut gone = Vec::new(alloc);
    'keys: for key in keys {
        push_unless(&mut gone, *key, is_left(rows, *key))?;
    }
    Ok(gone)
}

fn push_unless(gone: &mut Vec<i64>, key: i64, left: bool) -> Result<(), AllocError>
    ensures { OnOk result (gone.new.items ≡ (if left then gone.old.items else gone.old.items ++ key ∷ [])) }
{
    if left {
        return Ok(());
    }
    Ok(gone.push(key)?)
}

// Whether a row has the key: only the one near it is looked at.
fn is_left(rows: &[Row], key: i64) -> bool
    requires { is_ordered rows.now ≡ true }
    ensures { result ≡ list_any (has_key key) rows.now }
{
    let span = near(rows, key);
    contains_key(&rows[span.from..span.to], key)
}

fn contains_key(rows: &[Row], key: i64) -> bool
    ensures { result ≡ list_any (has_key key) rows.now }
{
    rows.iter().any(|row| has_key(key, row))
}

fn has_key(key: i64, row: &Row) -> bool
    ensures { result ≡ has_key key row.now }
{
    match key_of(row) {
        Some(found) => found == key,
        None => false,
    }
}
