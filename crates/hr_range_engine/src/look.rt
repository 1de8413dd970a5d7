//! The rows that a statement looks at are laid into a plain machine, which then runs it.
ghost use Rattle.std.specs.Prelude.{◌≡◌, ◌&&◌, ◌++◌, ℕ, ℤ, true, is_some, IfOk, OnOk};
ghost use Rattle.std.specs.Option.{option_to_list, option_map};
ghost use Rattle.hr_rel.specs.Database.{with_rows};
ghost use Rattle.hr_rel.specs.Holds.{IsOrdered};
ghost use Rattle.hr_statement_laws.proofs.Ascending.{Ascending};
ghost use Rattle.hr_parts.specs.Parts.{covers, row_at};
ghost use Rattle.hr_plan.specs.Needs.{parts_of};
ghost use Rattle.hr_store.specs.Scans.{Rising};
ghost use Rattle.hr_store.specs.Store.{tables_of, is_key_in};
ghost use Rattle.hr_range_engine.specs.Shown.{IsOf, SameCells, seen_by, rows_by, is_within, row_within, widened};

use hr_engine::TxnId;
use hr_locks::Need;
use hr_machine::Machine;
use hr_plan::Span;
use hr_rel::{Row, Seq, Table, TryCopy};
use hr_store::Store;
use std::alloc::{AllocError, Global};

/// Lays the rows that a transaction sees in an interval into their table, in place of all that were there, and tells their
/// keys. An error is want of memory.
pub fn look(
    alloc: Global,
    machine: &mut Machine,
    store: &mut Store,
    txn: TxnId,
    span: Span,
) -> Result<Vec<i64>, AllocError>
    requires ordered { IsOrdered machine.old }
    requires whole { IsOf machine.old.catalog store.old }
    ensures ordered { IsOrdered machine.new }
    ensures catalog { machine.new.catalog ≡ machine.old.catalog }
    ensures same { SameCells store.old store.new }
    ensures tables { tables_of store.new ≡ tables_of store.old }
    ensures keys { IfOk result (λ keys. (k : ℤ) → is_key_in span.table keys.items k ≡ (is_within span.low span.high k && is_some (seen_by store.old txn span.table k))) }
    ensures rows { OnOk result ((k : ℤ) → row_at machine.new span.table k ≡ row_within span.low span.high (seen_by store.old txn span.table) k) }
    ensures others { OnOk result ((t : ℕ) (k : ℤ) → (span.table ≡ t → ⊥) → row_at machine.new t k ≡ row_at machine.old t k) }
{
    let keys = keys_in(alloc, store, txn, span)?;
    let rows = rows_at(alloc, store, txn, span.table, &keys)?;
    fill(machine, span.table, rows);
    Ok(keys)
}

// The keys of an interval at which a transaction sees a row; none where its first key is the greater.
fn keys_in(alloc: Global, store: &mut Store, txn: TxnId, span: Span) -> Result<Vec<i64>, AllocError>
    ensures same { SameCells store.old store.new }
    ensures tables { tables_of store.new ≡ tables_of store.old }
    ensures keys { IfOk result (λ keys. (k : ℤ) → is_key_in span.table keys.items k ≡ (is_within span.low span.high k && is_some (seen_by store.old txn span.table k))) }
    ensures rising { IfOk result (λ keys. Rising keys.items) }
{
    if span.low > span.high {
        return Ok(Vec::new(alloc));
    }
    store.keys(alloc, txn, span.table, span.low, span.high)
}

fn rows_at(
    alloc: Global,
    store: &Store,
    txn: TxnId,
    table: u32,
    keys: &[i64],
) -> Result<Table, AllocError>
    ensures { IfOk result (λ rows. rows ≡ rows_by (seen_by store.now txn table) keys.now) }
{
    let mut rows = Seq::new(alloc);
    'keys: for key in keys {
        push_if(alloc, &mut rows, store.get(txn, table, *key))?;
    }
    Ok(rows)
}

fn push_if(alloc: Global, rows: &mut Table, row: Option<&Row>) -> Result<(), AllocError>
    ensures { OnOk result (rows.new ≡ rows.old ++ option_to_list (option_map (λ r. r.now) row.entry)) }
{
    match row {
        Some(row) => rows.push(row.try_copy(alloc)?),
        None => Ok(()),
    }
}

// A table that isn't there is passed over.
fn fill(machine: &mut Machine, table: u32, rows: Table)
    requires ordered { IsOrdered machine.old }
    requires ascending { Ascending rows }
    ensures { machine.new ≡ with_rows machine.old table rows }
{
    let at = table as usize;
    if at < machine.rows().len() {
        machine.put_table(at, rows);
    }
}

/// Lays the rows that a transaction sees where it needs some into their tables. An error is want of memory.
pub fn look_all(
    alloc: Global,
    machine: &mut Machine,
    store: &mut Store,
    txn: TxnId,
    needs: &[Need<Span>],
) -> Result<(), AllocError>
    requires ordered { IsOrdered machine.old }
    requires whole { IsOf machine.old.catalog store.old }
    ensures ordered { IsOrdered machine.new }
    ensures catalog { machine.new.catalog ≡ machine.old.catalog }
    ensures same { SameCells store.old store.new }
    ensures tables { tables_of store.new ≡ tables_of store.old }
    ensures looked { OnOk result ((t : ℕ) (k : ℤ) → covers (parts_of needs.now) t k ≡ true → row_at machine.new t k ≡ seen_by store.old txn t k) }
{
    'needs: for need in needs {
        let span = wide(needs, need.name.table);
        look(alloc, machine, store, txn, span)?;
    }
    Ok(())
}

// An interval that spans those of all needs of a table.
fn wide(needs: &[Need<Span>], table: u32) -> Span
    ensures table { result.table ≡ table }
    ensures wide { (k : ℤ) → covers (parts_of needs.now) table k ≡ true → is_within result.low result.high k ≡ true }
{
    let mut span = Span {
        table,
        low: i64::MAX,
        high: i64::MIN,
    };
    'needs: for need in needs {
        span = widened(span, need.name);
    }
    span
}

// An interval that has the keys of another one too, if that is of the same table.
fn widened(span: Span, other: Span) -> Span
    ensures { result ≡ widened span other }
{
    if span.table == other.table {
        Span {
            table: span.table,
            low: span.low.min(other.low),
            high: span.high.max(other.high),
        }
    } else {
        span
    }
}
