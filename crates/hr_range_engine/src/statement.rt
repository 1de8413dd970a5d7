//! How a statement runs: on what it looks at, in a plain machine; and what it has changed there is put beside what is committed.
ghost use Rattle.std.specs.Prelude.{◌≡◌, ℕ, ℤ, true, false, [], ◌∷◌, IfOk, OnOk, OnErr};
ghost use Rattle.hr_rel.specs.Database.{Database, rows_of};
ghost use Rattle.hr_rel.specs.Holds.{IsOrdered};
ghost use Rattle.hr_meaning.specs.Exec.{exec};
ghost use Rattle.hr_meaning.specs.SameAnswer.{SameAnswer};
ghost use Rattle.hr_parts.specs.Parts.{covers, written};
ghost use Rattle.hr_parts.specs.Keys.{key_parts};
ghost use Rattle.hr_plan.specs.Needs.{parts_of};
ghost use Rattle.hr_store.specs.Store.{cell_at};
ghost use Rattle.hr_lock_engine.specs.Views.{IsView, AreFree, Sees, SameSeen, OthersSee, WroteWithin, NoMoreWrote};
ghost use Rattle.hr_range_engine.specs.Shown.{IsOf, committed_base, seen_by, wrote_by, changed_in};

use crate::look::{look, look_all};
use crate::write::put_changes;
use hr_engine::TxnId;
use hr_locks::{Mode, Need};
use hr_machine::Machine;
use hr_plan::Span;
use hr_rel::{Answer, Row, Stmt};
use hr_store::Store;
use std::alloc::{AllocError, Global};

/// The interval in which a statement with these needs may change rows, if there is one.
pub fn changed_in(needs: &[Need<Span>]) -> Option<Span>
    ensures { result ≡ changed_in needs.now }
{
    match needs {
        [need, ..] => changed_by(need),
        [] => None,
    }
}

fn changed_by(need: &Need<Span>) -> Option<Span>
    ensures { result ≡ changed_in (need.now ∷ []) }
{
    match need.mode {
        Mode::Exclusive => Some(need.name),
        Mode::Shared => None,
    }
}

/// Runs a statement that may change nothing. An error is want of memory.
pub fn read(
    alloc: Global,
    machine: &mut Machine,
    store: &mut Store,
    txn: TxnId,
    stmt: &Stmt,
    needs: &[Need<Span>],
) -> Result<Answer, AllocError>
    requires ordered { IsOrdered machine.old }
    requires whole { IsOf machine.old.catalog store.old }
    requires needs { parts_of needs.now ≡ key_parts stmt.now }
    requires none { (t : ℕ) (k : ℤ) → covers (written (key_parts stmt.now)) t k ≡ false }
    ensures ordered { IsOrdered machine.new }
    ensures whole { IsOf machine.new.catalog store.new }
    ensures answer { IfOk result (λ answer. (db : Database) → IsView (committed_base machine.old.catalog store.old) (seen_by store.old txn) db → SameAnswer (exec db stmt.now).answer answer) }
    ensures after { OnOk result ((db : Database) → IsView (committed_base machine.old.catalog store.old) (seen_by store.old txn) db → Sees (seen_by store.new) txn (exec db stmt.now).after) }
    ensures wrote { NoMoreWrote (wrote_by store.old) (wrote_by store.new) }
    ensures seen { SameSeen (seen_by store.old) (seen_by store.new) }
    ensures base { committed_base machine.new.catalog store.new ≡ committed_base machine.old.catalog store.old }
{
    look_all(alloc, machine, store, txn, needs)?;
    let answer = run_on(machine, stmt)?;
    Ok(answer)
}

/// Runs a statement that may change rows in this interval alone, and writes where its transaction sees another row than before
/// and nowhere else. An error is want of memory, and then nothing has changed.
pub fn change(
    alloc: Global,
    machine: &mut Machine,
    store: &mut Store,
    txn: TxnId,
    stmt: &Stmt,
    span: Span,
) -> Result<Answer, AllocError>
    requires ordered { IsOrdered machine.old }
    requires whole { IsOf machine.old.catalog store.old }
    requires one { key_parts stmt.now ≡ record { table = span.table; low = span.low; high = span.high; written = true } ∷ [] }
    requires free { AreFree (wrote_by store.old) txn (key_parts stmt.now) }
    ensures ordered { IsOrdered machine.new }
    ensures whole { IsOf machine.new.catalog store.new }
    ensures answer { IfOk result (λ answer. (db : Database) → IsView (committed_base machine.old.catalog store.old) (seen_by store.old txn) db → SameAnswer (exec db stmt.now).answer answer) }
    ensures after { OnOk result ((db : Database) → IsView (committed_base machine.old.catalog store.old) (seen_by store.old txn) db → Sees (seen_by store.new) txn (exec db stmt.now).after) }
    ensures wrote { OnOk result (WroteWithin txn (key_parts stmt.now) (wrote_by store.old) (wrote_by store.new)) }
    ensures untouched { OnOk result ((t : ℕ) (k : ℤ) → seen_by store.new txn t k ≡ seen_by store.old txn t k → cell_at store.new t k ≡ cell_at store.old t k) }
    ensures others { OthersSee txn (seen_by store.old) (seen_by store.new) }
    ensures base { committed_base machine.new.catalog store.new ≡ committed_base machine.old.catalog store.old }
    ensures err { OnErr result (SameSeen (seen_by store.old) (seen_by store.new)) }
    ensures err_wrote { OnErr result (NoMoreWrote (wrote_by store.old) (wrote_by store.new)) }
{
    let keys = look(alloc, machine, store, txn, span)?;
    let answer = run_on(machine, stmt)?;
    let rows = rows_of(machine, span.table);
    put_changes(alloc, store, txn, span.table, rows, &keys)?;
    Ok(answer)
}

fn run_on(machine: &mut Machine, stmt: &Stmt) -> Result<Answer, AllocError>
    requires { IsOrdered machine.old }
    ensures answer { IfOk result (λ answer. answer ≡ (exec machine.old stmt.now).answer) }
    ensures after { OnOk result (machine.new ≡ (exec machine.old stmt.now).after) }
    ensures ordered { IsOrdered machine.new }
    ensures catalog { machine.new.catalog ≡ machine.old.catalog }
{
    let answer = machine.run(stmt)?;
    Ok(answer)
}

// The rows of a table; none of one that isn't there.
fn rows_of(machine: &Machine, table: u32) -> &[Row]
    ensures { result.now ≡ rows_of machine.now table }
{
    match machine.rows().as_slice().get(table as usize) {
        Some(rows) => rows.as_slice(),
        None => &[],
    }
}
