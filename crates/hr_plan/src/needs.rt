//! What a statement needs at an engine that locks ranges of keys.
ghost use Rattle.std.specs.Prelude.{◌≡◌, ◌++◌, IfOk, OnOk};
ghost use Rattle.hr_locks.specs.Locks.{is_exclusive};
ghost use Rattle.hr_parts.specs.Keys.{key_part, entry_parts, key_parts};
ghost use Rattle.hr_plan.specs.Needs.{parts_of};

use crate::condition::{kept_keys, new_keys, select_keys};
use crate::span::Span;
use hr_locks::{Mode, Need};
use hr_parts::Keys;
use hr_rel::{SelectStmt, Stmt};
use std::alloc::{AllocError, Global};

/// One need for each table entry of the statement, in their order, or none for an entry whose interval is empty: shared for a
/// SELECT, exclusive for all others. What doesn't fit a catalog has needs too, those of its text.
pub fn intervals(alloc: Global, stmt: &Stmt) -> Result<Vec<Need<Span>>, AllocError>
    ensures { IfOk result (λ needs. parts_of needs.items ≡ key_parts stmt.now) }
{
    let mut needs = Vec::new(alloc);
    match stmt {
        Stmt::Select(select) => put_entries(&mut needs, select)?,
        Stmt::Insert(insert) => put(
            &mut needs,
            Mode::Exclusive,
            insert.table,
            new_keys(insert.rows.as_slice()),
        )?,
        Stmt::Update(update) => put(
            &mut needs,
            Mode::Exclusive,
            update.table,
            kept_keys(0, &update.filter),
        )?,
        Stmt::Delete(delete) => put(
            &mut needs,
            Mode::Exclusive,
            delete.table,
            kept_keys(0, &delete.filter),
        )?,
    }
    Ok(needs)
}

fn put_entries(needs: &mut Vec<Need<Span>>, select: &SelectStmt) -> Result<(), AllocError>
    ensures { OnOk result (parts_of needs.new.items ≡ parts_of needs.old.items ++ entry_parts 0 select.now select.now.tables) }
{
    let tables = select.tables.as_slice();
    'entries: for entry in 0..tables.len() {
        put(
            needs,
            Mode::Shared,
            tables[entry],
            select_keys(entry, select),
        )?;
    }
    Ok(())
}

fn put(
    needs: &mut Vec<Need<Span>>,
    mode: Mode,
    table: u32,
    keys: Option<Keys>,
) -> Result<(), AllocError>
    ensures { OnOk result (parts_of needs.new.items ≡ parts_of needs.old.items ++ key_part (is_exclusive mode) table keys) }
{
    let Some(keys) = keys else {
        return Ok(());
    };
    let name = Span {
        table,
        low: keys.low,
        high: keys.high,
    };
    needs.push(Need { name, mode })?;
    Ok(())
}
