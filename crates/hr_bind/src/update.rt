//! UPDATE: what it is bound to.
ghost use Rattle.std.specs.Prelude.{◌≡◌, map, IfOk};
ghost use Rattle.hr_names.specs.Seen.{seen};
ghost use Rattle.hr_bind.specs.Bound as bound;

use crate::cond::bound_filter;
use crate::expr::bound_expr;
use crate::operand::small;
use hr_names::{ScopeRef, column_of};
use hr_parse::{SetAst, UpdateAst};
use hr_rel::{ColumnDef, Seq, Set, UpdateStmt};
use std::alloc::{AllocError, Global};

fn bound_set(
    alloc: Global,
    scope: ScopeRef,
    columns: &[ColumnDef],
    set: &SetAst,
) -> Result<Set, AllocError>
    ensures { IfOk result (λ s. s ≡ bound.bound_set (seen scope.entry) columns.now set.now) }
{
    let column = match column_of(columns, set.column.name.bytes()) {
        Some(column) => small(column)?,
        None => 0,
    };
    Ok(Set {
        column,
        value: bound_expr(alloc, scope, &set.value)?,
    })
}

fn bound_sets(
    alloc: Global,
    scope: ScopeRef,
    columns: &[ColumnDef],
    sets: &[SetAst],
) -> Result<Vec<Set>, AllocError>
    ensures { IfOk result (λ all. all.items ≡ map (bound.bound_set (seen scope.entry) columns.now) sets.now) }
{
    let mut all = Vec::with_capacity(alloc, sets.len())?;
    for set in sets {
        all.push(bound_set(alloc, scope, columns, set)?)?;
    }
    Ok(all)
}

/// The bound UPDATE of this table.
pub fn bound_update(
    alloc: Global,
    table: u32,
    scope: ScopeRef,
    columns: &[ColumnDef],
    update: &UpdateAst,
) -> Result<UpdateStmt, AllocError>
    ensures { IfOk result (λ s. s ≡ bound.bound_update table (seen scope.entry) columns.now update.now) }
{
    let sets = bound_sets(alloc, scope, columns, update.sets.as_slice())?;
    Ok(UpdateStmt {
        table,
        sets: Seq::from_vec(sets),
        filter: bound_filter(alloc, scope, &update.filter)?,
    })
}
