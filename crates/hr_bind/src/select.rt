//! SELECT: what it is bound to.
ghost use Rattle.std.specs.Prelude.{◌≡◌, ◌++◌, map, length, IfOk, OnOk};
ghost use Rattle.std.specs.List.{range_with_len};
ghost use Rattle.hr_names.specs.Seen.{seen};
ghost use Rattle.hr_bind.specs.Bound as bound;

use crate::cond::{bound_cond, bound_filter};
use crate::expr::bound_expr;
use crate::operand::{bound_column, small};
use hr_names::{EntryRef, ScopeRef};
use hr_parse::{AggWord, ColumnAst, ItemAst, Items, JoinAst, SelectAst};
use hr_rel::{ColRef, Expr, Item, Pred, SelectStmt, Seq};
use std::alloc::{AllocError, Global};

fn bound_aggregate(word: AggWord, column: ColRef) -> Item
    ensures { result ≡ bound.bound_aggregate word column }
{
    match word {
        AggWord::Count => Item::Count(column),
        AggWord::Sum => Item::Sum(column),
        AggWord::Min => Item::Min(column),
        AggWord::Max => Item::Max(column),
    }
}

fn bound_item(alloc: Global, scope: ScopeRef, item: &ItemAst) -> Result<Item, AllocError>
    ensures { IfOk result (λ i. i ≡ bound.bound_item (seen scope.entry) item.now) }
{
    match item {
        ItemAst::Plain(expr) => Ok(Item::Plain(bound_expr(alloc, scope, expr)?)),
        ItemAst::CountAll(_) => Ok(Item::CountAll),
        ItemAst::Aggregate { word, column, .. } => {
            Ok(bound_aggregate(*word, bound_column(scope, column)?))
        }
    }
}

fn listed_items(alloc: Global, scope: ScopeRef, items: &[ItemAst]) -> Result<Vec<Item>, AllocError>
    ensures { IfOk result (λ all. all.items ≡ map (bound.bound_item (seen scope.entry)) items.now) }
{
    let mut all = Vec::with_capacity(alloc, items.len())?;
    for item in items {
        all.push(bound_item(alloc, scope, item)?)?;
    }
    Ok(all)
}

/// An item for each column of an entry, in table order.
fn push_columns(all: &mut Vec<Item>, number: u32, entry: EntryRef) -> Result<(), AllocError>
    ensures { OnOk result (all.new.items ≡ all.old.items ++ map (bound.column_item number) (range_with_len 0 (length entry.entry.columns.now))) }
{
    for place in 0..entry.columns.len() {
        let column = ColRef {
            entry: number,
            column: small(place)?,
        };
        all.push(Item::Plain(Expr::Col(column)))?;
    }
    Ok(())
}

fn star_items(alloc: Global, scope: ScopeRef) -> Result<Vec<Item>, AllocError>
    ensures { IfOk result (λ all. all.items ≡ bound.all_columns 0 (seen scope.entry)) }
{
    let mut all = Vec::new(alloc);
    match scope {
        ScopeRef::One(first) => push_columns(&mut all, 0, first)?,
        ScopeRef::Two(first, second) => {
            push_columns(&mut all, 0, first)?;
            push_columns(&mut all, 1, second)?;
        }
    }
    Ok(all)
}

fn bound_items(alloc: Global, scope: ScopeRef, items: &Items) -> Result<Vec<Item>, AllocError>
    ensures { IfOk result (λ all. all.items ≡ bound.bound_items (seen scope.entry) items.now) }
{
    match items {
        Items::Star(_) => star_items(alloc, scope),
        Items::Listed(all) => listed_items(alloc, scope, all.as_slice()),
    }
}

fn bound_groups(
    alloc: Global,
    scope: ScopeRef,
    groups: &[ColumnAst],
) -> Result<Vec<ColRef>, AllocError>
    ensures { IfOk result (λ all. all.items ≡ map (bound.bound_column (seen scope.entry)) groups.now) }
{
    let mut all = Vec::with_capacity(alloc, groups.len())?;
    for group in groups {
        all.push(bound_column(scope, group)?)?;
    }
    Ok(all)
}

fn bound_on(
    alloc: Global,
    scope: ScopeRef,
    join: &Option<JoinAst>,
) -> Result<Option<Pred>, AllocError>
    ensures { IfOk result (λ p. p ≡ bound.bound_on (seen scope.entry) join.now) }
{
    match join {
        Some(join) => Ok(Some(bound_cond(alloc, scope, &join.on)?)),
        None => Ok(None),
    }
}

/// The bound SELECT over these tables.
pub fn bound_select(
    alloc: Global,
    tables: Seq<u32>,
    scope: ScopeRef,
    select: &SelectAst,
) -> Result<SelectStmt, AllocError>
    ensures { IfOk result (λ s. s ≡ bound.bound_select tables (seen scope.entry) select.now) }
{
    let on = bound_on(alloc, scope, &select.join)?;
    let filter = bound_filter(alloc, scope, &select.filter)?;
    let items = bound_items(alloc, scope, &select.items)?;
    let groups = bound_groups(alloc, scope, select.groups.as_slice())?;
    Ok(SelectStmt {
        tables,
        on,
        filter,
        items: Seq::from_vec(items),
        groups: Seq::from_vec(groups),
    })
}
