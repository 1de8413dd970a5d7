//! SELECT: what is wrong with it.
ghost use Rattle.std.specs.Prelude.{◌≡◌, flat_map};
ghost use Rattle.std.specs.List.{list_any};
ghost use Rattle.hr_problem.specs.Problems.{least};
ghost use Rattle.hr_names.specs.Scope as scopes;
ghost use Rattle.hr_names.specs.Operands as operands;
ghost use Rattle.hr_check.specs.Statements as spec;
ghost use Rattle.hr_names.specs.Seen.{seen};

use crate::cond::{cond_problem, filter_problem};
use crate::expr::expr_problem;
use hr_base::limits::MAX_ITEMS;
use hr_names::{Place, ScopeRef, column_kind, column_problem, meant, mismatch};
use hr_parse::{AggWord, ColumnAst, ExprAst, ExprKind, ItemAst, Items, JoinAst, NameAt, SelectAst};
use hr_problem::{Problem, ProblemKind, problem_where, sooner};
use hr_rel::ColKind;

fn is_aggregate(item: &ItemAst) -> bool
    ensures { result ≡ spec.is_aggregate item.now }
{
    match item {
        ItemAst::Plain(_) => false,
        ItemAst::CountAll(_) | ItemAst::Aggregate { .. } => true,
    }
}

fn any_aggregate(items: &[ItemAst]) -> bool
    ensures { result ≡ list_any spec.is_aggregate items.now }
{
    items.iter().any(|item| is_aggregate(item))
}

fn has_aggregate(items: &Items) -> bool
    ensures { result ≡ spec.has_aggregate items.now }
{
    match items {
        Items::Star(_) => false,
        Items::Listed(all) => any_aggregate(all.as_slice()),
    }
}

/// Whether a SELECT has GROUP BY or an aggregate.
fn is_grouping(select: &SelectAst) -> bool
    ensures { result ≡ spec.is_grouping select.now }
{
    !select.groups.is_empty() || has_aggregate(&select.items)
}

fn same_second(a: &Option<NameAt>, b: &Option<NameAt>) -> bool
    ensures { result ≡ spec.same_second a.now b.now }
{
    match (a, b) {
        (None, None) => true,
        (Some(a), Some(b)) => a.name.bytes() == b.name.bytes(),
        _ => false,
    }
}

fn written_alike(column: &ColumnAst, group: &ColumnAst) -> bool
    ensures { result ≡ spec.written_alike column.now group.now }
{
    column.first.name.bytes() == group.first.name.bytes()
        && same_second(&column.second, &group.second)
}

fn is_meant(scope: ScopeRef, group: &ColumnAst, place: Place) -> bool
    ensures { result ≡ spec.is_meant (scopes.meant (seen scope.entry) group.now) place }
{
    match meant(scope, group) {
        Ok(other) => place.entry == other.entry && place.column == other.column,
        Err(_) => false,
    }
}

/// Whether a column is that of GROUP BY: both mean the same one. One that isn't found is written like it.
fn is_same(scope: ScopeRef, column: &ColumnAst, group: &ColumnAst) -> bool
    ensures { result ≡ spec.is_same (seen scope.entry) column.now group.now }
{
    match meant(scope, column) {
        Ok(place) => is_meant(scope, group, place),
        Err(_) => written_alike(column, group),
    }
}

fn has_same(scope: ScopeRef, groups: &[ColumnAst], column: &ColumnAst) -> bool
    ensures { result ≡ list_any (spec.is_same (seen scope.entry) column.now) groups.now }
{
    match groups {
        [] => false,
        [group, rest @ ..] => { is_same(scope, column, group) || has_same(scope, rest, column) }
    }
}

fn is_group(scope: ScopeRef, groups: &[ColumnAst], item: &ExprAst) -> bool
    ensures { result ≡ spec.is_group_item (seen scope.entry) groups.now item.now }
{
    match &item.kind {
        ExprKind::Column(column) => has_same(scope, groups, column.get()),
        _ => false,
    }
}

fn sum_problem(word: AggWord, kind: Option<ColKind>, at: u32) -> Option<Problem>
    ensures { result ≡ least (spec.sum_problems word kind at) }
{
    match word {
        AggWord::Sum => mismatch(Some(ColKind::Int), kind, at),
        AggWord::Count | AggWord::Min | AggWord::Max => None,
    }
}

#[tactic(auto, using(hr_problem::proofs::Least::least_append))]
fn plain_problem(scope: ScopeRef, select: &SelectAst, item: &ExprAst) -> Option<Problem>
    ensures { result ≡ least (spec.plain_problems (seen scope.entry) select.now item.now) }
{
    let mixed = is_grouping(select) && !is_group(scope, select.groups.as_slice(), item);
    sooner(
        expr_problem(scope, item),
        problem_where(mixed, ProblemKind::AggregateMix, item.at),
    )
}

#[tactic(auto, using(hr_problem::proofs::Least::least_append))]
fn item_problem(scope: ScopeRef, select: &SelectAst, item: &ItemAst) -> Option<Problem>
    ensures { result ≡ least (spec.item_problems (seen scope.entry) select.now item.now) }
{
    match item {
        ItemAst::Plain(expr) => plain_problem(scope, select, expr),
        ItemAst::CountAll(_) => None,
        ItemAst::Aggregate { word, column, .. } => {
            let kind = column_kind(scope, column);
            sooner(
                column_problem(scope, column),
                sum_problem(*word, kind, column.first.at),
            )
        }
    }
}

#[tactic(auto, using(hr_problem::proofs::Least::least_append))]
fn each_item_problem(scope: ScopeRef, select: &SelectAst, items: &[ItemAst]) -> Option<Problem>
    ensures { result ≡ least (flat_map (spec.item_problems (seen scope.entry) select.now) items.now) }
{
    match items {
        [] => None,
        [item, rest @ ..] => sooner(
            item_problem(scope, select, item),
            each_item_problem(scope, select, rest),
        ),
    }
}

fn item_at(item: &ItemAst) -> u32
    ensures { result ≡ spec.item_at item.now }
{
    match item {
        ItemAst::Plain(expr) => expr.at,
        ItemAst::CountAll(at) => *at,
        ItemAst::Aggregate { at, .. } => *at,
    }
}

fn first_at(items: &[ItemAst]) -> u32
    ensures { result ≡ spec.first_at items.now }
{
    match items {
        [] => 0,
        [item, ..] => item_at(item),
    }
}

/// An answer of no column, or of more than it may have.
fn wrong_width(width: usize, at: u32) -> Option<Problem>
    ensures { result ≡ least (spec.wrong_width width at) }
{
    problem_where(
        !(0 < width && width <= MAX_ITEMS),
        ProblemKind::WrongArity,
        at,
    )
}

/// `*` for this many columns, or for so many of each entry.
fn star_width(scope: ScopeRef, at: u32) -> Option<Problem>
    ensures { result ≡ least (spec.wrong_width (spec.width (seen scope.entry)) at) }
{
    match scope {
        ScopeRef::One(first) => wrong_width(first.columns.len(), at),
        ScopeRef::Two(first, second) => {
            wrong_width(first.columns.len() + second.columns.len(), at)
        }
    }
}

#[tactic(auto, using(hr_problem::proofs::Least::least_append))]
fn items_problem(scope: ScopeRef, select: &SelectAst) -> Option<Problem>
    ensures { result ≡ least (spec.items_problems (seen scope.entry) select.now select.now.items) }
{
    match &select.items {
        Items::Star(at) => sooner(
            star_width(scope, *at),
            problem_where(is_grouping(select), ProblemKind::AggregateMix, *at),
        ),
        Items::Listed(all) => sooner(
            wrong_width(all.len(), first_at(all.as_slice())),
            each_item_problem(scope, select, all.as_slice()),
        ),
    }
}

fn on_problem(scope: ScopeRef, join: &Option<JoinAst>) -> Option<Problem>
    ensures { result ≡ least (spec.on_problems (seen scope.entry) join.now) }
{
    match join {
        Some(join) => cond_problem(scope, &join.on),
        None => None,
    }
}

#[tactic(auto, using(hr_problem::proofs::Least::least_append))]
fn groups_problem(scope: ScopeRef, groups: &[ColumnAst]) -> Option<Problem>
    ensures { result ≡ least (flat_map (operands.column_problems (seen scope.entry)) groups.now) }
{
    match groups {
        [] => None,
        [group, rest @ ..] => sooner(column_problem(scope, group), groups_problem(scope, rest)),
    }
}

/// The least problem of a SELECT whose table entries have none.
#[tactic(auto, using(hr_problem::proofs::Least::least_append))]
pub fn select_problem(scope: ScopeRef, select: &SelectAst) -> Option<Problem>
    ensures { result ≡ least (spec.select_problems (seen scope.entry) select.now) }
{
    let items = items_problem(scope, select);
    let front = sooner(items, on_problem(scope, &select.join));
    let front = sooner(front, filter_problem(scope, &select.filter));
    sooner(front, groups_problem(scope, select.groups.as_slice()))
}
