//! UPDATE: what is wrong with it.
ghost use Rattle.std.specs.Prelude.{◌≡◌, flat_map};
ghost use Rattle.hr_problem.specs.Problems.{least};
ghost use Rattle.hr_check.specs.Statements as spec;
ghost use Rattle.hr_names.specs.Seen.{seen};

use crate::cond::filter_problem;
use crate::expr::{expr_kind, expr_problem};
use hr_names::{ScopeRef, column_of, kind_of, mismatch, named_twice, unknown_name};
use hr_parse::{SetAst, UpdateAst};
use hr_problem::{Problem, ProblemKind, none_at_all, problem_where, sooner};
use hr_rel::ColumnDef;

fn is_key(column: Option<usize>) -> bool
    ensures { result ≡ spec.is_key column }
{
    matches!(column, Some(0))
}

/// An assignment: to a column that is there and isn't the key, of an expression of its kind.
#[tactic(auto, using(hr_problem::proofs::Least::least_append))]
fn set_problem(scope: ScopeRef, columns: &[ColumnDef], set: &SetAst) -> Option<Problem>
    ensures { result ≡ least (spec.set_problems (seen scope.entry) columns.now set.now) }
{
    let column = column_of(columns, set.column.name.bytes());
    let unknown = unknown_name(columns, &set.column);
    let key = problem_where(is_key(column), ProblemKind::KeyAssigned, set.column.at);
    let front = sooner(sooner(unknown, key), expr_problem(scope, &set.value));
    let kind = expr_kind(scope, &set.value);
    sooner(
        front,
        mismatch(kind_of(columns, column), kind, set.value.at),
    )
}

#[tactic(auto, using(hr_problem::proofs::Least::least_append))]
fn assigned_twice(columns: &[ColumnDef], set: &SetAst, later: &[SetAst]) -> Option<Problem>
    ensures { result ≡ least (flat_map (spec.assigned_twice columns.now set.now) later.now) }
{
    match later {
        [] => None,
        [other, rest @ ..] => sooner(
            named_twice(columns, &set.column, &other.column),
            assigned_twice(columns, set, rest),
        ),
    }
}

#[tactic(auto, using(hr_problem::proofs::Least::least_append))]
fn sets_problem(scope: ScopeRef, columns: &[ColumnDef], sets: &[SetAst]) -> Option<Problem>
    ensures { result ≡ least (spec.sets_problems (seen scope.entry) columns.now sets.now) }
{
    match sets {
        [] => None,
        [set, rest @ ..] => {
            let front = sooner(
                set_problem(scope, columns, set),
                assigned_twice(columns, set, rest),
            );
            sooner(front, sets_problem(scope, columns, rest))
        }
    }
}

/// The least problem of an UPDATE of a table that is there.
#[tactic(auto, using(hr_problem::proofs::Least::least_append))]
pub fn update_problem(scope: ScopeRef, columns: &[ColumnDef], update: &UpdateAst) -> Option<Problem>
    ensures { result ≡ least (spec.update_problems (seen scope.entry) columns.now update.now) }
{
    let empty = none_at_all(update.sets.as_slice());
    let front = sooner(empty, sets_problem(scope, columns, update.sets.as_slice()));
    sooner(front, filter_problem(scope, &update.filter))
}
