//! Names of columns in INSERT and SET: of one table, each at most once.
ghost use Rattle.std.specs.Prelude.{◌≡◌, flat_map};
ghost use Rattle.hr_problem.specs.Problems.{least};
ghost use Rattle.hr_names.specs.Names as spec;

use crate::scope::column_of;
use hr_parse::NameAt;
use hr_problem::{Problem, ProblemKind, problem_where, sooner};
use hr_rel::{ColKind, ColumnDef};

pub fn unknown_name(columns: &[ColumnDef], name: &NameAt) -> Option<Problem>
    ensures { result ≡ least (spec.unknown_name columns.now name.now) }
{
    problem_where(
        column_of(columns, name.name.bytes()).is_none(),
        ProblemKind::UnknownColumn,
        name.at,
    )
}

fn same_column(a: Option<usize>, b: Option<usize>) -> bool
    ensures { result ≡ spec.same_column a b }
{
    match (a, b) {
        (Some(a), Some(b)) => a == b,
        _ => false,
    }
}

/// A name that means the same column as one before it.
pub fn named_twice(columns: &[ColumnDef], name: &NameAt, later: &NameAt) -> Option<Problem>
    ensures { result ≡ least (spec.named_twice columns.now name.now later.now) }
{
    let column = column_of(columns, name.name.bytes());
    problem_where(
        same_column(column, column_of(columns, later.name.bytes())),
        ProblemKind::NameTwice,
        later.at,
    )
}

#[tactic(auto, using(hr_problem::proofs::Least::least_append))]
fn any_named_twice(columns: &[ColumnDef], name: &NameAt, later: &[NameAt]) -> Option<Problem>
    ensures { result ≡ least (flat_map (spec.named_twice columns.now name.now) later.now) }
{
    match later {
        [] => None,
        [other, rest @ ..] => sooner(
            named_twice(columns, name, other),
            any_named_twice(columns, name, rest),
        ),
    }
}

/// The least problem of a list of names.
#[tactic(auto, using(hr_problem::proofs::Least::least_append))]
pub fn names_problem(columns: &[ColumnDef], names: &[NameAt]) -> Option<Problem>
    ensures { result ≡ least (spec.names_problems columns.now names.now) }
{
    match names {
        [] => None,
        [name, rest @ ..] => {
            let front = sooner(
                unknown_name(columns, name),
                any_named_twice(columns, name, rest),
            );
            sooner(front, names_problem(columns, rest))
        }
    }
}

pub fn kind_of(columns: &[ColumnDef], at: Option<usize>) -> Option<ColKind>
    ensures { result ≡ spec.kind_of columns.now at }
{
    match columns.get(at?) {
        Some(column) => Some(column.kind),
        None => None,
    }
}
