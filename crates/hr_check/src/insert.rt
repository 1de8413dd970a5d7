//! INSERT: what is wrong with it.
ghost use Rattle.std.specs.Prelude.{◌≡◌, flat_map};
ghost use Rattle.hr_problem.specs.Problems.{least};
ghost use Rattle.hr_check.specs.Statements as spec;

use hr_names::{column_of, kind_of, literal_kind, literal_problem, mismatch, names_problem};
use hr_parse::{InsertAst, LiteralAst, NameAt, TupleAst};
use hr_problem::{Problem, ProblemKind, none_at_all, problem_where, sooner};
use hr_rel::{ColKind, ColumnDef};

/// The place of the column that gets the value at this place of a tuple.
fn target(columns: &[ColumnDef], names: &[NameAt], place: usize) -> Option<usize>
    ensures { result ≡ spec.target columns.now names.now place }
{
    if names.is_empty() {
        return Some(place);
    }
    match names.get(place) {
        Some(name) => column_of(columns, name.name.bytes()),
        None => None,
    }
}

/// An inserted literal: whether it is a value, and of its column's kind.
#[tactic(auto, using(hr_problem::proofs::Least::least_append))]
fn value_problem(
    columns: &[ColumnDef],
    names: &[NameAt],
    place: usize,
    literal: &LiteralAst,
) -> Option<Problem>
    ensures { result ≡ least (spec.value_problems columns.now names.now place literal.now) }
{
    let kind = kind_of(columns, target(columns, names, place));
    sooner(
        literal_problem(literal),
        mismatch(kind, literal_kind(&literal.value), literal.at),
    )
}

/// The least problem of a tuple's literals.
#[tactic(auto, using(crate::proofs::Parts::values_step, crate::proofs::Parts::values_end))]
fn values_problem(columns: &[ColumnDef], names: &[NameAt], values: &[LiteralAst]) -> Option<Problem>
    ensures { result ≡ least (spec.values_problems columns.now names.now 0 values.now) }
{
    let mut found = None;
    for (place, literal) in values.iter().enumerate() {
        found = sooner(found, value_problem(columns, names, place, literal));
    }
    found
}

/// How many values a tuple has to have.
fn arity(columns: &[ColumnDef], names: &[NameAt]) -> usize
    ensures { result ≡ spec.arity columns.now names.now }
{
    if names.is_empty() {
        columns.len()
    } else {
        names.len()
    }
}

#[tactic(auto, using(hr_problem::proofs::Least::least_append))]
fn tuple_problem(columns: &[ColumnDef], names: &[NameAt], tuple: &TupleAst) -> Option<Problem>
    ensures { result ≡ least (spec.tuple_problems columns.now names.now tuple.now) }
{
    let wrong = tuple.values.len() != arity(columns, names);
    sooner(
        problem_where(wrong, ProblemKind::WrongArity, tuple.at),
        values_problem(columns, names, tuple.values.as_slice()),
    )
}

#[tactic(auto, using(hr_problem::proofs::Least::least_append))]
fn tuples_problem(columns: &[ColumnDef], names: &[NameAt], tuples: &[TupleAst]) -> Option<Problem>
    ensures { result ≡ least (flat_map (spec.tuple_problems columns.now names.now) tuples.now) }
{
    match tuples {
        [] => None,
        [tuple, rest @ ..] => sooner(
            tuple_problem(columns, names, tuple),
            tuples_problem(columns, names, rest),
        ),
    }
}

/// The least problem of an INSERT into a table that is there.
#[tactic(auto, using(hr_problem::proofs::Least::least_append))]
pub fn insert_problem(columns: &[ColumnDef], insert: &InsertAst) -> Option<Problem>
    ensures { result ≡ least (spec.insert_problems columns.now insert.now) }
{
    let empty = none_at_all(insert.tuples.as_slice());
    let names = insert.columns.as_slice();
    let front = sooner(empty, names_problem(columns, names));
    sooner(
        front,
        tuples_problem(columns, names, insert.tuples.as_slice()),
    )
}
