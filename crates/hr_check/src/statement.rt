//! Whole statements: the problem that is told.
ghost use Rattle.std.specs.Prelude.{◌≡◌};
ghost use Rattle.hr_problem.specs.Problems.{least, first_of};
ghost use Rattle.hr_check.specs.Statements as spec;
ghost use Rattle.hr_check.specs.Told.{problem_of};

use crate::cond::filter_problem;
use crate::insert::insert_problem;
use crate::select::select_problem;
use crate::update::update_problem;
use hr_names::{called, columns_in, select_scope, table_of, table_scope};
use hr_parse::{Ast, EntryAst, JoinAst, NameAt};
use hr_problem::{Problem, ProblemKind};
use hr_rel::Catalog;

fn unknown_table(catalog: &Catalog, table: &NameAt) -> Option<Problem>
    ensures { result ≡ first_of (spec.unknown_table catalog.now table.now) }
{
    let number = table_of(catalog, table.name.bytes());
    if number < catalog.tables.len() {
        None
    } else {
        Some(Problem {
            kind: ProblemKind::UnknownTable,
            place: table.at,
        })
    }
}

fn called_twice(first: &EntryAst, second: &EntryAst) -> Option<Problem>
    ensures { result ≡ first_of (spec.called_twice first.now second.now) }
{
    let name = called(second);
    if called(first).name.bytes() == name.name.bytes() {
        Some(Problem {
            kind: ProblemKind::NameTwice,
            place: name.at,
        })
    } else {
        None
    }
}

fn join_problem(catalog: &Catalog, first: &EntryAst, join: &Option<JoinAst>) -> Option<Problem>
    ensures { result ≡ first_of (spec.join_problems catalog.now first.now join.now) }
{
    let Some(join) = join else {
        return None;
    };
    match unknown_table(catalog, &join.entry.table) {
        Some(problem) => Some(problem),
        None => called_twice(first, &join.entry),
    }
}

/// The first problem of the table entries.
fn table_problem(catalog: &Catalog, ast: &Ast) -> Option<Problem>
    ensures { result ≡ first_of (spec.table_problems catalog.now ast.now) }
{
    match ast {
        Ast::Select(select) => match unknown_table(catalog, &select.first.table) {
            Some(problem) => Some(problem),
            None => join_problem(catalog, &select.first, &select.join),
        },
        Ast::Insert(insert) => unknown_table(catalog, &insert.table),
        Ast::Update(update) => unknown_table(catalog, &update.table),
        Ast::Delete(delete) => unknown_table(catalog, &delete.table),
    }
}

/// The least of all problems but those of the table entries.
fn least_problem(catalog: &Catalog, ast: &Ast) -> Option<Problem>
    ensures { result ≡ least (spec.problems catalog.now ast.now) }
{
    match ast {
        Ast::Select(select) => select_problem(select_scope(catalog, select), select),
        Ast::Insert(insert) => insert_problem(columns_in(catalog, &insert.table), insert),
        Ast::Update(update) => {
            let scope = table_scope(catalog, &update.table);
            update_problem(scope, columns_in(catalog, &update.table), update)
        }
        Ast::Delete(delete) => {
            filter_problem(table_scope(catalog, &delete.table), &delete.filter)
        }
    }
}

/// The problem that is told of a statement, if it has one. Takes no memory.
#[tactic(auto, unfolding(crate::specs::Told::problem_of))]
pub fn first_problem(catalog: &Catalog, ast: &Ast) -> Option<Problem>
    ensures { result ≡ problem_of catalog.now ast.now }
{
    match table_problem(catalog, ast) {
        Some(problem) => Some(problem),
        None => least_problem(catalog, ast),
    }
}
