//! The row that a line holds: its tuple, bound as an INSERT into a table.

ghost use Rattle.std.specs.Prelude.{◌≡◌, ◌≤◌, ◌⊎◌, [], ◌∷◌, length, slice_get, unwrap_or, Err, IfOk};
ghost use Rattle.std.specs.Str.{IsAscii, IsCharBoundary};
ghost use Rattle.hr_base.specs.declared.limits.TheConstants.{MAX_SQL_BYTES};
ghost use Rattle.hr_parse.specs.declared.parsing.ParseError.TheVariants as parse;
ghost use Rattle.hr_parse.specs.Parse.{parsed_tuple};
ghost use Rattle.hr_forms.specs.Forms.{tuple_place};
ghost use Rattle.hr_said.specs.Outcomes.{Found};
ghost use Rattle.hr_reader.specs.Rows as spec;

use hr_bind::{BindError, StatementError, bind};
use hr_forms::tuple_place;
use hr_parse::{Ast, InsertAst, NameAt, ParseError, TupleAst, parse_tuple};
use hr_rel::{Catalog, Name, Row, Seq, Stmt};
use hr_said::{InputKind, LineError};
use std::alloc::{AllocError, Global};
use std::mem;

/// The row that a line holds for a table.
pub fn row_held(
    alloc: Global,
    catalog: &Catalog,
    table: &Name,
    content: &str,
) -> Result<Row, LineError>
    requires short { length content.now ≤ MAX_SQL_BYTES }
    requires ascii { IsAscii content.now }
    ensures { Found (spec.row_held catalog.now table.now content.now) result }
{
    let tuple = tuple_in(alloc, content)?;
    row_of(alloc, catalog, table, tuple)
}

/// The tuple that begins at a line's first parenthesis.
fn tuple_in(alloc: Global, content: &str) -> Result<TupleAst, LineError>
    requires short { length content.now ≤ MAX_SQL_BYTES }
    requires ascii { IsAscii content.now }
    ensures { Found (spec.tuple_in content.now) result }
{
    match parsed(alloc, content) {
        Ok(tuple) => Ok(tuple),
        Err(ParseError::Memory) => Err(LineError::NoMemory),
        Err(error) => Err(LineError::Refused(InputKind::Statement(StatementError::Parse(error)))),
    }
}

/// Of what the parser ensures, no more is said here than the callers need: exactly this tuple, or exactly this refusal.
fn parsed(alloc: Global, content: &str) -> Result<TupleAst, ParseError>
    requires short { length content.now ≤ MAX_SQL_BYTES }
    requires ascii { IsAscii content.now }
    ensures { (result ≡ parsed_tuple (tuple_place content.now) content.now) ⊎ (result ≡ Err parse.Memory) }
{
    parse_tuple(alloc, content, place_in(content))
}

fn place_in(content: &str) -> usize
    requires { IsAscii content.now }
    ensures place { result ≡ tuple_place content.now }
    ensures within { IsCharBoundary content.now result }
{
    tuple_place(content.as_bytes())
}

/// The row that a tuple is in a table.
fn row_of(alloc: Global, catalog: &Catalog, table: &Name, tuple: TupleAst) -> Result<Row, LineError>
    ensures { Found (spec.row_of catalog.now table.now tuple) result }
{
    let insert = insert_of(alloc, table, tuple)?;
    bound_row(alloc, catalog, &insert)
}

/// The row of an INSERT of one tuple, once it is bound.
#[tactic(auto, unfolding(crate::specs::Rows::bound_row))]
fn bound_row(alloc: Global, catalog: &Catalog, insert: &Ast) -> Result<Row, LineError>
    ensures { Found (spec.bound_row catalog.now insert.now) result }
{
    match bind(alloc, catalog, insert) {
        Ok(statement) => Ok(row_in(alloc, statement)),
        Err(BindError::Refused(problem)) => Err(LineError::Refused(InputKind::Statement(
            StatementError::Bind(problem),
        ))),
        Err(BindError::NoMemory) => Err(LineError::NoMemory),
    }
}

/// The INSERT of one tuple into a table.
fn insert_of(alloc: Global, table: &Name, tuple: TupleAst) -> Result<Ast, AllocError>
    ensures { IfOk result (λ insert. insert ≡ spec.insert_of table.now tuple) }
{
    let tuples = only(alloc, tuple)?;
    Ok(insert_all(alloc, table, tuples))
}

fn only(alloc: Global, tuple: TupleAst) -> Result<Seq<TupleAst>, AllocError>
    ensures { IfOk result (λ tuples. tuples ≡ tuple ∷ []) }
{
    let mut tuples = Seq::new(alloc);
    tuples.push(tuple)?;
    Ok(tuples)
}

/// The INSERT of these tuples, which names no columns.
fn insert_all(alloc: Global, table: &Name, tuples: Seq<TupleAst>) -> Ast
    ensures { result ≡ spec.insert_all table.now tuples }
{
    Ast::Insert(InsertAst {
        table: NameAt {
            name: *table,
            at: 0,
        },
        columns: Seq::new(alloc),
        tuples,
    })
}

/// The row of an INSERT of one tuple.
fn row_in(alloc: Global, mut statement: Stmt) -> Row
    ensures { result ≡ spec.row_in statement }
{
    match &mut statement {
        Stmt::Insert(insert) => {
            let rows = mem::replace(&mut insert.rows, Seq::new(alloc));
            first_of(alloc, rows.into_vec())
        }
        _ => Seq::new(alloc),
    }
}

fn first_of(alloc: Global, rows: Vec<Row>) -> Row
    ensures { result ≡ unwrap_or (slice_get rows.items 0) [] }
{
    let mut rest = rows;
    if rest.is_empty() {
        Seq::new(alloc)
    } else {
        mem::replace(&mut rest[0], Seq::new(alloc))
    }
}
