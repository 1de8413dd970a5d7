//! A statement of a transaction, with the tree that it was bound from.

ghost use Rattle.std.specs.Prelude.{◌≡◌, ◌⊎◌, ◌+◌, ◌*◌, ◌<◌, false, nat_lt, None, Err};
ghost use Rattle.hr_base.specs.declared.limits.TheConstants.{MAX_SUBMITS};
ghost use Rattle.hr_parse.specs.declared.parsing.ParseError.TheVariants as parse;
ghost use Rattle.hr_parse.specs.Parse.{parsed};
ghost use Rattle.hr_said.specs.Outcomes.{Gives, Found};
ghost use Rattle.hr_sessions.specs.Sessions as spec;

use hr_base::limits::{MAX_STATEMENTS, MAX_SUBMITS};
use hr_bind::{BindError, StatementError, bind};
use hr_parse::{Ast, ParseError, parse};
use hr_rel::{Catalog, Stmt};
use hr_said::{InputKind, LineError, Said};
use std::alloc::Global;

/// A statement that was read: bound, and as a tree.
#[derive(Drop)]
pub struct Read {
    pub stmt: Stmt,
    pub text: Ast,
}

/// A line that is a statement.
pub fn statement(alloc: Global, said: &mut Said, line: &str) -> Result<(), LineError>
    ensures { Gives (spec.statement said.old line.now) said.new result }
{
    if let Some(kind) = statement_refusal(said) {
        return Err(LineError::Refused(kind));
    }
    read_statement(alloc, said, line)
}

fn statement_refusal(said: &Said) -> Option<InputKind>
    ensures first { result ≡ spec.statement_refusal said.now }
    ensures few { result ≡ None → said.now.statements < MAX_SUBMITS }
{
    if said.session.stmts.len() >= MAX_STATEMENTS as usize
        || passes_submits(said.statements, said.retries)
    {
        return Some(InputKind::Limit);
    }
    None
}

/// Whether with one statement more there are too many submits, each counted as often as it may be tried.
#[tactic(auto, using(crate::proofs::Counts::few_statements, crate::proofs::Counts::over_shown))]
fn passes_submits(statements: u32, retries: u32) -> bool
    ensures passes { result ≡ nat_lt MAX_SUBMITS ((statements + 1) * (retries + 1)) }
    ensures few { result ≡ false → statements < MAX_SUBMITS }
{
    let submits = (statements as u64 + 1).saturating_mul(retries as u64 + 1);
    submits > MAX_SUBMITS
}

fn read_statement(alloc: Global, said: &mut Said, line: &str) -> Result<(), LineError>
    requires few { said.old.statements < MAX_SUBMITS }
    ensures { Gives (spec.read_statement said.old line.now) said.new result }
{
    let read = statement_in(alloc, &said.catalog, line)?;
    add_statement(said, read)
}

fn add_statement(said: &mut Said, read: Read) -> Result<(), LineError>
    requires few { said.old.statements < MAX_SUBMITS }
    ensures { Gives (spec.add_statement said.old read) said.new result }
{
    let Read { stmt, text } = read;
    said.statements += 1;
    said.session.is_begun = true;
    said.session.stmts.push(stmt)?;
    said.session.texts.push(text)?;
    Ok(())
}

/// The statement of a catalog that a line is.
fn statement_in(alloc: Global, catalog: &Catalog, line: &str) -> Result<Read, LineError>
    ensures { Found (spec.statement_in catalog.now line.now) result }
{
    let text = text_in(alloc, line)?;
    bound_text(alloc, catalog, text)
}

/// The tree of a text. Of what the parser ensures, no more is said here than the callers need: exactly this tree, or exactly
/// this refusal.
fn tree(alloc: Global, text: &str) -> Result<Ast, ParseError>
    ensures { (result ≡ parsed text.now) ⊎ (result ≡ Err parse.Memory) }
{
    parse(alloc, text)
}

fn text_in(alloc: Global, line: &str) -> Result<Ast, LineError>
    ensures { Found (spec.told_text (parsed line.now)) result }
{
    match tree(alloc, line) {
        Ok(text) => Ok(text),
        Err(ParseError::Memory) => Err(LineError::NoMemory),
        Err(error) => Err(LineError::Refused(InputKind::Statement(StatementError::Parse(error)))),
    }
}

fn bound_text(alloc: Global, catalog: &Catalog, text: Ast) -> Result<Read, LineError>
    ensures { Found (spec.bound_text catalog.now text) result }
{
    match bind(alloc, catalog, &text) {
        Ok(stmt) => Ok(Read { stmt, text }),
        Err(BindError::Refused(problem)) => Err(LineError::Refused(InputKind::Statement(
            StatementError::Bind(problem),
        ))),
        Err(BindError::NoMemory) => Err(LineError::NoMemory),
    }
}
