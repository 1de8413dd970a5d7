//! From a text to a bound statement in one go.
ghost use Rattle.std.specs.Prelude.{◌≡◌, ◌⊎◌, Err};
ghost use Rattle.hr_parse.specs.declared.parsing.ParseError.TheVariants as parse;
ghost use Rattle.hr_parse.specs.Parse.{parsed};
ghost use Rattle.hr_bind.specs.Bind.{bind_of};
ghost use Rattle.hr_bind.specs.Prepare.{prepared, settled, IsPrepared};

use crate::error::{BindError, PrepareError, StatementError};
use crate::statement::bind;
use hr_parse::{Ast, ParseError, parse};
use hr_rel::{Catalog, Stmt};
use std::alloc::Global;

/// The syntax tree of a text. Of what the parser ensures, no more is said here than the callers below need: exactly this
/// tree, or exactly this refusal.
fn tree(alloc: Global, text: &str) -> Result<Ast, ParseError>
    ensures { (result ≡ parsed text.now) ⊎ (result ≡ Err parse.Memory) }
{
    parse(alloc, text)
}

fn bound_tree(alloc: Global, ast: &Ast, catalog: &Catalog) -> Result<Stmt, PrepareError>
    ensures { IsPrepared (settled (bind_of catalog.now ast.now)) result }
{
    match bind(alloc, catalog, ast) {
        Ok(statement) => Ok(statement),
        Err(BindError::Refused(problem)) => {
            Err(PrepareError::Refused(StatementError::Bind(problem)))
        }
        Err(BindError::NoMemory) => Err(PrepareError::NoMemory),
    }
}

/// The bound statement of a text: parses it, and binds its syntax tree. A text that is no statement of the catalog is
/// refused: by the parser's error or by the problem that `bind` tells, each at its place in the text.
#[tactic(auto, unfolding(crate::specs::Prepare::prepared))]
pub fn prepare(alloc: Global, text: &str, catalog: &Catalog) -> Result<Stmt, PrepareError>
    ensures { IsPrepared (prepared catalog.now text.now) result }
{
    match tree(alloc, text) {
        Ok(ast) => bound_tree(alloc, &ast, catalog),
        Err(ParseError::Memory) => Err(PrepareError::NoMemory),
        Err(error) => Err(PrepareError::Refused(StatementError::Parse(error))),
    }
}
