//! Columns, literals and operands: what is wrong with them, and their kinds. A kind is None where either kind
//! fits: NULL's, and that of a column that isn't found, which has a problem of its own.
ghost use Rattle.std.specs.Prelude.{◌≡◌};
ghost use Rattle.std.specs.List.{list_all};
ghost use Rattle.hr_base.specs.Bytes.{is_printable};
ghost use Rattle.hr_rel.specs.Fit as fit;
ghost use Rattle.hr_rel.specs.Kinds as kinds;
ghost use Rattle.hr_problem.specs.Problems.{least};
ghost use Rattle.hr_names.specs.Operands as spec;
ghost use Rattle.hr_names.specs.Seen.{seen};

use crate::scope::{ScopeRef, kind_at, meant};
use hr_base::is_printable;
use hr_base::limits::MAX_TEXT_BYTES;
use hr_parse::{ColumnAst, LitAst, LiteralAst, OperandAst};
use hr_problem::{Problem, ProblemKind, problem_where};
use hr_rel::ColKind;

/// A column that means none, or more than one.
#[tactic(auto, unfolding(crate::specs::Operands::column_problems))]
pub fn column_problem(scope: ScopeRef, column: &ColumnAst) -> Option<Problem>
    ensures { result ≡ least (spec.column_problems (seen scope.entry) column.now) }
{
    match meant(scope, column) {
        Ok(_) => None,
        Err(kind) => Some(Problem {
            kind,
            place: column.first.at,
        }),
    }
}

#[tactic(auto, unfolding(crate::specs::Operands::column_kind))]
pub fn column_kind(scope: ScopeRef, column: &ColumnAst) -> Option<ColKind>
    ensures { result ≡ spec.column_kind (seen scope.entry) column.now }
{
    match meant(scope, column) {
        Ok(place) => kind_at(scope, place),
        Err(_) => None,
    }
}

// Always so: each number of the program has 64 bits. Those of the definitions have no bounds.
fn fits_i64(n: i64) -> bool
    ensures { result ≡ kinds.fits_i64 n }
{
    let _n = n;
    true
}

fn all_printable(bytes: &[u8]) -> bool
    ensures { result ≡ list_all is_printable bytes.now }
{
    bytes.iter().all(|b| is_printable(*b))
}

fn is_value(literal: &LitAst) -> bool
    ensures { result ≡ spec.is_value literal.now }
{
    match literal {
        LitAst::Null => true,
        LitAst::Int(n) => fits_i64(*n),
        LitAst::Text(text) => text.len() <= MAX_TEXT_BYTES && all_printable(text.as_slice()),
    }
}

/// A literal that is no value: a text that is too long.
pub fn literal_problem(literal: &LiteralAst) -> Option<Problem>
    ensures { result ≡ least (spec.literal_problems literal.now) }
{
    problem_where(
        !is_value(&literal.value),
        ProblemKind::TextTooLong,
        literal.at,
    )
}

pub fn literal_kind(literal: &LitAst) -> Option<ColKind>
    ensures { result ≡ spec.literal_kind literal.now }
{
    match literal {
        LitAst::Null => None,
        LitAst::Int(_) => Some(ColKind::Int),
        LitAst::Text(_) => Some(ColKind::Text),
    }
}

pub fn operand_problem(scope: ScopeRef, operand: &OperandAst) -> Option<Problem>
    ensures { result ≡ least (spec.operand_problems (seen scope.entry) operand.now) }
{
    match operand {
        OperandAst::Column(column) => column_problem(scope, column),
        OperandAst::Literal(literal) => literal_problem(literal),
    }
}

pub fn operand_kind(scope: ScopeRef, operand: &OperandAst) -> Option<ColKind>
    ensures { result ≡ spec.operand_kind (seen scope.entry) operand.now }
{
    match operand {
        OperandAst::Column(column) => column_kind(scope, column),
        OperandAst::Literal(literal) => literal_kind(&literal.value),
    }
}

/// The place of an operand's first token.
pub fn operand_at(operand: &OperandAst) -> u32
    ensures { result ≡ spec.operand_at operand.now }
{
    match operand {
        OperandAst::Column(column) => column.first.at,
        OperandAst::Literal(literal) => literal.at,
    }
}

fn agree(a: Option<ColKind>, b: Option<ColKind>) -> bool
    ensures { result ≡ fit.agree a b }
{
    match (a, b) {
        (Some(ColKind::Int), Some(ColKind::Text)) | (Some(ColKind::Text), Some(ColKind::Int)) => {
            false
        }
        _ => true,
    }
}

/// Kinds that differ, told at the place of the second.
pub fn mismatch(first: Option<ColKind>, second: Option<ColKind>, at: u32) -> Option<Problem>
    ensures { result ≡ least (spec.mismatch first second at) }
{
    problem_where(!agree(first, second), ProblemKind::TypeMismatch, at)
}
