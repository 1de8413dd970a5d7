//! Expressions: what is wrong with them, and their kinds.
ghost use Rattle.std.specs.Prelude.{◌≡◌, Some};
ghost use Rattle.hr_rel.specs.declared.catalog.ColKind.TheVariants as col;
ghost use Rattle.hr_problem.specs.Problems.{least};
ghost use Rattle.hr_names.specs.Operands as operands;
ghost use Rattle.hr_check.specs.Expressions.{judged, as_number};
ghost use Rattle.hr_names.specs.Seen.{seen};

use hr_names::{ScopeRef, column_kind, column_problem, literal_kind, literal_problem, mismatch};
use hr_parse::{ExprAst, ExprKind};
use hr_problem::{Problem, sooner};
use hr_rel::ColKind;

/// The kind of an expression. A sum, a difference or a product is a number, whatever its operands.
pub fn expr_kind(scope: ScopeRef, expr: &ExprAst) -> Option<ColKind>
    ensures { result ≡ (judged (seen scope.entry) expr.now).kind }
{
    match &expr.kind {
        ExprKind::Literal(literal) => literal_kind(&literal.get().value),
        ExprKind::Column(column) => column_kind(scope, column.get()),
        ExprKind::Add(_, _) | ExprKind::Sub(_, _) | ExprKind::Mul(_, _) => Some(ColKind::Int),
    }
}

/// An operand of `+`, `-` or `*` that is no number.
fn not_number(scope: ScopeRef, expr: &ExprAst) -> Option<Problem>
    ensures { result ≡ least (operands.mismatch (Some col.Int) (judged (seen scope.entry) expr.now).kind (judged (seen scope.entry) expr.now).at) }
{
    mismatch(Some(ColKind::Int), expr_kind(scope, expr), expr.at)
}

/// The least problem of an expression.
#[tactic(auto, using(hr_problem::proofs::Least::least_append))]
pub fn expr_problem(scope: ScopeRef, expr: &ExprAst) -> Option<Problem>
    ensures { result ≡ least (judged (seen scope.entry) expr.now).problems }
{
    match &expr.kind {
        ExprKind::Literal(literal) => literal_problem(literal.get()),
        ExprKind::Column(column) => column_problem(scope, column.get()),
        ExprKind::Add(a, b) | ExprKind::Sub(a, b) | ExprKind::Mul(a, b) => {
            let left = sooner(expr_problem(scope, a.get()), not_number(scope, a.get()));
            let right = sooner(expr_problem(scope, b.get()), not_number(scope, b.get()));
            sooner(left, right)
        }
    }
}
