//! Expressions: what they are bound to.
ghost use Rattle.std.specs.Prelude.{◌≡◌, IfOk};
ghost use Rattle.hr_names.specs.Seen.{seen};
ghost use Rattle.hr_bind.specs.Bound as bound;

use crate::operand::{bound_column, bound_value};
use hr_names::ScopeRef;
use hr_parse::{ExprAst, ExprKind};
use hr_rel::Expr;
use sqlite_items::Boxed;
use std::alloc::{AllocError, Global};

pub fn bound_expr(alloc: Global, scope: ScopeRef, expr: &ExprAst) -> Result<Expr, AllocError>
    ensures { IfOk result (λ e. e ≡ bound.bound_expr (seen scope.entry) expr.now) }
{
    match &expr.kind {
        ExprKind::Literal(literal) => Ok(Expr::Lit(bound_value(&literal.get().value)?)),
        ExprKind::Column(column) => Ok(Expr::Col(bound_column(scope, column.get())?)),
        ExprKind::Add(a, b) => {
            let a = Boxed::new(alloc, bound_expr(alloc, scope, a.get())?)?;
            let b = Boxed::new(alloc, bound_expr(alloc, scope, b.get())?)?;
            Ok(Expr::Add(a, b))
        }
        ExprKind::Sub(a, b) => {
            let a = Boxed::new(alloc, bound_expr(alloc, scope, a.get())?)?;
            let b = Boxed::new(alloc, bound_expr(alloc, scope, b.get())?)?;
            Ok(Expr::Sub(a, b))
        }
        ExprKind::Mul(a, b) => {
            let a = Boxed::new(alloc, bound_expr(alloc, scope, a.get())?)?;
            let b = Boxed::new(alloc, bound_expr(alloc, scope, b.get())?)?;
            Ok(Expr::Mul(a, b))
        }
    }
}
