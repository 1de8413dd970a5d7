//! Conditions: the predicates that they are bound to.
ghost use Rattle.std.specs.Prelude.{◌≡◌, IfOk};
ghost use Rattle.hr_names.specs.Seen.{seen};
ghost use Rattle.hr_bind.specs.Bound as bound;

use crate::operand::{bound_operand, bound_value};
use hr_names::ScopeRef;
use hr_parse::{CondAst, LiteralAst};
use hr_rel::{Op, Operand, Pred, TryCopy};
use sqlite_items::Boxed;
use std::alloc::{AllocError, Global};

fn negated_where(alloc: Global, negated: bool, pred: Pred) -> Result<Pred, AllocError>
    ensures { IfOk result (λ p. p ≡ bound.negated_where negated pred) }
{
    if negated {
        Ok(Pred::Not(Boxed::new(alloc, pred)?))
    } else {
        Ok(pred)
    }
}

/// `x = literal`
fn equals(alloc: Global, x: &Operand, literal: &LiteralAst) -> Result<Pred, AllocError>
    ensures { IfOk result (λ p. p ≡ bound.equals x.now literal.now) }
{
    let value = Operand::Lit(bound_value(&literal.value)?);
    Ok(Pred::Compare(Op::Eq, x.try_copy(alloc)?, value))
}

/// What is so far, or `x` equals one of the list.
fn or_equals(
    alloc: Global,
    x: &Operand,
    so_far: Pred,
    list: &[LiteralAst],
) -> Result<Pred, AllocError>
    ensures { IfOk result (λ p. p ≡ bound.or_equals x.now so_far list.now) }
{
    match list {
        [] => Ok(so_far),
        [literal, rest @ ..] => {
            let left = Boxed::new(alloc, so_far)?;
            let right = Boxed::new(alloc, equals(alloc, x, literal)?)?;
            or_equals(alloc, x, Pred::Or(left, right), rest)
        }
    }
}

fn is_one_of(alloc: Global, x: &Operand, list: &[LiteralAst]) -> Result<Pred, AllocError>
    ensures { IfOk result (λ p. p ≡ bound.is_one_of x.now list.now) }
{
    match list {
        [] => Ok(Pred::IsNull(x.try_copy(alloc)?)),
        [literal, rest @ ..] => {
            let first = equals(alloc, x, literal)?;
            or_equals(alloc, x, first, rest)
        }
    }
}

fn is_between(alloc: Global, x: &Operand, low: Operand, high: Operand) -> Result<Pred, AllocError>
    ensures { IfOk result (λ p. p ≡ bound.is_between x.now low high) }
{
    let above = Pred::Compare(Op::Ge, x.try_copy(alloc)?, low);
    let below = Pred::Compare(Op::Le, x.try_copy(alloc)?, high);
    Ok(Pred::And(Boxed::new(alloc, above)?, Boxed::new(alloc, below)?))
}

/// The predicate of a condition.
pub fn bound_cond(alloc: Global, scope: ScopeRef, cond: &CondAst) -> Result<Pred, AllocError>
    ensures { IfOk result (λ p. p ≡ bound.bound_cond (seen scope.entry) cond.now) }
{
    match cond {
        CondAst::Or(a, b) => {
            let a = Boxed::new(alloc, bound_cond(alloc, scope, a.get())?)?;
            let b = Boxed::new(alloc, bound_cond(alloc, scope, b.get())?)?;
            Ok(Pred::Or(a, b))
        }
        CondAst::And(a, b) => {
            let a = Boxed::new(alloc, bound_cond(alloc, scope, a.get())?)?;
            let b = Boxed::new(alloc, bound_cond(alloc, scope, b.get())?)?;
            Ok(Pred::And(a, b))
        }
        CondAst::Not(a) => {
            let a = Boxed::new(alloc, bound_cond(alloc, scope, a.get())?)?;
            Ok(Pred::Not(a))
        }
        CondAst::Compare(op, left, right) => {
            let left = bound_operand(scope, left.get())?;
            Ok(Pred::Compare(*op, left, bound_operand(scope, right.get())?))
        }
        CondAst::IsNull { operand, negated } => {
            let test = Pred::IsNull(bound_operand(scope, operand.get())?);
            negated_where(alloc, *negated, test)
        }
        CondAst::Between {
            operand,
            low,
            high,
            negated,
        } => {
            let x = bound_operand(scope, operand.get())?;
            let low = bound_operand(scope, low.get())?;
            let test = is_between(alloc, &x, low, bound_operand(scope, high.get())?)?;
            negated_where(alloc, *negated, test)
        }
        CondAst::Among {
            operand,
            list,
            negated,
        } => {
            let x = bound_operand(scope, operand.get())?;
            let test = is_one_of(alloc, &x, list.as_slice())?;
            negated_where(alloc, *negated, test)
        }
    }
}

pub fn bound_filter(
    alloc: Global,
    scope: ScopeRef,
    filter: &Option<CondAst>,
) -> Result<Option<Pred>, AllocError>
    ensures { IfOk result (λ p. p ≡ bound.bound_filter (seen scope.entry) filter.now) }
{
    match filter {
        Some(cond) => Ok(Some(bound_cond(alloc, scope, cond)?)),
        None => Ok(None),
    }
}
