//! Expressions. Both operands are evaluated, the left one first, also where one is NULL. Nothing here takes memory.
ghost use Rattle.std.specs.Prelude.{◌≡◌, [], ◌∷◌, Option, Some, None, ◌+ℤ◌, ◌-ℤ◌, ◌*ℤ◌};
ghost use Rattle.hr_meaning.specs.Value.{value_of, combined};
ghost use Rattle.hr_eval.specs.Tuples.{rows_in};
ghost use Rattle.hr_eval.specs.Numbers.{shown_number};

use crate::tuple::{Tuple, column_value};
use hr_rel::{Expr, RunError, Value};

/// The value of an expression on a row, or Overflow. A column that isn't there counts as NULL.
pub fn value(expr: &Expr, row: &[Value]) -> Result<Value, RunError>
    ensures { result ≡ value_of expr.now (row.now ∷ []) }
{
    evaluated(expr, Tuple::Row(row))
}

/// The value of an expression on a pair of rows, one of each table entry, or Overflow. A column that isn't there counts
/// as NULL.
pub fn value_pair(expr: &Expr, first: &[Value], second: &[Value]) -> Result<Value, RunError>
    ensures { result ≡ value_of expr.now (first.now ∷ second.now ∷ []) }
{
    evaluated(expr, Tuple::Pair(first, second))
}

/// The value of an expression on a row or a pair, or Overflow.
pub fn evaluated(expr: &Expr, tuple: Tuple) -> Result<Value, RunError>
    ensures { result ≡ value_of expr.now (rows_in tuple.entry) }
{
    match expr {
        Expr::Lit(value) => Ok(*value),
        Expr::Col(at) => Ok(column_value(tuple, *at)),
        Expr::Add(a, b) => {
            let left = evaluated(a.get(), tuple)?;
            sum(left, evaluated(b.get(), tuple)?)
        }
        Expr::Sub(a, b) => {
            let left = evaluated(a.get(), tuple)?;
            difference(left, evaluated(b.get(), tuple)?)
        }
        Expr::Mul(a, b) => {
            let left = evaluated(a.get(), tuple)?;
            product(left, evaluated(b.get(), tuple)?)
        }
    }
}

fn sum(a: Value, b: Value) -> Result<Value, RunError>
    ensures { result ≡ combined (λ m n. m +ℤ n) a b }
{
    match (a, b) {
        (Value::Int(m), Value::Int(n)) => number(m.checked_add(n)),
        _ => Ok(Value::Null),
    }
}

fn difference(a: Value, b: Value) -> Result<Value, RunError>
    ensures { result ≡ combined (λ m n. m -ℤ n) a b }
{
    match (a, b) {
        (Value::Int(m), Value::Int(n)) => number(m.checked_sub(n)),
        _ => Ok(Value::Null),
    }
}

fn product(a: Value, b: Value) -> Result<Value, RunError>
    ensures { result ≡ combined (λ m n. m *ℤ n) a b }
{
    match (a, b) {
        (Value::Int(m), Value::Int(n)) => number(m.checked_mul(n)),
        _ => Ok(Value::Null),
    }
}

// None stands for a number that isn't one of 64 bits.
fn number(n: Option<i64>) -> Result<Value, RunError>
    ensures { result ≡ shown_number n }
{
    match n {
        Some(n) => Ok(Value::Int(n)),
        None => Err(RunError::Overflow),
    }
}
