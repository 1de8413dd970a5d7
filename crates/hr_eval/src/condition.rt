//! Conditions. A comparison with NULL on either side is unknown, and AND, OR and NOT are those of the standard, for which
//! what is unknown could be either. Nothing here takes memory.
ghost use Rattle.std.specs.Prelude.{◌≡◌, [], ◌∷◌};
ghost use Rattle.std.specs.Option.{option_copied};
ghost use Rattle.hr_rel.specs.Kinds as kinds;
ghost use Rattle.hr_meaning.specs.Truth.{truth_of, operand_value, compared, passes, both, either, opposite, tested, is_true, is_kept};
ghost use Rattle.hr_eval.specs.Tuples.{rows_in, or_null};

use crate::tuple::{Tuple, column};
use hr_meaning::Truth;
use hr_rel::{Op, Operand, Pred, Value};

/// The truth of a condition on a row. A column that isn't there counts as NULL.
pub fn test(pred: &Pred, row: &[Value]) -> Truth
    ensures { result ≡ truth_of pred.now (row.now ∷ []) }
{
    truth(pred, Tuple::Row(row))
}

/// The truth of a condition on a pair of rows, one of each table entry. A column that isn't there counts as NULL.
pub fn test_pair(pred: &Pred, first: &[Value], second: &[Value]) -> Truth
    ensures { result ≡ truth_of pred.now (first.now ∷ second.now ∷ []) }
{
    truth(pred, Tuple::Pair(first, second))
}

/// Whether a condition, if there is one, is true on a row or a pair.
pub fn is_kept(condition: &Option<Pred>, tuple: Tuple) -> bool
    ensures { result ≡ is_kept condition.now (rows_in tuple.entry) }
{
    match condition {
        Some(pred) => is_true(truth(pred, tuple)),
        None => true,
    }
}

fn is_true(truth: Truth) -> bool
    ensures { result ≡ is_true truth }
{
    matches!(truth, Truth::True)
}

fn truth(pred: &Pred, tuple: Tuple) -> Truth
    ensures { result ≡ truth_of pred.now (rows_in tuple.entry) }
{
    match pred {
        Pred::Compare(op, left, right) => {
            let left = operand(tuple, left);
            compared(*op, left, operand(tuple, right))
        }
        Pred::IsNull(of) => tested(is_null(operand(tuple, of))),
        Pred::And(a, b) => both(truth(a.get(), tuple), truth(b.get(), tuple)),
        Pred::Or(a, b) => either(truth(a.get(), tuple), truth(b.get(), tuple)),
        Pred::Not(a) => opposite(truth(a.get(), tuple)),
    }
}

// AND: false where either is, whatever the other.
fn both(a: Truth, b: Truth) -> Truth
    ensures { result ≡ both a b }
{
    match (a, b) {
        (Truth::False, _) | (_, Truth::False) => Truth::False,
        (Truth::True, Truth::True) => Truth::True,
        _ => Truth::Unknown,
    }
}

// OR: true where either is, whatever the other.
fn either(a: Truth, b: Truth) -> Truth
    ensures { result ≡ either a b }
{
    match (a, b) {
        (Truth::True, _) | (_, Truth::True) => Truth::True,
        (Truth::False, Truth::False) => Truth::False,
        _ => Truth::Unknown,
    }
}

fn opposite(a: Truth) -> Truth
    ensures { result ≡ opposite a }
{
    match a {
        Truth::True => Truth::False,
        Truth::False => Truth::True,
        Truth::Unknown => Truth::Unknown,
    }
}

fn tested(holds: bool) -> Truth
    ensures { result ≡ tested holds }
{
    if holds { Truth::True } else { Truth::False }
}

// The value of one side of a comparison; None counts as NULL.
fn operand<'a>(tuple: Tuple<'a>, operand: &'a Operand) -> Option<&'a Value>
    ensures { or_null (option_copied result) ≡ operand_value (rows_in tuple.entry) operand.now }
{
    match operand {
        Operand::Lit(value) => Some(value),
        Operand::Col(at) => column(tuple, *at),
    }
}

fn is_null(value: Option<&Value>) -> bool
    ensures { result ≡ kinds.is_null (or_null (option_copied value.entry)) }
{
    matches!(value, None | Some(Value::Null))
}

fn compared(op: Op, a: Option<&Value>, b: Option<&Value>) -> Truth
    ensures { result ≡ compared op (or_null (option_copied a.entry)) (or_null (option_copied b.entry)) }
{
    match (a, b) {
        (Some(a), Some(b)) => compared_values(op, a, b),
        _ => Truth::Unknown,
    }
}

fn compared_values(op: Op, a: &Value, b: &Value) -> Truth
    ensures { result ≡ compared op a.now b.now }
{
    if matches!(a, Value::Null) || matches!(b, Value::Null) {
        return Truth::Unknown;
    }
    let order = a.cmp(b);
    tested(match op {
        Op::Eq => order.is_eq(),
        Op::Ne => order.is_ne(),
        Op::Lt => order.is_lt(),
        Op::Le => order.is_le(),
        Op::Gt => order.is_gt(),
        Op::Ge => order.is_ge(),
    })
}
