//! Bounds of a column's values. Nothing here takes memory.
ghost use Rattle.std.specs.Prelude.{◌≡◌, Some, replicate};
ghost use Rattle.hr_base.specs.declared.limits.TheConstants as limits;
ghost use Rattle.std.specs.Ordering.{is_eq};
ghost use Rattle.hr_rel.specs.declared.catalog.ColKind.TheVariants as ColKind;
ghost use Rattle.hr_meaning.specs.Order.{value_cmp};
ghost use Rattle.hr_meaning.specs.Select as select;
ghost use Rattle.hr_plan.specs.Paths as paths;

use crate::interval::mirrored;
use hr_base::limits::MAX_TEXT_BYTES;
use hr_rel::{ColKind, ColRef, Name, Op, Operand, Pred, Value};

/// Values of a column from one to another, both of them in it. Where there may be none it is an `Option`, and None is none.
#[derive(Clone, Copy, Debug, PartialEq, Eq)]
pub struct Bounds {
    pub low: Value,
    pub high: Value,
}

/// The bounds outside which neither of two conditions is true, as by AND: of the column with this place and kind in the first
/// table entry.
pub fn both_values(
    kind: ColKind,
    column: usize,
    on: &Option<Pred>,
    filter: &Option<Pred>,
) -> Option<Bounds>
    ensures { result ≡ paths.both_values kind column on.now filter.now }
{
    let on = kept_values(kind, column, on);
    common_values(&on, &kept_values(kind, column, filter))
}

/// Whether they are all values of the kind.
pub fn are_all_values(kind: ColKind, bounds: &Option<Bounds>) -> bool
    ensures { result ≡ paths.are_all_values kind bounds.now }
{
    match bounds {
        Some(bounds) => is_same(&bounds.low, &Value::Null)
            && is_same(&bounds.high, &greatest_value(kind)),
        None => false,
    }
}

fn is_same(a: &Value, b: &Value) -> bool
    ensures { result ≡ is_eq (value_cmp a.now b.now) }
{
    a.cmp(b).is_eq()
}

fn kept_values(kind: ColKind, column: usize, condition: &Option<Pred>) -> Option<Bounds>
    ensures { result ≡ paths.kept_values kind column condition.now }
{
    match condition {
        Some(pred) => values_in(kind, column, pred),
        None => all_values(kind),
    }
}

fn values_in(kind: ColKind, column: usize, pred: &Pred) -> Option<Bounds>
    ensures { result ≡ paths.values_in kind column pred.now }
{
    match pred {
        Pred::Compare(op, left, right) => compared_values(kind, column, *op, left, right),
        Pred::IsNull(_) | Pred::Not(_) => all_values(kind),
        Pred::And(a, b) => {
            let a = values_in(kind, column, a.get());
            common_values(&a, &values_in(kind, column, b.get()))
        }
        Pred::Or(a, b) => {
            let a = values_in(kind, column, a.get());
            spanning_values(&a, &values_in(kind, column, b.get()))
        }
    }
}

fn compared_values(
    kind: ColKind,
    column: usize,
    op: Op,
    left: &Operand,
    right: &Operand,
) -> Option<Bounds>
    ensures { result ≡ paths.compared_values kind column op left.now right.now }
{
    match (left, right) {
        (Operand::Col(of), Operand::Lit(value)) if is_the_column(column, *of) => values_by(
            kind, op, value,
        ),
        (Operand::Lit(value), Operand::Col(of)) if is_the_column(column, *of) => values_by(
            kind,
            mirrored(op),
            value,
        ),
        _ => all_values(kind),
    }
}

fn is_the_column(column: usize, of: ColRef) -> bool
    ensures { result ≡ paths.is_the_column ColKind.Int column of }
{
    of.entry == 0 && of.column as usize == column
}

// With NULL none.
fn values_by(kind: ColKind, op: Op, literal: &Value) -> Option<Bounds>
    ensures { result ≡ paths.values_by kind op literal.now }
{
    if matches!(literal, Value::Null) {
        return None;
    }
    values_to(kind, op, literal)
}

// A strict comparison keeps its literal: the condition is tested on every row that is found.
fn values_to(kind: ColKind, op: Op, literal: &Value) -> Option<Bounds>
    ensures { result ≡ paths.values_to kind op literal.now }
{
    match op {
        Op::Eq => from_to(*literal, *literal),
        Op::Ne => all_values(kind),
        Op::Lt | Op::Le => from_to(Value::Null, *literal),
        Op::Gt | Op::Ge => from_to(*literal, greatest_value(kind)),
    }
}

fn from_to(low: Value, high: Value) -> Option<Bounds>
    ensures { result ≡ Some record { low = low; high = high } }
{
    Some(Bounds { low, high })
}

fn all_values(kind: ColKind) -> Option<Bounds>
    ensures { result ≡ paths.all_values kind }
{
    from_to(Value::Null, greatest_value(kind))
}

fn greatest_value(kind: ColKind) -> Value
    ensures { result ≡ paths.greatest_value kind }
{
    match kind {
        ColKind::Int => Value::Int(i64::MAX),
        ColKind::Text => Value::Text(greatest_text()),
    }
}

// 64 times the last printable byte.
fn greatest_text() -> Name
    ensures { result ≡ replicate limits.MAX_TEXT_BYTES 126 }
{
    let bytes = [b'~'; MAX_TEXT_BYTES];
    let Some(text) = Name::new(&bytes) else {
        unreachable!()
    };
    text
}

fn common_values(a: &Option<Bounds>, b: &Option<Bounds>) -> Option<Bounds>
    ensures { result ≡ paths.common_values a.now b.now }
{
    match (a, b) {
        (Some(a), Some(b)) => values_from_to(&greater(&a.low, &b.low), &lesser(&a.high, &b.high)),
        _ => None,
    }
}

fn values_from_to(low: &Value, high: &Value) -> Option<Bounds>
    ensures { result ≡ paths.values_from_to low.now high.now }
{
    if low.cmp(high).is_le() {
        from_to(*low, *high)
    } else {
        None
    }
}

fn spanning_values(a: &Option<Bounds>, b: &Option<Bounds>) -> Option<Bounds>
    ensures { result ≡ paths.spanning_values a.now b.now }
{
    match (a, b) {
        (Some(a), Some(b)) => Some(Bounds {
            low: lesser(&a.low, &b.low),
            high: greater(&a.high, &b.high),
        }),
        (Some(bounds), None) | (None, Some(bounds)) => Some(*bounds),
        (None, None) => None,
    }
}

fn lesser(a: &Value, b: &Value) -> Value
    ensures { result ≡ select.lesser a.now b.now }
{
    if b.cmp(a).is_lt() { *b } else { *a }
}

fn greater(a: &Value, b: &Value) -> Value
    ensures { result ≡ select.greater a.now b.now }
{
    if b.cmp(a).is_gt() { *b } else { *a }
}
