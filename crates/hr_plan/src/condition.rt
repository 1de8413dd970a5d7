//! The interval of a table entry's keys outside which a condition isn't true. Nothing here takes memory.
ghost use Rattle.std.specs.Prelude.{◌≡◌};
ghost use Rattle.hr_parts.specs.Keys as keys;

use crate::interval::{all_keys, common, keys_by, mirrored, spanning};
use hr_parts::Keys;
use hr_rel::{ColRef, Op, Operand, Pred, Row, SelectStmt, key_of};

/// The interval of a SELECT's table entry: ON and WHERE are taken as by AND.
pub fn select_keys(entry: usize, select: &SelectStmt) -> Option<Keys>
    ensures { result ≡ keys.select_keys entry select.now }
{
    common(
        kept_keys(entry, &select.on),
        kept_keys(entry, &select.filter),
    )
}

/// The interval of a condition; where there is none, all keys.
pub fn kept_keys(entry: usize, condition: &Option<Pred>) -> Option<Keys>
    ensures { result ≡ keys.kept_keys entry condition.now }
{
    match condition {
        Some(pred) => keys_of(entry, pred),
        None => all_keys(),
    }
}

fn keys_of(entry: usize, pred: &Pred) -> Option<Keys>
    ensures { result ≡ keys.keys_of entry pred.now }
{
    match pred {
        Pred::Compare(op, left, right) => compared_keys(entry, *op, left, right),
        Pred::IsNull(_) | Pred::Not(_) => all_keys(),
        Pred::And(a, b) => common(keys_of(entry, a.get()), keys_of(entry, b.get())),
        Pred::Or(a, b) => spanning(keys_of(entry, a.get()), keys_of(entry, b.get())),
    }
}

// Only a comparison of the key with a literal, on either side, tells something of the key.
fn compared_keys(entry: usize, op: Op, left: &Operand, right: &Operand) -> Option<Keys>
    ensures { result ≡ keys.compared_keys entry op left.now right.now }
{
    match (left, right) {
        (Operand::Col(column), Operand::Lit(value)) if is_the_key(entry, *column) => keys_by(
            op, value,
        ),
        (Operand::Lit(value), Operand::Col(column)) if is_the_key(entry, *column) => keys_by(
            mirrored(op),
            value,
        ),
        _ => all_keys(),
    }
}

fn is_the_key(entry: usize, column: ColRef) -> bool
    ensures { result ≡ keys.is_the_key entry column }
{
    column.entry as usize == entry && column.column == 0
}

/// The least interval that holds the keys of new rows.
pub fn new_keys(rows: &[Row]) -> Option<Keys>
    ensures { result ≡ keys.new_keys rows.now }
{
    match rows {
        [] => None,
        [row, rest @ ..] => spanning(one_key(key_of(row)), new_keys(rest)),
    }
}

// A key alone, where there is one.
fn one_key(key: Option<i64>) -> Option<Keys>
    ensures { result ≡ keys.one_key key }
{
    match key {
        Some(key) => Some(Keys {
            low: key,
            high: key,
        }),
        None => None,
    }
}
