//! Intervals of keys, of which None is the empty one.
ghost use Rattle.std.specs.Prelude.{◌≡◌, pos, ◌+ℤ◌, ◌-ℤ◌};
ghost use Rattle.hr_parts.specs.Footprints.{least_key, greatest_key};
ghost use Rattle.hr_parts.specs.Keys as keys;

use hr_parts::Keys;
use hr_rel::{Op, Value};

/// All keys.
pub fn all_keys() -> Option<Keys>
    ensures { result ≡ keys.all_keys }
{
    Some(Keys {
        low: i64::MIN,
        high: i64::MAX,
    })
}

/// The keys from one number to another.
pub fn from_to(low: i64, high: i64) -> Option<Keys>
    ensures { result ≡ keys.from_to low high }
{
    if low <= high {
        Some(Keys { low, high })
    } else {
        None
    }
}

/// The keys in both.
pub fn common(a: Option<Keys>, b: Option<Keys>) -> Option<Keys>
    ensures { result ≡ keys.common a b }
{
    match (a, b) {
        (Some(a), Some(b)) => from_to(a.low.max(b.low), a.high.min(b.high)),
        _ => None,
    }
}

/// The least interval that holds both.
pub fn spanning(a: Option<Keys>, b: Option<Keys>) -> Option<Keys>
    ensures { result ≡ keys.spanning a b }
{
    match (a, b) {
        (Some(a), Some(b)) => Some(Keys {
            low: a.low.min(b.low),
            high: a.high.max(b.high),
        }),
        (Some(keys), None) | (None, Some(keys)) => Some(keys),
        (None, None) => None,
    }
}

// The keys below a number.
fn below(n: i64) -> Option<Keys>
    ensures { result ≡ keys.from_to least_key (n -ℤ pos 1) }
{
    if n == i64::MIN {
        return None;
    }
    from_to(i64::MIN, n - 1)
}

// The keys above a number.
fn above(n: i64) -> Option<Keys>
    ensures { result ≡ keys.from_to (n +ℤ pos 1) greatest_key }
{
    if n == i64::MAX {
        return None;
    }
    from_to(n + 1, i64::MAX)
}

// The keys that stand so to a number.
fn keys_to(op: Op, n: i64) -> Option<Keys>
    ensures { result ≡ keys.keys_to op n }
{
    match op {
        Op::Eq => from_to(n, n),
        Op::Ne => all_keys(),
        Op::Lt => below(n),
        Op::Le => from_to(i64::MIN, n),
        Op::Gt => above(n),
        Op::Ge => from_to(n, i64::MAX),
    }
}

/// The keys for which a comparison with a literal can be true: with NULL none.
pub fn keys_by(op: Op, literal: &Value) -> Option<Keys>
    ensures { result ≡ keys.keys_by op literal.now }
{
    match literal {
        Value::Null => None,
        Value::Int(n) => keys_to(op, *n),
        Value::Text(_) => all_keys(),
    }
}

/// A comparison read from the right.
pub fn mirrored(op: Op) -> Op
    ensures { result ≡ keys.mirrored op }
{
    match op {
        Op::Eq => Op::Eq,
        Op::Ne => Op::Ne,
        Op::Lt => Op::Gt,
        Op::Le => Op::Ge,
        Op::Gt => Op::Lt,
        Op::Ge => Op::Le,
    }
}
