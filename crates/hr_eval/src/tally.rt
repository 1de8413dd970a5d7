//! What one item of a SELECT with aggregates shows of a group of rows, in the making. A count has 64 bits and an exact sum 128;
//! where one would need more, the answer is want of memory.
ghost use Rattle.std.specs.Prelude.{◌≡◌, ◌+ℤ◌, pos, [], ◌∷◌, ◌++◌, List, Ok, unwrap_or, IfOk};
ghost use Rattle.hr_meaning.specs.Truth as meaning;
ghost use Rattle.hr_meaning.specs.Value.{value_of, number};
ghost use Rattle.hr_meaning.specs.Select.{item_value, number_in, lesser, greater};
ghost use Rattle.hr_eval.specs.Tuples.{rows_in, or_null};
ghost use Rattle.hr_eval.specs.Tallies.{tally_of, tally_step, tally_shown, unless_null, sum_step, sum_shown, pick_step};

use crate::expression::evaluated;
use crate::tuple::{Tuple, column_value};
use hr_rel::{Expr, Item, RunError, Value};
use std::alloc::AllocError;

/// What is kept for an item of the rows or pairs so far. It takes no memory but its own.
#[derive(Clone, Copy)]
pub enum Tally {
    /// What a plain item's expression is on the first of them.
    First(Option<Result<Value, RunError>>),
    /// How many they are, or of how many the column isn't NULL.
    Count(i64),
    /// The exact sum of a column, once one isn't NULL.
    Sum(Option<i128>),
    /// The least or the greatest value of a column, once one isn't NULL.
    Best(Option<Value>),
}

impl Tally {
    /// An item's tally over no rows.
    pub fn new(item: &Item) -> Tally
        ensures { result ≡ tally_of [] item.now }
    {
        match item {
            Item::Plain(_) => Tally::First(None),
            Item::CountAll | Item::Count(_) => Tally::Count(0),
            Item::Sum(_) => Tally::Sum(None),
            Item::Min(_) | Item::Max(_) => Tally::Best(None),
        }
    }

    /// The item's tally with one row or pair more.
    #[tactic(auto, using(crate::proofs::TallyLaws::tally_last))]
    pub fn with_one_more(&self, item: &Item, tuple: Tuple) -> Result<Tally, AllocError>
        ensures { IfOk result (λ next. (kept : List meaning.Tuple) → self.now ≡ tally_of kept item.now → next ≡ tally_of (kept ++ rows_in tuple.entry ∷ []) item.now) }
    {
        tallied(self, item, tuple)
    }

    /// What the item shows, or Overflow.
    #[tactic(auto, using(crate::proofs::TallyLaws::tally_as_shown))]
    pub fn value(&self) -> Result<Value, RunError>
        ensures { (kept : _) (item : _) → self.now ≡ tally_of kept item → result ≡ item_value kept item }
    {
        self.shown()
    }

    pub fn shown(&self) -> Result<Value, RunError>
        ensures { result ≡ tally_shown self.now }
    {
        match self {
            Tally::First(first) => first_shown(first),
            Tally::Count(count) => Ok(Value::Int(*count)),
            Tally::Sum(sum) => sum_shown(*sum),
            Tally::Best(best) => Ok(best_shown(best)),
        }
    }
}

// The item's tally with one row or pair more. A tally that isn't the item's stays as it is.
pub fn tallied(tally: &Tally, item: &Item, tuple: Tuple) -> Result<Tally, AllocError>
    ensures { IfOk result (λ next. next ≡ tally_step (rows_in tuple.entry) item.now tally.now) }
{
    match (item, tally) {
        (Item::Plain(expr), Tally::First(first)) => {
            Ok(Tally::First(Some(first_or(first, expr, tuple))))
        }
        (Item::CountAll, Tally::Count(count)) => Ok(Tally::Count(one_more(*count)?)),
        (Item::Count(column), Tally::Count(count)) => {
            Ok(Tally::Count(counted(*count, &column_value(tuple, *column))?))
        }
        (Item::Sum(column), Tally::Sum(sum)) => {
            Ok(Tally::Sum(summed(*sum, &column_value(tuple, *column))?))
        }
        (Item::Min(column), Tally::Best(best)) => {
            Ok(Tally::Best(least(best, &column_value(tuple, *column))))
        }
        (Item::Max(column), Tally::Best(best)) => {
            Ok(Tally::Best(greatest(best, &column_value(tuple, *column))))
        }
        _ => Ok(*tally),
    }
}

fn first_or(
    first: &Option<Result<Value, RunError>>,
    expr: &Expr,
    tuple: Tuple,
) -> Result<Value, RunError>
    ensures { result ≡ unwrap_or first.now (value_of expr.now (rows_in tuple.entry)) }
{
    match first {
        Some(outcome) => *outcome,
        None => evaluated(expr, tuple),
    }
}

fn one_more(count: i64) -> Result<i64, AllocError>
    ensures { IfOk result (λ next. next ≡ count +ℤ pos 1) }
{
    match count.checked_add(1) {
        Some(next) => Ok(next),
        None => Err(AllocError),
    }
}

fn counted(count: i64, value: &Value) -> Result<i64, AllocError>
    ensures { IfOk result (λ next. next ≡ unless_null value.now count (count +ℤ pos 1)) }
{
    if matches!(value, Value::Null) {
        Ok(count)
    } else {
        one_more(count)
    }
}

fn summed(sum: Option<i128>, value: &Value) -> Result<Option<i128>, AllocError>
    ensures { IfOk result (λ next. next ≡ unless_null value.now sum (sum_step value.now sum)) }
{
    if matches!(value, Value::Null) {
        return Ok(sum);
    }
    match sum.unwrap_or(0).checked_add(number_in(value)) {
        Some(next) => Ok(Some(next)),
        None => Err(AllocError),
    }
}

fn number_in(value: &Value) -> i128
    ensures { result ≡ number_in value.now }
{
    match value {
        Value::Int(n) => *n as i128,
        _ => 0,
    }
}

fn least(best: &Option<Value>, value: &Value) -> Option<Value>
    ensures { result ≡ unless_null value.now best.now (pick_step lesser value.now best.now) }
{
    if matches!(value, Value::Null) {
        return *best;
    }
    match best {
        Some(best) => Some(lesser(best, value)),
        None => Some(*value),
    }
}

fn lesser(a: &Value, b: &Value) -> Value
    ensures { result ≡ lesser a.now b.now }
{
    if b.cmp(a).is_lt() { *b } else { *a }
}

fn greatest(best: &Option<Value>, value: &Value) -> Option<Value>
    ensures { result ≡ unless_null value.now best.now (pick_step greater value.now best.now) }
{
    if matches!(value, Value::Null) {
        return *best;
    }
    match best {
        Some(best) => Some(greater(best, value)),
        None => Some(*value),
    }
}

fn greater(a: &Value, b: &Value) -> Value
    ensures { result ≡ greater a.now b.now }
{
    if b.cmp(a).is_gt() { *b } else { *a }
}

fn first_shown(first: &Option<Result<Value, RunError>>) -> Result<Value, RunError>
    ensures { result ≡ unwrap_or first.now (Ok Value.Null) }
{
    match first {
        Some(outcome) => *outcome,
        None => Ok(Value::Null),
    }
}

fn best_shown(best: &Option<Value>) -> Value
    ensures { result ≡ or_null best.now }
{
    match best {
        Some(value) => *value,
        None => Value::Null,
    }
}

fn sum_shown(sum: Option<i128>) -> Result<Value, RunError>
    ensures { result ≡ sum_shown sum }
{
    match sum {
        Some(n) => number(n),
        None => Ok(Value::Null),
    }
}

// Only the whole sum has to have 64 bits.
fn number(n: i128) -> Result<Value, RunError>
    ensures { result ≡ number n }
{
    if n >= i64::MIN as i128 && n <= i64::MAX as i128 {
        Ok(Value::Int(n as i64))
    } else {
        Err(RunError::Overflow)
    }
}
