//! The answer of a SELECT without aggregate or GROUP BY, in the making: one row for each row or pair that is kept.
ghost use Rattle.std.specs.Prelude.{◌≡◌, [], ◌∷◌, ◌++◌, ◌+◌, ◌<◌, min, nat_lt, length, true, List, IfOk, OnOk, OnErr};
ghost use Rattle.hr_base.specs.declared.limits.TheConstants.{MAX_ROWS};
ghost use Rattle.std.specs.List.{list_all};
ghost use Rattle.hr_rel.specs.Fit.{is_plain};
ghost use Rattle.hr_meaning.specs.Truth as meaning;
ghost use Rattle.hr_meaning.specs.Insert.{unless};
ghost use Rattle.hr_meaning.specs.Select.{item_value, plain_row, few};
ghost use Rattle.hr_eval.specs.Tuples.{rows_in};
ghost use Rattle.hr_eval.specs.SoFar.{IsListed, with_last};

use crate::expression::evaluated;
use crate::tuple::Tuple;
use hr_base::limits::MAX_ROWS;
use hr_rel::{Answer, Item, Row, RunError, Seq, Value};
use std::alloc::{AllocError, Global};

/// The rows so far, at most [`MAX_ROWS`] of them. What is kept is counted up to one too many, since too many rows come
/// before all errors; the first error ends the evaluation, and not the count.
pub struct PlainRows {
    count: usize,
    rows: Seq<Row>,
    error: Option<RunError>,
}

impl Drop for PlainRows {
    fn drop(self) {
        let PlainRows {
            count: _count,
            rows: _rows,
            error: _error,
        } = self;
    }
}

impl PlainRows {
    /// Nothing is kept yet; takes no memory.
    pub fn new(alloc: Global) -> PlainRows
        ensures { (items : _) → IsListed items result [] }
    {
        PlainRows {
            count: 0,
            rows: Seq::new(alloc),
            error: None,
        }
    }

    /// One more row or pair is kept. Where memory runs out, nothing changes.
    pub fn add(&mut self, alloc: Global, items: &[Item], tuple: Tuple) -> Result<(), AllocError>
        requires { list_all is_plain items.now ≡ true }
        ensures ok { OnOk result ((kept : List meaning.Tuple) → IsListed items.now self.old kept → IsListed items.now self.new (kept ++ rows_in tuple.entry ∷ [])) }
        ensures err { OnErr result (self.new ≡ self.old) }
    {
        self.evaluate(alloc, items, tuple)?;
        self.count = one_more(self.count);
        Ok(())
    }

    // Evaluates one more row, unless there are too many, or there was an error.
    fn evaluate(&mut self, alloc: Global, items: &[Item], tuple: Tuple) -> Result<(), AllocError>
        requires { list_all is_plain items.now ≡ true }
        ensures ok { OnOk result (self.old.count < MAX_ROWS → unless self.new.error self.new.rows ≡ with_last (unless self.old.error self.old.rows) (plain_row items.now (rows_in tuple.entry))) }
        ensures count { self.new.count ≡ self.old.count }
        ensures err { OnErr result (self.new ≡ self.old) }
    {
        if self.count < MAX_ROWS && self.error.is_none() {
            match plain_row(alloc, items, tuple)? {
                Ok(row) => self.rows.push(row)?,
                Err(error) => self.error = Some(error),
            }
        }
        Ok(())
    }

    /// Whether too many rows were kept, whatever comes.
    #[tactic(auto, using(crate::proofs::Listed::full_as_counted))]
    pub fn is_full(&self) -> bool
        ensures { (items : _) (kept : List meaning.Tuple) → IsListed items self.now kept → result ≡ nat_lt MAX_ROWS (length kept) }
    {
        self.count > MAX_ROWS
    }

    /// The answer over what was kept; takes no memory.
    pub fn answer(self) -> Answer
        ensures { (items : _) (kept : List meaning.Tuple) → IsListed items self kept → result ≡ few (plain_row items) kept }
    {
        let PlainRows { count, rows, error } = self;
        if count > MAX_ROWS {
            return Answer::Failed(RunError::TooManyRows);
        }
        match error {
            Some(error) => Answer::Failed(error),
            None => Answer::Rows(rows),
        }
    }
}

// Counts up to one too many, and stands still there.
fn one_more(count: usize) -> usize
    ensures { result ≡ min count MAX_ROWS + 1 }
{
    if count < MAX_ROWS {
        count + 1
    } else {
        MAX_ROWS + 1
    }
}

// The items of one row or pair, from the left, or the first error.
fn plain_row(
    alloc: Global,
    items: &[Item],
    tuple: Tuple,
) -> Result<Result<Row, RunError>, AllocError>
    requires { list_all is_plain items.now ≡ true }
    ensures { IfOk result (λ outcome. outcome ≡ plain_row items.now (rows_in tuple.entry)) }
{
    let mut row = Seq::new(alloc);
    'items: for item in items {
        match item_value(item, tuple) {
            Ok(value) => row.push(value)?,
            Err(error) => return Ok(Err(error)),
        }
    }
    Ok(Ok(row))
}

fn item_value(item: &Item, tuple: Tuple) -> Result<Value, RunError>
    requires { is_plain item.now ≡ true }
    ensures { result ≡ item_value (rows_in tuple.entry ∷ []) item.now }
{
    match item {
        Item::Plain(expr) => evaluated(expr, tuple),
        _ => unreachable!(),
    }
}
