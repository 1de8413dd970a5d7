//! SELECT: one pass over the rows of a table, or over all pairs of two.
ghost use Rattle.std.specs.Prelude.{◌≡◌, true, ◌&&◌, [], ◌∷◌, ◌++◌, List, map, filter, IfOk, OnOk};
ghost use Rattle.hr_rel.specs.declared.value.Value as values;
ghost use Rattle.hr_rel.specs.Holds.{is_ordered};
ghost use Rattle.hr_meaning.specs.Truth as meaning;
ghost use Rattle.hr_meaning.specs.Truth.{is_kept};
ghost use Rattle.hr_meaning.specs.Select.{answer_from};
ghost use Rattle.hr_meaning.specs.Exec.{tuples};
ghost use Rattle.hr_eval.specs.Tuples.{rows_in};
ghost use Rattle.hr_eval.specs.Answerings.{IsSoFar};
ghost use Rattle.hr_machine.specs.Kept.{keeps, kept_of, single, with_first};

use hr_eval::{Answering, Tuple, is_kept};
use hr_keys::span_of;
use hr_rel::{Answer, Row, RunError, SelectStmt};
use std::alloc::{AllocError, Global};

/// The answer over the rows of one table. Where it is known to be in order, and the condition asks for a key, only the row near
/// that key is looked at.
pub fn from_table(
    alloc: Global,
    select: &SelectStmt,
    rows: &[Row],
    ordered: bool,
) -> Result<Answer, AllocError>
    requires { ordered ≡ true → is_ordered rows.now ≡ true }
    ensures { IfOk result (λ answer. answer ≡ answer_from select.now (kept_of select.now (tuples (rows.now ∷ [])))) }
{
    let span = span_of(rows, &select.filter, ordered);
    from_rows(alloc, select, &rows[span.from..span.to])
}

// The answer over these rows of one table. Once there are too many, the rows behind aren't looked at.
fn from_rows(alloc: Global, select: &SelectStmt, rows: &[Row]) -> Result<Answer, AllocError>
    ensures { IfOk result (λ answer. answer ≡ answer_from select.now (kept_of select.now (tuples (rows.now ∷ [])))) }
{
    let mut answering = Answering::new(alloc, select)?;
    'rows: for row in rows {
        offer(alloc, &mut answering, select, Tuple::Row(row.as_slice()))?;
        if answering.is_full() {
            return Ok(Answer::Failed(RunError::TooManyRows));
        }
    }
    answering.answer(alloc)
}

/// The answer over all pairs of rows of two tables. Once there are too many, no further row is paired.
pub fn from_pairs(
    alloc: Global,
    select: &SelectStmt,
    firsts: &[Row],
    seconds: &[Row],
) -> Result<Answer, AllocError>
    ensures { IfOk result (λ answer. answer ≡ answer_from select.now (kept_of select.now (tuples (firsts.now ∷ seconds.now ∷ [])))) }
{
    let mut answering = Answering::new(alloc, select)?;
    'firsts: for first in firsts {
        offer_pairs(alloc, &mut answering, select, first, seconds)?;
        if answering.is_full() {
            return Ok(Answer::Failed(RunError::TooManyRows));
        }
    }
    answering.answer(alloc)
}

// All pairs of a first row.
fn offer_pairs(
    alloc: Global,
    answering: &mut Answering,
    select: &SelectStmt,
    first: &Row,
    seconds: &[Row],
) -> Result<(), AllocError>
    requires { (kept : List meaning.Tuple) × IsSoFar select.now answering.old kept }
    ensures { OnOk result ((kept : List meaning.Tuple) → IsSoFar select.now answering.old kept → IsSoFar select.now answering.new (kept ++ kept_of select.now (map (with_first first.now) (tuples (seconds.now ∷ []))))) }
{
    'seconds: for second in seconds {
        offer(
            alloc,
            answering,
            select,
            Tuple::Pair(first.as_slice(), second.as_slice()),
        )?;
    }
    Ok(())
}

// One row or pair, which counts if ON and WHERE keep it.
fn offer(
    alloc: Global,
    answering: &mut Answering,
    select: &SelectStmt,
    tuple: Tuple,
) -> Result<(), AllocError>
    requires { (kept : List meaning.Tuple) × IsSoFar select.now answering.old kept }
    ensures { OnOk result ((kept : List meaning.Tuple) → IsSoFar select.now answering.old kept → IsSoFar select.now answering.new (kept ++ kept_of select.now (rows_in tuple.entry ∷ []))) }
{
    if keeps(select, tuple) {
        answering.add(alloc, select, tuple)
    } else {
        Ok(())
    }
}

fn keeps(select: &SelectStmt, tuple: Tuple) -> bool
    ensures { result ≡ keeps select.now (rows_in tuple.entry) }
{
    is_kept(&select.on, tuple) && is_kept(&select.filter, tuple)
}
