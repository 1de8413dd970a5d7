//! The texts of answers.
ghost use Rattle.std.specs.Prelude.{◌≡◌, ◌<◌, ◌^◌, true, drop, IfOk, IfSome};
ghost use Rattle.std.specs.List.{list_all, zip};
ghost use Rattle.hr_rel.specs.declared.answer.Answer.{Answer};
ghost use Rattle.hr_answer.specs.Canonical.{IsCanonical};
ghost use Rattle.hr_answer_text.specs.Answers.{first_line, answer_text};
ghost use Rattle.hr_answer_reader.specs.Held.{is_held};
ghost use Rattle.hr_answer_reader.specs.Lines.{line_count, Begins};
ghost use Rattle.hr_answer_reader.specs.Answers as spec;

use crate::first::{FirstLine, first_of};
use crate::lines::TextLines;
use crate::row::read_row;
use hr_rel::{Answer, Row, Seq};
use std::alloc::{AllocError, Global};

/// How many lines the answer's text has that begins with this line; None where no answer's text of fewer than 2^64 lines does.
/// Takes no memory.
pub fn answer_lines(first: &[u8]) -> Option<u64>
    ensures some { IfSome result (Begins first.now) }
    ensures each { (answer : Answer) → is_held answer ≡ true → first_line answer ≡ first.now → line_count answer < 2 ^ 64 → result ≡ Some (line_count answer) }
{
    counted(first_of(first))
}

/// How many lines the answer's text has whose first line says this.
fn counted(first: Option<FirstLine>) -> Option<u64>
    ensures { result ≡ spec.count_of first }
{
    match first? {
        FirstLine::Rows(rows) => one_more(rows),
        FirstLine::Count(_) | FirstLine::Failed(_) => Some(1),
    }
}

fn one_more(rows: u64) -> Option<u64>
    ensures { result ≡ spec.one_more rows }
{
    if rows < u64::MAX {
        Some(rows + 1)
    } else {
        None
    }
}

/// The answer that a text is, in canonical form; None where no answer in canonical form is written so.
pub fn read_answer(alloc: Global, text: &[u8]) -> Result<Option<Answer>, AllocError>
    ensures written { IfOk result (λ read. IfSome read (λ answer. IsCanonical answer × (answer_text answer ≡ text.now))) }
    ensures each { IfOk result (λ read. (answer : Answer) → is_held answer ≡ true → IsCanonical answer → answer_text answer ≡ text.now → read ≡ Some answer) }
{
    read(alloc, text)
}

fn read(alloc: Global, text: &[u8]) -> Result<Option<Answer>, AllocError>
    ensures { IfOk result (λ read. read ≡ spec.answer_of text.now) }
{
    let mut lines = TextLines::between_feeds(text);
    let Some(first) = lines.next() else {
        return Ok(None);
    };
    let Some(answer) = answer_at(alloc, first, &mut lines)? else {
        return Ok(None);
    };
    if lines.next().is_none() {
        Ok(Some(answer))
    } else {
        Ok(None)
    }
}

/// The answer whose text begins with this line and goes on with lines of these, which are read; None where there is none, and
/// then any of these lines may have been read.
pub fn answer_at(
    alloc: Global,
    first: &[u8],
    lines: &mut TextLines<'_>,
) -> Result<Option<Answer>, AllocError>
    ensures { IfOk result (λ read. spec.Reads (spec.answer_at first.now lines.old) read lines.new) }
{
    match first_of(first) {
        Some(FirstLine::Rows(count)) => rows_behind(alloc, count, lines),
        Some(FirstLine::Count(count)) => Ok(Some(Answer::Count(count))),
        Some(FirstLine::Failed(error)) => Ok(Some(Answer::Failed(error))),
        None => Ok(None),
    }
}

fn rows_behind(
    alloc: Global,
    count: u64,
    lines: &mut TextLines<'_>,
) -> Result<Option<Answer>, AllocError>
    ensures { IfOk result (λ read. spec.Reads (spec.answer_behind lines.old (FirstLine.Rows count)) read lines.new) }
{
    let Some(rows) = rows_in(alloc, count, lines)? else {
        return Ok(None);
    };
    if is_ascending(rows.as_slice()) {
        Ok(Some(Answer::Rows(rows)))
    } else {
        Ok(None)
    }
}

/// The rows that so many lines are.
#[tactic(auto, using(crate::proofs::RowSteps::one_row, crate::proofs::RowSteps::no_row, crate::proofs::RowSteps::no_line))]
fn rows_in(
    alloc: Global,
    count: u64,
    lines: &mut TextLines<'_>,
) -> Result<Option<Seq<Row>>, AllocError>
    ensures rows { IfOk result (λ rows. rows ≡ spec.rows_in count lines.old) }
    ensures rest { IfOk result (λ rows. IfSome rows (λ _. lines.new ≡ drop count lines.old)) }
{
    let mut rows = Seq::new(alloc);
    let mut left = count;
    'rows: while left > 0 {
        let Some(line) = lines.next() else {
            return Ok(None);
        };
        let Some(row) = read_row(alloc, line)? else {
            return Ok(None);
        };
        rows.push(row)?;
        left -= 1;
    }
    Ok(Some(rows))
}

fn is_ascending(rows: &[Row]) -> bool
    ensures { result ≡ spec.is_ascending rows.now }
{
    match rows {
        [] => true,
        [_, others @ ..] => all_follow(rows, others),
    }
}

fn all_follow(rows: &[Row], others: &[Row]) -> bool
    ensures { result ≡ list_all spec.follows (zip rows.now others.now) }
{
    rows.iter().zip(others).all(|pair| follows(pair.0, pair.1))
}

fn follows(before: &Row, row: &Row) -> bool
    ensures { result ≡ spec.follows (before.now, row.now) }
{
    !row.cmp(before).is_lt()
}
