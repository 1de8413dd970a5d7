//! The items of a report: its lines, each with the lines behind it that its answer goes on with.
ghost use Rattle.std.specs.Prelude.{◌≡◌, ℕ, List, IfOk};
ghost use Rattle.std.specs.Option.{option_copied};
ghost use Rattle.hr_report_reader.specs.Items as spec;

use crate::form::{Form, form_of};
use crate::words::{behind, word_len};
use hr_answer_reader::{TextLines, answer_at, long, read_row};
use hr_rel::Answer;
use std::alloc::{AllocError, Global};

/// A line of a report, with the lines behind it that its answer goes on with.
#[derive(Drop)]
pub enum Item {
    /// A line that has no answer and is no row.
    Line(Form),
    /// `answer I ANSWER`.
    Answer { number: u64, answer: Answer },
    /// `given ANSWER`.
    Given(Answer),
    /// `agreed ANSWER`.
    Agreed(Answer),
    /// A row of a table.
    Row,
}

/// The item that begins with a line, before these lines; the lines that its answer goes on with are read. None where there is
/// none, and then any of these lines may have been read.
pub fn item_at(
    alloc: Global,
    line: &[u8],
    lines: &mut TextLines<'_>,
) -> Result<Option<Item>, AllocError>
    ensures { IfOk result (λ item. spec.Takes (spec.item_at line.now lines.old) item lines.old lines.new) }
{
    if let Some(text) = line.strip_prefix(b"answer ") {
        return numbered(alloc, text, lines);
    }
    if let Some(text) = line.strip_prefix(b"given ") {
        return given_item(alloc, text, lines);
    }
    if let Some(text) = line.strip_prefix(b"agreed ") {
        return agreed_item(alloc, text, lines);
    }
    alone(alloc, line)
}

/// A line that has no other behind it.
fn alone(alloc: Global, line: &[u8]) -> Result<Option<Item>, AllocError>
    ensures { IfOk result (λ item. (lines : List (List ℕ)) → spec.Takes (spec.plain line.now) item lines lines) }
{
    plain(alloc, line)
}

fn plain(alloc: Global, line: &[u8]) -> Result<Option<Item>, AllocError>
    ensures { IfOk result (λ item. item ≡ spec.plain line.now) }
{
    if let Some(form) = form_of(line) {
        return Ok(Some(Item::Line(form)));
    }
    match read_row(alloc, line)? {
        Some(_) => Ok(Some(Item::Row)),
        None => Ok(None),
    }
}

/// `I ANSWER`.
fn numbered(
    alloc: Global,
    text: &[u8],
    lines: &mut TextLines<'_>,
) -> Result<Option<Item>, AllocError>
    ensures { IfOk result (λ item. spec.Takes (spec.numbered text.now lines.old) item lines.old lines.new) }
{
    let len = word_len(text);
    answer_behind(alloc, long(&text[..len]), behind(text, len), lines)
}

fn answer_behind(
    alloc: Global,
    number: Option<u64>,
    first: Option<&[u8]>,
    lines: &mut TextLines<'_>,
) -> Result<Option<Item>, AllocError>
    ensures { IfOk result (λ item. spec.Takes (spec.answer_behind number (option_copied first.entry) lines.old) item lines.old lines.new) }
{
    let Some(number) = number else {
        return Ok(None);
    };
    match first {
        Some(first) => answer_item(alloc, number, first, lines),
        None => Ok(None),
    }
}

#[tactic(auto, using(crate::proofs::Taken::no_answer))]
fn answer_item(
    alloc: Global,
    number: u64,
    first: &[u8],
    lines: &mut TextLines<'_>,
) -> Result<Option<Item>, AllocError>
    ensures { IfOk result (λ item. spec.Takes (spec.answer number first.now lines.old) item lines.old lines.new) }
{
    match answer_at(alloc, first, lines)? {
        Some(answer) => Ok(Some(Item::Answer { number, answer })),
        None => Ok(None),
    }
}

#[tactic(auto, using(crate::proofs::Taken::no_given))]
fn given_item(
    alloc: Global,
    first: &[u8],
    lines: &mut TextLines<'_>,
) -> Result<Option<Item>, AllocError>
    ensures { IfOk result (λ item. spec.Takes (spec.given first.now lines.old) item lines.old lines.new) }
{
    match answer_at(alloc, first, lines)? {
        Some(answer) => Ok(Some(Item::Given(answer))),
        None => Ok(None),
    }
}

#[tactic(auto, using(crate::proofs::Taken::no_agreed))]
fn agreed_item(
    alloc: Global,
    first: &[u8],
    lines: &mut TextLines<'_>,
) -> Result<Option<Item>, AllocError>
    ensures { IfOk result (λ item. spec.Takes (spec.agreed first.now lines.old) item lines.old lines.new) }
{
    match answer_at(alloc, first, lines)? {
        Some(answer) => Ok(Some(Item::Agreed(answer))),
        None => Ok(None),
    }
}
