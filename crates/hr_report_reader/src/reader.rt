//! A whole report.
ghost use Rattle.std.specs.Prelude.{◌≡◌, ◌+◌, ◌<◌, ◌≤◌, ◌^◌, length, IfOk};
ghost use Rattle.hr_told.specs.Blocks.{AreOf};
ghost use Rattle.hr_report_reader.specs.Reading as spec;
ghost use Rattle.hr_report_reader.specs.declared.reader.ReportError.TheVariants.{NoMemory};
ghost use Rattle.hr_answer_reader.specs.Lines.{lines_of, lines_behind};
ghost use Rattle.hr_report_reader.specs.Items.{lines_in};

use crate::item::{Item, item_at};
use crate::next::take;
use crate::told::{Place, Told};
use hr_answer_reader::TextLines;
use hr_rel::Answer;
use hr_said::Scenario;
use hr_told::Report;
use std::alloc::{AllocError, Global};

/// Why a text was not read to a report.
#[derive(Clone, Copy, Debug, PartialEq, Eq)]
pub enum ReportError {
    /// The text is no report of the scenario: the line that is refused first, where the text's first line has the number that
    /// was passed.
    Refused(u64),
    NoMemory,
}

impl From<AllocError> for ReportError {
    ghost from_gives = { λ _ e. e ≡ NoMemory };

    fn from(_refused: AllocError) -> ReportError {
        ReportError::NoMemory
    }
}

/// Reads a report of a scenario: exactly what a text tells that is one, or the first of its lines that is refused; one behind
/// the last where the text ends too early. `first_line` is the number of the text's first line.
pub fn read_report(
    alloc: Global,
    scenario: &Scenario,
    text: &[u8],
    first_line: u32,
) -> Result<Report, ReportError>
    ensures told { IfOk result (λ report. AreOf scenario.now report.commits) }
    ensures exact { spec.IsRead (spec.report_of scenario.now first_line text.now) result }
{
    read(alloc, scenario, text, first_line)
}

fn read(
    alloc: Global,
    scenario: &Scenario,
    text: &[u8],
    first_line: u32,
) -> Result<Report, ReportError>
    ensures { spec.IsRead (spec.report_of scenario.now first_line text.now) result }
{
    let told = Told::nothing(alloc, scenario)?;
    read_lines(alloc, scenario, told, lines_of(text), u64::from(first_line))
}

#[tactic(auto, using(crate::proofs::Few::few_lines))]
fn lines_of(text: &[u8]) -> TextLines<'_>
    ensures lines { result ≡ lines_of text.now }
    ensures few { length result ≤ 2 ^ 63 }
{
    TextLines::of(text)
}

#[tactic(auto, using(crate::proofs::Steps::no_lines, crate::proofs::Steps::fewer))]
fn read_lines(
    alloc: Global,
    scenario: &Scenario,
    told: Told,
    lines: TextLines<'_>,
    first_line: u64,
) -> Result<Report, ReportError>
    requires { first_line + length lines < 2 ^ 64 }
    ensures { spec.IsRead (spec.read_lines scenario.now told first_line 0 lines.entry) result }
{
    let mut rest = lines;
    let mut so_far = told;
    let mut number = first_line;
    'items: while let Some(line) = rest.next() {
        let Some(item) = item_at(alloc, line, &mut rest)? else {
            return Err(ReportError::Refused(number));
        };
        let behind = lines_in(&item);
        if !take(alloc, scenario, &mut so_far, item)? {
            return Err(ReportError::Refused(number));
        }
        number += 1 + behind;
    }
    whole(so_far, number)
}

/// How many lines behind its first an item has.
fn lines_in(item: &Item) -> u64
    ensures { result ≡ lines_in item.now }
{
    match item {
        Item::Answer { number: _, answer } | Item::Given(answer) | Item::Agreed(answer) => {
            lines_behind(answer)
        }
        Item::Line(_) | Item::Row => 0,
    }
}

fn lines_behind(answer: &Answer) -> u64
    ensures { result ≡ length (lines_behind answer.now) }
{
    match answer {
        Answer::Rows(rows) => rows.len() as u64,
        Answer::Count(_) | Answer::Failed(_) => 0,
    }
}

/// The report, once all lines are read, behind which the next would have this number.
fn whole(told: Told, number: u64) -> Result<Report, ReportError>
    ensures { result ≡ spec.told_outcome (spec.whole told number) }
{
    if is_end(told.place) {
        Ok(told.into_report())
    } else {
        Err(ReportError::Refused(number))
    }
}

fn is_end(place: Place) -> bool
    ensures { result ≡ spec.is_end place }
{
    match place {
        Place::End => true,
        _ => false,
    }
}
