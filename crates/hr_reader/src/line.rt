//! One line, by what was said before it.

ghost use Rattle.std.specs.Prelude.{◌≡◌, ◌≤◌, length, IfOk, OnOk};
ghost use Rattle.std.specs.Str.{IsAscii};
ghost use Rattle.hr_base.specs.declared.limits.TheConstants.{MAX_SQL_BYTES};
ghost use Rattle.hr_said.specs.Outcomes.{Gives};
ghost use Rattle.hr_reader.specs.Shaped.{HasTables, AreOrdered};
ghost use Rattle.hr_reader.specs.Reading as spec;

use crate::form::form_says;
use hr_forms::form_of;
use hr_line::{LineFault, is_skipped};
use hr_lines::text_of;
use hr_said::{InputKind, Inside, LineError, Said, schedule_line};
use hr_sessions::session_line;
use std::alloc::Global;

/// What a line says after those before it, without the line feed that ends it. Whether the rows are known to be in the order of
/// their keys is passed in, and told of the rows that there are then.
#[tactic(auto, unfolding(crate::specs::Reading::line_says))]
pub fn line_says(
    alloc: Global,
    said: &mut Said,
    ordered: bool,
    line: &[u8],
) -> Result<bool, LineError>
    requires tables { HasTables said.old }
    requires order { AreOrdered ordered said.old }
    ensures said { Gives (spec.line_says said.old line.now) said.new result }
    ensures tables { OnOk result (HasTables said.new) }
    ensures order { IfOk result (λ known. AreOrdered known said.new) }
{
    match text_of(line) {
        Ok(content) => content_says(alloc, said, ordered, content),
        Err(fault) => Err(LineError::Refused(fault_kind(fault))),
    }
}

fn fault_kind(fault: LineFault) -> InputKind
    ensures { result ≡ spec.fault_kind fault }
{
    match fault {
        LineFault::TooLong => InputKind::LineTooLong,
        LineFault::BadByte => InputKind::BadByte,
    }
}

/// What a line says that holds this.
fn content_says(
    alloc: Global,
    said: &mut Said,
    ordered: bool,
    content: &str,
) -> Result<bool, LineError>
    requires tables { HasTables said.old }
    requires order { AreOrdered ordered said.old }
    requires short { length content.now ≤ MAX_SQL_BYTES }
    requires ascii { IsAscii content.now }
    ensures said { Gives (spec.content_says said.old content.now) said.new result }
    ensures tables { OnOk result (HasTables said.new) }
    ensures order { IfOk result (λ known. AreOrdered known said.new) }
{
    if is_skipped(content.as_bytes()) {
        return Ok(ordered);
    }
    standing(alloc, said, ordered, content)
}

/// A line that says something, by where it stands.
fn standing(alloc: Global, said: &mut Said, ordered: bool, content: &str) -> Result<bool, LineError>
    requires tables { HasTables said.old }
    requires order { AreOrdered ordered said.old }
    requires short { length content.now ≤ MAX_SQL_BYTES }
    requires ascii { IsAscii content.now }
    ensures said { Gives (spec.standing said.old content.now said.old.inside) said.new result }
    ensures tables { OnOk result (HasTables said.new) }
    ensures order { IfOk result (λ known. AreOrdered known said.new) }
{
    match said.inside {
        Inside::Outside => formed(alloc, said, ordered, content),
        Inside::Session => in_session(alloc, said, ordered, content),
        Inside::Schedule => in_schedule(alloc, said, ordered, content),
    }
}

fn formed(alloc: Global, said: &mut Said, ordered: bool, content: &str) -> Result<bool, LineError>
    requires tables { HasTables said.old }
    requires order { AreOrdered ordered said.old }
    requires short { length content.now ≤ MAX_SQL_BYTES }
    requires ascii { IsAscii content.now }
    ensures said { Gives (spec.standing said.old content.now Inside.Outside) said.new result }
    ensures tables { OnOk result (HasTables said.new) }
    ensures order { IfOk result (λ known. AreOrdered known said.new) }
{
    match form_of(alloc, content.as_bytes())? {
        Some(form) => form_says(alloc, said, ordered, content, &form),
        None => Err(LineError::Refused(InputKind::Form)),
    }
}

#[tactic(auto, using(crate::proofs::Kept::session_keeps_tables, crate::proofs::Kept::session_keeps_order))]
fn in_session(
    alloc: Global,
    said: &mut Said,
    ordered: bool,
    content: &str,
) -> Result<bool, LineError>
    requires tables { HasTables said.old }
    requires order { AreOrdered ordered said.old }
    ensures said { Gives (spec.standing said.old content.now Inside.Session) said.new result }
    ensures tables { OnOk result (HasTables said.new) }
    ensures order { IfOk result (λ known. AreOrdered known said.new) }
{
    session_line(alloc, said, content)?;
    Ok(ordered)
}

#[tactic(auto, using(crate::proofs::Kept::schedule_keeps_tables, crate::proofs::Kept::schedule_keeps_order))]
fn in_schedule(
    alloc: Global,
    said: &mut Said,
    ordered: bool,
    content: &str,
) -> Result<bool, LineError>
    requires tables { HasTables said.old }
    requires order { AreOrdered ordered said.old }
    ensures said { Gives (spec.standing said.old content.now Inside.Schedule) said.new result }
    ensures tables { OnOk result (HasTables said.new) }
    ensures order { IfOk result (λ known. AreOrdered known said.new) }
{
    schedule_line(alloc, said, content.as_bytes())?;
    Ok(ordered)
}
