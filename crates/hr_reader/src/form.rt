//! A line outside of sessions and schedules, by its form.

ghost use Rattle.std.specs.Prelude.{◌≡◌, ◌≤◌, ℕ, List, None, length, IfOk, OnOk};
ghost use Rattle.std.specs.Option.{option_copied};
ghost use Rattle.std.specs.Str.{IsAscii};
ghost use Rattle.hr_base.specs.declared.limits.TheConstants.{MAX_SQL_BYTES};
ghost use Rattle.hr_said.specs.Outcomes.{Gives};
ghost use Rattle.hr_reader.specs.Shaped.{HasTables, AreOrdered};
ghost use Rattle.hr_reader.specs.Reading as spec;
ghost use Rattle.hr_reader.specs.Tables as split;

use crate::rows::row;
use hr_forms::LineForm;
use hr_line::LineName;
use hr_said::{
    LineError, Said, fault, index, liars, replicas, retries, schedule, suspect, table, version,
};
use hr_sessions::session;
use std::alloc::Global;

/// What a line of this form says after those before it; whether the rows are known to be in order then.
pub fn form_says(
    alloc: Global,
    said: &mut Said,
    ordered: bool,
    content: &str,
    form: &LineForm,
) -> Result<bool, LineError>
    requires tables { HasTables said.old }
    requires order { AreOrdered ordered said.old }
    requires short { length content.now ≤ MAX_SQL_BYTES }
    requires ascii { IsAscii content.now }
    ensures said { Gives (spec.form_says said.old content.now form.now) said.new result }
    ensures tables { OnOk result (HasTables said.new) }
    ensures order { IfOk result (λ known. AreOrdered known said.new) }
{
    match row_table(form) {
        Some(table) => row(alloc, said, ordered, table, content),
        None => {
            other_says(alloc, said, form)?;
            Ok(ordered)
        }
    }
}

/// The table that a row comes to.
fn row_table(form: &LineForm) -> Option<&LineName>
    ensures { option_copied result ≡ split.row_table form.now }
{
    match form {
        LineForm::Row { table } => Some(table),
        _ => None,
    }
}

/// What a line of any form but that of a row says.
fn other_says(alloc: Global, said: &mut Said, form: &LineForm) -> Result<(), LineError>
    requires { split.row_table form.now ≡ None }
    ensures { (content : List ℕ) → Gives (spec.form_says said.old content form.now) said.new result }
{
    match form {
        LineForm::Version(number) => version(said, *number),
        LineForm::Liars(number) => liars(said, *number),
        LineForm::Replicas(kinds) => replicas(alloc, said, kinds),
        LineForm::Retries(number) => retries(said, *number),
        LineForm::Table { name, columns } => table(alloc, said, name, columns.as_slice()),
        LineForm::Index { table, column } => index(alloc, said, table, column),
        LineForm::Row { .. } => unreachable!(),
        LineForm::Fault { replica, call, act } => fault(alloc, said, *replica, *call, act),
        LineForm::Suspect(after) => suspect(said, *after),
        LineForm::Session => session(alloc, said),
        LineForm::Schedule => schedule(said),
    }
}
