//! A line of a row, by what was said before it.

ghost use Rattle.std.specs.Prelude.{◌≡◌, ◌<◌, ◌≤◌, None, length, unwrap_or, IfOk, OnOk};
ghost use Rattle.std.specs.Str.{IsAscii};
ghost use Rattle.hr_base.specs.declared.limits.TheConstants.{MAX_SQL_BYTES};
ghost use Rattle.hr_said.specs.declared.limits.TheConstants.{MAX_FIRST_ROWS};
ghost use Rattle.hr_said.specs.Outcomes.{Gives, Found};
ghost use Rattle.hr_reader.specs.Shaped.{HasTables, AreOrdered};
ghost use Rattle.hr_reader.specs.Rows as spec;

use crate::put::add_row;
use crate::tuple::row_held;
use hr_line::LineName;
use hr_said::{
    InputKind, LineError, MAX_FIRST_ROWS, Said, is_too_long, may_stand, short, table_named,
};
use std::alloc::Global;

/// `row TABLE (LITERAL, ..)`, with what the line holds. Whether the rows are known to be in the order of their keys is passed
/// in, and told of the rows that there are then: where it is known, the place of a row is found by binary search.
pub fn row(
    alloc: Global,
    said: &mut Said,
    ordered: bool,
    table: &LineName,
    content: &str,
) -> Result<bool, LineError>
    requires tables { HasTables said.old }
    requires order { AreOrdered ordered said.old }
    requires short { length content.now ≤ MAX_SQL_BYTES }
    requires ascii { IsAscii content.now }
    ensures said { Gives (spec.row said.old table.now content.now) said.new result }
    ensures tables { OnOk result (HasTables said.new) }
    ensures order { IfOk result (λ known. AreOrdered known said.new) }
{
    let number = table_for(said, table)?;
    row_to(alloc, said, ordered, number, table, content)
}

/// The number of the table that a row comes to, where one may stand.
fn table_for(said: &Said, table: &LineName) -> Result<usize, LineError>
    ensures found { Found (spec.table_for said.now table.now) result }
    ensures within { IfOk result (λ number. number < length said.now.catalog.tables) }
    ensures few { OnOk result (said.now.row_count < MAX_FIRST_ROWS) }
{
    if !may_stand(said.part, 5) {
        return Err(LineError::Refused(InputKind::Form));
    }
    if is_too_long(table) || said.row_count >= MAX_FIRST_ROWS {
        return Err(LineError::Refused(InputKind::Limit));
    }
    match table_named(&said.catalog, table) {
        Some(number) => Ok(number),
        None => Err(LineError::Refused(InputKind::Unknown)),
    }
}

fn row_to(
    alloc: Global,
    said: &mut Said,
    ordered: bool,
    number: usize,
    table: &LineName,
    content: &str,
) -> Result<bool, LineError>
    requires tables { HasTables said.old }
    requires within { number < length said.old.catalog.tables }
    requires few { said.old.row_count < MAX_FIRST_ROWS }
    requires order { AreOrdered ordered said.old }
    requires short { length content.now ≤ MAX_SQL_BYTES }
    requires ascii { IsAscii content.now }
    ensures said { Gives (spec.row_to said.old number table.now content.now) said.new result }
    ensures tables { OnOk result (HasTables said.new) }
    ensures order { IfOk result (λ known. AreOrdered known said.new) }
{
    let name = short(table);
    let row = row_held(alloc, &said.catalog, &name, content)?;
    add_row(alloc, said, ordered, number, row)
}
