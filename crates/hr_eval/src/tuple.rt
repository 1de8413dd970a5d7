ghost use Rattle.std.specs.Prelude.{◌≡◌};
ghost use Rattle.std.specs.Option.{option_copied};
ghost use Rattle.hr_meaning.specs.Truth.{column_value};
ghost use Rattle.hr_eval.specs.Tuples.{rows_in, or_null};

use hr_rel::{ColRef, Value};

/// What a condition is judged on: one row of each table entry of the statement, so a row alone, or a pair of rows.
/// The rows are lent, so nothing is joined or copied.
#[derive(Clone, Copy)]
pub enum Tuple<'a> {
    Row(&'a [Value]),
    Pair(&'a [Value], &'a [Value]),
}

/// The value at a column; None where there is no such column, which counts as NULL.
pub fn column<'a>(tuple: Tuple<'a>, at: ColRef) -> Option<&'a Value>
    ensures { or_null (option_copied result) ≡ column_value (rows_in tuple.entry) at }
{
    match (tuple, at.entry) {
        (Tuple::Row(row), 0) | (Tuple::Pair(row, _), 0) | (Tuple::Pair(_, row), 1) => row.get(
            at.column as usize,
        ),
        _ => None,
    }
}

/// The value at a column, or NULL.
pub fn column_value(tuple: Tuple, at: ColRef) -> Value
    ensures { result ≡ column_value (rows_in tuple.entry) at }
{
    match column(tuple, at) {
        Some(value) => *value,
        None => Value::Null,
    }
}
