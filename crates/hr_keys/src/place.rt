//! The place of a key in a table in order.
ghost use Rattle.std.specs.Prelude.{◌≡◌, ◌≤◌, not, length};
ghost use Rattle.hr_meaning.specs.Insert.{comes_after, place_for};
ghost use Rattle.hr_keys.specs.Keys.{Splits};

use hr_rel::{Row, key_of};

/// The place of the first row with a greater key than this one, or the table's length, by binary search.
pub fn place_of(table: &[Row], key: i64) -> usize
    requires { Splits table.now }
    ensures place { result ≡ place_for table.now key }
    ensures within { result ≤ length table.now }
{
    table.partition_point(
        |row: &Row| -> bool
            ensures { result ≡ not (comes_after key row.now) }
        { !comes_after(key, row) },
    )
}

fn comes_after(key: i64, row: &Row) -> bool
    ensures { result ≡ comes_after key row.now }
{
    match key_of(row) {
        Some(found) => found > key,
        None => false,
    }
}
