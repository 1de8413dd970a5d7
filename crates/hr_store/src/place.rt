ghost use Rattle.std.specs.Prelude.{◌≡◌};
ghost use Rattle.std.specs.Option.{option_map};
ghost use Rattle.hr_rel.specs.Database.{key_of};
ghost use Rattle.hr_store.specs.Places.{place_of, row_place};

use hr_rel::{Row, key_of};

/// Where a row stands: its table's number and its key. Places are ordered by table, and then by key.
#[derive(Clone, Copy, PartialEq, Eq, PartialOrd, Ord)]
pub struct Place {
    pub table: u32,
    pub key: i64,
}

impl Place {
    /// The place of a key in a table.
    pub fn new(table: u32, key: i64) -> Place
        ensures { result ≡ place_of table key }
    {
        Place { table, key }
    }

    /// The place of a row in a table; none where its first value is no number.
    pub fn of(table: u32, row: &Row) -> Option<Place>
        ensures { result ≡ row_place table row.now }
    {
        match key_of(row) {
            Some(key) => Some(Place::new(table, key)),
            None => None,
        }
    }
}
