//! The choice of a path. Nothing here takes memory.
ghost use Rattle.std.specs.Prelude.{◌≡◌, ◌+◌, ◌≤◌, None, length};
ghost use Rattle.hr_base.specs.declared.limits.TheConstants as limits;
ghost use Rattle.hr_rel.specs.Holds.{IsSound};
ghost use Rattle.hr_parts.specs.Keys.{kept_keys};
ghost use Rattle.hr_plan.specs.Paths as paths;

use crate::bounds::{Bounds, are_all_values, both_values};
use crate::condition::{kept_keys, new_keys, select_keys};
use hr_parts::Keys;
use hr_rel::{Catalog, ColumnDef, Pred, SelectStmt, Stmt, Value};

/// How the rows of a statement's first table entry are found. Bounds are in what is found, and the statement's conditions have
/// to be tested on every row.
#[derive(Clone, Copy, Debug, PartialEq, Eq)]
pub enum Path {
    /// The rows whose keys lie in this interval.
    Keys {
        low: i64,
        high: i64,
    },
    /// The rows whose values in an indexed column lie in these bounds.
    Index {
        column: u32,
        low: Value,
        high: Value,
    },
    /// There are none.
    Nothing,
}

/// By the interval of keys, where it isn't all keys; else by the first index, in table order, whose bounds aren't all values;
/// else by all keys. An INSERT's path is its interval.
#[tactic(auto, using(crate::proofs::Columns::few_columns, crate::proofs::Columns::few_first))]
pub fn choose(stmt: &Stmt, catalog: &Catalog) -> Path
    requires sound { IsSound catalog.now }
    ensures { result ≡ paths.path_of catalog.now stmt.now }
{
    match stmt {
        Stmt::Select(select) => {
            condition_path(
                select_keys(0, select),
                &select.on,
                &select.filter,
                first_columns(catalog, select),
            )
        }
        Stmt::Insert(insert) => by_keys(new_keys(insert.rows.as_slice())),
        Stmt::Update(update) => filter_path(&update.filter, catalog.columns_of(update.table)),
        Stmt::Delete(delete) => filter_path(&delete.filter, catalog.columns_of(delete.table)),
    }
}

fn first_columns<'a>(catalog: &'a Catalog, select: &SelectStmt) -> &'a [ColumnDef]
    ensures { result.now ≡ paths.first_columns catalog.now select.now.tables }
{
    match select.tables.as_slice() {
        [] => &[],
        [table, ..] => catalog.columns_of(*table),
    }
}

fn filter_path(filter: &Option<Pred>, columns: &[ColumnDef]) -> Path
    requires few { length columns.now ≤ limits.MAX_COLUMNS }
    ensures { result ≡ paths.condition_path (kept_keys 0 filter.now) None filter.now columns.now }
{
    let on = None;
    condition_path(kept_keys(0, filter), &on, filter, columns)
}

fn by_keys(keys: Option<Keys>) -> Path
    ensures { result ≡ paths.by_keys keys }
{
    match keys {
        Some(keys) => Path::Keys {
            low: keys.low,
            high: keys.high,
        },
        None => Path::Nothing,
    }
}

fn condition_path(
    keys: Option<Keys>,
    on: &Option<Pred>,
    filter: &Option<Pred>,
    columns: &[ColumnDef],
) -> Path
    requires few { length columns.now ≤ limits.MAX_COLUMNS }
    ensures { result ≡ paths.condition_path keys on.now filter.now columns.now }
{
    match keys {
        Some(keys) if are_all_keys(keys) => index_path(on, filter, 0, columns),
        keys => by_keys(keys),
    }
}

fn are_all_keys(keys: Keys) -> bool
    ensures { result ≡ paths.are_all_keys keys }
{
    keys.low == i64::MIN && keys.high == i64::MAX
}

// By one of these columns, of which the first has this place.
fn index_path(on: &Option<Pred>, filter: &Option<Pred>, column: u32, columns: &[ColumnDef]) -> Path
    requires few { column + length columns.now ≤ limits.MAX_COLUMNS }
    ensures { result ≡ paths.index_path on.now filter.now column columns.now }
{
    match columns {
        [] => Path::Keys {
            low: i64::MIN,
            high: i64::MAX,
        },
        [def, rest @ ..] => {
            let bounds = both_values(def.kind, column as usize, on, filter);
            if def.indexed && !are_all_values(def.kind, &bounds) {
                by_values(column, &bounds)
            } else {
                index_path(on, filter, column + 1, rest)
            }
        }
    }
}

fn by_values(column: u32, bounds: &Option<Bounds>) -> Path
    ensures { result ≡ paths.by_values column bounds.now }
{
    match bounds {
        Some(bounds) => Path::Index {
            column,
            low: bounds.low,
            high: bounds.high,
        },
        None => Path::Nothing,
    }
}
