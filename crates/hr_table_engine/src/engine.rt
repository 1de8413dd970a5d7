ghost use Rattle.std.specs.Prelude.{◌≡◌, true, [], IfOk};
ghost use Rattle.hr_rel.specs.Holds.{IsSound, IsOrdered, holds};

use crate::{TableName, TableStore};
use hr_engine::Backend;
use hr_lock_engine::LockEngine;
use hr_rel::{Catalog, Rows};
use std::alloc::{AllocError, Global};

/// A database whose transactions lock whole tables.
pub type TableEngine = LockEngine<TableName, TableStore>;

/// A table engine with copies of these rows. An error is want of memory.
pub fn table_engine(
    alloc: Global,
    catalog: &Catalog,
    rows: &Rows,
) -> Result<LockEngine<TableName, TableStore>, AllocError>
    requires sound { IsSound catalog.now }
    requires holds { holds catalog.now rows.now ≡ true }
    ensures { IfOk result (λ engine. ⟦<LockEngine<TableName, TableStore> as Backend>⟧.stands engine record { catalog = catalog.now; tables = rows.now } []) }
{
    let store = TableStore::new(alloc, catalog, rows)?;
    Ok(LockEngine::new(alloc, store))
}
