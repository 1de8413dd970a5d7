ghost use Rattle.std.specs.Prelude.{◌≡◌, true, [], IfOk};
ghost use Rattle.hr_rel.specs.Holds.{IsSound, holds};

use crate::RangeStore;
use hr_engine::Backend;
use hr_lock_engine::LockEngine;
use hr_plan::Span;
use hr_rel::{Catalog, Rows};
use std::alloc::{AllocError, Global};

/// A database whose transactions lock intervals of keys.
pub type RangeEngine = LockEngine<Span, RangeStore>;

/// A range engine with copies of these rows. An error is want of memory.
pub fn range_engine(
    alloc: Global,
    catalog: &Catalog,
    rows: &Rows,
) -> Result<LockEngine<Span, RangeStore>, AllocError>
    requires sound { IsSound catalog.now }
    requires holds { holds catalog.now rows.now ≡ true }
    ensures { IfOk result (λ engine. ⟦<LockEngine<Span, RangeStore> as Backend>⟧.stands engine record { catalog = catalog.now; tables = rows.now } []) }
{
    let store = RangeStore::new(alloc, catalog, rows)?;
    Ok(LockEngine::new(alloc, store))
}
