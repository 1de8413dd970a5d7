//! The databases: `table t (id int key, v int)`, without rows.
ghost use Rattle.std.specs.Prelude.{◌≡◌, true, false, IfOk, [], ◌∷◌};
ghost use Rattle.hr_rel.specs.declared.catalog.ColKind.TheVariants as kind;
ghost use Rattle.hr_rel.specs.Holds.{IsSound, holds};

use hr_rel::{Catalog, ColKind, ColumnDef, Name, Seq, TableDef};
use hr_table_engine::{TableEngine, table_engine};
use std::alloc::{AllocError, Global};

/// The catalog.
pub fn catalog(alloc: Global) -> Result<Catalog, AllocError>
    ensures sound { IfOk result (λ catalog. IsSound catalog) }
    ensures holds { IfOk result (λ catalog. holds catalog ([] ∷ []) ≡ true) }
{
    let (Some(t), Some(id), Some(v)) = (Name::new(b"t"), Name::new(b"id"), Name::new(b"v")) else {
        unreachable!()
    };
    let mut columns = Seq::new(alloc);
    columns.push(column(&id))?;
    columns.push(column(&v))?;
    let mut tables = Seq::new(alloc);
    tables.push(TableDef { name: t, columns })?;
    Ok(Catalog { tables })
}

/// A database of it.
pub fn engine(alloc: Global, catalog: &Catalog) -> Result<TableEngine, AllocError>
    requires sound { IsSound catalog.now }
    requires holds { holds catalog.now ([] ∷ []) ≡ true }
{
    let mut rows = Seq::new(alloc);
    rows.push(Seq::new(alloc))?;
    table_engine(alloc, catalog, &rows)
}

fn column(name: &Name) -> ColumnDef
    ensures kind { result.kind ≡ kind.Int }
    ensures not_null { result.nullable ≡ false }
{
    ColumnDef {
        name: *name,
        kind: ColKind::Int,
        nullable: false,
        indexed: false,
    }
}
