ghost use Rattle.std.specs.Prelude.{◌≡◌, ◌++◌, List, [], ◌∷◌, map, false, OnOk};
ghost use Rattle.hr_base.proofs.Tests.{eq_turn};
ghost use Rattle.hr_parts.specs.Footprints.{whole, table_parts};
ghost use Rattle.hr_parts.proofs.Lists.{covered_within};
ghost use Rattle.hr_parts.proofs.WholeTables.{tables_cover};
ghost use Rattle.hr_table_engine.specs.Names.{same_table, table_part, tables_meet};

use hr_lock_engine::Locking;
use hr_locks::{LockName, Mode, Need};
use hr_rel::Stmt;
use std::alloc::{AllocError, Global};

/// A whole table, by its number.
#[derive(Clone, Copy, Debug, PartialEq, Eq)]
pub struct TableName {
    pub table: u32,
}

impl LockName for TableName {
    ghost meets = { same_table };

    ghost symmetric = { λ a b. eq_turn a.table b.table };

    fn meets(&self, other: &TableName) -> bool {
        self.table == other.table
    }
}

/// Each table that a statement reads is shared, and the one that it changes is locked for it alone.
impl Locking for TableName {
    ghost covered = { table_part };

    ghost parts = { table_parts };

    ghost meeting = { tables_meet };

    ghost footprint = { λ s. covered_within (table_parts s) s (tables_cover s) };

    fn needs(alloc: Global, stmt: &Stmt) -> Result<Vec<Need<TableName>>, AllocError> {
        let mut needs = Vec::new(alloc);
        match stmt {
            Stmt::Select(select) => put_shared(&mut needs, select.tables.as_slice())?,
            Stmt::Insert(insert) => put(&mut needs, insert.table, Mode::Exclusive)?,
            Stmt::Update(update) => put(&mut needs, update.table, Mode::Exclusive)?,
            Stmt::Delete(delete) => put(&mut needs, delete.table, Mode::Exclusive)?,
        }
        Ok(needs)
    }
}

fn put_shared(needs: &mut Vec<Need<TableName>>, tables: &[u32]) -> Result<(), AllocError>
    ensures { OnOk result (map table_part needs.new.items ≡ map table_part needs.old.items ++ map (whole false) tables.now) }
{
    'tables: for table in tables {
        put(needs, *table, Mode::Shared)?;
    }
    Ok(())
}

fn put(needs: &mut Vec<Need<TableName>>, table: u32, mode: Mode) -> Result<(), AllocError>
    ensures { OnOk result (map table_part needs.new.items ≡ map table_part needs.old.items ++ table_part (record { name = record { table = table }; mode = mode }) ∷ []) }
{
    let name = TableName { table };
    needs.push(Need { name, mode })?;
    Ok(())
}
