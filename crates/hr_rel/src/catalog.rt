use crate::{Name, Seq, TryCopy};
use std::alloc::{AllocError, Global};

/// The tables of a database. No statement changes it.
#[derive(Debug)]
pub struct Catalog {
    pub tables: Seq<TableDef>,
}

impl Drop for Catalog {
    fn drop(self) {
        let Catalog { tables: _tables } = self;
    }
}

/// A table: its name and its columns, of which there are at most [`MAX_COLUMNS`](hr_base::limits::MAX_COLUMNS). Column 0 is the key.
#[derive(Debug)]
pub struct TableDef {
    pub name: Name,
    pub columns: Seq<ColumnDef>,
}

impl Drop for TableDef {
    fn drop(self) {
        let TableDef {
            name: _name,
            columns: _columns,
        } = self;
    }
}

/// A column: its name, the kind of its values, whether NULL may stand in it, and whether it has an index.
#[derive(Clone, Copy, Debug, PartialEq, Eq)]
pub struct ColumnDef {
    pub name: Name,
    pub kind: ColKind,
    pub nullable: bool,
    pub indexed: bool,
}

/// What a column's values are, NULL aside: signed numbers of 64 bits, or texts.
#[derive(Clone, Copy, PartialEq, Eq, Debug)]
pub enum ColKind {
    Int,
    Text,
}

impl TryCopy for Catalog {
    fn try_copy(&self, alloc: Global) -> Result<Catalog, AllocError> {
        Ok(Catalog {
            tables: self.tables.try_copy(alloc)?,
        })
    }
}

impl TryCopy for TableDef {
    fn try_copy(&self, alloc: Global) -> Result<TableDef, AllocError> {
        Ok(TableDef {
            name: self.name,
            columns: self.columns.try_copy(alloc)?,
        })
    }
}

impl TryCopy for ColumnDef {
    fn try_copy(&self, _alloc: Global) -> Result<ColumnDef, AllocError> {
        Ok(ColumnDef {
            name: self.name,
            kind: self.kind,
            nullable: self.nullable,
            indexed: self.indexed,
        })
    }
}
