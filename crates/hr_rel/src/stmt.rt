use crate::{ColRef, Expr, Pred, Row, Seq, TryCopy};
use std::alloc::{AllocError, Global};

/// A bound statement: names are turned into places, and tables are numbers into the catalog, from 0.
#[derive(Debug)]
pub enum Stmt {
    Select(SelectStmt),
    Insert(InsertStmt),
    Update(UpdateStmt),
    Delete(DeleteStmt),
}

impl Drop for Stmt {
    fn drop(self) {
        match self {
            Stmt::Select(_part) => {}
            Stmt::Insert(_part) => {}
            Stmt::Update(_part) => {}
            Stmt::Delete(_part) => {}
        }
    }
}

/// `SELECT items FROM tables [ON on] [WHERE filter] [GROUP BY groups]` over one or two table entries.
#[derive(Debug)]
pub struct SelectStmt {
    pub tables: Seq<u32>,
    pub on: Option<Pred>,
    pub filter: Option<Pred>,
    pub items: Seq<Item>,
    pub groups: Seq<ColRef>,
}

impl Drop for SelectStmt {
    fn drop(self) {
        let SelectStmt {
            tables: _tables,
            on: _on,
            filter: _filter,
            items: _items,
            groups: _groups,
        } = self;
    }
}

/// One column of a SELECT's answer.
#[derive(Debug)]
pub enum Item {
    Plain(Expr),
    CountAll,
    Count(ColRef),
    Sum(ColRef),
    Min(ColRef),
    Max(ColRef),
}

impl Drop for Item {
    fn drop(self) {
        match self {
            Item::Plain(_part) => {}
            Item::CountAll => {}
            Item::Count(_part) => {}
            Item::Sum(_part) => {}
            Item::Min(_part) => {}
            Item::Max(_part) => {}
        }
    }
}

/// `INSERT INTO table VALUES rows`: each row whole, in the table's order of columns.
#[derive(Debug)]
pub struct InsertStmt {
    pub table: u32,
    pub rows: Seq<Row>,
}

impl Drop for InsertStmt {
    fn drop(self) {
        let InsertStmt {
            table: _table,
            rows: _rows,
        } = self;
    }
}

/// `UPDATE table SET sets [WHERE filter]`.
#[derive(Debug)]
pub struct UpdateStmt {
    pub table: u32,
    pub sets: Seq<Set>,
    pub filter: Option<Pred>,
}

impl Drop for UpdateStmt {
    fn drop(self) {
        let UpdateStmt {
            table: _table,
            sets: _sets,
            filter: _filter,
        } = self;
    }
}

/// One assignment of an UPDATE: the column's place from 0, and its new value.
#[derive(Debug)]
pub struct Set {
    pub column: u32,
    pub value: Expr,
}

impl Drop for Set {
    fn drop(self) {
        let Set {
            column: _column,
            value: _value,
        } = self;
    }
}

/// `DELETE FROM table [WHERE filter]`.
#[derive(Debug)]
pub struct DeleteStmt {
    pub table: u32,
    pub filter: Option<Pred>,
}

impl Drop for DeleteStmt {
    fn drop(self) {
        let DeleteStmt {
            table: _table,
            filter: _filter,
        } = self;
    }
}

impl TryCopy for Stmt {
    fn try_copy(&self, alloc: Global) -> Result<Stmt, AllocError> {
        match self {
            Stmt::Select(select) => Ok(Stmt::Select(select.try_copy(alloc)?)),
            Stmt::Insert(insert) => Ok(Stmt::Insert(insert.try_copy(alloc)?)),
            Stmt::Update(update) => Ok(Stmt::Update(update.try_copy(alloc)?)),
            Stmt::Delete(delete) => Ok(Stmt::Delete(delete.try_copy(alloc)?)),
        }
    }
}

impl TryCopy for SelectStmt {
    fn try_copy(&self, alloc: Global) -> Result<SelectStmt, AllocError> {
        Ok(SelectStmt {
            tables: self.tables.try_copy(alloc)?,
            on: self.on.try_copy(alloc)?,
            filter: self.filter.try_copy(alloc)?,
            items: self.items.try_copy(alloc)?,
            groups: self.groups.try_copy(alloc)?,
        })
    }
}

impl TryCopy for Item {
    fn try_copy(&self, alloc: Global) -> Result<Item, AllocError> {
        match self {
            Item::Plain(expr) => Ok(Item::Plain(expr.try_copy(alloc)?)),
            Item::CountAll => Ok(Item::CountAll),
            Item::Count(column) => Ok(Item::Count(*column)),
            Item::Sum(column) => Ok(Item::Sum(*column)),
            Item::Min(column) => Ok(Item::Min(*column)),
            Item::Max(column) => Ok(Item::Max(*column)),
        }
    }
}

impl TryCopy for InsertStmt {
    fn try_copy(&self, alloc: Global) -> Result<InsertStmt, AllocError> {
        Ok(InsertStmt {
            table: self.table,
            rows: self.rows.try_copy(alloc)?,
        })
    }
}

impl TryCopy for UpdateStmt {
    fn try_copy(&self, alloc: Global) -> Result<UpdateStmt, AllocError> {
        Ok(UpdateStmt {
            table: self.table,
            sets: self.sets.try_copy(alloc)?,
            filter: self.filter.try_copy(alloc)?,
        })
    }
}

impl TryCopy for Set {
    fn try_copy(&self, alloc: Global) -> Result<Set, AllocError> {
        Ok(Set {
            column: self.column,
            value: self.value.try_copy(alloc)?,
        })
    }
}

impl TryCopy for DeleteStmt {
    fn try_copy(&self, alloc: Global) -> Result<DeleteStmt, AllocError> {
        Ok(DeleteStmt {
            table: self.table,
            filter: self.filter.try_copy(alloc)?,
        })
    }
}
