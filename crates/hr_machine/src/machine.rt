ghost use Rattle.std.specs.Prelude.{◌≡◌, ◌<◌, [], true, length, slice_get, slice_set, unwrap_or, IfOk, OnOk, OnErr};
ghost use Rattle.hr_rel.specs.Database.{with_rows};
ghost use Rattle.hr_rel.specs.Holds.{is_ordered, IsOrdered};
ghost use Rattle.hr_rel.specs.Fit.{is_joined, insert_fits, update_fits, delete_fits, select_fits};
ghost use Rattle.hr_meaning.specs.Value.{each};
ghost use Rattle.hr_meaning.specs.Select.{answer_from};
ghost use Rattle.hr_meaning.specs.Insert.{inserted};
ghost use Rattle.hr_meaning.specs.Exec.{exec, meaning, kept, kept_rows, other_rows, updated};
ghost use Rattle.hr_machine.specs.Changes.{rows_at, IsChange};

use crate::insert::insert_rows;
use crate::select::{from_pairs, from_table};
use crate::update::{delete_rows, update_rows};
use hr_keys::in_order;
use hr_rel::{
    Answer, Catalog, ColumnDef, DeleteStmt, InsertStmt, Row, Rows, RunError, SelectStmt, Seq, Stmt,
    Table, TryCopy, UpdateStmt,
};
use std::alloc::{AllocError, Global};
use std::marker::Model;
use std::mem;

/// A database whose rows lie in lists. It runs one statement after another, without transactions.
pub struct Machine {
    alloc: Global,
    catalog: Catalog,
    tables: Rows,
    // Whether the rows are known to be in order, and so found by their keys.
    ordered: bool,
}

impl Drop for Machine {
    fn drop(self) {
        let Machine {
            alloc: _alloc,
            catalog: _catalog,
            tables: _tables,
            ordered: _ordered,
        } = self;
    }
}

impl Model for Machine {
    ghost use Rattle.std.specs.Prelude.{◌≡◌, length};
    ghost use Rattle.hr_rel.specs.Database.{Database};
    ghost use Rattle.hr_machine.specs.Order.{IsShaped};

    ghost Value = { Database };

    ghost view = { λ m. record { catalog = m.catalog; tables = m.tables } };

    ghost invariant = { λ m. IsShaped m.catalog m.tables m.ordered };
}

impl Machine {
    /// A database of this catalog with these rows, a list of rows for each table; takes no memory.
    pub fn new(alloc: Global, catalog: Catalog, rows: Rows) -> Machine
        requires { length rows ≡ length catalog.tables }
        ensures { result ≡ record { catalog = catalog; tables = rows } }
    {
        let ordered = in_order(&catalog, &rows);
        Machine {
            alloc,
            catalog,
            tables: rows,
            ordered,
        }
    }

    /// A database of a copy of this catalog with copies of these rows, a list of rows for each table.
    pub fn with_rows(alloc: Global, catalog: &Catalog, rows: &Rows) -> Result<Machine, AllocError>
        requires { length rows.now ≡ length catalog.now.tables }
        ensures { IfOk result (λ machine. machine ≡ record { catalog = catalog.now; tables = rows.now }) }
    {
        Ok(Machine::new(alloc, catalog.try_copy(alloc)?, rows.try_copy(alloc)?))
    }

    /// Runs a statement: the answer and what is left are those of its definition. One that doesn't fit the catalog
    /// fails as Unfit. Where memory runs out, nothing changes.
    pub fn run(&mut self, stmt: &Stmt) -> Result<Answer, AllocError>
        ensures answer { IfOk result (λ answer. answer ≡ (exec self.old stmt.now).answer) }
        ensures after { OnOk result (self.new ≡ (exec self.old stmt.now).after) }
        ensures err { OnErr result (self.new ≡ self.old) }
    {
        if !self.catalog.fits(stmt) {
            return Ok(Answer::Failed(RunError::Unfit));
        }
        match stmt {
            Stmt::Select(select) => self.select(select),
            Stmt::Insert(insert) => self.insert(insert),
            Stmt::Update(update) => self.update(update),
            Stmt::Delete(delete) => Ok(self.delete(delete)),
        }
    }

    fn select(&self, select: &SelectStmt) -> Result<Answer, AllocError>
        requires { select_fits self.now.catalog select.now ≡ true }
        ensures { IfOk result (λ answer. answer ≡ answer_from select.now (kept self.now select.now)) }
    {
        match select.tables.as_slice() {
            [table] => from_table(
                self.alloc,
                select,
                rows_of(&self.tables, *table),
                self.ordered,
            ),
            [first, second] => from_pairs(
                self.alloc,
                select,
                rows_of(&self.tables, *first),
                rows_of(&self.tables, *second),
            ),
            _ => unreachable!(),
        }
    }

    fn insert(&mut self, insert: &InsertStmt) -> Result<Answer, AllocError>
        requires { insert_fits self.old.catalog insert.now ≡ true }
        ensures answer { IfOk result (λ answer. answer ≡ (meaning self.old (Stmt.Insert insert.now)).answer) }
        ensures after { OnOk result (self.new ≡ (meaning self.old (Stmt.Insert insert.now)).after) }
        ensures err { OnErr result (self.new ≡ self.old) }
    {
        let columns = self.catalog.columns_of(insert.table);
        insert_into(self.alloc, columns, &mut self.tables, insert, self.ordered)
    }

    fn update(&mut self, update: &UpdateStmt) -> Result<Answer, AllocError>
        requires { update_fits self.old.catalog update.now ≡ true }
        ensures answer { IfOk result (λ answer. answer ≡ (meaning self.old (Stmt.Update update.now)).answer) }
        ensures after { OnOk result (self.new ≡ (meaning self.old (Stmt.Update update.now)).after) }
        ensures err { OnErr result (self.new ≡ self.old) }
    {
        let columns = self.catalog.columns_of(update.table);
        update_in(self.alloc, columns, &mut self.tables, update, self.ordered)
    }

    fn delete(&mut self, delete: &DeleteStmt) -> Answer
        requires { delete_fits self.old.catalog delete.now ≡ true }
        ensures answer { result ≡ (meaning self.old (Stmt.Delete delete.now)).answer }
        ensures after { self.new ≡ (meaning self.old (Stmt.Delete delete.now)).after }
    {
        delete_from(self.alloc, &mut self.tables, delete, self.ordered)
    }

    /// Gives a table other rows, in order; takes no memory.
    pub fn put_table(&mut self, table: usize, rows: Table)
        requires place { table < length self.old.tables }
        requires ordered { IsOrdered (with_rows self.old table rows) }
        ensures { self.new ≡ with_rows self.old table rows }
    {
        self.tables.set(table, rows);
    }

    /// The rows of each table.
    pub fn rows(&self) -> &Rows
        ensures { result.now ≡ self.now.tables }
    {
        &self.tables
    }

    /// A copy of the rows of each table.
    pub fn dump(&self) -> Result<Rows, AllocError>
        ensures { IfOk result (λ rows. rows ≡ self.now.tables) }
    {
        self.tables.try_copy(self.alloc)
    }
}

impl TryCopy for Machine {
    fn try_copy(&self, alloc: Global) -> Result<Machine, AllocError> {
        Ok(Machine {
            alloc,
            catalog: self.catalog.try_copy(alloc)?,
            tables: self.tables.try_copy(alloc)?,
            ordered: self.ordered,
        })
    }
}

fn insert_into(
    alloc: Global,
    columns: &[ColumnDef],
    tables: &mut Rows,
    insert: &InsertStmt,
    ordered: bool,
) -> Result<Answer, AllocError>
    requires table { insert.now.table < length tables.old }
    requires order { ordered ≡ true → is_ordered (rows_at tables.old insert.now.table) ≡ true }
    ensures ok { IfOk result (λ answer. IsChange answer tables.old tables.new insert.now.table (length insert.now.rows) (inserted columns.now (rows_at tables.old insert.now.table) insert.now.rows)) }
    ensures err { OnErr result (tables.new ≡ tables.old) }
{
    let mut rows = take_rows(alloc, tables, insert.table);
    let outcome = insert_rows(alloc, columns, &mut rows, insert.rows.as_slice(), ordered);
    put_back(tables, insert.table, rows);
    match outcome? {
        Ok(()) => Ok(Answer::Count(insert.rows.len() as u64)),
        Err(error) => Ok(Answer::Failed(error)),
    }
}

fn update_in(
    alloc: Global,
    columns: &[ColumnDef],
    tables: &mut Rows,
    update: &UpdateStmt,
    ordered: bool,
) -> Result<Answer, AllocError>
    requires table { update.now.table < length tables.old }
    requires order { ordered ≡ true → is_ordered (rows_at tables.old update.now.table) ≡ true }
    ensures ok { IfOk result (λ answer. IsChange answer tables.old tables.new update.now.table (length (kept_rows update.now.filter (rows_at tables.old update.now.table))) (each (updated columns.now update.now) (rows_at tables.old update.now.table))) }
    ensures err { OnErr result (tables.new ≡ tables.old) }
{
    let mut rows = take_rows(alloc, tables, update.table);
    let outcome = update_rows(alloc, columns, &mut rows, update, ordered);
    put_back(tables, update.table, rows);
    match outcome? {
        Ok(count) => Ok(Answer::Count(count as u64)),
        Err(error) => Ok(Answer::Failed(error)),
    }
}

fn delete_from(alloc: Global, tables: &mut Rows, delete: &DeleteStmt, ordered: bool) -> Answer
    requires table { delete.now.table < length tables.old }
    requires order { ordered ≡ true → is_ordered (rows_at tables.old delete.now.table) ≡ true }
    ensures answer { result ≡ Answer.Count (length (kept_rows delete.now.filter (rows_at tables.old delete.now.table))) }
    ensures after { tables.new ≡ slice_set tables.old delete.now.table (other_rows delete.now.filter (rows_at tables.old delete.now.table)) }
{
    let mut rows = take_rows(alloc, tables, delete.table);
    let count = delete_rows(&mut rows, &delete.filter, ordered);
    put_back(tables, delete.table, rows);
    Answer::Count(count as u64)
}

// Takes the rows of a table out, which is left without any; takes no memory.
fn take_rows(alloc: Global, tables: &mut Rows, table: u32) -> Vec<Row>
    requires { table < length tables.old }
    ensures rows { result.items ≡ rows_at tables.old table }
    ensures left { tables.new ≡ slice_set tables.old table [] }
{
    let mut all = mem::replace(tables, Seq::new(alloc)).into_vec();
    let rows = mem::replace(&mut all[table as usize], Seq::new(alloc));
    *tables = Seq::from_vec(all);
    rows.into_vec()
}

fn put_back(tables: &mut Rows, table: u32, rows: Vec<Row>)
    requires { table < length tables.old }
    ensures { tables.new ≡ slice_set tables.old table rows.items }
{
    tables.set(table as usize, Seq::from_vec(rows));
}

fn rows_of(tables: &Rows, table: u32) -> &[Row]
    ensures { result.now ≡ rows_at tables.now table }
{
    match tables.as_slice().get(table as usize) {
        Some(rows) => rows.as_slice(),
        None => &[],
    }
}
