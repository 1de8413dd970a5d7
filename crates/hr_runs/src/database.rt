//! The database that the lines speak of.

use crate::table::table_of;
use hr_answer_text::write;
use hr_bind::prepare;
use hr_forms::{LineForm, form_of};
use hr_keys::in_order;
use hr_locks::Need;
use hr_machine::Machine;
use hr_plan::{Span, choose, intervals};
use hr_rel::{Catalog, Seq, Stmt, TableDef, TryCopy};
use std::alloc::{AllocError, Global};

/// The tables, and a machine that runs statements on them.
#[derive(Drop)]
pub struct Database {
    catalog: Catalog,
    machine: Machine,
}

impl Database {
    /// A database with no table.
    pub fn new(alloc: Global) -> Result<Database, AllocError> {
        without_rows(
            alloc,
            Catalog {
                tables: Seq::new(alloc),
            },
        )
    }

    /// Takes a line, and says what came of it.
    pub fn take(&mut self, alloc: Global, line: &str) -> Result<String, AllocError> {
        match line.split_once(' ') {
            None if line == "database" => self.begin_anew(alloc),
            Some(("table", _)) => self.add_table(alloc, line, false),
            Some(("indexed", table)) => self.add_table(alloc, table, true),
            Some(("path", text)) => self.path(alloc, text),
            Some(("needs", text)) => self.needs(alloc, text),
            _ => self.run(alloc, line),
        }
    }

    fn begin_anew(&mut self, alloc: Global) -> Result<String, AllocError> {
        let Database { catalog, machine } = Database::new(alloc)?;
        self.catalog = catalog;
        self.machine = machine;
        String::from_str(alloc, "no table")
    }

    /// The table of a line, which may have an index on each column but its key.
    fn add_table(
        &mut self,
        alloc: Global,
        line: &str,
        indexed: bool,
    ) -> Result<String, AllocError> {
        let Some(LineForm::Table { name, columns }) = form_of(alloc, line.as_bytes())? else {
            return self.run(alloc, line);
        };
        match table_of(alloc, name, columns.as_slice(), indexed)? {
            Some(table) => self.add(alloc, table),
            None => String::from_str(alloc, "too long"),
        }
    }

    /// One more table; all are without rows then.
    fn add(&mut self, alloc: Global, table: TableDef) -> Result<String, AllocError> {
        let mut tables = self.catalog.tables.try_copy(alloc)?;
        tables.push(table)?;
        let Database { catalog, machine } = without_rows(alloc, Catalog { tables })?;
        self.catalog = catalog;
        self.machine = machine;
        String::from_str(alloc, "a table")
    }

    /// Runs a statement: the text of its answer, or why there is none.
    fn run(&mut self, alloc: Global, text: &str) -> Result<String, AllocError> {
        match prepare(alloc, text, &self.catalog) {
            Ok(stmt) => self.answer(alloc, &stmt),
            Err(error) => format!(in alloc; "{error}"),
        }
    }

    /// Runs a copy of a statement, and writes a copy of its answer: so copies are seen to be whole.
    fn answer(&mut self, alloc: Global, stmt: &Stmt) -> Result<String, AllocError> {
        let stmt = stmt.try_copy(alloc)?;
        let answer = self.machine.run(&stmt)?;
        write(alloc, &answer.try_copy(alloc)?)
    }

    /// The path by which the rows of a statement are found.
    fn path(&self, alloc: Global, text: &str) -> Result<String, AllocError> {
        match prepare(alloc, text, &self.catalog) {
            Ok(stmt) if in_order(&self.catalog, self.machine.rows()) => {
                format!(in alloc; "{:?}", choose(&stmt, &self.catalog))
            }
            Ok(_) => String::from_str(alloc, "not in order"),
            Err(error) => format!(in alloc; "{error}"),
        }
    }

    /// What a statement needs at an engine that locks ranges of keys.
    fn needs(&self, alloc: Global, text: &str) -> Result<String, AllocError> {
        match prepare(alloc, text, &self.catalog) {
            Ok(stmt) => needs_text(alloc, intervals(alloc, &stmt)?.as_slice()),
            Err(error) => format!(in alloc; "{error}"),
        }
    }
}

fn needs_text(alloc: Global, needs: &[Need<Span>]) -> Result<String, AllocError> {
    let mut out = String::new(alloc);
    write!(out, "needs {}", needs.len())?;
    for need in needs {
        let word = if need.mode.is_exclusive() {
            "write"
        } else {
            "read"
        };
        write!(out, ", {word} {:?}", need.name)?;
    }
    Ok(out)
}

/// The database of these tables, without rows.
fn without_rows(alloc: Global, catalog: Catalog) -> Result<Database, AllocError> {
    let mut rows = Seq::new(alloc);
    for _table in catalog.tables.as_slice() {
        rows.push(Seq::new(alloc))?;
    }
    if rows.len() != catalog.tables.len() {
        return Err(AllocError);
    }
    let machine = Machine::with_rows(alloc, &catalog, &rows)?;
    Ok(Database { catalog, machine })
}
