//! The lines of tables and indexes.

ghost use Rattle.std.specs.Prelude.{◌≡◌, ◌<◌, [], true, length, position, slice_get, IfOk, IfSome, OnOk};
ghost use Rattle.std.specs.Option.{option_copied};
ghost use Rattle.std.specs.List.{list_any};
ghost use Rattle.hr_rel.specs.Database.{columns_of};
ghost use Rattle.hr_said.specs.Tables as spec;
ghost use Rattle.hr_said.specs.Outcomes.{Gives};

use crate::error::{InputKind, LineError};
use crate::limits::{MAX_TABLES, is_too_long, may_stand};
use crate::said::Said;
use hr_base::limits::MAX_COLUMNS;
use hr_forms::ColumnForm;
use hr_line::LineName;
use hr_rel::{Catalog, ColumnDef, Name, Seq, TableDef, TryCopy};
use std::alloc::{AllocError, Global};

/// `table NAME (COL int key, COL KIND [null], ..)`.
pub fn table(
    alloc: Global,
    said: &mut Said,
    name: &LineName,
    columns: &[ColumnForm],
) -> Result<(), LineError>
    ensures { Gives (spec.table said.old name.now columns.now) said.new result }
{
    if let Some(kind) = table_refusal(said, name, columns) {
        return Err(LineError::Refused(kind));
    }
    let def = table_def(alloc, name, columns)?;
    said.part = 5;
    said.catalog.tables.push(def)?;
    said.rows.push(Seq::new(alloc))?;
    Ok(())
}

fn table_refusal(said: &Said, name: &LineName, columns: &[ColumnForm]) -> Option<InputKind>
    ensures { result ≡ spec.table_refusal said.now name.now columns.now }
{
    if !may_stand(said.part, 5) {
        return Some(InputKind::Form);
    }
    if is_too_long(name)
        || any_too_long(columns)
        || columns.len() > MAX_COLUMNS
        || said.catalog.tables.len() >= MAX_TABLES
    {
        return Some(InputKind::Limit);
    }
    if table_named(&said.catalog, name).is_some() || any_again(columns) {
        return Some(InputKind::Repeated);
    }
    None
}

fn any_too_long(columns: &[ColumnForm]) -> bool
    ensures { result ≡ list_any (λ c. spec.column_too_long c) columns.now }
{
    columns.iter().any(|column| column_too_long(column))
}

fn column_too_long(column: &ColumnForm) -> bool
    ensures { result ≡ spec.column_too_long column.now }
{
    column.is_too_long
}

/// Whether a column is called as one behind it.
fn any_again(columns: &[ColumnForm]) -> bool
    ensures { result ≡ spec.any_again columns.now }
{
    match columns {
        [] => false,
        [column, others @ ..] => any_called(column, others) || any_again(others),
    }
}

fn any_called(column: &ColumnForm, others: &[ColumnForm]) -> bool
    ensures { result ≡ list_any (λ other. spec.same_name column.now other) others.now }
{
    others.iter().any(|other| same_name(column, other))
}

fn same_name(column: &ColumnForm, other: &ColumnForm) -> bool
    ensures { result ≡ spec.same_name column.now other.now }
{
    column.name.bytes() == other.name.bytes()
}

fn table_def(alloc: Global, name: &LineName, columns: &[ColumnForm]) -> Result<TableDef, AllocError>
    ensures { IfOk result (λ def. def ≡ spec.table_def name.now columns.now) }
{
    let mut defs = Seq::new(alloc);
    'columns: for column in columns {
        defs.push(column_def(column))?;
    }
    Ok(TableDef {
        name: short(name),
        columns: defs,
    })
}

fn column_def(column: &ColumnForm) -> ColumnDef
    ensures { result ≡ spec.column_def column.now }
{
    ColumnDef {
        name: column.name,
        kind: column.kind,
        nullable: column.nullable,
        indexed: false,
    }
}

/// A name, which is empty where it is too long.
pub fn short(name: &LineName) -> Name
    ensures { result ≡ spec.short name.now }
{
    match name {
        LineName::Short(name) => *name,
        LineName::TooLong => no_name(),
    }
}

fn no_name() -> Name
    ensures { result ≡ [] }
{
    match Name::new(&[]) {
        Some(name) => name,
        None => unreachable!(),
    }
}

/// The number of the table of this name.
pub fn table_named(catalog: &Catalog, name: &LineName) -> Option<usize>
    ensures number { result ≡ spec.table_named catalog.now name.now }
    ensures within { IfSome result (λ t. t < length catalog.now.tables) }
{
    table_in(catalog.tables.as_slice(), name)
}

fn table_in(tables: &[TableDef], name: &LineName) -> Option<usize>
    ensures number { result ≡ spec.table_in tables.now name.now }
    ensures within { IfSome result (λ t. t < length tables.now) }
{
    match name {
        LineName::Short(name) => table_called(tables, name),
        LineName::TooLong => None,
    }
}

fn table_called(tables: &[TableDef], name: &Name) -> Option<usize>
    ensures number { result ≡ position (λ t. spec.is_table_called name.now t) tables.now }
    ensures within { IfSome result (λ t. t < length tables.now) }
{
    tables.iter().position(|table| is_table_called(name, table))
}

fn is_table_called(name: &Name, table: &TableDef) -> bool
    ensures { result ≡ spec.is_table_called name.now table.now }
{
    table.name.bytes() == name.bytes()
}

/// The place of the column of this name.
fn column_named(columns: &[ColumnDef], name: &LineName) -> Option<usize>
    ensures number { result ≡ spec.column_named columns.now name.now }
    ensures within { IfSome result (λ c. c < length columns.now) }
{
    match name {
        LineName::Short(name) => column_called(columns, name),
        LineName::TooLong => None,
    }
}

fn column_called(columns: &[ColumnDef], name: &Name) -> Option<usize>
    ensures number { result ≡ position (λ c. spec.is_column_called name.now c) columns.now }
    ensures within { IfSome result (λ c. c < length columns.now) }
{
    columns
        .iter()
        .position(|column| is_column_called(name, column))
}

fn is_column_called(name: &Name, column: &ColumnDef) -> bool
    ensures { result ≡ spec.is_column_called name.now column.now }
{
    column.name.bytes() == name.bytes()
}

/// `index TABLE COL`.
pub fn index(
    alloc: Global,
    said: &mut Said,
    table: &LineName,
    column: &LineName,
) -> Result<(), LineError>
    ensures { Gives (spec.index said.old table.now column.now) said.new result }
{
    let found = column_in(&said.catalog, table, column);
    if let Some(kind) = index_refusal(said, table, column, found) {
        return Err(LineError::Refused(kind));
    }
    said.part = 5;
    if let Some((t, c)) = found {
        set_indexed(alloc, &mut said.catalog, t, c)?;
    }
    Ok(())
}

/// The table and the place of a column.
fn column_in(catalog: &Catalog, table: &LineName, column: &LineName) -> Option<(usize, usize)>
    ensures place { result ≡ spec.column_in catalog.now table.now column.now }
    ensures table { IfSome result (λ at. at.0 < length catalog.now.tables) }
    ensures column { IfSome result (λ at. at.1 < length (columns_of catalog.now at.0)) }
{
    let t = table_named(catalog, table)?;
    let c = column_named(columns_at(catalog, t), column)?;
    Some((t, c))
}

/// The columns of the table with this number; none where there is no such table.
pub fn columns_at(catalog: &Catalog, table: usize) -> &[ColumnDef]
    ensures { result.now ≡ columns_of catalog.now table }
{
    match catalog.tables.as_slice().get(table) {
        Some(def) => def.columns.as_slice(),
        None => &[],
    }
}

fn index_refusal(
    said: &Said,
    table: &LineName,
    column: &LineName,
    found: Option<(usize, usize)>,
) -> Option<InputKind>
    ensures { result ≡ spec.index_refusal said.now table.now column.now found }
{
    if !may_stand(said.part, 5) || is_key(found) {
        return Some(InputKind::Form);
    }
    if is_too_long(table) || is_too_long(column) {
        return Some(InputKind::Limit);
    }
    if found.is_none() {
        return Some(InputKind::Unknown);
    }
    if is_indexed(&said.catalog, found) {
        return Some(InputKind::Repeated);
    }
    None
}

fn is_key(found: Option<(usize, usize)>) -> bool
    ensures { result ≡ spec.is_key found }
{
    match found {
        Some((_, column)) => column == 0,
        None => false,
    }
}

fn is_indexed(catalog: &Catalog, found: Option<(usize, usize)>) -> bool
    ensures { result ≡ spec.is_indexed catalog.now found }
{
    match found {
        Some((table, column)) => has_index(columns_at(catalog, table).get(column)),
        None => false,
    }
}

fn has_index(column: Option<&ColumnDef>) -> bool
    ensures { result ≡ spec.has_index (option_copied column.entry) }
{
    match column {
        Some(column) => column.indexed,
        None => false,
    }
}

/// Gives a column its index.
fn set_indexed(
    alloc: Global,
    catalog: &mut Catalog,
    table: usize,
    column: usize,
) -> Result<(), AllocError>
    requires table { table < length catalog.old.tables }
    requires column { column < length (columns_of catalog.old table) }
    ensures { OnOk result (catalog.new ≡ spec.with_index catalog.old table column) }
{
    let columns = with_indexed(alloc, catalog, table, column)?;
    put_columns(catalog, table, columns);
    Ok(())
}

/// The columns of a table, one of them with an index.
fn with_indexed(
    alloc: Global,
    catalog: &Catalog,
    table: usize,
    column: usize,
) -> Result<Seq<ColumnDef>, AllocError>
    requires { column < length (columns_of catalog.now table) }
    ensures { IfOk result (λ all. all ≡ spec.with_indexed (columns_of catalog.now table) column (slice_get (columns_of catalog.now table) column)) }
{
    let mut all = columns_copied(alloc, catalog, table)?;
    if let Some(def) = columns_at(catalog, table).get(column) {
        all.set(column, indexed(def));
    }
    Ok(all)
}

fn columns_copied(
    alloc: Global,
    catalog: &Catalog,
    table: usize,
) -> Result<Seq<ColumnDef>, AllocError>
    ensures { IfOk result (λ all. all ≡ columns_of catalog.now table) }
{
    match catalog.tables.as_slice().get(table) {
        Some(def) => def.columns.try_copy(alloc),
        None => Ok(Seq::new(alloc)),
    }
}

fn put_columns(catalog: &mut Catalog, table: usize, columns: Seq<ColumnDef>)
    requires { table < length catalog.old.tables }
    ensures { catalog.new ≡ spec.with_columns catalog.old table (slice_get catalog.old.tables table) columns }
{
    if let Some(def) = catalog.tables.as_slice().get(table) {
        let name = def.name;
        catalog.tables.set(table, TableDef { name, columns });
    }
}

fn indexed(column: &ColumnDef) -> ColumnDef
    ensures { result ≡ record column.now { indexed = true } }
{
    ColumnDef {
        name: column.name,
        kind: column.kind,
        nullable: column.nullable,
        indexed: true,
    }
}
