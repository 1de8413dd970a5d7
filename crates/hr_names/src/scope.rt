//! What names mean in a statement: its tables, and the columns of its table entries.
ghost use Rattle.std.specs.Prelude.{◌≡◌, position};
ghost use Rattle.std.specs.Option.{option_map};
ghost use Rattle.hr_names.specs.Scope as spec;
ghost use Rattle.hr_names.specs.Seen.{entry_seen, seen};

use hr_parse::{ColumnAst, EntryAst, NameAt, SelectAst};
use hr_problem::ProblemKind;
use hr_rel::{Catalog, ColKind, ColumnDef, Name, TableDef};

/// A column of a table entry: the entry's number in the statement, and the column's place in its table, both from 0.
#[derive(Clone, Copy)]
pub struct Place {
    pub entry: usize,
    pub column: usize,
}

/// A table entry: what it is called, and its table's columns.
#[derive(Clone, Copy)]
pub struct EntryRef<'a> {
    pub name: &'a [u8],
    pub columns: &'a [ColumnDef],
}

/// The table entries of a statement.
#[derive(Clone, Copy)]
pub enum ScopeRef<'a> {
    One(EntryRef<'a>),
    Two(EntryRef<'a>, EntryRef<'a>),
}

fn table_named(tables: &[TableDef], name: &[u8]) -> Option<usize>
    ensures { result ≡ position (λ t. spec.same_name t.name name.now) tables.now }
{
    tables.iter().position(|table| table.name.bytes() == name)
}

/// The number of the first table of this name, or how many tables there are.
pub fn table_of(catalog: &Catalog, name: &[u8]) -> usize
    ensures { result ≡ spec.table_of catalog.now name.now }
{
    match table_named(catalog.tables.as_slice(), name) {
        Some(number) => number,
        None => catalog.tables.len(),
    }
}

/// The columns of the table with this name; none where there is no such table.
pub fn columns_in<'a>(catalog: &'a Catalog, table: &NameAt) -> &'a [ColumnDef]
    ensures { result.now ≡ spec.columns_in catalog.now table.now }
{
    let number = table_of(catalog, table.name.bytes());
    match catalog.tables.as_slice().get(number) {
        Some(def) => def.columns.as_slice(),
        None => &[],
    }
}

/// What an entry is called: its second name, or else its table's.
pub fn called(entry: &EntryAst) -> &NameAt
    ensures { result.now ≡ spec.called entry.now }
{
    match &entry.alias {
        Some(alias) => alias,
        None => &entry.table,
    }
}

pub fn entry_of<'a>(catalog: &'a Catalog, entry: &'a EntryAst) -> EntryRef<'a>
    ensures { entry_seen result ≡ spec.entry_of catalog.now entry.now }
{
    EntryRef {
        name: called(entry).name.bytes(),
        columns: columns_in(catalog, &entry.table),
    }
}

/// The place of the first column of this name.
pub fn column_of(columns: &[ColumnDef], name: &[u8]) -> Option<usize>
    ensures { result ≡ spec.column_of columns.now name.now }
{
    columns
        .iter()
        .position(|column| column.name.bytes() == name)
}

fn own_name(column: &ColumnAst) -> &Name
    ensures { result.now ≡ spec.own_name column.now }
{
    match &column.second {
        Some(second) => &second.name,
        None => &column.first.name,
    }
}

fn may_be_in(entry: EntryRef, column: &ColumnAst) -> bool
    ensures { result ≡ spec.may_be_in (entry_seen entry.entry) column.now }
{
    match &column.second {
        Some(_) => entry.name == column.first.name.bytes(),
        None => true,
    }
}

fn found_in(number: usize, entry: EntryRef, column: &ColumnAst) -> Option<Place>
    ensures { result ≡ spec.found_in number (entry_seen entry.entry) column.now }
{
    if !may_be_in(entry, column) {
        return None;
    }
    match column_of(entry.columns, own_name(column).bytes()) {
        Some(place) => Some(Place {
            entry: number,
            column: place,
        }),
        None => None,
    }
}

/// The one column that a name means.
#[tactic(auto, unfolding(crate::specs::Scope::meant))]
pub fn meant(scope: ScopeRef, column: &ColumnAst) -> Result<Place, ProblemKind>
    ensures { result ≡ spec.meant (seen scope.entry) column.now }
{
    let found = match scope {
        ScopeRef::One(first) => (found_in(0, first, column), None),
        ScopeRef::Two(first, second) => {
            (found_in(0, first, column), found_in(1, second, column))
        }
    };
    match found {
        (Some(_), Some(_)) => Err(ProblemKind::Ambiguous),
        (Some(place), None) | (None, Some(place)) => Ok(place),
        (None, None) => Err(ProblemKind::UnknownColumn),
    }
}

/// The kind of the column at a place.
pub fn kind_at(scope: ScopeRef, place: Place) -> Option<ColKind>
    ensures { result ≡ option_map (λ d. d.kind) (spec.definition_at (seen scope.entry) place) }
{
    let entry = match (scope, place.entry) {
        (ScopeRef::One(entry), 0) | (ScopeRef::Two(entry, _), 0) | (ScopeRef::Two(_, entry), 1) =>
            entry,
        _ => return None,
    };
    match entry.columns.get(place.column) {
        Some(column) => Some(column.kind),
        None => None,
    }
}

/// The table entries of a SELECT.
pub fn select_scope<'a>(catalog: &'a Catalog, select: &'a SelectAst) -> ScopeRef<'a>
    ensures { seen result ≡ spec.scope_of catalog.now (spec.select_entries select.now) }
{
    let first = entry_of(catalog, &select.first);
    match &select.join {
        Some(join) => ScopeRef::Two(first, entry_of(catalog, &join.entry)),
        None => ScopeRef::One(first),
    }
}

/// The one table entry of another statement.
pub fn table_scope<'a>(catalog: &'a Catalog, table: &'a NameAt) -> ScopeRef<'a>
    ensures { seen result ≡ spec.scope_of catalog.now (spec.alone table.now) }
{
    ScopeRef::One(EntryRef {
        name: table.name.bytes(),
        columns: columns_in(catalog, table),
    })
}
