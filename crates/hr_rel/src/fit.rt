//! Whether a bound statement fits a catalog. Nothing here takes memory. The table entries of a statement are given by
//! the catalog and the numbers of their tables.
ghost use Rattle.std.specs.Prelude.{◌≡◌, ◌==◌, [], ◌∷◌, not};
ghost use Rattle.std.specs.List.{list_all, list_any};
ghost use Rattle.std.specs.Option.{option_copied};
ghost use Rattle.hr_rel.specs.Database.{columns_of};
ghost use Rattle.hr_rel.specs.Holds.{row_fits};
ghost use Rattle.hr_rel.specs.Fit.{entries_of, has_table, agree, both_agree, is_number, column_at, column_kind, has_column, operand_kind, literal_kind, number_kind, expr_kind, pred_fits, filter_fits, is_plain, is_grouped, same_column, column_in, is_group, item_fits, is_joined, items_fit, select_fits, insert_fits, set_fits, assign_apart, update_fits, delete_fits, fits};

use crate::holds::row_fits;
use crate::kinds::{fits_i64, same_kind};
use crate::{
    Catalog, ColKind, ColRef, ColumnDef, DeleteStmt, Expr, InsertStmt, Item, Operand, Pred, Row,
    SelectStmt, Set, Stmt, UpdateStmt, Value,
};
use hr_base::limits::MAX_ITEMS;

impl Catalog {
    /// Whether a statement fits this catalog. Its table entries and columns are there, and a SELECT of two entries
    /// has an ON; its kinds agree; its lists aren't empty; where it groups, its plain items are columns of GROUP BY;
    /// its answer has at most [`MAX_ITEMS`] columns; it assigns no key, and no column twice.
    pub fn fits(&self, stmt: &Stmt) -> bool
        ensures { result ≡ fits self.now stmt.now }
    {
        match stmt {
            Stmt::Select(select) => select_fits(self, select),
            Stmt::Insert(insert) => insert_fits(self, insert),
            Stmt::Update(update) => update_fits(self, update),
            Stmt::Delete(delete) => delete_fits(self, delete),
        }
    }

    fn has_table(&self, table: u32) -> bool
        ensures { result ≡ has_table self.now table }
    {
        (table as usize) < self.tables.len()
    }
}

fn select_fits(catalog: &Catalog, select: &SelectStmt) -> bool
    ensures { result ≡ select_fits catalog.now select.now }
{
    let tables = select.tables.as_slice();
    is_joined(tables, &select.on)
        && have_tables(catalog, tables)
        && filter_fits(catalog, tables, &select.on)
        && filter_fits(catalog, tables, &select.filter)
        && have_columns(catalog, tables, select.groups.as_slice())
        && items_fit(catalog, tables, select)
}

fn is_joined(tables: &[u32], on: &Option<Pred>) -> bool
    ensures { result ≡ is_joined tables.now on.now }
{
    match tables {
        [_] => on.is_none(),
        [_, _] => on.is_some(),
        _ => false,
    }
}

fn have_tables(catalog: &Catalog, tables: &[u32]) -> bool
    ensures { result ≡ list_all (has_table catalog.now) tables.now }
{
    tables.iter().all(|table| catalog.has_table(*table))
}

fn have_columns(catalog: &Catalog, tables: &[u32], columns: &[ColRef]) -> bool
    ensures { result ≡ list_all (has_column (entries_of catalog.now tables.now)) columns.now }
{
    columns
        .iter()
        .all(|column| has_column(catalog, tables, *column))
}

fn items_fit(catalog: &Catalog, tables: &[u32], select: &SelectStmt) -> bool
    ensures { result ≡ items_fit (entries_of catalog.now tables.now) select.now }
{
    !select.items.is_empty()
        && select.items.len() <= MAX_ITEMS
        && all_items_fit(catalog, tables, select)
}

fn all_items_fit(catalog: &Catalog, tables: &[u32], select: &SelectStmt) -> bool
    ensures { result ≡ list_all (item_fits (entries_of catalog.now tables.now) select.now) select.now.items }
{
    let mut items = select.items.as_slice().iter();
    items.all(|item| item_fits(catalog, tables, select, item))
}

fn item_fits(catalog: &Catalog, tables: &[u32], select: &SelectStmt, item: &Item) -> bool
    ensures { result ≡ item_fits (entries_of catalog.now tables.now) select.now item.now }
{
    match item {
        Item::Plain(expr) => {
            expr_kind(catalog, tables, expr).is_some()
                && (!is_grouped(select) || is_group(select.groups.as_slice(), column_in(expr)))
        }
        Item::CountAll => true,
        Item::Count(column) | Item::Min(column) | Item::Max(column) => {
            has_column(catalog, tables, *column)
        }
        Item::Sum(column) => is_number(column_kind(catalog, tables, *column)),
    }
}

// A SELECT groups where it has GROUP BY or an aggregate.
fn is_grouped(select: &SelectStmt) -> bool
    ensures { result ≡ is_grouped select.now }
{
    !select.groups.is_empty() || has_aggregate(select.items.as_slice())
}

fn has_aggregate(items: &[Item]) -> bool
    ensures { result ≡ list_any (λ i. not (is_plain i)) items.now }
{
    items.iter().any(|item| !is_plain(item))
}

fn is_plain(item: &Item) -> bool
    ensures { result ≡ is_plain item.now }
{
    matches!(item, Item::Plain(_))
}

fn column_in(expr: &Expr) -> Option<ColRef>
    ensures { result ≡ column_in expr.now }
{
    match expr {
        Expr::Col(column) => Some(*column),
        _ => None,
    }
}

fn is_group(groups: &[ColRef], column: Option<ColRef>) -> bool
    ensures { result ≡ is_group groups.now column }
{
    match column {
        Some(column) => has_same(groups, column),
        None => false,
    }
}

fn has_same(columns: &[ColRef], column: ColRef) -> bool
    ensures { result ≡ list_any (λ g. same_column column g) columns.now }
{
    columns.iter().any(|other| same_column(column, *other))
}

fn same_column(a: ColRef, b: ColRef) -> bool
    ensures { result ≡ same_column a b }
{
    a.entry == b.entry && a.column == b.column
}

fn insert_fits(catalog: &Catalog, insert: &InsertStmt) -> bool
    ensures { result ≡ insert_fits catalog.now insert.now }
{
    catalog.has_table(insert.table)
        && !insert.rows.is_empty()
        && rows_fit(catalog.columns_of(insert.table), insert.rows.as_slice())
}

fn rows_fit(columns: &[ColumnDef], rows: &[Row]) -> bool
    ensures { result ≡ list_all (row_fits columns.now) rows.now }
{
    rows.iter().all(|row| row_fits(columns, row))
}

fn update_fits(catalog: &Catalog, update: &UpdateStmt) -> bool
    ensures { result ≡ update_fits catalog.now update.now }
{
    let tables = &[update.table];
    let sets = update.sets.as_slice();
    catalog.has_table(update.table)
        && !update.sets.is_empty()
        && sets_fit(catalog, tables, sets)
        && assign_apart(sets)
        && filter_fits(catalog, tables, &update.filter)
}

fn sets_fit(catalog: &Catalog, tables: &[u32], sets: &[Set]) -> bool
    ensures { result ≡ list_all (set_fits (entries_of catalog.now tables.now)) sets.now }
{
    sets.iter().all(|set| set_fits(catalog, tables, set))
}

fn set_fits(catalog: &Catalog, tables: &[u32], set: &Set) -> bool
    ensures { result ≡ set_fits (entries_of catalog.now tables.now) set.now }
{
    let column = ColRef {
        entry: 0,
        column: set.column,
    };
    set.column > 0
        && both_agree(
            column_kind(catalog, tables, column),
            expr_kind(catalog, tables, &set.value),
        )
}

// No two assignments are to one column.
fn assign_apart(sets: &[Set]) -> bool
    ensures { result ≡ assign_apart sets.now }
{
    match sets {
        [] => true,
        [set, rest @ ..] => !assign(rest, set.column) && assign_apart(rest),
    }
}

fn assign(sets: &[Set], column: u32) -> bool
    ensures { result ≡ list_any (λ t. t.column == column) sets.now }
{
    sets.iter().any(|set| set.column == column)
}

fn delete_fits(catalog: &Catalog, delete: &DeleteStmt) -> bool
    ensures { result ≡ delete_fits catalog.now delete.now }
{
    catalog.has_table(delete.table) && filter_fits(catalog, &[delete.table], &delete.filter)
}

fn filter_fits(catalog: &Catalog, tables: &[u32], filter: &Option<Pred>) -> bool
    ensures { result ≡ filter_fits (entries_of catalog.now tables.now) filter.now }
{
    match filter {
        Some(pred) => pred_fits(catalog, tables, pred),
        None => true,
    }
}

fn pred_fits(catalog: &Catalog, tables: &[u32], pred: &Pred) -> bool
    ensures { result ≡ pred_fits (entries_of catalog.now tables.now) pred.now }
{
    match pred {
        Pred::Compare(_, left, right) => {
            let left = operand_kind(catalog, tables, left);
            both_agree(left, operand_kind(catalog, tables, right))
        }
        Pred::IsNull(operand) => operand_kind(catalog, tables, operand).is_some(),
        Pred::And(a, b) | Pred::Or(a, b) => {
            pred_fits(catalog, tables, a.get()) && pred_fits(catalog, tables, b.get())
        }
        Pred::Not(a) => pred_fits(catalog, tables, a.get()),
    }
}

// Of the kinds below, None is that of what doesn't fit, and `Some(None)` that of what may be of either kind, as NULL.

fn expr_kind(catalog: &Catalog, tables: &[u32], expr: &Expr) -> Option<Option<ColKind>>
    ensures { result ≡ expr_kind (entries_of catalog.now tables.now) expr.now }
{
    match expr {
        Expr::Lit(value) => literal_kind(value),
        Expr::Col(column) => column_kind(catalog, tables, *column),
        Expr::Add(a, b) | Expr::Sub(a, b) | Expr::Mul(a, b) => {
            let left = expr_kind(catalog, tables, a.get());
            number_kind(left, expr_kind(catalog, tables, b.get()))
        }
    }
}

fn number_kind(
    left: Option<Option<ColKind>>,
    right: Option<Option<ColKind>>,
) -> Option<Option<ColKind>>
    ensures { result ≡ number_kind left right }
{
    if is_number(left) && is_number(right) {
        Some(Some(ColKind::Int))
    } else {
        None
    }
}

fn operand_kind(catalog: &Catalog, tables: &[u32], operand: &Operand) -> Option<Option<ColKind>>
    ensures { result ≡ operand_kind (entries_of catalog.now tables.now) operand.now }
{
    match operand {
        Operand::Lit(value) => literal_kind(value),
        Operand::Col(column) => column_kind(catalog, tables, *column),
    }
}

fn literal_kind(value: &Value) -> Option<Option<ColKind>>
    ensures { result ≡ literal_kind value.now }
{
    match value {
        Value::Null => Some(None),
        Value::Int(n) if fits_i64(*n) => Some(Some(ColKind::Int)),
        Value::Int(_) => None,
        Value::Text(_) => Some(Some(ColKind::Text)),
    }
}

fn has_column(catalog: &Catalog, tables: &[u32], column: ColRef) -> bool
    ensures { result ≡ has_column (entries_of catalog.now tables.now) column }
{
    column_kind(catalog, tables, column).is_some()
}

fn column_kind(catalog: &Catalog, tables: &[u32], column: ColRef) -> Option<Option<ColKind>>
    ensures { result ≡ column_kind (entries_of catalog.now tables.now) column }
{
    match column_at(catalog, tables, column) {
        Some(column) => Some(Some(column.kind)),
        None => None,
    }
}

fn column_at<'a>(catalog: &'a Catalog, tables: &[u32], column: ColRef) -> Option<&'a ColumnDef>
    ensures { option_copied result ≡ column_at (entries_of catalog.now tables.now) column }
{
    match tables.get(column.entry as usize) {
        Some(table) => catalog.columns_of(*table).get(column.column as usize),
        None => None,
    }
}

fn is_number(kind: Option<Option<ColKind>>) -> bool
    ensures { result ≡ is_number kind }
{
    both_agree(kind, Some(Some(ColKind::Int)))
}

fn both_agree(a: Option<Option<ColKind>>, b: Option<Option<ColKind>>) -> bool
    ensures { result ≡ both_agree a b }
{
    match (a, b) {
        (Some(a), Some(b)) => agree(a, b),
        _ => false,
    }
}

fn agree(a: Option<ColKind>, b: Option<ColKind>) -> bool
    ensures { result ≡ agree a b }
{
    match (a, b) {
        (Some(a), Some(b)) => same_kind(a, b),
        _ => true,
    }
}
