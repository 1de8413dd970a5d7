//! Tables, as scenarios write them.

use hr_forms::ColumnForm;
use hr_line::LineName;
use hr_rel::{ColumnDef, Seq, TableDef};
use std::alloc::{AllocError, Global};

fn column_of(form: &ColumnForm, indexed: bool) -> ColumnDef {
    ColumnDef {
        name: form.name,
        kind: form.kind,
        nullable: form.nullable,
        indexed,
    }
}

// The key has no index of its own.
fn columns_of(
    alloc: Global,
    forms: &[ColumnForm],
    indexed: bool,
) -> Result<Seq<ColumnDef>, AllocError> {
    let mut columns = Seq::new(alloc);
    for form in forms {
        let is_key = columns.is_empty();
        columns.push(column_of(form, indexed && !is_key))?;
    }
    Ok(columns)
}

/// The table of a table line; None where its name is too long. It may have an index on each column but its key.
pub fn table_of(
    alloc: Global,
    name: LineName,
    forms: &[ColumnForm],
    indexed: bool,
) -> Result<Option<TableDef>, AllocError> {
    match name {
        LineName::Short(name) => Ok(Some(TableDef {
            name,
            columns: columns_of(alloc, forms, indexed)?,
        })),
        LineName::TooLong => Ok(None),
    }
}
