//! Whole statements: the bound statement of a tree that has no problem.
ghost use Rattle.std.specs.Prelude.{◌≡◌, IfOk};
ghost use Rattle.hr_names.specs.Scope as scopes;
ghost use Rattle.hr_bind.specs.Bound as bound;
ghost use Rattle.hr_bind.specs.Bind.{bound_of, bind_of, IsBound};

use crate::cond::bound_filter;
use crate::error::BindError;
use crate::insert::bound_insert;
use crate::operand::small;
use crate::select::bound_select;
use crate::update::bound_update;
use hr_check::first_problem;
use hr_names::{columns_in, select_scope, table_of, table_scope};
use hr_parse::{Ast, DeleteAst, InsertAst, NameAt, SelectAst, UpdateAst};
use hr_rel::{Catalog, DeleteStmt, InsertStmt, SelectStmt, Seq, Stmt, UpdateStmt};
use std::alloc::{AllocError, Global};

fn number_of(catalog: &Catalog, table: &NameAt) -> Result<u32, AllocError>
    ensures { IfOk result (λ t. t ≡ scopes.table_of catalog.now table.now.name) }
{
    small(table_of(catalog, table.name.bytes()))
}

fn tables_of(alloc: Global, catalog: &Catalog, select: &SelectAst) -> Result<Seq<u32>, AllocError>
    ensures { IfOk result (λ all. all ≡ bound.tables_of catalog.now (scopes.select_entries select.now)) }
{
    let mut tables = Seq::new(alloc);
    tables.push(number_of(catalog, &select.first.table)?)?;
    if let Some(join) = &select.join {
        tables.push(number_of(catalog, &join.entry.table)?)?;
    }
    Ok(tables)
}

fn select(alloc: Global, catalog: &Catalog, select: &SelectAst) -> Result<SelectStmt, AllocError>
    ensures { IfOk result (λ s. s ≡ bound.select_of catalog.now select.now) }
{
    let tables = tables_of(alloc, catalog, select)?;
    bound_select(alloc, tables, select_scope(catalog, select), select)
}

fn update(alloc: Global, catalog: &Catalog, update: &UpdateAst) -> Result<UpdateStmt, AllocError>
    ensures { IfOk result (λ s. s ≡ bound.update_of catalog.now update.now) }
{
    let table = number_of(catalog, &update.table)?;
    let scope = table_scope(catalog, &update.table);
    bound_update(
        alloc,
        table,
        scope,
        columns_in(catalog, &update.table),
        update,
    )
}

fn delete(alloc: Global, catalog: &Catalog, delete: &DeleteAst) -> Result<DeleteStmt, AllocError>
    ensures { IfOk result (λ s. s ≡ bound.delete_of catalog.now delete.now) }
{
    let table = number_of(catalog, &delete.table)?;
    let scope = table_scope(catalog, &delete.table);
    Ok(DeleteStmt {
        table,
        filter: bound_filter(alloc, scope, &delete.filter)?,
    })
}

fn insert(alloc: Global, catalog: &Catalog, insert: &InsertAst) -> Result<InsertStmt, AllocError>
    ensures { IfOk result (λ s. s ≡ bound.insert_of catalog.now insert.now) }
{
    let table = number_of(catalog, &insert.table)?;
    bound_insert(alloc, table, columns_in(catalog, &insert.table), insert)
}

/// The bound statement of a tree that has no problem.
#[tactic(auto, unfolding(crate::specs::Bind::bound_of))]
fn bound(alloc: Global, catalog: &Catalog, ast: &Ast) -> Result<Stmt, AllocError>
    ensures { IfOk result (λ s. s ≡ bound_of catalog.now ast.now) }
{
    match ast {
        Ast::Select(ast) => Ok(Stmt::Select(select(alloc, catalog, ast)?)),
        Ast::Insert(ast) => Ok(Stmt::Insert(insert(alloc, catalog, ast)?)),
        Ast::Update(ast) => Ok(Stmt::Update(update(alloc, catalog, ast)?)),
        Ast::Delete(ast) => Ok(Stmt::Delete(delete(alloc, catalog, ast)?)),
    }
}

/// Binds a statement: turns its names into places of the catalog. What is told is the first problem of its table
/// entries, else the least of all others by place and number, else the one bound statement. A problem is told whatever
/// memory there is.
#[tactic(auto, unfolding(crate::specs::Bind::bind_of))]
pub fn bind(alloc: Global, catalog: &Catalog, ast: &Ast) -> Result<Stmt, BindError>
    ensures { IsBound (bind_of catalog.now ast.now) result }
{
    if let Some(problem) = first_problem(catalog, ast) {
        return Err(BindError::Refused(problem));
    }
    Ok(bound(alloc, catalog, ast)?)
}
