//! The one text of a statement: keywords in capitals, names in small letters, one blank between tokens where the
//! profile has one, and parentheses only where the tree would be another without them.

ghost use Rattle.std.specs.Prelude.{◌≡◌, ◌≤◌, ℕ, List, ◌++◌, length, OnOk, IfOk};
ghost use Rattle.hr_parse.specs.Parse.{IsTextOf};
ghost use Rattle.hr_parse.specs.declared.ast.Ast.{Ast};
ghost use Rattle.hr_print.specs.Canonical.{Alike, IsRead, parentheses};
ghost use Rattle.hr_print.specs.Print as spec;

use crate::parts::{Level, Shown, column, cond, expr, joined, put};
use hr_base::limits::MAX_SQL_BYTES;
use hr_parse::{
    AggWord, Ast, ColumnAst, CondAst, DeleteAst, EntryAst, InsertAst, ItemAst, Items, JoinAst,
    NameAt, SelectAst, SetAst, TupleAst, UpdateAst,
};
use std::alloc::{AllocError, Global};

fn word_text(word: AggWord) -> &'static [u8]
    ensures { result.now ≡ spec.word_text word }
{
    match word {
        AggWord::Count => b"COUNT(",
        AggWord::Sum => b"SUM(",
        AggWord::Min => b"MIN(",
        AggWord::Max => b"MAX(",
    }
}

impl Shown for ItemAst {
    ghost text = { spec.item_text };

    #[tactic(auto, using(crate::proofs::Appends::append_again))]
    fn show(&self, out: &mut Vec<u8>) -> Result<(), AllocError> {
        match self {
            ItemAst::Plain(e) => expr(out, e, Level::Loose),
            ItemAst::CountAll(_) => put(out, b"COUNT(*)"),
            ItemAst::Aggregate {
                word,
                column: of,
                ..
            } => {
                put(out, word_text(*word))?;
                column(out, of)?;
                put(out, b")")
            }
        }
    }
}

fn items(out: &mut Vec<u8>, items: &Items) -> Result<(), AllocError>
    ensures { OnOk result (out.new.items ≡ out.old.items ++ spec.items_text items.now) }
{
    match items {
        Items::Star(_) => put(out, b"*"),
        Items::Listed(all) => joined(out, all.as_slice()),
    }
}

#[tactic(auto, using(crate::proofs::Appends::append_again))]
fn alias(out: &mut Vec<u8>, alias: &Option<NameAt>) -> Result<(), AllocError>
    ensures { OnOk result (out.new.items ≡ out.old.items ++ spec.alias_text alias.now) }
{
    match alias {
        Some(alias) => {
            put(out, b" AS ")?;
            put(out, alias.name.bytes())
        }
        None => Ok(()),
    }
}

#[tactic(auto, using(crate::proofs::Appends::append_again))]
fn entry(out: &mut Vec<u8>, entry: &EntryAst) -> Result<(), AllocError>
    ensures { OnOk result (out.new.items ≡ out.old.items ++ spec.entry_text entry.now) }
{
    put(out, entry.table.name.bytes())?;
    alias(out, &entry.alias)
}

#[tactic(auto, using(crate::proofs::Appends::append_again))]
fn join(out: &mut Vec<u8>, join: &Option<JoinAst>) -> Result<(), AllocError>
    ensures { OnOk result (out.new.items ≡ out.old.items ++ spec.join_text join.now) }
{
    match join {
        Some(join) => {
            put(out, b" JOIN ")?;
            entry(out, &join.entry)?;
            put(out, b" ON ")?;
            cond(out, &join.on, Level::Loose)
        }
        None => Ok(()),
    }
}

#[tactic(auto, using(crate::proofs::Appends::append_again))]
fn filter(out: &mut Vec<u8>, filter: &Option<CondAst>) -> Result<(), AllocError>
    ensures { OnOk result (out.new.items ≡ out.old.items ++ spec.filter_text filter.now) }
{
    match filter {
        Some(condition) => {
            put(out, b" WHERE ")?;
            cond(out, condition, Level::Loose)
        }
        None => Ok(()),
    }
}

#[tactic(auto, using(crate::proofs::Appends::append_again))]
fn groups(out: &mut Vec<u8>, groups: &[ColumnAst]) -> Result<(), AllocError>
    ensures { OnOk result (out.new.items ≡ out.old.items ++ spec.groups_text groups.now) }
{
    match groups {
        [] => Ok(()),
        [_, ..] => {
            put(out, b" GROUP BY ")?;
            joined(out, groups)
        }
    }
}

#[tactic(auto, using(crate::proofs::Appends::append_again))]
fn select(out: &mut Vec<u8>, select: &SelectAst) -> Result<(), AllocError>
    ensures { OnOk result (out.new.items ≡ out.old.items ++ spec.select_text select.now) }
{
    put(out, b"SELECT ")?;
    items(out, &select.items)?;
    put(out, b" FROM ")?;
    entry(out, &select.first)?;
    join(out, &select.join)?;
    filter(out, &select.filter)?;
    groups(out, select.groups.as_slice())
}

impl Shown for TupleAst {
    ghost text = { spec.tuple_text };

    #[tactic(auto, using(crate::proofs::Appends::append_again))]
    fn show(&self, out: &mut Vec<u8>) -> Result<(), AllocError> {
        put(out, b"(")?;
        joined(out, self.values.as_slice())?;
        put(out, b")")
    }
}

#[tactic(auto, using(crate::proofs::Appends::append_again))]
fn columns(out: &mut Vec<u8>, columns: &[NameAt]) -> Result<(), AllocError>
    ensures { OnOk result (out.new.items ≡ out.old.items ++ spec.columns_text columns.now) }
{
    match columns {
        [] => Ok(()),
        [_, ..] => {
            put(out, b" (")?;
            joined(out, columns)?;
            put(out, b")")
        }
    }
}

/// The first words of a statement, and its table.
#[tactic(auto, using(crate::proofs::Appends::append_again))]
fn start(out: &mut Vec<u8>, words: &[u8], table: &NameAt) -> Result<(), AllocError>
    ensures { OnOk result (out.new.items ≡ out.old.items ++ (words.now ++ table.now.name)) }
{
    put(out, words)?;
    put(out, table.name.bytes())
}

#[tactic(auto, using(crate::proofs::Appends::append_again))]
fn insert(out: &mut Vec<u8>, insert: &InsertAst) -> Result<(), AllocError>
    ensures { OnOk result (out.new.items ≡ out.old.items ++ spec.insert_text insert.now) }
{
    start(out, b"INSERT INTO ", &insert.table)?;
    columns(out, insert.columns.as_slice())?;
    put(out, b" VALUES ")?;
    joined(out, insert.tuples.as_slice())?;
    Ok(())
}

impl Shown for SetAst {
    ghost text = { spec.set_text };

    #[tactic(auto, using(crate::proofs::Appends::append_again))]
    fn show(&self, out: &mut Vec<u8>) -> Result<(), AllocError> {
        put(out, self.column.name.bytes())?;
        put(out, b" = ")?;
        expr(out, &self.value, Level::Loose)
    }
}

#[tactic(auto, using(crate::proofs::Appends::append_again))]
fn update(out: &mut Vec<u8>, update: &UpdateAst) -> Result<(), AllocError>
    ensures { OnOk result (out.new.items ≡ out.old.items ++ spec.update_text update.now) }
{
    put(out, b"UPDATE ")?;
    put(out, update.table.name.bytes())?;
    put(out, b" SET ")?;
    joined(out, update.sets.as_slice())?;
    filter(out, &update.filter)
}

#[tactic(auto, using(crate::proofs::Appends::append_again))]
fn delete(out: &mut Vec<u8>, delete: &DeleteAst) -> Result<(), AllocError>
    ensures { OnOk result (out.new.items ≡ out.old.items ++ spec.delete_text delete.now) }
{
    start(out, b"DELETE FROM ", &delete.table)?;
    filter(out, &delete.filter)?;
    Ok(())
}

fn statement(out: &mut Vec<u8>, ast: &Ast) -> Result<(), AllocError>
    ensures { OnOk result (out.new.items ≡ out.old.items ++ spec.text ast.now) }
{
    match ast {
        Ast::Select(s) => select(out, s),
        Ast::Insert(i) => insert(out, i),
        Ast::Update(u) => update(out, u),
        Ast::Delete(d) => delete(out, d),
    }
}

/// The one text of a statement. Places play no part in it.
pub fn print(alloc: Global, ast: &Ast) -> Result<Vec<u8>, AllocError>
    ensures text { IfOk result (λ bytes. bytes.items ≡ spec.text ast.now) }
    // Where it is short enough to be read, it is read as the same tree apart from places.
    ensures reread { IfOk result (λ bytes. IsRead ast.now → length bytes.items ≤ MAX_SQL_BYTES
        → (b : Ast) × IsTextOf bytes.items b × Alike b ast.now) }
    // All trees that are the same apart from places have this text.
    ensures canonical { IfOk result (λ bytes. (b : Ast) → Alike b ast.now → spec.text b ≡ bytes.items) }
    // No text of the same tree has fewer parentheses.
    ensures fewest { IfOk result (λ bytes. (t : List ℕ) (b : Ast) → IsTextOf t b → Alike b ast.now
        → parentheses bytes.items ≤ parentheses t) }
{
    let mut out = Vec::new(alloc);
    statement(&mut out, ast)?;
    Ok(out)
}
