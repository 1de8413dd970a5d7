//! A statement's tree as one line, with all its places: `name@place`, and `[place ..]` for an expression.

use hr_parse::{
    AggWord, Ast, ColumnAst, CondAst, DeleteAst, EntryAst, ExprAst, ExprKind, InsertAst, ItemAst,
    Items, JoinAst, LitAst, LiteralAst, NameAt, OperandAst, SelectAst, SetAst, TupleAst, UpdateAst,
};
use hr_rel::Op;
use std::alloc::{AllocError, Global};

fn push_bytes(out: &mut String, bytes: &[u8]) -> Result<(), AllocError> {
    match str::from_utf8(bytes) {
        Ok(text) => out.push_str(text),
        Err(_) => out.push_str("?"),
    }
}

fn push_name(out: &mut String, name: &NameAt) -> Result<(), AllocError> {
    push_bytes(out, name.name.bytes())?;
    write!(out, "@{}", name.at)
}

fn push_names(out: &mut String, names: &[NameAt]) -> Result<(), AllocError> {
    for name in names {
        out.push_str(" ")?;
        push_name(out, name)?;
    }
    Ok(())
}

fn push_column(out: &mut String, column: &ColumnAst) -> Result<(), AllocError> {
    push_name(out, &column.first)?;
    if let Some(second) = &column.second {
        out.push_str(".")?;
        push_name(out, second)?;
    }
    Ok(())
}

fn push_literal(out: &mut String, literal: &LiteralAst) -> Result<(), AllocError> {
    match &literal.value {
        LitAst::Null => out.push_str("NULL")?,
        LitAst::Int(n) => write!(out, "{n}")?,
        LitAst::Text(text) => {
            out.push_str("'")?;
            push_bytes(out, text.as_slice())?;
            out.push_str("'")?;
        }
    }
    write!(out, "@{}", literal.at)
}

fn push_literals(out: &mut String, literals: &[LiteralAst]) -> Result<(), AllocError> {
    for literal in literals {
        out.push_str(" ")?;
        push_literal(out, literal)?;
    }
    Ok(())
}

fn push_operand(out: &mut String, operand: &OperandAst) -> Result<(), AllocError> {
    match operand {
        OperandAst::Column(column) => push_column(out, column),
        OperandAst::Literal(literal) => push_literal(out, literal),
    }
}

fn push_expr(out: &mut String, expr: &ExprAst) -> Result<(), AllocError> {
    write!(out, "[{} ", expr.at)?;
    let (left, right) = match &expr.kind {
        ExprKind::Literal(literal) => return push_leaf_literal(out, literal.get()),
        ExprKind::Column(column) => return push_leaf_column(out, column.get()),
        ExprKind::Add(left, right) => {
            out.push_str("+ ")?;
            (left, right)
        }
        ExprKind::Sub(left, right) => {
            out.push_str("- ")?;
            (left, right)
        }
        ExprKind::Mul(left, right) => {
            out.push_str("* ")?;
            (left, right)
        }
    };
    push_expr(out, left.get())?;
    out.push_str(" ")?;
    push_expr(out, right.get())?;
    out.push_str("]")
}

fn push_leaf_literal(out: &mut String, literal: &LiteralAst) -> Result<(), AllocError> {
    push_literal(out, literal)?;
    out.push_str("]")
}

fn push_leaf_column(out: &mut String, column: &ColumnAst) -> Result<(), AllocError> {
    push_column(out, column)?;
    out.push_str("]")
}

fn op_text(op: Op) -> &'static str {
    match op {
        Op::Eq => "=",
        Op::Ne => "<>",
        Op::Lt => "<",
        Op::Le => "<=",
        Op::Gt => ">",
        Op::Ge => ">=",
    }
}

fn push_not(out: &mut String, negated: bool) -> Result<(), AllocError> {
    if negated {
        out.push_str("NOT ")
    } else {
        Ok(())
    }
}

fn push_two(out: &mut String, left: &OperandAst, right: &OperandAst) -> Result<(), AllocError> {
    push_operand(out, left)?;
    out.push_str(" ")?;
    push_operand(out, right)
}

fn push_among(
    out: &mut String,
    of: &OperandAst,
    list: &[LiteralAst],
    negated: bool,
) -> Result<(), AllocError> {
    push_not(out, negated)?;
    out.push_str("IN ")?;
    push_operand(out, of)?;
    push_literals(out, list)
}

fn push_compare(
    out: &mut String,
    op: Op,
    left: &OperandAst,
    right: &OperandAst,
) -> Result<(), AllocError> {
    out.push_str(op_text(op))?;
    out.push_str(" ")?;
    push_two(out, left, right)
}

fn push_null(out: &mut String, of: &OperandAst, negated: bool) -> Result<(), AllocError> {
    push_not(out, negated)?;
    out.push_str("NULL ")?;
    push_operand(out, of)
}

fn push_between(
    out: &mut String,
    of: &OperandAst,
    low: &OperandAst,
    high: &OperandAst,
    negated: bool,
) -> Result<(), AllocError> {
    push_not(out, negated)?;
    out.push_str("BETWEEN ")?;
    push_operand(out, of)?;
    out.push_str(" ")?;
    push_two(out, low, high)
}

fn push_cond(out: &mut String, cond: &CondAst) -> Result<(), AllocError> {
    out.push_str("(")?;
    match cond {
        CondAst::Or(left, right) => {
            out.push_str("OR ")?;
            push_cond(out, left.get())?;
            out.push_str(" ")?;
            push_cond(out, right.get())?;
        }
        CondAst::And(left, right) => {
            out.push_str("AND ")?;
            push_cond(out, left.get())?;
            out.push_str(" ")?;
            push_cond(out, right.get())?;
        }
        CondAst::Not(inner) => {
            out.push_str("NOT ")?;
            push_cond(out, inner.get())?;
        }
        CondAst::Compare(op, left, right) => push_compare(out, *op, left.get(), right.get())?,
        CondAst::IsNull { operand, negated } => push_null(out, operand.get(), *negated)?,
        CondAst::Between {
            operand,
            low,
            high,
            negated,
        } => push_between(out, operand.get(), low.get(), high.get(), *negated)?,
        CondAst::Among {
            operand,
            list,
            negated,
        } => push_among(out, operand.get(), list.as_slice(), *negated)?,
    }
    out.push_str(")")
}

fn word_text(word: AggWord) -> &'static str {
    match word {
        AggWord::Count => "COUNT",
        AggWord::Sum => "SUM",
        AggWord::Min => "MIN",
        AggWord::Max => "MAX",
    }
}

fn push_item(out: &mut String, item: &ItemAst) -> Result<(), AllocError> {
    match item {
        ItemAst::Plain(expr) => push_expr(out, expr),
        ItemAst::CountAll(at) => write!(out, "COUNT(*)@{at}"),
        ItemAst::Aggregate { word, column, at } => {
            out.push_str(word_text(*word))?;
            out.push_str("(")?;
            push_column(out, column)?;
            write!(out, ")@{at}")
        }
    }
}

fn push_items(out: &mut String, items: &Items) -> Result<(), AllocError> {
    match items {
        Items::Star(at) => write!(out, " *@{at}"),
        Items::Listed(all) => {
            for item in all.as_slice() {
                out.push_str(" ")?;
                push_item(out, item)?;
            }
            Ok(())
        }
    }
}

fn push_entry(out: &mut String, entry: &EntryAst) -> Result<(), AllocError> {
    push_name(out, &entry.table)?;
    if let Some(alias) = &entry.alias {
        out.push_str(" AS ")?;
        push_name(out, alias)?;
    }
    Ok(())
}

fn push_join(out: &mut String, join: &Option<JoinAst>) -> Result<(), AllocError> {
    if let Some(join) = join {
        out.push_str(" JOIN ")?;
        push_entry(out, &join.entry)?;
        out.push_str(" ON ")?;
        push_cond(out, &join.on)?;
    }
    Ok(())
}

fn push_filter(out: &mut String, filter: &Option<CondAst>) -> Result<(), AllocError> {
    if let Some(cond) = filter {
        out.push_str(" WHERE ")?;
        push_cond(out, cond)?;
    }
    Ok(())
}

fn push_groups(out: &mut String, groups: &[ColumnAst]) -> Result<(), AllocError> {
    for column in groups {
        out.push_str(" BY ")?;
        push_column(out, column)?;
    }
    Ok(())
}

fn push_select(out: &mut String, select: &SelectAst) -> Result<(), AllocError> {
    out.push_str("SELECT")?;
    push_items(out, &select.items)?;
    out.push_str(" FROM ")?;
    push_entry(out, &select.first)?;
    push_join(out, &select.join)?;
    push_filter(out, &select.filter)?;
    push_groups(out, select.groups.as_slice())
}

pub fn push_tuples(out: &mut String, tuples: &[TupleAst]) -> Result<(), AllocError> {
    for tuple in tuples {
        write!(out, " VALUES@{}", tuple.at)?;
        push_literals(out, tuple.values.as_slice())?;
    }
    Ok(())
}

fn push_insert(out: &mut String, insert: &InsertAst) -> Result<(), AllocError> {
    out.push_str("INSERT ")?;
    push_name(out, &insert.table)?;
    out.push_str(" (")?;
    push_names(out, insert.columns.as_slice())?;
    out.push_str(")")?;
    push_tuples(out, insert.tuples.as_slice())
}

fn push_sets(out: &mut String, sets: &[SetAst]) -> Result<(), AllocError> {
    for set in sets {
        out.push_str(" ")?;
        push_name(out, &set.column)?;
        out.push_str("=")?;
        push_expr(out, &set.value)?;
    }
    Ok(())
}

fn push_update(out: &mut String, update: &UpdateAst) -> Result<(), AllocError> {
    out.push_str("UPDATE ")?;
    push_name(out, &update.table)?;
    push_sets(out, update.sets.as_slice())?;
    push_filter(out, &update.filter)
}

fn push_delete(out: &mut String, delete: &DeleteAst) -> Result<(), AllocError> {
    out.push_str("DELETE ")?;
    push_name(out, &delete.table)?;
    push_filter(out, &delete.filter)
}

/// The tree as a line.
pub fn written(alloc: Global, ast: &Ast) -> Result<String, AllocError> {
    let mut out = String::new(alloc);
    match ast {
        Ast::Select(select) => push_select(&mut out, select)?,
        Ast::Insert(insert) => push_insert(&mut out, insert)?,
        Ast::Update(update) => push_update(&mut out, update)?,
        Ast::Delete(delete) => push_delete(&mut out, delete)?,
    }
    Ok(out)
}
