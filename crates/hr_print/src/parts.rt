//! The texts of the parts that statements are made of.

ghost use Rattle.std.specs.Prelude.{◌≡◌, ◌∷◌, [], ◌++◌, map, codes, nat_lt, OnOk};
ghost use Rattle.hr_base.specs.Texts.{doubled};
ghost use Rattle.hr_print.specs.Print as spec;

use hr_parse::{ColumnAst, CondAst, ExprAst, ExprKind, LitAst, LiteralAst, NameAt, OperandAst};
use hr_rel::Op;
use itoa::Buffer;
use std::alloc::AllocError;

pub fn put(out: &mut Vec<u8>, text: &[u8]) -> Result<(), AllocError>
    ensures { OnOk result (out.new.items ≡ out.old.items ++ text.now) }
{
    out.extend_from_slice(text)
}

#[tactic(auto, using(crate::proofs::Appends::append_again))]
pub fn column(out: &mut Vec<u8>, column: &ColumnAst) -> Result<(), AllocError>
    ensures { OnOk result (out.new.items ≡ out.old.items ++ spec.column_text column.now) }
{
    put(out, column.first.name.bytes())?;
    match &column.second {
        Some(second) => {
            put(out, b".")?;
            put(out, second.name.bytes())
        }
        None => Ok(()),
    }
}

/// A byte within quotes.
fn quoted_byte(out: &mut Vec<u8>, b: u8) -> Result<(), AllocError>
    ensures { OnOk result (out.new.items ≡ out.old.items ++ doubled (b ∷ [])) }
{
    if b == b'\'' {
        put(out, b"''")
    } else {
        Ok(out.push(b)?)
    }
}

fn doubled(out: &mut Vec<u8>, mut text: &[u8]) -> Result<(), AllocError>
    ensures { OnOk result (out.new.items ≡ out.old.items ++ doubled text.entry.now) }
{
    while let [b, rest @ ..] = text {
        quoted_byte(out, *b)?;
        text = rest;
    }
    Ok(())
}

#[tactic(auto, using(crate::proofs::Appends::append_again))]
fn literal(out: &mut Vec<u8>, literal: &LiteralAst) -> Result<(), AllocError>
    ensures { OnOk result (out.new.items ≡ out.old.items ++ spec.literal_text literal.now) }
{
    match &literal.value {
        LitAst::Null => put(out, b"NULL"),
        LitAst::Int(n) => put(out, Buffer::new().format(*n).as_bytes()),
        LitAst::Text(text) => {
            put(out, b"'")?;
            doubled(out, text.as_slice())?;
            put(out, b"'")
        }
    }
}

#[tactic(auto, using(crate::proofs::Appends::append_again))]
fn operand(out: &mut Vec<u8>, operand: &OperandAst) -> Result<(), AllocError>
    ensures { OnOk result (out.new.items ≡ out.old.items ++ spec.operand_text operand.now) }
{
    match operand {
        OperandAst::Column(c) => column(out, c),
        OperandAst::Literal(l) => literal(out, l),
    }
}

fn op_text(op: Op) -> &'static [u8]
    ensures { result.now ≡ spec.op_text op }
{
    match op {
        Op::Eq => b" = ",
        Op::Ne => b" <> ",
        Op::Lt => b" < ",
        Op::Le => b" <= ",
        Op::Gt => b" > ",
        Op::Ge => b" >= ",
    }
}

/// What is printed as a part of a list.
pub trait Shown {
    ghost use Rattle.std.specs.Prelude.{List, ℕ};

    ghost text: { Self → List ℕ };

    fn show(&self, out: &mut Vec<u8>) -> Result<(), AllocError>
        ensures { OnOk result (out.new.items ≡ out.old.items ++ text self.now) };
}

/// The parts, each behind a comma.
#[tactic(auto, using(crate::proofs::Appends::append_again))]
fn more<T: Shown>(out: &mut Vec<u8>, parts: &[T]) -> Result<(), AllocError>
    ensures { OnOk result (out.new.items ≡ out.old.items ++ spec.more (map T.text parts.now)) }
{
    match parts {
        [part, rest @ ..] => {
            put(out, b", ")?;
            part.show(out)?;
            more(out, rest)
        }
        [] => Ok(()),
    }
}

/// The parts with commas between.
#[tactic(auto, using(crate::proofs::Appends::append_again))]
pub fn joined<T: Shown>(out: &mut Vec<u8>, parts: &[T]) -> Result<(), AllocError>
    ensures { OnOk result (out.new.items ≡ out.old.items ++ spec.joined (map T.text parts.now)) }
{
    match parts {
        [part, rest @ ..] => {
            part.show(out)?;
            more(out, rest)
        }
        [] => Ok(()),
    }
}

impl Shown for LiteralAst {
    ghost text = { spec.literal_text };

    fn show(&self, out: &mut Vec<u8>) -> Result<(), AllocError> {
        literal(out, self)
    }
}

impl Shown for ColumnAst {
    ghost text = { spec.column_text };

    fn show(&self, out: &mut Vec<u8>) -> Result<(), AllocError> {
        column(out, self)
    }
}

impl Shown for NameAt {
    ghost text = { spec.name_text };

    fn show(&self, out: &mut Vec<u8>) -> Result<(), AllocError> {
        put(out, self.name.bytes())
    }
}

fn open(out: &mut Vec<u8>, needed: bool) -> Result<(), AllocError>
    ensures { OnOk result (out.new.items ≡ out.old.items ++ spec.opening needed) }
{
    if needed { put(out, b"(") } else { Ok(()) }
}

fn close(out: &mut Vec<u8>, needed: bool) -> Result<(), AllocError>
    ensures { OnOk result (out.new.items ≡ out.old.items ++ spec.closing needed) }
{
    if needed { put(out, b")") } else { Ok(()) }
}

fn is_text(negated: bool) -> &'static [u8]
    ensures { result.now ≡ spec.is_text negated }
{
    if negated {
        b" IS NOT NULL"
    } else {
        b" IS NULL"
    }
}

fn between_text(negated: bool) -> &'static [u8]
    ensures { result.now ≡ spec.between_text negated }
{
    if negated {
        b" NOT BETWEEN "
    } else {
        b" BETWEEN "
    }
}

fn in_text(negated: bool) -> &'static [u8]
    ensures { result.now ≡ spec.in_text negated }
{
    if negated { b" NOT IN (" } else { b" IN (" }
}

/// `NOT` and what it negates.
fn put_not(out: &mut Vec<u8>) -> Result<(), AllocError>
    ensures { OnOk result (out.new.items ≡ out.old.items ++ codes "NOT ") }
{
    put(out, b"NOT ")
}

/// What a tree's place asks of it: operators that bind less tightly stand in parentheses there.
#[derive(Clone, Copy)]
pub enum Level {
    /// Every operator may stand bare.
    Loose,
    /// Behind and before AND, or `*`: OR, `+` and `-` may not.
    Tight,
    /// A part of its own: no operator between parts may.
    Part,
}

impl Level {
    /// Whether OR, `+` and `-` need parentheses here.
    fn parts_loose(self) -> bool
        ensures { result ≡ nat_lt 0 (spec.rank self) }
    {
        !matches!(self, Level::Loose)
    }

    /// Whether AND and `*` do.
    fn parts_tight(self) -> bool
        ensures { result ≡ nat_lt 1 (spec.rank self) }
    {
        matches!(self, Level::Part)
    }
}

/// A condition at a place that asks this.
#[tactic(auto, using(crate::proofs::Appends::append_again))]
pub fn cond(out: &mut Vec<u8>, whole: &CondAst, least: Level) -> Result<(), AllocError>
    ensures { OnOk result (out.new.items ≡ out.old.items ++ spec.cond_text whole.now (spec.rank least)) }
{
    match whole {
        CondAst::Or(left, right) => {
            open(out, least.parts_loose())?;
            cond(out, left.get(), Level::Loose)?;
            put(out, b" OR ")?;
            cond(out, right.get(), Level::Tight)?;
            close(out, least.parts_loose())
        }
        CondAst::And(left, right) => {
            open(out, least.parts_tight())?;
            cond(out, left.get(), Level::Tight)?;
            put(out, b" AND ")?;
            cond(out, right.get(), Level::Part)?;
            close(out, least.parts_tight())
        }
        CondAst::Not(inner) => {
            put_not(out)?;
            cond(out, inner.get(), Level::Part)
        }
        CondAst::Compare(op, left, right) => {
            operand(out, left.get())?;
            put(out, op_text(*op))?;
            operand(out, right.get())
        }
        CondAst::IsNull {
            operand: of,
            negated,
        } => {
            operand(out, of.get())?;
            put(out, is_text(*negated))
        }
        CondAst::Between {
            operand: of,
            low,
            high,
            negated,
        } => {
            operand(out, of.get())?;
            put(out, between_text(*negated))?;
            operand(out, low.get())?;
            put(out, b" AND ")?;
            operand(out, high.get())
        }
        CondAst::Among {
            operand: of,
            list,
            negated,
        } => {
            operand(out, of.get())?;
            put(out, in_text(*negated))?;
            joined(out, list.as_slice())?;
            put(out, b")")
        }
    }
}

/// An expression at a place that asks this.
#[tactic(auto, using(crate::proofs::Appends::append_again))]
pub fn expr(out: &mut Vec<u8>, whole: &ExprAst, least: Level) -> Result<(), AllocError>
    ensures { OnOk result (out.new.items ≡ out.old.items ++ spec.expr_text whole.now (spec.rank least)) }
{
    match &whole.kind {
        ExprKind::Literal(l) => literal(out, l.get()),
        ExprKind::Column(c) => column(out, c.get()),
        ExprKind::Add(left, right) => {
            open(out, least.parts_loose())?;
            expr(out, left.get(), Level::Loose)?;
            put(out, b" + ")?;
            expr(out, right.get(), Level::Tight)?;
            close(out, least.parts_loose())
        }
        ExprKind::Sub(left, right) => {
            open(out, least.parts_loose())?;
            expr(out, left.get(), Level::Loose)?;
            put(out, b" - ")?;
            expr(out, right.get(), Level::Tight)?;
            close(out, least.parts_loose())
        }
        ExprKind::Mul(left, right) => {
            open(out, least.parts_tight())?;
            expr(out, left.get(), Level::Tight)?;
            put(out, b" * ")?;
            expr(out, right.get(), Level::Part)?;
            close(out, least.parts_tight())
        }
    }
}
