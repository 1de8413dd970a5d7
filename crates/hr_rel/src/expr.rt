use crate::{TryCopy, Value};
use sqlite_items::Boxed;
use std::alloc::{AllocError, Global};

/// A column: the place of its table entry in the statement, and its place in that entry's table, both from 0.
#[derive(Clone, Copy, PartialEq, Eq, Debug)]
pub struct ColRef {
    pub entry: u32,
    pub column: u32,
}

/// An expression over the columns of the statement's table entries. `Add`, `Sub` and `Mul` are of numbers.
#[derive(Debug, Drop)]
pub enum Expr {
    Lit(Value),
    Col(ColRef),
    Add(Boxed<Expr>, Boxed<Expr>),
    Sub(Boxed<Expr>, Boxed<Expr>),
    Mul(Boxed<Expr>, Boxed<Expr>),
}

/// A condition, true, false or unknown on each row, as the standard's search condition.
#[derive(Debug, Drop)]
pub enum Pred {
    Compare(Op, Operand, Operand),
    IsNull(Operand),
    And(Boxed<Pred>, Boxed<Pred>),
    Or(Boxed<Pred>, Boxed<Pred>),
    Not(Boxed<Pred>),
}

/// A comparison: `=`, `<>`, `<`, `<=`, `>`, `>=`.
#[derive(Clone, Copy, PartialEq, Eq, Debug)]
pub enum Op {
    Eq,
    Ne,
    Lt,
    Le,
    Gt,
    Ge,
}

/// One side of a comparison.
#[derive(Clone, Copy, Debug, PartialEq, Eq)]
pub enum Operand {
    Lit(Value),
    Col(ColRef),
}

impl TryCopy for Expr {
    fn try_copy(&self, alloc: Global) -> Result<Expr, AllocError> {
        match self {
            Expr::Lit(value) => Ok(Expr::Lit(value.try_copy(alloc)?)),
            Expr::Col(column) => Ok(Expr::Col(*column)),
            Expr::Add(a, b) => {
                let a = Boxed::new(alloc, a.get().try_copy(alloc)?)?;
                let b = Boxed::new(alloc, b.get().try_copy(alloc)?)?;
                Ok(Expr::Add(a, b))
            }
            Expr::Sub(a, b) => {
                let a = Boxed::new(alloc, a.get().try_copy(alloc)?)?;
                let b = Boxed::new(alloc, b.get().try_copy(alloc)?)?;
                Ok(Expr::Sub(a, b))
            }
            Expr::Mul(a, b) => {
                let a = Boxed::new(alloc, a.get().try_copy(alloc)?)?;
                let b = Boxed::new(alloc, b.get().try_copy(alloc)?)?;
                Ok(Expr::Mul(a, b))
            }
        }
    }
}

impl TryCopy for Pred {
    fn try_copy(&self, alloc: Global) -> Result<Pred, AllocError> {
        match self {
            Pred::Compare(op, left, right) => {
                let left = left.try_copy(alloc)?;
                Ok(Pred::Compare(*op, left, right.try_copy(alloc)?))
            }
            Pred::IsNull(operand) => Ok(Pred::IsNull(operand.try_copy(alloc)?)),
            Pred::And(a, b) => {
                let a = Boxed::new(alloc, a.get().try_copy(alloc)?)?;
                let b = Boxed::new(alloc, b.get().try_copy(alloc)?)?;
                Ok(Pred::And(a, b))
            }
            Pred::Or(a, b) => {
                let a = Boxed::new(alloc, a.get().try_copy(alloc)?)?;
                let b = Boxed::new(alloc, b.get().try_copy(alloc)?)?;
                Ok(Pred::Or(a, b))
            }
            Pred::Not(a) => Ok(Pred::Not(Boxed::new(alloc, a.get().try_copy(alloc)?)?)),
        }
    }
}

impl TryCopy for Operand {
    fn try_copy(&self, alloc: Global) -> Result<Operand, AllocError> {
        match self {
            Operand::Lit(value) => Ok(Operand::Lit(value.try_copy(alloc)?)),
            Operand::Col(column) => Ok(Operand::Col(*column)),
        }
    }
}

impl TryCopy for ColRef {
    fn try_copy(&self, _alloc: Global) -> Result<ColRef, AllocError> {
        Ok(*self)
    }
}
