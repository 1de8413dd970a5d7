//! The syntax tree of a statement. It keeps no parentheses, no `;` and no case, and has `<>` for `!=`.
//!
//! A field `at` is the place in the text of the part's first token, with opening parentheses counted in.
//!
//! The nodes of conditions and expressions are small, with their parts boxed: so a function that calls itself for each
//! level of a tree, as dropping it does, needs little stack.

use hr_rel::{Name, Op, Seq};
use sqlite_items::Boxed;

pub enum Ast {
    Select(SelectAst),
    Insert(InsertAst),
    Update(UpdateAst),
    Delete(DeleteAst),
}

impl Drop for Ast {
    fn drop(self) {
        match self {
            Ast::Select(_part) => {}
            Ast::Insert(_part) => {}
            Ast::Update(_part) => {}
            Ast::Delete(_part) => {}
        }
    }
}

pub struct SelectAst {
    pub items: Items,
    pub first: EntryAst,
    pub join: Option<JoinAst>,
    pub filter: Option<CondAst>,
    pub groups: Seq<ColumnAst>,
}

impl Drop for SelectAst {
    fn drop(self) {
        let SelectAst {
            items: _items,
            first: _first,
            join: _join,
            filter: _filter,
            groups: _groups,
        } = self;
    }
}

/// What a SELECT shows.
pub enum Items {
    /// `*`, at its place.
    Star(u32),
    Listed(Seq<ItemAst>),
}

impl Drop for Items {
    fn drop(self) {
        match self {
            Items::Star(_part) => {}
            Items::Listed(_part) => {}
        }
    }
}

pub enum ItemAst {
    Plain(ExprAst),
    /// `COUNT(*)`, at its place.
    CountAll(u32),
    Aggregate {
        word: AggWord,
        column: ColumnAst,
        at: u32,
    },
}

impl Drop for ItemAst {
    fn drop(self) {
        match self {
            ItemAst::Plain(_part) => {}
            ItemAst::CountAll(_part) => {}
            ItemAst::Aggregate {
                word: _word,
                column: _column,
                at: _at,
            } => {}
        }
    }
}

#[derive(Clone, Copy, Debug, PartialEq, Eq)]
pub enum AggWord {
    Count,
    Sum,
    Min,
    Max,
}

pub struct JoinAst {
    pub entry: EntryAst,
    pub on: CondAst,
}

impl Drop for JoinAst {
    fn drop(self) {
        let JoinAst {
            entry: _entry,
            on: _on,
        } = self;
    }
}

/// A table of a SELECT, and the name that the statement gives it.
#[derive(Clone, Copy, Drop)]
pub struct EntryAst {
    pub table: NameAt,
    pub alias: Option<NameAt>,
}

#[derive(Clone, Copy)]
pub struct NameAt {
    pub name: Name,
    pub at: u32,
}

/// A column's name, or a table's and then the column's.
#[derive(Clone, Copy)]
pub struct ColumnAst {
    pub first: NameAt,
    pub second: Option<NameAt>,
}

pub struct InsertAst {
    pub table: NameAt,
    /// Empty where the statement names no columns.
    pub columns: Seq<NameAt>,
    pub tuples: Seq<TupleAst>,
}

impl Drop for InsertAst {
    fn drop(self) {
        let InsertAst {
            table: _table,
            columns: _columns,
            tuples: _tuples,
        } = self;
    }
}

pub struct TupleAst {
    pub values: Seq<LiteralAst>,
    pub at: u32,
}

impl Drop for TupleAst {
    fn drop(self) {
        let TupleAst {
            values: _values,
            at: _at,
        } = self;
    }
}

pub struct UpdateAst {
    pub table: NameAt,
    pub sets: Seq<SetAst>,
    pub filter: Option<CondAst>,
}

impl Drop for UpdateAst {
    fn drop(self) {
        let UpdateAst {
            table: _table,
            sets: _sets,
            filter: _filter,
        } = self;
    }
}

/// One assignment of an UPDATE.
pub struct SetAst {
    pub column: NameAt,
    pub value: ExprAst,
}

impl Drop for SetAst {
    fn drop(self) {
        let SetAst {
            column: _column,
            value: _value,
        } = self;
    }
}

pub struct DeleteAst {
    pub table: NameAt,
    pub filter: Option<CondAst>,
}

impl Drop for DeleteAst {
    fn drop(self) {
        let DeleteAst {
            table: _table,
            filter: _filter,
        } = self;
    }
}

#[derive(Drop)]
pub enum CondAst {
    Or(Boxed<CondAst>, Boxed<CondAst>),
    And(Boxed<CondAst>, Boxed<CondAst>),
    Not(Boxed<CondAst>),
    Compare(Op, Boxed<OperandAst>, Boxed<OperandAst>),
    IsNull {
        operand: Boxed<OperandAst>,
        negated: bool,
    },
    Between {
        operand: Boxed<OperandAst>,
        low: Boxed<OperandAst>,
        high: Boxed<OperandAst>,
        negated: bool,
    },
    Among {
        operand: Boxed<OperandAst>,
        list: Seq<LiteralAst>,
        negated: bool,
    },
}

#[derive(Drop)]
pub enum OperandAst {
    Column(ColumnAst),
    Literal(LiteralAst),
}

#[cycle(expr)]
#[derive(Drop)]
pub struct ExprAst {
    pub kind: ExprKind,
    pub at: u32,
}

#[cycle(expr)]
#[derive(Drop)]
pub enum ExprKind {
    Literal(Boxed<LiteralAst>),
    Column(Boxed<ColumnAst>),
    Add(Boxed<ExprAst>, Boxed<ExprAst>),
    Sub(Boxed<ExprAst>, Boxed<ExprAst>),
    Mul(Boxed<ExprAst>, Boxed<ExprAst>),
}

pub struct LiteralAst {
    pub value: LitAst,
    pub at: u32,
}

impl Drop for LiteralAst {
    fn drop(self) {
        let LiteralAst {
            value: _value,
            at: _at,
        } = self;
    }
}

pub enum LitAst {
    Null,
    Int(i64),
    /// The bytes between the quotes, with doubled quotes once. They may be more than a `Name` holds.
    Text(Seq<u8>),
}

impl Drop for LitAst {
    fn drop(self) {
        match self {
            LitAst::Null => {}
            LitAst::Int(_part) => {}
            LitAst::Text(_part) => {}
        }
    }
}
