//! Statements of the SQL profile as text: the syntax tree, its parser, and its one canonical text.
#![tactic(auto)]

mod ast;
mod cond;
mod delete;
mod expr;
mod insert;
mod lexeme;
mod list;
mod operand;
mod parser;
mod parsing;
mod select;
mod statement;
mod update;
mod word;

pub use ast::{
    AggWord, Ast, ColumnAst, CondAst, DeleteAst, EntryAst, ExprAst, ExprKind, InsertAst, ItemAst,
    Items, JoinAst, LitAst, LiteralAst, NameAt, OperandAst, SelectAst, SetAst, TupleAst, UpdateAst,
};
pub use parsing::{
    ParseError, one_tree, parse, parse_tuple, parsed_by_the_grammar, parsed_tuple_by_the_grammar,
};
