//! Relations as the SQL profile of this project sees them: values, rows, catalogs, bound statements and answers, and in
//! `specs/` what a database is, and when a statement fits one. What statements mean stands in `hr_meaning`.
#![tactic(auto)]

mod answer;
mod catalog;
mod copy;
mod expr;
mod fit;
mod holds;
mod kinds;
mod name;
mod order;
mod seq;
mod stmt;
mod value;

pub use answer::{Answer, RunError};
pub use catalog::{Catalog, ColKind, ColumnDef, TableDef};
pub use copy::TryCopy;
pub use expr::{ColRef, Expr, Op, Operand, Pred};
pub use holds::{key_of, row_fits};
pub use kinds::refuses;
pub use name::Name;
pub use seq::Seq;
pub use stmt::{DeleteStmt, InsertStmt, Item, SelectStmt, Set, Stmt, UpdateStmt};
pub use value::{Row, Rows, Table, Value};
