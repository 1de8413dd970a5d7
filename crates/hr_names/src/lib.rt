//! What the names and the literals of a statement mean, by a catalog, and what is wrong with those that mean nothing. Nothing
//! here takes memory.
#![tactic(auto)]

mod names;
mod operand;
mod scope;

pub use names::{kind_of, named_twice, names_problem, unknown_name};
pub use operand::{
    column_kind, column_problem, literal_kind, literal_problem, mismatch, operand_at, operand_kind,
    operand_problem,
};
pub use scope::{
    EntryRef, Place, ScopeRef, called, column_of, columns_in, entry_of, kind_at, meant,
    select_scope, table_of, table_scope,
};
