//! An engine that locks whole tables. Its rows lie in place; beside each table that a running transaction has changed lie the
//! rows from before.
#![tactic(auto)]

mod before;
mod engine;
mod name;
mod store;

pub use engine::{TableEngine, table_engine};
pub use name::TableName;
pub use store::TableStore;
