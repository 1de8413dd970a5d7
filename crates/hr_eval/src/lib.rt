//! Conditions, expressions, assignments and the answers of SELECTs, in code, exactly as they are defined. Conditions and
//! expressions are judged on rows that are lent, so nothing is joined or copied, and take no memory.
#![tactic(auto)]

mod answering;
mod condition;
mod expression;
mod groups;
mod plain_rows;
mod tallies;
mod tally;
mod tuple;
mod update;

pub use answering::Answering;
pub use condition::{is_kept, test, test_pair};
pub use expression::{evaluated, value, value_pair};
pub use groups::{Group, Groups};
pub use plain_rows::PlainRows;
pub use tally::Tally;
pub use tuple::Tuple;
pub use update::{assigned, updated};
