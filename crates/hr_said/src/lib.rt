//! What the lines of a scenario have said so far, and what one line more says or why it is refused: each line but those that
//! hold SQL.
#![tactic(auto)]

mod error;
mod faults;
mod head;
mod limits;
mod said;
mod scenario;
mod scheduling;
mod tables;

pub use error::{InputKind, LineError};
pub use faults::{fault, suspect};
pub use head::{liars, replicas, retries, version};
pub use hr_forms::EngineKind;
pub use limits::{MAX_FIRST_ROWS, is_too_long, may_stand};
pub use said::{Inside, Said, Session};
pub use scenario::{Block, Choice, Scenario};
pub use scheduling::{schedule, schedule_line};
pub use tables::{columns_at, index, short, table, table_named};
