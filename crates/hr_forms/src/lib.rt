//! The forms of a scenario's lines: what a line is by its words alone, outside of sessions and schedules (`form_of`) and
//! within a schedule (`schedule_form_of`). The lines of a session are `hr_line`'s.
//!
//! What the lines before it allow isn't looked at here: the order of lines, limits, and whether a name or a number is that
//! of anything.
#![tactic(auto)]

mod act;
mod choice;
mod column;
mod heading;
mod line;
mod pieces;
mod words;

pub use act::ActForm;
pub use choice::{ChoiceForm, ScheduleForm, schedule_form_of};
pub use column::ColumnForm;
pub use line::{EngineKind, LineForm, form_of, tuple_place};
