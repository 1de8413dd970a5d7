//! One line of a scenario: the bytes that it may have, its words, names and numbers, and what a line of a session is.
//!
//! What the lines before it allow isn't looked at here: the order of lines, limits, and whether a name is that of anything.
//! Each is defined in `specs/`.
#![tactic(auto)]

mod bytes;
mod name;
mod number;
mod script;
mod words;

pub use bytes::{LineFault, MAX_LINE_BYTES, content_of, is_skipped, without_return};
pub use name::{LineName, name_of};
pub use number::{Number, Signed, number_of, signed_of};
pub use script::{ScriptForm, script_form_of};
pub use words::{Words, only};
