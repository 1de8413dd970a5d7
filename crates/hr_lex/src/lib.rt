//! The tokens of SQL text: keywords in either case, names, numbers, quoted texts and signs.
//!
//! A text is read from the left. Blanks, which are space and tab, are passed over, and the longest token is
//! taken each time. What the tokens of a text are is defined in `specs/Tokens.antt`.
#![tactic(auto)]

mod bytes;
mod keyword;
mod number;
mod quote;
mod reading;
mod sign;
mod token;
pub mod worked;

pub use reading::{Reading, read, tokens};
pub use token::{Keyword, LexError, Token, TokenKind};
