//! Why completeness needs its premises: histories in which one of them fails, and so does the law.
//!
//! Each function does nothing. What it ensures is computed from the definitions.
#![tactic(auto)]

pub mod without;
