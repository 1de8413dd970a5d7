//! Texts of scenarios, line by line.

use crate::expand::add_line;
use crate::outcome::outcome;
use std::alloc::{AllocError, Global};

/// The text so far.
#[derive(Drop)]
pub struct Scenarios {
    text: String,
}

impl Scenarios {
    pub fn new(alloc: Global) -> Scenarios {
        Scenarios {
            text: String::new(alloc),
        }
    }

    /// Takes a line. At the first of a text its name is written, and at the last what the text says or why it is refused.
    pub fn take(&mut self, alloc: Global, out: &mut String, line: &str) -> Result<(), AllocError> {
        if let Some(name) = line.strip_prefix("== ") {
            self.text = String::new(alloc);
            writeln!(out, "{name}")
        } else if line == "==" {
            writeln!(out, "{}", outcome(alloc, self.text.as_str())?)
        } else {
            add_line(&mut self.text, line)
        }
    }
}
