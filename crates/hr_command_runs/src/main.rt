//! Runs commands over sources and sinks in memory. The gate runs it on `stdin` and compares what it prints with `stdout`, which
//! was worked out apart from this program.
//!
//! A line that begins with `----` says what is done with the text below it, up to the next such line:
//!
//! - `---- run WORD ..`: the command of these words is run on it. What is written is printed, then what a person is told, and then
//!   the exit status where it isn't 0.
//! - `---- reads`: `step` is run on it, with each read failing in turn.
//! - `---- writes`: `step` is run on it, with each write failing in turn.
//! - `---- full`: `step` is run on so many copies of it that they are 1 MiB, and on those and a byte.
//! - `---- told`: it says nothing; each status is printed as a person is told of it.
#![tactic(auto)]

mod failing;
mod full;
mod outside;
mod told;

use crate::failing::{reads, writes};
use crate::full::full;
use crate::outside::{SOUND, run};
use crate::told::{all_told, told};
use std::alloc::{AllocError, Global};
use std::io;

fn main(rt: HostRuntime) -> io::Result<()> {
    let alloc = rt.alloc();
    let mut what = String::new(alloc);
    let mut text = String::new(alloc);
    for line in rt.lines(alloc) {
        let line = line?;
        if line.as_str().starts_with("----") {
            let done = done(alloc, what.as_str(), text.as_bytes())?;
            print!(rt; "{done}{line}\n")?;
            what = line;
            text = String::new(alloc);
        } else {
            push_line(&mut text, line.as_str())?;
        }
    }
    Ok(())
}

fn push_line(text: &mut String, line: &str) -> Result<(), AllocError> {
    text.push_str(line)?;
    text.push_str("\n")
}

/// What is printed of a text with which this is done.
fn done(alloc: Global, what: &str, text: &[u8]) -> Result<String, AllocError> {
    if let Some(words) = what.strip_prefix("---- run") {
        return told(alloc, &run(alloc, words, text, SOUND)?);
    }
    match what {
        "---- reads" => reads(alloc, text),
        "---- writes" => writes(alloc, text),
        "---- full" => full(alloc, text),
        "---- told" => all_told(alloc),
        _ => Ok(String::new(alloc)),
    }
}
