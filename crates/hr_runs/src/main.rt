//! Runs of the parts that HRDB is made of, apart from the program: each takes the lines of its part of the input, and writes what
//! came of each. The gate runs it on `stdin` and compares what it writes with `stdout`, which was worked out by hand from the rules.
//!
//! A line `%% NAME` begins a part, and is written again, as each line is in all parts but `scenarios`:
//!
//! - `texts`: a line is a word, a blank, and a text: `tokens` asks for its tokens, `print` for the one text of its statement,
//!   `tree` for the statement's tree with all places, and `tuple N` for the tuple that begins at the place N of the text. The last
//!   of them are the deepest statements that 1,024 bytes hold, closed and not: a function that calls itself for each level needs
//!   stack for each, and these show that the stack is enough, as each of the two compilers builds it.
//! - `statements` and `plans`: a line `database` begins anew, with no table; a line `table ..`, as in a scenario, adds a table
//!   without rows, and `indexed table ..` one with an index on each column but its key. A line `path` with a statement asks by
//!   which path its rows are found, and `needs` what it needs at an engine that locks ranges of keys. Every other line is a
//!   statement, which is run on a database in lists.
//! - `scenarios`: a text begins behind a line `== NAME` and ends before a line `==`, and is read as a scenario. Of the lines
//!   between, `%repeat N LINE` stands for N lines, with their numbers from 1 in the place of each `@`; `%long N LINE` for a line
//!   that `x` fills up to N bytes; and `%raw LINE` for the line without its end, in which `^` is a carriage return and `$` a line
//!   feed. Every other line is one of the text.
//! - `locks`: `new` begins with an empty lock table. `ask TXN MODE ITEM ..` makes a request, where a MODE (`read` or `write`) is
//!   that of all items behind it, and `try` takes back what it is granted; `release TXN` and `release` end one transaction or
//!   all. `random STEPS` makes that many random calls, each held against a search of all cycles.
//! - `store`: `new KEY ..` begins with a store of one table, in which rows of these keys are committed, each with ten times its
//!   key. `put TXN KEY NUMBER` and `remove TXN KEY` change it, and `commit TXN`, `rollback TXN` and `forget` end that. `keys TXN`
//!   asks for the keys from 1 to 9, `get TXN KEY` for a row, `handed` for how many keys were handed out, and `dump` for how many
//!   rows are committed.
//! - `rules`: `view` begins with three replicas; `begin SESSION`, `submit TXN`, `ask TXN N` (after N other asks), `decide TXN`,
//!   `refuse TXN` and `take` (of replica 0's job) are events. `replica R`, `tally TXN`, `candidate` and `settle N` (of replica 0)
//!   ask what the rules in code say then.
//! - `streams`: `read LIMIT N` and `write ROOM N` read or write a text whole, in pieces, and call N fails. `std WORD` makes two
//!   calls of a reader or a writer of std as a source or a sink: `reader`, `writer`, `full-writer`, and those that fail once,
//!   `cut-reader` and `cut-writer`.
#![tactic(auto)]

mod database;
mod draw;
mod errors;
mod expand;
mod item;
mod locks;
mod numbers;
mod outcome;
mod parts;
mod plain;
mod random;
mod rules;
mod scenarios;
mod std_streams;
mod stored;
mod streams;
mod table;
mod texts;
mod tree;

use crate::database::Database;
use crate::locks::Locks;
use crate::rules::Rules;
use crate::scenarios::Scenarios;
use crate::stored::Stored;
use std::alloc::{AllocError, Global};
use std::io;

/// A part of the input.
#[derive(Clone, Copy)]
enum Part {
    Texts,
    Statements,
    Scenarios,
    Locks,
    Store,
    Rules,
    Streams,
}

fn part_of(name: &str) -> Part {
    match name {
        "statements" | "plans" => Part::Statements,
        "scenarios" => Part::Scenarios,
        "locks" => Part::Locks,
        "store" => Part::Store,
        "rules" => Part::Rules,
        "streams" => Part::Streams,
        _ => Part::Texts,
    }
}

/// What the lines so far have left.
struct Runs {
    part: Part,
    database: Database,
    scenarios: Scenarios,
    locks: Locks,
    stored: Stored,
    rules: Rules,
}

impl Drop for Runs {
    fn drop(self) {
        let Runs {
            part: _part,
            database: _database,
            scenarios: _scenarios,
            locks: _locks,
            stored: _stored,
            rules: _rules,
        } = self;
    }
}

impl Runs {
    fn new(alloc: Global) -> Result<Runs, AllocError> {
        Ok(Runs {
            part: Part::Texts,
            database: Database::new(alloc)?,
            scenarios: Scenarios::new(alloc),
            locks: Locks::new(alloc),
            stored: Stored::new(alloc, &[])?,
            rules: Rules::new(alloc)?,
        })
    }

    /// Takes a line, and writes what came of it.
    fn take(&mut self, alloc: Global, out: &mut String, line: &str) -> Result<(), AllocError> {
        if let Part::Scenarios = self.part {
            return self.scenarios.take(alloc, out, line);
        }
        writeln!(out, "{line}")?;
        self.answer(alloc, out, line)?;
        out.push('\n')
    }

    fn answer(&mut self, alloc: Global, out: &mut String, line: &str) -> Result<(), AllocError> {
        match self.part {
            Part::Texts => out.push_str(texts::told(alloc, line)?.as_str()),
            Part::Statements => out.push_str(self.database.take(alloc, line)?.as_str()),
            Part::Scenarios => Ok(()),
            Part::Locks => self.locks.call(alloc, out, line),
            Part::Store => self.stored.call(alloc, out, line),
            Part::Rules => self.rules.take(alloc, out, line),
            Part::Streams => streams::call(alloc, out, line),
        }
    }
}

fn main(rt: HostRuntime) -> io::Result<()> {
    let alloc = rt.alloc();
    let mut runs = Runs::new(alloc)?;
    for line in rt.lines(alloc) {
        let line = line?;
        if let Some(name) = line.as_str().strip_prefix("%% ") {
            runs.part = part_of(name);
            println!(rt; "{line}")?;
        } else {
            let mut out = String::new(alloc);
            runs.take(alloc, &mut out, line.as_str())?;
            print!(rt; "{out}")?;
        }
    }
    Ok(())
}
