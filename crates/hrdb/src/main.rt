//! HRDB: one database made of several unlike ones, of which some may answer wrongly.
//!
//! `hrdb step` reads a scenario on standard input, runs it, and writes the report on standard output.
#![tactic(auto)]

ghost use Rattle.std.specs.Prelude.{◌≡◌, ◌≢◌, ◌↔◌};

use hr_command::{Status, exit_status, fault_of, top};
use hr_io::{OpenGate, StdSink, StdSource};
use std::alloc::AllocError;
use std::io::ErrorKind;
use std::process::ExitCode;
use std::{env, io};

fn main(rt: HostRuntime) -> ExitCode {
    let status = match words(&rt) {
        Ok(words) => {
            let mut source = StdSource::new(rt.stdin());
            let mut sink = StdSink::new(rt.stdout());
            top(&rt, rt.alloc(), &words, &mut source, &mut sink, &OpenGate)
        }
        Err(error) => status_without_words(error.kind()),
    };
    if let Some(fault) = fault_of(&status) {
        // Where standard error takes nothing, the exit code tells.
        let _told = eprintln!(&rt; "{fault}");
    }
    ExitCode::from(exit_status(&status))
}

// Words that can't be had, as one that isn't UTF-8, are no command. Want of memory says nothing of them.
fn status_without_words(why: ErrorKind) -> Status
    ensures memory { (result ≡ Status.Memory) ↔ (why ≡ ErrorKind.OutOfMemory) }
    ensures usage { why ≢ ErrorKind.OutOfMemory → result ≡ Status.Usage }
{
    match why {
        ErrorKind::OutOfMemory => Status::Memory,
        _ => Status::Usage,
    }
}

// The words behind the program's name.
fn words(rt: &HostRuntime) -> io::Result<Vec<String>> {
    let mut words = Vec::new(rt.alloc());
    for word in env::args(rt)?.skip(1) {
        words.push(word).map_err(AllocError::from)?;
    }
    Ok(words)
}
