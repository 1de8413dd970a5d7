//! One run, over a source and a sink in memory.
ghost use Rattle.std.specs.Prelude.{◌<◌};

use hr_command::Status;
use hr_io::{MemSink, MemSource};
use std::alloc::{AllocError, Global};

/// Room for the longest report.
const ROOM: usize = 65536;

/// How the source and the sink behave: bytes at a call, and the call of each that fails (0 for none).
#[derive(Clone, Copy)]
pub struct Outside {
    pub piece: usize,
    pub read_fails: u64,
    pub write_fails: u64,
}

/// Nothing fails.
pub const SOUND: Outside = Outside {
    piece: 1000,
    read_fails: 0,
    write_fails: 0,
};

/// How a run ended, and what it wrote.
#[derive(Drop)]
pub struct Ran {
    pub status: Status,
    pub written: Vec<u8>,
}

/// Runs the command of these words, with blanks between them, on a text.
pub fn run(alloc: Global, words: &str, text: &[u8], outside: Outside) -> Result<Ran, AllocError>
    requires { 0 < outside.piece }
{
    let words = listed(alloc, words)?;
    let read_fails = [outside.read_fails].to_vec(alloc)?;
    let mut source = MemSource::new(text.to_vec(alloc)?, outside.piece, read_fails);
    let write_fails = [outside.write_fails].to_vec(alloc)?;
    let mut sink = MemSink::new(alloc, outside.piece, ROOM, write_fails)?;
    let status = hr_command::run(alloc, &words, &mut source, &mut sink);
    let written = sink.bytes().to_vec(alloc)?;
    Ok(Ran { status, written })
}

fn listed(alloc: Global, words: &str) -> Result<Vec<String>, AllocError> {
    let mut all = Vec::new(alloc);
    for word in words.split_whitespace() {
        all.push(String::from_str(alloc, word)?)?;
    }
    Ok(all)
}
