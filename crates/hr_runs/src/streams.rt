//! Sources and sinks: whole texts, read from a source and written into a sink in memory.

use crate::std_streams;
use hr_io::{MemSink, MemSource, read_whole, write_whole};
use std::alloc::{AllocError, Global};

const TEXT: &[u8] = b"one line\n";

/// Reads or writes the text, under a limit or into so much room, where the call with some number fails; or makes calls of
/// readers and writers of std.
pub fn call(alloc: Global, out: &mut String, line: &str) -> Result<(), AllocError> {
    let (word, rest) = line.split_once(' ').unwrap_or((line, ""));
    let (size, failing) = rest.split_once(' ').unwrap_or((rest, ""));
    let size = size.parse().unwrap_or(0);
    let failing = failing.parse().unwrap_or(0);
    match word {
        "read" => push_read(alloc, out, size, failing),
        "write" => push_written(alloc, out, size, failing),
        _ => std_streams::call(alloc, out, rest),
    }
}

fn push_read(
    alloc: Global,
    out: &mut String,
    limit: usize,
    failing: u64,
) -> Result<(), AllocError> {
    let mut source = MemSource::new(TEXT.to_vec(alloc)?, 5, [failing].to_vec(alloc)?);
    match read_whole(alloc, &mut source, limit) {
        Ok(all) if all.as_slice() == TEXT => out.push_str("all of the text"),
        Ok(_) => out.push_str("another text"),
        Err(error) => write!(out, "{error}"),
    }
}

fn push_written(
    alloc: Global,
    out: &mut String,
    room: usize,
    failing: u64,
) -> Result<(), AllocError> {
    let mut sink = MemSink::new(alloc, 4, room, [failing].to_vec(alloc)?)?;
    let written = write_whole(&mut sink, TEXT);
    let taken = str::from_utf8(sink.bytes()).unwrap_or("no text");
    write!(out, "{written:?}, taken {taken:?}")
}
