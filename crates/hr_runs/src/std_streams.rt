//! Readers and writers of std as sources and sinks, also one that fails once.

use hr_io::{Sink, Source, StdSink, StdSource};
use std::alloc::{AllocError, Global};
use std::fmt::Debug;
use std::io;
use std::io::{Read, Write};

/// A reader and a writer that fails once, and then gives or takes all that it is asked for.
#[derive(Debug, Drop)]
struct CutOffOnce {
    was_cut_off: bool,
}

fn cut_off_once() -> CutOffOnce {
    CutOffOnce { was_cut_off: false }
}

impl CutOffOnce {
    fn cut_off(&mut self) -> io::Result<()> {
        if self.was_cut_off {
            return Ok(());
        }
        self.was_cut_off = true;
        Err(io::ErrorKind::ConnectionReset.into())
    }
}

impl Read for CutOffOnce {
    fn read(&mut self, buf: &mut [u8]) -> io::Result<usize> {
        self.cut_off()?;
        Ok(buf.len())
    }
}

impl Write for CutOffOnce {
    fn write(&mut self, piece: &[u8]) -> io::Result<usize> {
        self.cut_off()?;
        Ok(piece.len())
    }

    fn flush(&mut self) -> io::Result<()> {
        Ok(())
    }
}

/// Makes the calls that a word names, and tells what each answers.
pub fn call(alloc: Global, out: &mut String, word: &str) -> Result<(), AllocError> {
    let mut room = [0u8; 2];
    match word {
        "reader" => push_reads(out, StdSource::new(b"abc".as_slice())),
        "cut-reader" => push_reads(out, StdSource::new(cut_off_once())),
        "writer" => push_writes(out, StdSink::new(Vec::with_capacity(alloc, 3)?)),
        "full-writer" => push_writes(out, StdSink::new(&mut room[..])),
        "cut-writer" => push_writes(out, StdSink::new(cut_off_once())),
        _ => out.push_str("no such word"),
    }
}

// Two reads, into a memory of four bytes.
fn push_reads<S: Source + Debug + Drop>(out: &mut String, mut source: S) -> Result<(), AllocError> {
    let mut buf = [0u8; 4];
    let first = source.read(&mut buf);
    let second = source.read(&mut buf);
    write!(out, "{first:?}, {second:?}, {buf:?}, {source:?}")
}

// Two writes of the same text.
fn push_writes<K: Sink + Debug + Drop>(out: &mut String, mut sink: K) -> Result<(), AllocError> {
    let first = sink.write(b"abc");
    let second = sink.write(b"abc");
    write!(out, "{first:?}, {second:?}, {sink:?}")
}
