//! The readers and writers of std as sources and sinks: the edge to the system, which is trusted.

ghost use Rattle.std.specs.Prelude.{◌≡◌};

use crate::error::Failed;
use crate::sink::Sink;
use crate::source::Source;
use std::io::{Read, Write};

/// A reader of std as a source, which has left what the reader has, where std knows that.
#[derive(Debug, Drop)]
pub struct StdSource<T> {
    reader: T,
    faults: u64,
}

impl<T> StdSource<T> {
    pub fn new(reader: T) -> Self
        ensures reader { result.reader ≡ reader }
        ensures faults { result.faults ≡ 0 }
    {
        StdSource { reader, faults: 0 }
    }
}

impl<T: Read> Source for StdSource<T> {
    ghost left = { λ s. T.remaining s.reader };

    ghost faults = { λ s. s.faults };

    fn read(&mut self, buf: &mut [u8]) -> Result<usize, Failed> {
        match self.reader.read(buf) {
            Ok(count) => Ok(count),
            Err(_) => {
                self.faults = self.faults.saturating_add(1);
                Err(Failed)
            }
        }
    }
}

/// A writer of std as a sink, which has taken what the writer has, where std knows that.
#[derive(Debug, Drop)]
pub struct StdSink<T> {
    writer: T,
    faults: u64,
}

impl<T> StdSink<T> {
    pub fn new(writer: T) -> Self
        ensures writer { result.writer ≡ writer }
        ensures faults { result.faults ≡ 0 }
    {
        StdSink { writer, faults: 0 }
    }
}

impl<T: Write> Sink for StdSink<T> {
    ghost taken = { λ s. T.contents s.writer };

    ghost faults = { λ s. s.faults };

    fn write(&mut self, piece: &[u8]) -> Result<usize, Failed> {
        match self.writer.write(piece) {
            Ok(count) if count > 0 || piece.is_empty() => Ok(count),
            // A writer that takes nothing would be asked for ever.
            _ => {
                self.faults = self.faults.saturating_add(1);
                Err(Failed)
            }
        }
    }
}
