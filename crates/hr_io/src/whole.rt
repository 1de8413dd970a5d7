//! Whole texts: all that a source has, up to a limit, and all of a text into a sink.

ghost use Rattle.std.specs.Prelude.{◌≡◌, ◌≢◌, ◌≤◌, ◌+◌, ℕ, List, Err, length, vec_len, IfOk, OnOk, OnErr};
ghost use Rattle.std.specs.Io.KnownBytes.{Consumes, Appends, IsAtEnd};
ghost use Rattle.hr_base.specs.Counters.{Rose};
ghost use Rattle.hr_io.specs.Faults.{HasCause};
ghost use Rattle.hr_io.specs.Bytes.{AppendsFront};

use crate::error::{Failed, ReadError};
use crate::sink::Sink;
use crate::source::Source;
use std::alloc::Global;

/// How many bytes one read asks for, where the limit leaves room for them.
const PIECE: usize = 4096;

/// Reads a source to its end, and no further than one byte past `limit`.
///
/// Answers [`ReadError::TooLong`] with `limit` bytes and one more taken from a source that has more
/// than `limit`, and [`ReadError::Fault`] where a read failed.
pub fn read_whole<S: Source>(
    alloc: Global,
    source: &mut S,
    limit: usize,
) -> Result<Vec<u8>, ReadError>
    ensures all { IfOk result (λ text. Consumes (S.left source.old) (S.left source.new) text.items) }
    ensures end { OnOk result (IsAtEnd (S.left source.new)) }
    ensures within { IfOk result (λ text. vec_len text ≤ limit) }
    ensures too_long { result ≡ Err ReadError.TooLong → (front : List ℕ) × (length front ≡ limit + 1) × Consumes (S.left source.old) (S.left source.new) front }
    ensures fault { result ≡ Err ReadError.Fault → Rose (S.faults source.old) (S.faults source.new) }
    ensures told { result ≢ Err ReadError.Fault → S.faults source.new ≡ S.faults source.old }
    ensures later { S.faults source.old ≤ S.faults source.new }
{
    let mut text = Vec::new(alloc);
    let mut buf = [0u8; PIECE];
    'pieces: while text.len() <= limit {
        let room = (limit - text.len()).min(PIECE - 1) + 1;
        let piece = &mut buf[..room];
        let Ok(count) = source.read(piece) else {
            return Err(ReadError::Fault);
        };
        if count == 0 {
            return Ok(text);
        }
        text.extend_from_slice(&piece[..count])?;
    }
    Err(ReadError::TooLong)
}

/// Writes all of a text into a sink. Each write is handed all that hasn't gone out yet.
pub fn write_whole<K: Sink>(sink: &mut K, text: &[u8]) -> Result<(), Failed>
    ensures all { OnOk result (Appends (K.taken sink.old) (K.taken sink.new) text.now) }
    ensures front { OnErr result (AppendsFront (K.taken sink.old) (K.taken sink.new) text.now) }
    ensures cause { HasCause (K.faults sink.old) (K.faults sink.new) result }
{
    let mut done = 0;
    'writes: while done < text.len() {
        done += sink.write(&text[done..])?;
    }
    Ok(())
}
