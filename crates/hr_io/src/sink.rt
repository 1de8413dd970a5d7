//! Where bytes go.

ghost use Rattle.std.specs.Prelude.{◌≡◌, ◌↔◌, ◌<◌, ◌-◌, ◌⊎◌, ℕ, List, Option, [], ◌++◌, min, length, take, IsErr, IfOk, OnErr, Some};
ghost use Rattle.std.specs.Io.{WritesAtMost};
ghost use Rattle.std.specs.Io.KnownBytes.{WriteAppends};
ghost use Rattle.hr_io.specs.Faults.{HasCause};
ghost use Rattle.hr_io.specs.Bytes.{IsFull, MovesSome};
ghost use Rattle.hr_io.specs.Calls.{IsToFail, fresh_calls, one_more, one_failed};

use crate::calls::Calls;
use crate::error::Failed;
use std::alloc::{AllocError, Global};
use std::marker::Model;

/// Takes bytes, a piece at each call.
///
/// `taken` is the bytes taken so far, where the type tells them, and `faults` counts the failures.
pub trait Sink {
    ghost taken: { Self → Option (List ℕ) };

    ghost faults: { Self → ℕ };

    /// Takes the front of `piece` and answers how many bytes: none only where `piece` is empty.
    /// A call that failed took nothing.
    fn write(&mut self, piece: &[u8]) -> Result<usize, Failed>
        ensures bound { WritesAtMost result piece.now }
        ensures some { MovesSome result piece.now }
        ensures bytes { WriteAppends (taken self.old) (taken self.new) result piece.now }
        ensures cause { HasCause (faults self.old) (faults self.new) result };
}

/// A memory of fixed size that takes bytes in pieces, with calls that fail on purpose.
#[derive(Debug, Drop)]
pub struct MemSink {
    bytes: Vec<u8>,
    piece: usize,
    room: usize,
    calls: Calls,
}

impl Model for MemSink {
    ghost use Rattle.std.specs.Prelude.{◌≤◌, ◌<◌, vec_len, vec_capacity};
    ghost use Rattle.hr_io.specs.Bytes.{MemStore};

    ghost Value = { MemStore };

    ghost view = { λ s. record { taken = s.bytes.items; piece = s.piece; room = s.room; calls = s.calls } };

    ghost invariant = { λ s. (vec_len s.bytes ≤ s.room) × (s.room ≤ vec_capacity s.bytes) × (0 < s.piece) };
}

impl MemSink {
    /// A sink with memory for `room` bytes, which takes at most `piece` of them at a call. The calls
    /// whose numbers, counted from 1, stand in `failing` fail, and so does a call for bytes at a
    /// sink that is full.
    pub fn new(
        alloc: Global,
        piece: usize,
        room: usize,
        failing: Vec<u64>,
    ) -> Result<Self, AllocError>
        requires { 0 < piece }
        ensures taken { IfOk result (λ sink. sink.taken ≡ []) }
        ensures piece { IfOk result (λ sink. sink.piece ≡ piece) }
        ensures room { IfOk result (λ sink. sink.room ≡ room) }
        ensures calls { IfOk result (λ sink. sink.calls ≡ fresh_calls failing.items) }
    {
        let bytes = Vec::with_capacity(alloc, room)?;
        Ok(MemSink {
            bytes,
            piece,
            room,
            calls: Calls::new(failing),
        })
    }

    /// What the sink took.
    pub fn bytes(&self) -> &[u8]
        ensures { result.now ≡ self.now.taken }
    {
        self.bytes.as_slice()
    }
}

impl Sink for MemSink {
    ghost taken = { λ s. Some s.taken };

    ghost faults = { λ s. s.calls.faults };

    fn write(&mut self, piece: &[u8]) -> Result<usize, Failed>
        ensures bound { WritesAtMost result piece.now }
        ensures some { MovesSome result piece.now }
        ensures bytes { WriteAppends (Some self.old.taken) (Some self.new.taken) result piece.now }
        ensures cause { HasCause self.old.calls.faults self.new.calls.faults result }

        ensures fails { IsErr result ↔ (IsToFail self.old.calls ⊎ (IsFull self.old × (0 < length piece.now))) }
        ensures count { IfOk result (λ n. n ≡ min (min self.old.piece (length piece.now)) (self.old.room - length self.old.taken)) }
        ensures ok { IfOk result (λ n. self.new ≡ record self.old { taken = self.old.taken ++ take n piece.now; calls = one_more self.old.calls }) }
        ensures err { OnErr result (self.new ≡ record self.old { calls = one_failed self.old.calls }) }
    {
        self.calls.begin()?;
        let count = self
            .piece
            .min(piece.len())
            .min(self.room - self.bytes.len());
        if count == 0 && !piece.is_empty() {
            return Err(self.calls.fault());
        }
        let _fits = self.bytes.extend_from_slice(&piece[..count]);
        Ok(count)
    }
}
