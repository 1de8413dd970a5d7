//! Who is told of the calls that go into a backend.

use std::sync::Wait;

/// Is called as a caller enters and leaves a backend's call. It may wait, and it tells nothing.
///
/// `call` is the call's number at that backend, and `txn` the transaction that it is for, or 0 where
/// it is for none.
pub trait Gate {
    fn entering<R: Wait>(&self, rt: &R, replica: u32, call: u64, txn: u64);

    fn leaving<R: Wait>(&self, rt: &R, replica: u32, call: u64, txn: u64);
}

/// The gate that waits for nothing.
#[derive(Clone, Copy, Debug, PartialEq, Eq)]
pub struct OpenGate;

impl Gate for OpenGate {
    fn entering<R: Wait>(&self, _rt: &R, _replica: u32, _call: u64, _txn: u64) {}

    fn leaving<R: Wait>(&self, _rt: &R, _replica: u32, _call: u64, _txn: u64) {}
}
