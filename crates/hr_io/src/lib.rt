//! The outside of HRDB: where bytes come from, where they go, and who is told of a backend's calls.
//!
//! A [`Source`] or a [`Sink`] may fail at any call. It counts its failures: an error comes only where that count rose, and a
//! call that answers Ok leaves it as it was. So what a program says of a fault is proved and not made up, and none is kept back.
//! What a source has left and what a sink has taken is known where the type tells it.
#![tactic(auto)]

mod calls;
pub mod error;
pub mod gate;
pub mod sink;
pub mod source;
pub mod std_streams;
pub mod whole;

pub use error::{Failed, ReadError};
pub use gate::{Gate, OpenGate};
pub use sink::{MemSink, Sink};
pub use source::{MemSource, Source};
pub use std_streams::{StdSink, StdSource};
pub use whole::{read_whole, write_whole};
