//! Why the program may fail.

use hr_bind::PrepareError;
use hr_shepherd::Refusal;
use std::alloc::AllocError;
use std::io;
use thiserror::Error;

#[derive(Debug, Drop, Error)]
pub enum Fault {
    #[error("{0}")]
    Output(#[from] io::Error),
    #[error("{0}")]
    Refused(#[from] Refusal),
    #[error("{0}")]
    Text(#[from] PrepareError),
    #[error("out of memory")]
    Memory(#[from] AllocError),
}
