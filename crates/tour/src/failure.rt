use stabsim_library::{Fault, Refusal};
use std::alloc::AllocError;
use std::io;
use thiserror::Error;

/// Why the tour ended early.
#[derive(Debug, Drop, Error)]
pub enum Failure {
    #[error("refused: {}", .0.refusal)]
    Refused(#[from] Fault),
    #[error(transparent)]
    Refusal(#[from] Refusal),
    #[error("memory was refused")]
    Memory(#[from(alloc)] AllocError),
    #[error("the output took no text")]
    Output(#[from] io::Error),
}
