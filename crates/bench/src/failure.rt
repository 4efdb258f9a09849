use stab_circuit::Refused;
use stab_pauli::{Fault, Refusal};
use std::alloc::AllocError;
use std::{fmt, io};
use thiserror::Error;

/// Why nothing was measured.
#[derive(Drop, Error)]
pub enum Failure {
    #[error("the words are measure, run or faults and the paths of circuits, or edit, a qubit and paths")]
    Words,
    #[error("the system gave no time")]
    Clock,
    #[error("the system took no text")]
    System(#[from] io::Error),
    #[error("a file was not read")]
    File,
    #[error(transparent)]
    Refused(#[from] Refusal),
    #[error("memory was refused")]
    Memory(#[from(alloc)] AllocError),
    #[error("the circuit was refused, at line {}: {}", .0.line, .0.refusal)]
    Circuit(#[from] Fault),
}

// What `main` ends with is printed in this way: as a sentence.
impl fmt::Debug for Failure {
    fn fmt<W: fmt::Write>(&self, f: &mut fmt::Formatter<W>) -> fmt::Result {
        fmt::Display::fmt(self, f)
    }
}

impl From<Refused> for Failure {
    fn from(refused: Refused) -> Failure {
        let Refused { fault, item } = refused;
        drop(item);
        Failure::Circuit(fault)
    }
}
