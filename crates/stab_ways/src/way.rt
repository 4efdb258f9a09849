use stab_frames::Propagation;
use stab_gates::Letter;

/// A letter X, Y or Z on a qubit.
#[derive(Clone, Copy, Debug, PartialEq, Eq)]
pub struct PlacedLetter {
    pub letter: Letter,
    pub qubit: usize,
}

/// Where a string is listed: after an instruction.
#[derive(Drop)]
pub struct Turn {
    /// After how many steps.
    pub after: usize,
    /// The letters of the string there, by qubit. There is none if it is gone.
    pub string: Vec<PlacedLetter>,
}

/// The way of a string that was put in.
#[derive(Drop)]
pub struct Way {
    /// Where it became another one, or what it is at every tick, in order.
    pub turns: Vec<Turn>,
    /// The string at the end of the circuit, and which outcomes, records, detectors and additions to observables
    /// it has flipped, of all those of the circuit.
    pub end: Propagation,
}
