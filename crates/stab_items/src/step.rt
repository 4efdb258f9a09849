use stab_gates::{Gate, Letter, PairGate};
use stab_instructions::Factor;

/// A step of an unrolled circuit. Qubits are numbered from 0.
#[derive(Clone, Copy, Debug, PartialEq, Eq)]
pub enum Step<'a> {
    /// A gate on a qubit.
    One(Gate, usize),
    /// A gate on two different qubits; of a controlled gate the first is the control.
    Two(PairGate, usize, usize),
    /// A letter on a qubit, applied if the record `rec[-k]` is 1: the letter, k, the qubit.
    Controlled(Letter, u32, usize),
    /// A measurement of a letter on a qubit.
    Collapse {
        letter: Letter,
        qubit: usize,
        /// Whether the outcome goes into the records.
        recorded: bool,
        /// Whether its record is the other bit.
        inverted: bool,
        /// Whether the qubit is flipped if the outcome is 1.
        reset: bool,
    },
    /// A measurement of a product of letters on different qubits, whose outcome goes into the
    /// records.
    Product {
        factors: &'a [Factor],
        /// Whether its record is the other bit: whether an odd number of factors have `!`.
        inverted: bool,
    },
    /// A detector: the numbers k of its `rec[-k]`.
    Detector(&'a [u32]),
    /// An addition to an observable: its number, and the numbers k of its `rec[-k]`.
    Observable(u32, &'a [u32]),
}
