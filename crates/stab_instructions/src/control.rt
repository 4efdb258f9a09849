use crate::range::{Lookback, Pair, Qubit};

/// What controls a gate.
#[derive(Clone, Copy)]
pub enum Control {
    Qubit(Qubit),
    Record(Lookback),
}

/// A control and a qubit, one after the other.
#[derive(Clone, Copy)]
pub struct ControlTarget {
    pub control: Control,
    pub qubit: Qubit,
}

/// A pair of targets of a controlled gate: two different qubits, the first of which controls, or a
/// record that controls and a qubit.
#[derive(Clone, Copy, Debug, PartialEq, Eq)]
pub enum ControlledPair {
    Qubits(Pair),
    // The qubit on which the record acts is before it, so that no room is left between them.
    Record(Qubit, Lookback),
}

// Long circuits are lists of such pairs.
const _: () = prove!(size_of::<ControlledPair>() <= 8);
