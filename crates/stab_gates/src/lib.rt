//! Letters of Pauli strings, powers of i, and the names of gates.
//!
//! - `phase`: powers of i, and the signs among them.
//! - `letter`: the four letters, their products, and which of them anticommute.
//! - `gate`: the gates on one and on two qubits.
//!
//! Sources: D. Gottesman, Stabilizer codes and quantum error correction (1997); S. Aaronson and
//! D. Gottesman, Improved simulation of stabilizer circuits (2004), section II.
//!
//! Proved: each call gives what the tables of products and powers in `specs/` say. What a gate does is in
//! `stab_tableau`, beside the states that it acts on.
#![tactic(auto)]

mod gate;
mod letter;
mod phase;

pub use gate::{Gate, PairGate};
pub use letter::Letter;
pub use phase::Phase;
