//! Stabiliser states: gates, measurements, and what both make of a state.
//!
//! - `tableau`: a state, its gates, the sign of any Pauli, measurements, stabilisers and destabilisers, and states
//!   that are stored in little memory.
//! - `collapse`: what a measurement answers, and what it does to the rows of a state.
//! - `observable`: what is measured, a string or a letter on a qubit.
//! - `table`: the two rows that a state keeps for each qubit, all in one allocation.
//! - `supports`: at which positions the rows of 32 qubits may have X or Y, so that a measurement looks at no rows in vain.
//! - `images`: what each gate on a qubit makes of X, Y and Z.
//! - `inverse_rows`: how gates change the rows of a qubit.
//! - `rows`: the rows of all qubits: preimages of strings, columns, and how measurements change them, 32 qubits at a time.
//! - `group`: whether two states have one group, and reading stabilisers.
//! - `elimination`: rows that generate a group are made its reduced rows.
//! - `gate_laws`: a gate is undone by its way back, and keeps products and commuting.
//! - `laws`: the members of a sound trace are a group, outcomes keep it sound, and what is random; a group has one
//!   list of reduced rows and no other, which identifies it.
//!
//! The names of gates are those of `stab_gates`, passed on.
//!
//! `specs/` says by the stabiliser rules which signed Pauli strings stabilise a state; `specs/inner/` has what only private
//! contracts cite.
//!
//! Sources: D. Gottesman, Stabilizer codes and quantum error correction (1997) and The Heisenberg representation of
//! quantum computers (1998); S. Aaronson and D. Gottesman, Improved simulation of stabilizer circuits (2004), section III.
//! It differs in that the tableau is stored by qubit, as preimages of X and Z, so that stabilisers and destabilisers are its
//! columns, and that any Pauli string is measured, with a coin that is given.
//!
//! Proved: after each call a tableau is stabilised by the strings that the rules say, and no others; the sign and the
//! outcome of any Pauli are exact; these strings are a group; and what commutes with all stabilisers is, up to sign, the
//! product of those whose destabilisers anticommute with it.
#![tactic(auto)]

mod collapse;
mod elimination;
pub mod gate_laws;
mod group;
mod images;
mod inverse_rows;
pub mod laws;
mod observable;
mod rows;
mod supports;
mod table;
mod tableau;

pub use collapse::Collapse;
pub use images::{GateImages, SignedLetter};
pub use stab_gates::{Gate, PairGate};
pub use tableau::{CompactTableau, Tableau};
