//! Packed Pauli strings: 256 letters to a block of 8 words, 4 words with their X bits and then 4 with their Z bits.
//!
//! - `ones`: how many bits are set, and whether their number is odd.
//! - `row`: the words of one string: their product with others, their power of i, their letters.
//! - `flat`: rows that lie side by side in one slice.
//! - `part`: eight of these: which of them have X or Y on a qubit, and on which qubits of the same word any has.
//! - `support`: in which blocks a string has letters other than I, and products in these alone.
//! - `sparse`: words of which most are 0, stored without these.

pub(crate) mod flat;
pub(crate) mod ones;
pub(crate) mod part;
pub(crate) mod row;
pub(crate) mod sparse;
pub(crate) mod support;
