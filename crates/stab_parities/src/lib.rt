//! Parities: numbers in ascending order, and which of them several lists have together.
//!
//! - `merging`: the numbers that one of two lists has, and not both.
//!
//! What a Pauli or an error flips is such a list, and what several flip together is their sum by exclusive or.
//!
//! Source: this project's own.
//!
//! Proved: a merged list ascends, and has a number if one of the two has it and not both (`specs/OddNumbers.antt`).
#![tactic(auto)]

mod merging;

pub use merging::merge_into;
