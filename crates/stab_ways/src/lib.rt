//! Ways of Pauli strings: what a string that is put in between two steps of a circuit becomes, and what it flips.
//!
//! - `laws`: what runs show of it; each function does nothing, and its contract is a law.
//! - `way`: where a string is listed, and the frame at the end.
//! - `strings`: letters of strings with their qubits, and whether strings differ.
//! - `resets`: what resets leave of a string.
//! - `walk`: a string on its way over instructions. `folds`: rounds of a block that are repeated. `rounds`: over items, and rounds of blocks.
//! - `string_ways`: the call.
//!
//! `specs/PutIn` says what a string becomes and flips, `specs/Ways` where it becomes another one and what it is at ticks, `specs/Laws` what that
//! means for runs. A reset leaves no letter on its qubit. A measurement that anticommutes with the string is flipped, whether its outcome is random
//! or not. So the answer depends on the text alone, and no run is made.
//!
//! Source: Pauli frames, as in C. Gidney, Stim: a fast stabilizer circuit simulator (2021). That the coins of random outcomes that
//! it flips are exchanged, in place of a stabiliser that is multiplied on, is this project's own.
//!
//! Proved: the run with the string put in, and exactly the coins of the random outcomes that it flips exchanged, is the run
//! without it, flipped as reported; and its state after each step is that of the other with the string reported there applied.
#![tactic(auto)]

mod folds;
pub mod laws;
mod resets;
mod rounds;
mod string_ways;
mod strings;
mod walk;
mod way;

pub use string_ways::way_of;
pub use strings::placed;
pub use way::{PlacedLetter, Turn, Way};
