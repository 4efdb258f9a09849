//! Tests of ways of Pauli strings, as tables of circuits whose ways were worked by hand.
//!
//! It is proved safe. What it finds is tested, not proved.
#![tactic(auto)]

#[cfg(test)]
mod errors;
#[cfg(test)]
mod rounds;
#[cfg(test)]
mod ticks;
#[cfg(test)]
mod ways;
