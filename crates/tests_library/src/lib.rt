//! Tests of the public calls of each layer that no command makes, with ample memory, as tables of worked
//! examples.
//!
//! They are here, and not in the layers, because a crate with tests is proved twice: once for
//! those who use it, and once more with its tests.
//!
//! - `letters`, `paulis`, `texts`, `rows`: Pauli letters and strings, their texts, and rows of them.
//! - `states`: stabiliser states. `devices`: inputs and outputs that fail.
//! - `made_items`: an item that is made and not read.
//! - `circuits`, `circuit_edits`, `cursors`, `gaps`, `step_items`: circuits, their edits and their steps.
//! - `coins`, `samplers`: coins, and runs by them. `results`: entries of results.
//! - `rounds`: where rounds are that come again, in blocks and written out, and that their pivots count once. `stored_rounds`: which of
//!   them an edit leaves.
//! - `sessions`, `session_edits`: sessions that are refused, and what edits cost.
//! - `distances`: the search for a least logical error. `distance_parts`: all of its parts. `counts`: how many there are.
//! - `answers`: what is found beside what is wanted.
//! - `clauses`: callers that are proved for what they ensure, and never run.
//!
//! It is proved safe. What it finds is tested, not proved.
#![tactic(auto)]

#[cfg(test)]
mod answers;
#[cfg(test)]
mod circuit_edits;
#[cfg(test)]
mod circuits;
#[cfg(test)]
mod clauses;
#[cfg(test)]
mod coins;
#[cfg(test)]
mod counts;
#[cfg(test)]
mod cursors;
#[cfg(test)]
mod devices;
#[cfg(test)]
mod distance_parts;
#[cfg(test)]
mod distances;
#[cfg(test)]
mod gaps;
#[cfg(test)]
mod letters;
pub mod made_items;
#[cfg(test)]
mod paulis;
#[cfg(test)]
mod results;
#[cfg(test)]
mod rounds;
#[cfg(test)]
mod rows;
#[cfg(test)]
mod samplers;
#[cfg(test)]
mod session_edits;
#[cfg(test)]
mod sessions;
#[cfg(test)]
mod states;
#[cfg(test)]
mod step_items;
#[cfg(test)]
mod stored_rounds;
#[cfg(test)]
mod texts;
