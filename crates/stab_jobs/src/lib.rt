//! Jobs: what a user can ask for, without how it is done.
//!
//! - `numbers`: how many shots, qubits and steps between checkpoints.
//! - `job`: where coins come from, the commands with their options, and the job that the words of a command line ask for.
//!
//! What a command does is proved where it is run, in `stab_commands`, `stab_commands` and `stab_script`, and which words ask for a
//! job in `stab_args`.
//!
//! Source: this project's own.
//!
//! Proved: the numbers of shots, qubits and steps that a job has stay within their limits
//! (`specs/Limits.antt`), so that no command asks for them anew; and which job reads a script.
#![tactic(auto)]

mod job;
mod numbers;

pub use job::{
    Command, DistanceOptions, ErrorLetters, FaultLayout, Job, Question, SearchedLayout, Source,
};
pub use numbers::{QubitCount, Shots, Stride};
