//! Tests of the command line that no run of the program shows: the fields of a job, an output that can't be
//! flushed, reads in turn with what is written, and shots of blocks beside those of the same lines written out.
//! Worked examples of runs are rows in `crates/rows`.
//!
//! - `words`: what words ask for; `jobs`: the job of some words.
//! - `turns`: reads of a script in turn with its replies.
//! - `blocks`: shots of blocks whose rounds come again.
//! - `clauses`: callers that are proved for what they ensure, and never run.
//!
//! It is proved safe. What it finds is tested, not proved.
#![tactic(auto)]

#[cfg(test)]
mod blocks;
#[cfg(test)]
mod clauses;
#[cfg(test)]
mod jobs;
#[cfg(test)]
mod turns;
#[cfg(test)]
mod words;
