//! The words of stabsim's command line.
//!
//! - `coins`: coins that are written in a word or in a file.
//! - `part_word`: the word of a part of a search.
//! - `words`: what the words of a command line ask for.
//!
//! Sources: Stim's command line, for the options of `sample` and `detect`; `docs/use/stim.md` says where it differs. The
//! rest is this project's own.
//!
//! Proved: `parse_words` gives the job that the words ask for, and `file_coins` the coins of a file's text. Jobs are those
//! of `stab_jobs`.
#![tactic(auto)]

mod coins;
mod part_word;
mod words;

pub use coins::{NO_COINS, file_coins};
pub use words::{Usage, parse_words};
