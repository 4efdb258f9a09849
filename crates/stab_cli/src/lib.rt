//! The command line of stabsim: its words, and the jobs that they ask for.
//!
//! The words are those of `stab_args`, the jobs those of `stab_jobs`, and the commands those of `stab_commands` and
//! `stab_script`, passed on as far as the program and its callers take them; each crate says what is proved about them.
//! Here is what answers the status of the program:
//!
//! - `coins`: the coins of a file.
//! - `status`: running a job.
//! - `usage`: reporting words that ask for no job.
//!
//! Source: this project's own.
//!
//! Proved: `run_job` carries what is proved of each command for a job, with its status and the lines that report its
//! fault (`specs/Jobs.antt`). `write_usage` writes the text of words that ask for no job, with its status
//! (`specs/Usages.antt`). `read_coins` gives the coins of a file (`specs/Coins.antt`).
#![tactic(auto)]

mod coins;
mod status;
mod usage;

pub use coins::{CoinsFault, read_coins};
pub use stab_args::{NO_COINS, Usage, parse_words};
pub use stab_commands::{run_detect, run_sample, run_stabilisers};
pub use stab_jobs::{
    Command, DistanceOptions, ErrorLetters, FaultLayout, Job, QubitCount, Question, Shots, Source,
    Stride,
};
pub use stab_report::write_fault;
pub use stab_script::{KeepsLog, LoggedInput, LoggedRead, NoWatcher, Watcher, run_edit};
pub use stab_search::{Progress, SearchPart, Unwatched};
pub use status::{run_job, run_job_watched};
pub use usage::write_usage;
