//! The words of a command line.
//!
//! - `help`: what the help says.
//! - `app`: the commands and their options, as the command line reader is given them.
//! - `options`: what the words say to each option.
//! - `questions`: what they ask about errors.
ghost use Rattle.std.specs.Prelude.{◌≡◌, map};
ghost use Rattle.clap.specs.Words.{kind_of};
ghost use Rattle.stab_args.specs.Asked.{EndsReading, IsReported};
ghost use Rattle.stab_args.specs.declared.words.Usage.TheVariants.{Memory};

mod app;
mod help;
mod options;
mod questions;

use app::{FORMATS, LETTERS, app};
use clap::Error;
use clap::error::ErrorKind;
use options::job;
use stab_jobs::Job;
use std::alloc::{AllocError, Global};

/// Why words are no job.
#[derive(Debug, Drop)]
pub enum Usage {
    /// Help or the version was asked for, and this is its text.
    Help(String),
    /// Bad arguments, as this text says.
    Fault(String),
    /// Memory was refused.
    Memory,
}

impl From<AllocError> for Usage {
    ghost use Rattle.std.specs.Prelude.{◌≡◌};
    ghost use Rattle.stab_args.specs.declared.words.Usage.TheVariants.{Memory};

    ghost from_gives = { λ _ u. u ≡ Memory };

    fn from(_error: AllocError) -> Usage {
        Usage::Memory
    }
}

fn usage_of(alloc: Global, error: &Error) -> Usage
    ensures memory { kind_of error.now ≡ ErrorKind.OutOfMemory → result ≡ Memory }
    ensures reported { IsReported (kind_of error.now) result }
{
    if error.kind() == ErrorKind::OutOfMemory {
        return Usage::Memory;
    }
    match error.to_string(alloc) {
        Ok(text) if error.use_stderr() => Usage::Fault(text),
        Ok(text) => Usage::Help(text),
        Err(_) => Usage::Memory,
    }
}

/// Reads the words of a command line, the program's name first.
///
/// No job comes from words that ask for help or the version (`Usage::Help`), of words that the command
/// line reader doesn't take, whose shots go beyond the last of a seed or have a first beside coins, which
/// ask for a table of errors or a problem and something about a search, or for each observable and what is not
/// asked of each, or whose coins are not characters 0 and 1 (`Usage::Fault`), or if memory was refused
/// (`Usage::Memory`). Of these, a first shot beside coins is looked for first, and the coins last.
pub fn parse_words(alloc: Global, words: &[&str]) -> Result<Job, Usage>
    ensures ends { EndsReading (map (λ w. w.now) words.now) result }
{
    let app = app(alloc, FORMATS.as_slice(), LETTERS.as_slice())?;
    match app.try_get_matches_from(words) {
        Ok(matches) => {
            let (name, options) = matches.subcommand().unwrap();
            job(alloc, name, options)
        }
        Err(error) => Err(usage_of(alloc, &error)),
    }
}
