//! The jobs that words ask for.
use stab_cli::{Job, parse_words};
use std::alloc::Global;
use std::test::Fail;

/// The job that these words ask for.
pub(crate) fn job_of(alloc: Global, words: &[&str]) -> Result<Job, Fail> {
    match parse_words(alloc, words) {
        Ok(job) => Ok(job),
        Err(usage) => Err(Fail::new(format_args!("{words:?} gives {usage:?}"))),
    }
}
