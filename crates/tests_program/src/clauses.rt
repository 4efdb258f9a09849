//! Callers that ensure what a public call does, if no other caller asks for it.
//!
//! They are proved, and never run: if a clause came to say less than it does, the proof of its
//! caller here would fail.

ghost use Rattle.std.specs.Prelude.{◌≡◌, true};
ghost use Rattle.stab_cli.specs.Jobs.{EndsJob, JobInTurn};
ghost use Rattle.stab_jobs.specs.Commands.{reads_script};
ghost use Rattle.stab_commands.specs.Outputs.{EndsRun, detect_of, sample_of};

use stab_cli::{Job, Progress, Source, Watcher, run_detect, run_job, run_job_watched, run_sample};
use stab_pauli::{Fault, Input, Output};
use stab_results::Format;
use std::alloc::Global;

/// A job is said to read a script if its command does.
fn reported_to_read_a_script(job: &Job) -> bool
    ensures value { result ≡ reads_script job.now.command }
{
    job.reads_script()
}

/// A job ends as its command does, with the status of that, and its fault is reported, with the bit that it names.
fn run_to_its_end<I: Input, S: Input, O: Output, E: Output>(
    alloc: Global,
    job: &Job,
    input: &mut I,
    script: &mut S,
    out: &mut O,
    err: &mut E,
) -> u8
    ensures ends { EndsJob job.now (I.seen input.old) (I.seen input.new) (S.seen script.old) (S.seen script.new) (O.seen out.old) (O.seen out.new) (E.seen err.old) (E.seen err.new) result }
{
    run_job::<I, S, O, E>(alloc, job, input, script, out, err)
}

/// Without a first shot a call begins with shot 0.
fn sample_seven<I: Input, O: Output>(
    alloc: Global,
    input: &mut I,
    out: &mut O,
    format: Format,
    source: &Source,
) -> Result<(), Fault>
    ensures ends { EndsRun (sample_of format 0 7 source.now) (I.seen input.old) (I.seen input.new) (O.seen out.old) (O.seen out.new) result }
{
    run_sample(alloc, input, out, format, 7, source)
}

/// The same for `detect`.
fn detect_seven<I: Input, O: Output>(
    alloc: Global,
    input: &mut I,
    out: &mut O,
    format: Format,
    source: &Source,
) -> Result<(), Fault>
    ensures ends { EndsRun (detect_of format true 0 7 source.now) (I.seen input.old) (I.seen input.new) (O.seen out.old) (O.seen out.new) result }
{
    run_detect(alloc, input, out, format, true, 7, source)
}

/// A script is read in turn with its replies.
fn run_in_turn<I: Input, S: Input, O: Output, E: Output, W: Watcher<S, O>, P: Progress>(
    alloc: Global,
    job: &Job,
    input: &mut I,
    script: &mut S,
    out: &mut O,
    err: &mut E,
    progress: &mut P,
) -> u8
    ensures turns { JobInTurn job.now (I.seen input.old) (I.seen input.new) (S.seen script.old) (S.seen script.new) (O.seen out.old) (O.seen out.new) (W.log script.old) (W.log script.new) result }
{
    run_job_watched::<I, S, O, E, W, P>(alloc, job, input, script, out, err, progress)
}
