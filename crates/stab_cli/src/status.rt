//! Running a job, with the status of the program.
ghost use Rattle.std.specs.Prelude.{◌≡◌, ◌≤◌, IfSome, None, false, string_bytes};
ghost use Rattle.stab_gates.specs.Limits.{most_qubits};
ghost use Rattle.stab_report.specs.SingleErrorTables.{fault_of, random_of};
ghost use Rattle.stab_script.specs.ScriptEndings.{EndsEdit};
ghost use Rattle.stab_script.specs.ScriptTurns.{EditsInTurn};
ghost use Rattle.stab_cli.specs.Jobs.{CommandInTurn, CommandReports, CommandWarns, EndsCommand, EndsJob, JobInTurn, JobReports, refusing_none};
ghost use Rattle.stab_jobs.specs.Commands.{reads_script};

use stab_commands::{
    run_check, run_coins, run_detect_shots, run_deterministic, run_explain, run_faults,
    run_question, run_sample_shots, run_stabilisers,
};
use stab_io::{Fault, Input, Output};
use stab_jobs::{Command, Job, QubitCount, Source, Stride};
use stab_report::{FaultsRefused, write_refused};
use stab_script::{NoWatcher, Watcher, run_edit_watched, run_propagate, run_propagate_each};
use stab_search::{Progress, Unwatched};
use std::alloc::Global;

/// How many qubits, if a number is asked for.
fn number_of(qubits: Option<QubitCount>) -> Option<usize>
    ensures value { result ≡ qubits }
    ensures in_range { IfSome result (λ n. n ≤ most_qubits) }
{
    match qubits {
        Some(qubits) => Some(qubits.number()),
        None => None,
    }
}

/// A call of any command except `faults` and `distance` names no detector or observable.
fn names_none<T>(answer: Result<T, Fault>) -> Result<T, FaultsRefused>
    ensures value { fault_of result ≡ answer }
    ensures none { random_of result ≡ None }
{
    match answer {
        Ok(value) => Ok(value),
        Err(fault) => Err(FaultsRefused::from(fault)),
    }
}

/// A call that reads no script refuses no line of it.
fn refuses_none(answer: Result<(), FaultsRefused>) -> Result<bool, FaultsRefused>
    ensures value { fault_of result ≡ refusing_none (fault_of answer) }
    ensures same { random_of result ≡ random_of answer }
{
    match answer {
        Ok(()) => Ok(false),
        Err(refused) => Err(refused),
    }
}

/// A call that reads no script and names no detector or observable.
fn plain_answer(answer: Result<(), Fault>) -> Result<bool, FaultsRefused>
    ensures value { fault_of result ≡ refusing_none answer }
    ensures none { random_of result ≡ None }
{
    refuses_none(names_none(answer))
}

/// Edits a circuit by a script, on this many qubits or on as many as it names, and says whether a line was refused.
fn run_script<I: Input, S: Input, O: Output, W: Watcher<S, O>>(
    alloc: Global,
    input: &mut I,
    script: &mut S,
    out: &mut O,
    framed: bool,
    qubits: Option<QubitCount>,
    stride: Stride,
    source: &Source,
) -> Result<bool, FaultsRefused>
    ensures ends { EndsEdit framed qubits source.now (I.seen input.old) (I.seen input.new) (S.seen script.old) (S.seen script.new) (O.seen out.old) (O.seen out.new) (fault_of result) }
    ensures none { random_of result ≡ None }
    ensures turns { EditsInTurn framed qubits source.now (I.seen input.old) (I.seen input.new) (S.seen script.old) (S.seen script.new) (O.seen out.old) (O.seen out.new) (W.log script.old) (W.log script.new) (fault_of result) }
{
    let qubits = number_of(qubits);
    let stride = stride.steps();
    names_none(run_edit_watched::<I, S, O, W>(
        alloc, input, script, out, framed, qubits, stride, source,
    ))
}

/// Runs the command of a job, and says whether a line of the script was refused.
fn run_command<I: Input, S: Input, O: Output, E: Output, W: Watcher<S, O>, P: Progress>(
    alloc: Global,
    job: &Job,
    input: &mut I,
    script: &mut S,
    out: &mut O,
    err: &mut E,
    progress: &mut P,
) -> Result<bool, FaultsRefused>
    ensures ends { EndsCommand job.now.command job.now.source (string_bytes job.now.at) (string_bytes job.now.string) (I.seen input.old) (I.seen input.new) (S.seen script.old) (S.seen script.new) (O.seen out.old) (O.seen out.new) (fault_of result) (random_of result) }
    ensures script { reads_script job.now.command ≡ false → script.new ≡ script.old }
    ensures turns { CommandInTurn job.now.command job.now.source (I.seen input.old) (I.seen input.new) (S.seen script.old) (S.seen script.new) (O.seen out.old) (O.seen out.new) (W.log script.old) (W.log script.new) (fault_of result) }
    ensures reported { CommandReports job.now.command (I.seen input.old) (I.seen input.new) (P.heard progress.old) (P.heard progress.new) (fault_of result) }
    ensures warns { CommandWarns job.now.command (I.seen input.old) (I.seen input.new) (E.seen err.old) (E.seen err.new) (fault_of result) }
{
    let source = &job.source;
    let (at, string) = (job.at.as_bytes(), job.string.as_bytes());
    match job.command {
        Command::Sample { format, shots } => {
            plain_answer(run_sample_shots(alloc, input, out, format, shots, source))
        }
        Command::Detect {
            format,
            shots,
            append,
        } => plain_answer(run_detect_shots(alloc, input, out, format, append, shots, source)),
        Command::Stabilisers => plain_answer(run_stabilisers(alloc, input, out, source)),
        Command::Check => plain_answer(run_check(alloc, input, out, err)),
        Command::Deterministic { format } => {
            plain_answer(run_deterministic(alloc, input, out, format))
        }
        Command::Explain => plain_answer(run_explain(alloc, input, out)),
        Command::Coins { layout } => plain_answer(run_coins(alloc, input, out, layout)),
        Command::Faults {
            layout,
            everywhere,
            deterministic_only: only,
        } => refuses_none(run_faults(alloc, input, out, err, layout, everywhere, only)),
        Command::Distance { question, options } => {
            refuses_none(run_question(alloc, input, out, err, question, options, progress))
        }
        Command::Propagate { every } => {
            plain_answer(run_propagate(alloc, input, out, every, at, string))
        }
        Command::PropagateEach { everywhere } => {
            plain_answer(run_propagate_each(alloc, input, out, everywhere))
        }
        Command::Edit {
            framed,
            qubits,
            stride,
        } => run_script::<I, S, O, W>(alloc, input, script, out, framed, qubits, stride, source),
    }
}

/// Runs a job as `run_job` does, with each read of a script made by a watcher, which is shown the
/// output as it then is. `progress` hears how far the search for a distance is, and nothing that is not so.
///
/// If the script's input keeps a log, the replies are those of one answer, of which each read found
/// exactly the first written, to what was handed over before, in whole lines, after what the output
/// held at first.
pub fn run_job_watched<I: Input, S: Input, O: Output, E: Output, W: Watcher<S, O>, P: Progress>(
    alloc: Global,
    job: &Job,
    input: &mut I,
    script: &mut S,
    out: &mut O,
    err: &mut E,
    progress: &mut P,
) -> u8
    ensures ends { EndsJob job.now (I.seen input.old) (I.seen input.new) (S.seen script.old) (S.seen script.new) (O.seen out.old) (O.seen out.new) (E.seen err.old) (E.seen err.new) result }
    ensures script { reads_script job.now.command ≡ false → script.new ≡ script.old }
    ensures turns { JobInTurn job.now (I.seen input.old) (I.seen input.new) (S.seen script.old) (S.seen script.new) (O.seen out.old) (O.seen out.new) (W.log script.old) (W.log script.new) result }
    ensures reported { JobReports job.now (I.seen input.old) (I.seen input.new) (P.heard progress.old) (P.heard progress.new) result }
{
    match run_command::<I, S, O, E, W, P>(alloc, job, input, script, out, err, progress) {
        Ok(false) => 0,
        Ok(true) => 3,
        Err(refused) => {
            let _ = write_refused(err, &refused);
            1
        }
    }
}

/// Runs a job over these devices, reports its fault on `err`, or marks that may be meant in another way, and answers the status of the
/// program: 0 without a fault, 1 with one, and 3 if the script was read to its end and a line of it was
/// refused, whether or not `err` fails. A fault that names a detector or observable has one more line.
///
/// The paths of the job are the caller's to open. Only `edit` reads the script.
pub fn run_job<I: Input, S: Input, O: Output, E: Output>(
    alloc: Global,
    job: &Job,
    input: &mut I,
    script: &mut S,
    out: &mut O,
    err: &mut E,
) -> u8
    ensures ends { EndsJob job.now (I.seen input.old) (I.seen input.new) (S.seen script.old) (S.seen script.new) (O.seen out.old) (O.seen out.new) (E.seen err.old) (E.seen err.new) result }
    ensures script { reads_script job.now.command ≡ false → script.new ≡ script.old }
{
    let mut progress = Unwatched;
    run_job_watched::<I, S, O, E, NoWatcher, Unwatched>(
        alloc,
        job,
        input,
        script,
        out,
        err,
        &mut progress,
    )
}
