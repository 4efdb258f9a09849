//! The program `stabsim`: reads its words, opens the files that they name, runs the job that they
//! ask for, and ends with its status.
//!
//! - `files`: the files and streams that a run reads and writes.
//! - `progress`: how far a search for a distance is.
//!
//! All that a job does is in `stab_cli`, and what words ask for in `stab_args`; here the words,
//! files, standard streams and the status meet.
//!
//! It is proved safe. What it writes to its streams is what `stab_cli` proves of its calls; that it opens the
//! files that are named is tested.
#![tactic(auto)]

mod files;
mod progress;

use files::{FirstLine, NotedWriter, Reader, Replaced, STANDARD_INPUT, Sink, Writer, are_one_file};
use progress::SearchProgress;
use stab_cli::{
    CoinsFault, Command, ErrorLetters, FaultLayout, Job, NO_COINS, NoWatcher, Question, Source,
    Usage, parse_words, read_coins, run_job_watched, write_fault, write_usage,
};
use stab_io::write_all;
use stab_pauli::{Device, Fault, Output, Refusal};
use stab_results::Format;
use std::alloc::{AllocError, Global};
use std::io::{BufWriter, IsTerminal};
use std::process::ExitCode;
use std::rt::Env;
use std::{env, fs, io};

const NOT_TEXT: &str = "stabsim: a word is not UTF-8\n";

const ONE_FILE: &str = "stabsim: --in and --out are one file\n";

const ONE_COIN_FILE: &str = "stabsim: --coins_in and --out are one file\n";

const ONE_INPUT: &str = "stabsim: standard input and --out are one file\n";

const NO_MARKS: &str = "stabsim: no place is marked by I; --everywhere asks for all places\n";

const NO_LETTERS: &str =
    "stabsim: no place is marked by I with X or Z; --everywhere asks for all places\n";

// What a terminal is shown after the line of a circuit that was refused.
const HINT: &str = "stabsim: what is wrong and where: give the same circuit to `stabsim check`\n";

fn main(rt: HostRuntime) -> ExitCode {
    // A standard stream that is closed would leave its number to the next file that is opened. A
    // directory takes it, which can be neither read nor written: that stream then fails, and no other.
    let _held = (fs::open(&rt, "/"), fs::open(&rt, "/"), fs::open(&rt, "/"));
    let status = match job(&rt) {
        Ok(job) => run_hinted(&rt, job),
        Err(usage) => {
            let mut err = Device::new(rt.stderr());
            write_usage(&usage, &mut Device::new(rt.stdout()), &mut err)
        }
    };
    ExitCode::from(status)
}

/// The job that the words of the command line ask for.
fn job<R: Env + AllocGlobal>(rt: &R) -> Result<Job, Usage> {
    let owned = words(rt)?;
    let words: Vec<&str> = owned.iter().map(|word| word.as_str()).collect(rt.alloc())?;
    parse_words(rt.alloc(), words.as_slice())
}

/// The words of the command line, the program's name first.
fn words<R: Env + AllocGlobal>(rt: &R) -> Result<Vec<String>, Usage> {
    match env::args(rt) {
        Ok(args) => Ok(args.collect(rt.alloc())?),
        Err(error) if error.kind() == io::ErrorKind::OutOfMemory => Err(Usage::Memory),
        Err(_) => Err(Usage::Fault(String::from_str(rt.alloc(), NOT_TEXT)?)),
    }
}

/// Runs a job. If it refuses a circuit on a terminal, one more line says which command explains it.
fn run_hinted(rt: &HostRuntime, job: Job) -> u8 {
    let is_check = matches!(job.command, Command::Check);
    let mut line = FirstLine::new(rt.stderr());
    let status = run_alone(rt, job, &mut Device::new(&mut line));
    if status == 1 && !is_check && line.refuses_circuit() && rt.stderr().is_terminal() {
        let _ = write_all(&mut Device::new(rt.stderr()), HINT.as_bytes());
    }
    status
}

/// Runs a job, unless it would write a file that it reads.
fn run_alone<E: Output>(rt: &HostRuntime, job: Job, err: &mut E) -> u8 {
    match shared_file(rt, &job) {
        Some(reported) => report_mistake(reported, err),
        None => run_with_coins(rt, job, err),
    }
}

/// Runs a job, with the coins of a file if it names one.
fn run_with_coins<E: Output>(rt: &HostRuntime, mut job: Job, err: &mut E) -> u8 {
    if let Some(path) = &job.coins_path {
        match coins_of_file(rt, path.as_str(), err) {
            Ok(coins) => job.source = Source::List(coins),
            Err(status) => return status,
        }
    }
    run_opened(rt, &job, err)
}

/// The coins of a file; or the status of the program, once the reason why there are none is reported.
fn coins_of_file<E: Output>(rt: &HostRuntime, path: &str, err: &mut E) -> Result<Vec<bool>, u8> {
    let mut file = match Reader::open(rt, path) {
        Ok(file) => file,
        Err(error) => return Err(report_path(rt, Refusal::ReadFault, path, Some(&error), err)),
    };
    match read_coins(rt.alloc(), &mut Device::new(&mut file)) {
        Ok(coins) => Ok(coins),
        Err(fault) => Err(report_coins(rt, fault, path, file.error(), err)),
    }
}

/// Writes why a file has no coins, and answers the status.
fn report_coins<E: Output>(
    rt: &HostRuntime,
    fault: CoinsFault,
    path: &str,
    error: Option<&io::Error>,
    err: &mut E,
) -> u8 {
    match fault {
        CoinsFault::Wrong => report_mistake(NO_COINS, err),
        CoinsFault::Unread(Refusal::OutOfMemory) => report_fault(Refusal::OutOfMemory, err),
        CoinsFault::Unread(refusal) => report_path(rt, refusal, path, error, err),
    }
}

/// What is said about a job that would write a file that it reads.
fn shared_file(rt: &HostRuntime, job: &Job) -> Option<&'static str> {
    let out = job.out_path.as_ref()?;
    let reads_input = job.in_path.is_none() || job.reads_script();
    if let Some(path) = &job.coins_path
        && are_one_file(rt, path.as_str(), out.as_str())
    {
        return Some(ONE_COIN_FILE);
    }
    match &job.in_path {
        Some(path) if are_one_file(rt, path.as_str(), out.as_str()) => Some(ONE_FILE),
        _ if reads_input && are_one_file(rt, STANDARD_INPUT, out.as_str()) => Some(ONE_INPUT),
        _ => None,
    }
}

/// Runs a job on the file that it reads. If it names none, `edit` begins with the empty circuit,
/// and any other command reads standard input.
fn run_opened<E: Output>(rt: &HostRuntime, job: &Job, err: &mut E) -> u8 {
    match &job.in_path {
        Some(path) => match Reader::open(rt, path.as_str()) {
            Ok(file) => run_created(rt, job, file, err),
            Err(error) => report_path(rt, Refusal::ReadFault, path.as_str(), Some(&error), err),
        },
        None if job.reads_script() => run_created(rt, job, Reader::Nothing, err),
        None => run_created(rt, job, Reader::Standard(rt.stdin()), err),
    }
}

/// Runs a job on the file that it writes, or on standard output.
fn run_created<E: Output>(rt: &HostRuntime, job: &Job, input: Reader, err: &mut E) -> u8 {
    match &job.out_path {
        Some(path) => match Replaced::open(rt, path.as_str()) {
            Ok(file) => run_written(rt, job, input, Sink::File(file), err),
            Err(error) => report_path(rt, Refusal::WriteFault, path.as_str(), Some(&error), err),
        },
        None => run_written(rt, job, input, Sink::Standard(rt.stdout()), err),
    }
}

/// Runs a job: one that reads a script on standard input, each reply written at once, and any other
/// with its output gathered into large writes.
fn run_written<E: Output>(
    rt: &HostRuntime,
    job: &Job,
    input: Reader,
    sink: Sink,
    err: &mut E,
) -> u8 {
    if job.reads_script() {
        let script = Reader::Standard(rt.stdin());
        return run_on(rt, job, input, script, Writer::AtOnce(sink), err);
    }
    match BufWriter::new(rt.alloc(), sink) {
        Ok(writer) => run_on(
            rt,
            job,
            input,
            Reader::Nothing,
            Writer::Gathered(writer),
            err,
        ),
        Err(_) => report_fault(Refusal::OutOfMemory, err),
    }
}

/// Runs a job on what it reads and writes. All jobs come here, on devices of the same types, so the program
/// has one copy of what they do. What they don't know is said after it: a file that could not be read,
/// and that no site is marked.
fn run_on<E: Output>(
    rt: &HostRuntime,
    job: &Job,
    mut input: Reader,
    script: Reader,
    writer: Writer,
    err: &mut E,
) -> u8 {
    let mut writer = NotedWriter::new(writer);
    let mut progress = SearchProgress::new(rt.stderr(), shows_progress(job.command));
    let status = run_job_watched::<_, _, _, _, NoWatcher, _>(
        rt.alloc(),
        job,
        &mut Device::new(&mut input),
        &mut Device::new(script),
        &mut Device::new(&mut writer),
        err,
        &mut progress,
    );
    if let (Some(path), Some(error)) = (&job.in_path, input.error()) {
        name_file(rt, path.as_str(), Some(error), err);
    }
    if status == 0 && is_on_no_marks(job.command, progress.is_over_nothing(), writer.is_empty()) {
        let _ = write_all(err, no_marks(job.command).as_bytes());
    }
    status
}

/// Whether a command reports how far its search is.
fn shows_progress(command: Command) -> bool {
    match command {
        Command::Distance {
            question: Question::Least | Question::Counted,
            options,
        } => options.progress,
        _ => false,
    }
}

/// Whether a command looked at marked sites alone, and shows that there are none: `distance` by the number of errors that it searches or
/// writes, and `faults` and `propagate_each` by no byte, except in the format b8, in which a fault may be of no byte.
fn is_on_no_marks(command: Command, is_over_nothing: bool, is_empty: bool) -> bool {
    match command {
        Command::Faults {
            layout,
            everywhere,
            ..
        } => is_empty && !everywhere && layout != FaultLayout::Shots(Format::B8),
        Command::PropagateEach { everywhere } => is_empty && !everywhere,
        Command::Distance { options, .. } => is_over_nothing && !options.everywhere,
        _ => false,
    }
}

/// What is said if there are none: a mark may have Y alone, which some letters leave out.
fn no_marks(command: Command) -> &'static str {
    match command {
        Command::Distance { options, .. } => match options.letters {
            ErrorLetters::XAndZ => NO_LETTERS,
            ErrorLetters::All => NO_MARKS,
        },
        _ => NO_MARKS,
    }
}

/// Writes which arguments are bad, and answers its status.
fn report_mistake<E: Output>(reported: &str, err: &mut E) -> u8 {
    let _ = write_all(err, reported.as_bytes());
    2
}

/// Writes the line of a fault, and answers its status.
fn report_fault<E: Output>(refusal: Refusal, err: &mut E) -> u8 {
    let _ = write_fault(err, Fault::whole(refusal));
    1
}

/// Writes the line of a fault of a file that can't be opened or read, and after it the file's name;
/// and answers the status.
fn report_path<E: Output>(
    rt: &HostRuntime,
    refusal: Refusal,
    path: &str,
    error: Option<&io::Error>,
    err: &mut E,
) -> u8 {
    let status = report_fault(refusal, err);
    name_file(rt, path, error, err);
    status
}

/// If memory suffices, writes a file's name and what the system said, if it said anything.
fn name_file<E: Output>(rt: &HostRuntime, path: &str, error: Option<&io::Error>, err: &mut E) {
    if let Ok(line) = line_of_file(rt.alloc(), path, error) {
        let _ = write_all(err, line.as_bytes());
    }
}

/// The line of a file's name and of what the system said, if it said anything.
fn line_of_file(
    alloc: Global,
    path: &str,
    error: Option<&io::Error>,
) -> Result<String, AllocError> {
    match error {
        Some(error) => format!(in alloc; "stabsim: {path}: {error}\n"),
        None => format!(in alloc; "stabsim: {path}\n"),
    }
}
