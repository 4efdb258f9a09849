//! The program `bench`: times what a tableau does, whole runs, edits of sessions, and tables of faults.
//!
//! Without words it prints one fixed line. With the word `measure` it prints a table for each size.
//! With the word `run` and paths it prints, for the circuit in each of these files, the times to read it and
//! to run it once. With the word `edit`, a qubit and paths it prints what edits of a
//! session on each of these circuits take. With the word `faults` and paths it prints what the table of
//! all faults of each of these circuits takes, beside a session that is asked for them by edits.
//!
//! - `work`: what is timed of a tableau.
//! - `state`: the states that the works take.
//! - `clock`: the processor time. `failure`: why nothing was measured.
//! - `columns`: lines of numbers.
//! - `timing`: does each work, and prints the best of several rounds.
//! - `reading`: the time to read a circuit text.
//! - `running`: circuits in files, and the times to read and to run them.
//! - `replaying`: edits of a session on a circuit, each beside a whole run.
//! - `faulting`: tables of all faults, each beside a session that is asked for some of them.
//!
//! It is proved safe, and nothing is claimed about the times.
#![tactic(auto)]

mod clock;
mod columns;
mod failure;
mod faulting;
mod reading;
mod replaying;
mod running;
mod state;
mod timing;
mod work;

use failure::Failure;
use std::env;
use std::rt::Files;
use std::time::CpuClock;

/// The numbers of qubits that are measured.
const SIZES: [usize; 3] = [64, 256, 1024];

fn main(rt: HostRuntime) -> Result<(), Failure> {
    let words: Vec<String> = env::args(&rt)?.skip(1).collect(rt.alloc())?;
    measure(&rt, words.as_slice())
}

/// Measures what the words ask for.
fn measure<R: CpuClock + Files + AllocGlobal + Print>(
    rt: &R,
    words: &[String],
) -> Result<(), Failure> {
    match words {
        [] => println!(rt; "bench: the word measure times what a tableau does")?,
        [word, rest @ ..] => measure_by(rt, word.as_str(), rest)?,
    }
    Ok(())
}

/// Measures what a word asks for, with the words after it.
fn measure_by<R: CpuClock + Files + AllocGlobal + Print>(
    rt: &R,
    word: &str,
    rest: &[String],
) -> Result<(), Failure> {
    match word {
        "measure" if rest.is_empty() => measure_tableau(rt),
        "run" if !rest.is_empty() => running::print_table(rt, rest),
        "edit" => measure_edits(rt, rest),
        "faults" if !rest.is_empty() => faulting::print_table(rt, rest),
        _ => Err(Failure::Words),
    }
}

/// Measures the tableau.
fn measure_tableau<R: CpuClock + AllocGlobal + Print>(rt: &R) -> Result<(), Failure> {
    for qubits in SIZES {
        timing::print_table(rt, qubits)?;
    }
    Ok(())
}

/// Measures edits of sessions, by the words for a qubit and for files.
fn measure_edits<R: CpuClock + Files + AllocGlobal + Print>(
    rt: &R,
    words: &[String],
) -> Result<(), Failure> {
    match words {
        [qubit, paths @ ..] if !paths.is_empty() => {
            replaying::print_table(rt, qubit.as_str(), paths)
        }
        _ => Err(Failure::Words),
    }
}
