use super::columns::print_row;
use super::failure::Failure;
use super::{clock, reading};
use stab_circuit::Circuit;
use stab_session::{SeedCoins, run_once};
use std::fs;
use std::num::nearest_usize_to_f64;
use std::rt::Files;
use std::time::CpuClock;

/// The best of this many runs counts, since other programs disturb the rest.
const RUNS: u32 = 5;

/// The numbers of a circuit without edits, and its processor times in milliseconds.
#[derive(Clone, Copy)]
pub struct Whole {
    pub steps: usize,
    pub records: usize,
    pub read: f64,
    pub run: f64,
}

/// Prints a table with the times of the circuits in files, a line for each.
pub fn print_table<R: CpuClock + Files + AllocGlobal + Print>(
    rt: &R,
    paths: &[String],
) -> Result<(), Failure> {
    println!(rt; "    bytes    steps  records    read ms     run ms  ns a step  circuit")?;
    for path in paths {
        print_line(rt, path.as_str())?;
    }
    Ok(())
}

/// Prints what reading and running the circuit in a file take.
fn print_line<R: CpuClock + Files + AllocGlobal + Print>(
    rt: &R,
    path: &str,
) -> Result<(), Failure> {
    let text = text_of_file(rt, path)?;
    let bytes = text.len();
    let whole = whole_of(rt, text.as_slice())?;
    drop(text);
    print_whole(rt, whole, bytes, path)
}

/// Prints what reading a circuit and running it take, with the bytes of its text and its path.
fn print_whole<R: Print>(rt: &R, whole: Whole, bytes: usize, path: &str) -> Result<(), Failure> {
    let steps = nearest_usize_to_f64(whole.steps);
    let cells = [
        (nearest_usize_to_f64(bytes), 8, 0),
        (steps, 8, 0),
        (nearest_usize_to_f64(whole.records), 8, 0),
        (whole.read, 10, 3),
        (whole.run, 10, 3),
        (whole.run * 1e6 / steps.max(1.0), 10, 1),
    ];
    print_row(rt, &cells, path)
}

/// The numbers of a text's circuit, and the times that reading and running it take.
pub fn whole_of<R: CpuClock + AllocGlobal>(rt: &R, text: &[u8]) -> Result<Whole, Failure> {
    let read = reading::best_time(rt, text)? * 1e3;
    let circuit = reading::circuit_of_text(rt.alloc(), text)?;
    let run = best_time(rt, &circuit)? * 1e3;
    Ok(Whole {
        steps: circuit.steps(),
        records: circuit.records(),
        read,
        run,
    })
}

/// The circuit in a file.
pub fn circuit_of_file<R: Files + AllocGlobal>(rt: &R, path: &str) -> Result<Circuit, Failure> {
    let text = text_of_file(rt, path)?;
    reading::circuit_of_text(rt.alloc(), text.as_slice())
}

/// The bytes of a file.
pub fn text_of_file<R: Files + AllocGlobal>(rt: &R, path: &str) -> Result<Vec<u8>, Failure> {
    match fs::read(rt, path) {
        Ok(text) => Ok(text),
        Err(_) => Err(Failure::File),
    }
}

/// The seconds of a run, by the best of several.
pub fn best_time<R: CpuClock + AllocGlobal>(rt: &R, circuit: &Circuit) -> Result<f64, Failure> {
    let mut least = f64::INFINITY;
    for _ in 0..RUNS {
        least = least.min(time_of_run(rt, circuit)?);
    }
    Ok(least)
}

/// The seconds of a run on the circuit's own qubits, with the coins of seed 0 and shot 0,
/// without that of letting go what it gave.
fn time_of_run<R: CpuClock + AllocGlobal>(rt: &R, circuit: &Circuit) -> Result<f64, Failure> {
    let mut coins = SeedCoins::new(0, 0);
    let start = clock::now(rt);
    let _shot = run_once(rt.alloc(), circuit, circuit.qubits(), &mut coins)?;
    clock::since(rt, start)
}
