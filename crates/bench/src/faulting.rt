//! Tables of all faults everywhere, each beside a session that is asked for some of them by edits.
use super::columns::print_row;
use super::failure::Failure;
use super::{clock, replaying, running};
use stab_circuit::{Circuit, Item, Path, read_item};
use stab_regions::single_errors;
use stab_session::{Edit, SeedCoins, Session};
use std::alloc::Global;
use std::num::nearest_usize_to_f64;
use std::rt::Files;
use std::time::{CpuClock, Duration};

/// The best of this many tables counts, since other programs disturb the rest.
const TABLES: u32 = 3;

/// How many faults the session is asked for, at sites that lie evenly between the items.
const ASKED: usize = 100;

/// How many faults a table has, and the seconds of making it.
#[derive(Clone, Copy)]
struct Table {
    faults: usize,
    seconds: f64,
}

/// What a line of the output says of a circuit: its steps, its table of faults, and the seconds in
/// which a session answers what some faults flip.
#[derive(Clone, Copy)]
struct Measured {
    steps: usize,
    table: Table,
    asked: f64,
}

/// Prints a line for the circuit in each of these files: how many faults there are everywhere, what a
/// table of all takes, and what a session would take that puts each in, looks and takes it out again.
pub fn print_table<R: CpuClock + Files + AllocGlobal + Print>(
    rt: &R,
    paths: &[String],
) -> Result<(), Failure> {
    println!(rt;
        "    steps   faults   table ms  us a fault  us by edits  all by edits ms     faster  circuit"
    )?;
    for path in paths {
        print_circuit(rt, path.as_str())?;
    }
    Ok(())
}

/// Prints the line for the circuit in a file.
fn print_circuit<R: CpuClock + Files + AllocGlobal + Print>(
    rt: &R,
    path: &str,
) -> Result<(), Failure> {
    let circuit = running::circuit_of_file(rt, path)?;
    print_line(rt, measure(rt, circuit)?, path)
}

/// Prints what was measured of the circuit in a file.
fn print_line<R: Print>(rt: &R, measured: Measured, path: &str) -> Result<(), Failure> {
    let Measured {
        steps,
        table: Table { faults, seconds },
        asked,
    } = measured;
    let faults = nearest_usize_to_f64(faults);
    let table = seconds * 1e3;
    let each = table * 1e3 / faults.max(1.0);
    let edit = asked * 1e6 / nearest_usize_to_f64(ASKED);
    let edits = edit * faults / 1e3;
    let cells = [
        (nearest_usize_to_f64(steps), 8, 0),
        (faults, 8, 0),
        (table, 10, 3),
        (each, 11, 4),
        (edit, 12, 1),
        (edits, 16, 1),
        (edits / table, 10, 1),
    ];
    print_row(rt, &cells, path)
}

/// Measures a circuit.
fn measure<R: CpuClock + AllocGlobal>(rt: &R, circuit: Circuit) -> Result<Measured, Failure> {
    let steps = circuit.steps();
    let table = best_table(rt, &circuit)?;
    let asked = time_of_asking(rt, circuit)?;
    Ok(Measured {
        steps,
        table,
        asked,
    })
}

/// The table of a circuit's faults, by the best of several.
fn best_table<R: CpuClock + AllocGlobal>(rt: &R, circuit: &Circuit) -> Result<Table, Failure> {
    let mut best = timed_table(rt, circuit)?;
    for _ in 1..TABLES {
        let table = timed_table(rt, circuit)?;
        best.seconds = best.seconds.min(table.seconds);
    }
    Ok(best)
}

/// Makes a table of a circuit's faults, and times that without letting go of the table.
fn timed_table<R: CpuClock + AllocGlobal>(rt: &R, circuit: &Circuit) -> Result<Table, Failure> {
    let start = clock::now(rt);
    let table = single_errors(rt.alloc(), circuit, circuit.qubits(), true)?;
    made_since(rt, start, table.len())
}

/// A table of this many faults, which was begun at a time.
fn made_since<R: CpuClock>(
    rt: &R,
    start: Option<Duration>,
    faults: usize,
) -> Result<Table, Failure> {
    let seconds = clock::since(rt, start)?;
    Ok(Table { faults, seconds })
}

/// The seconds in which a session on a circuit answers what some faults flip.
fn time_of_asking<R: CpuClock + AllocGlobal>(rt: &R, circuit: Circuit) -> Result<f64, Failure> {
    let mut session = replaying::opened(rt.alloc(), circuit)?;
    let before = Vec::from_slice(rt.alloc(), session.detectors())?;
    ask_for_all(rt, &mut session, before.as_slice())
}

/// The seconds in which a session with these detectors answers what some faults flip.
fn ask_for_all<R: CpuClock + AllocGlobal>(
    rt: &R,
    session: &mut Session<SeedCoins>,
    before: &[bool],
) -> Result<f64, Failure> {
    let distinct = session.circuit().items().len() / ASKED;
    let mut seconds = 0.0;
    for number in 0..ASKED {
        let place = Path::new(&[distinct.saturating_mul(number)]);
        let qubit = number % session.qubits().max(1);
        seconds += time_of_fault(rt, session, place, qubit, before)?;
    }
    Ok(seconds)
}

/// The seconds in which a session answers what X on a qubit flips.
fn time_of_fault<R: CpuClock + AllocGlobal>(
    rt: &R,
    session: &mut Session<SeedCoins>,
    place: Path,
    qubit: usize,
    before: &[bool],
) -> Result<f64, Failure> {
    let item = letter_item(rt.alloc(), qubit)?;
    let start = clock::now(rt);
    ask(session, place, item, before)?;
    clock::since(rt, start)
}

/// The item that is X on a qubit.
fn letter_item(alloc: Global, qubit: usize) -> Result<Item, Failure> {
    let line = format!(in alloc; "X {qubit}")?;
    Ok(read_item(alloc, line.as_str().as_bytes())?)
}

/// How many detectors an item flips, which is put in and taken out again.
fn ask(
    session: &mut Session<SeedCoins>,
    place: Path,
    item: Item,
    before: &[bool],
) -> Result<usize, Failure> {
    session.apply(Edit::Insert { place, item })?;
    let flipped = differing(session.detectors(), before);
    session.apply(Edit::Delete { place })?;
    Ok(flipped)
}

/// At how many positions two lists of bits differ, as far as both go.
fn differing(one: &[bool], other: &[bool]) -> usize {
    let mut count: usize = 0;
    for index in 0..one.len().min(other.len()) {
        count = count.wrapping_add(usize::from(one[index] != other[index]));
    }
    count
}
