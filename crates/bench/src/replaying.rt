//! Edits of a session, each beside one whole run of the same circuit.
use super::columns::{print_cells, print_sentence};
use super::failure::Failure;
use super::running::{self, Whole};
use super::{clock, reading};
use stab_circuit::{Circuit, Path, read_item};
use stab_session::{Edit, SeedCoins, Session};
use std::alloc::Global;
use std::num::nearest_usize_to_f64;
use std::rt::Files;
use std::time::{CpuClock, Duration};

/// The best of this many edits counts, since other programs disturb the rest.
const EDITS: u32 = 5;

/// Checkpoints are stored at most this many steps from each other.
const STRIDE: usize = 8192;

/// What ends the line of a circuit, with the headings of the table of its edits.
const HEADINGS: &str = " MiB
     place  line      edit ms  of a run  faster than reading and running     steps  by frame";

/// Which of the hundred parts of the outermost list an edit is at the end of.
const PARTS: [usize; 3] = [1, 50, 99];

/// The seconds of an edit, and how many steps it carried out and how many a frame went over.
#[derive(Clone, Copy)]
struct Cost {
    seconds: f64,
    applied: usize,
    by_frame: usize,
}

/// Prints a table of the edits of the circuits in files. The qubit is one whose next record `X`
/// flips, and nothing else; the qubit 1 is one whose state `H` changes.
pub fn print_table<R: CpuClock + Files + AllocGlobal + Print>(
    rt: &R,
    qubit: &str,
    paths: &[String],
) -> Result<(), Failure> {
    let flip = format!(in rt.alloc(); "X {qubit}")?;
    print_circuits(rt, flip.as_str(), paths)
}

/// Prints a table of the edits of the circuits in files, of which one is the line that flips a record.
fn print_circuits<R: CpuClock + Files + AllocGlobal + Print>(
    rt: &R,
    flip: &str,
    paths: &[String],
) -> Result<(), Failure> {
    for path in paths {
        print_circuit(rt, flip, path.as_str())?;
    }
    Ok(())
}

/// Prints what reading the circuit in a file, running it, opening a session on it and editing that take.
fn print_circuit<R: CpuClock + Files + AllocGlobal + Print>(
    rt: &R,
    flip: &str,
    path: &str,
) -> Result<(), Failure> {
    let text = running::text_of_file(rt, path)?;
    print_text(rt, flip, path, text.as_slice())
}

/// Prints what reading the circuit of a text, running it, opening a session on it and editing that take.
fn print_text<R: CpuClock + Files + AllocGlobal + Print>(
    rt: &R,
    flip: &str,
    path: &str,
    text: &[u8],
) -> Result<(), Failure> {
    let whole = running::whole_of(rt, text)?;
    let (read, run) = (whole.read, whole.run);
    println!(rt; "{path}: read {read:.1} ms, run {run:.1} ms")?;
    print_session(rt, flip, text, whole)
}

/// Opens a session on a circuit, and prints what that and edits of it take.
fn print_session<R: CpuClock + Files + AllocGlobal + Print>(
    rt: &R,
    flip: &str,
    text: &[u8],
    whole: Whole,
) -> Result<(), Failure> {
    let before = resident(rt)?;
    let circuit = reading::circuit_of_text(rt.alloc(), text)?;
    let start = clock::now(rt);
    let mut session = opened(rt.alloc(), circuit)?;
    print_opening(rt, &session, start, before)?;
    print_edits(rt, &mut session, flip, whole)
}

/// Prints what it took to open a session, which was begun at a time with this many MiB held.
fn print_opening<R: CpuClock + Files + AllocGlobal + Print>(
    rt: &R,
    session: &Session<SeedCoins>,
    start: Option<Duration>,
    before: f64,
) -> Result<(), Failure> {
    let open = clock::since(rt, start)? * 1e3;
    let preserved = resident(rt)? - before;
    let circuit = session.circuit();
    let parts = [
        ("", nearest_usize_to_f64(circuit.items().len()), 0),
        (" items, ", nearest_usize_to_f64(circuit.steps()), 0),
        (" steps, open ", open, 1),
        (" ms, ", preserved, 1),
    ];
    print_sentence(rt, &parts, HEADINGS)
}

/// Prints what edits of four kinds at three places take: nothing downstream changes, a record
/// flips, later records and coins have other numbers, the group changes.
fn print_edits<R: CpuClock + AllocGlobal + Print>(
    rt: &R,
    session: &mut Session<SeedCoins>,
    flip: &str,
    whole: Whole,
) -> Result<(), Failure> {
    let hundredth = session.circuit().items().len() / 100;
    for part in PARTS {
        print_edits_at(rt, session, hundredth.saturating_mul(part), flip, whole)?;
    }
    Ok(())
}

/// Prints what edits of four kinds take at a position.
fn print_edits_at<R: CpuClock + AllocGlobal + Print>(
    rt: &R,
    session: &mut Session<SeedCoins>,
    position: usize,
    flip: &str,
    whole: Whole,
) -> Result<(), Failure> {
    print_edit(rt, session, position, "I 1", whole)?;
    print_edit(rt, session, position, flip, whole)?;
    print_edit(rt, session, position, "M 1", whole)?;
    print_edit(rt, session, position, "H 1", whole)
}

/// Prints what putting the item of a line in at a place takes.
fn print_edit<R: CpuClock + AllocGlobal + Print>(
    rt: &R,
    session: &mut Session<SeedCoins>,
    position: usize,
    line: &str,
    whole: Whole,
) -> Result<(), Failure> {
    let cost = best_edit(rt, session, Path::new(&[position]), line)?;
    print!(rt; "{position:>10}  {line:<6}")?;
    print_cost(rt, cost, whole)
}

/// Prints what an edit cost, beside reading and running the circuit.
fn print_cost<R: Print>(rt: &R, cost: Cost, whole: Whole) -> Result<(), Failure> {
    let edit = cost.seconds * 1e3;
    let cells = [
        (edit, 10, 3),
        (edit / whole.run, 9, 4),
        ((whole.read + whole.run) / edit, 32, 1),
        (nearest_usize_to_f64(cost.applied), 9, 0),
        (nearest_usize_to_f64(cost.by_frame), 9, 0),
    ];
    print_cells(rt, &cells)?;
    println!(rt; "")?;
    Ok(())
}

/// What putting the item of a line in at a place costs: the least time of several edits, and the steps of
/// the last.
fn best_edit<R: CpuClock + AllocGlobal>(
    rt: &R,
    session: &mut Session<SeedCoins>,
    place: Path,
    line: &str,
) -> Result<Cost, Failure> {
    let mut last = timed_edit(rt, session, place, line)?;
    for _ in 1..EDITS {
        let least = last.seconds;
        last = timed_edit(rt, session, place, line)?;
        last.seconds = last.seconds.min(least);
    }
    Ok(last)
}

/// A session on a circuit's own qubits, with the coins of seed 0 and shot 0.
pub fn opened(alloc: Global, circuit: Circuit) -> Result<Session<SeedCoins>, Failure> {
    let qubits = circuit.qubits();
    match Session::open(alloc, circuit, qubits, STRIDE, SeedCoins::new(0, 0)) {
        Ok(session) => Ok(session),
        Err(refused) => Err(Failure::Circuit(refused.fault)),
    }
}

/// What putting the item of a line in at a place costs; the item is then taken out again.
fn timed_edit<R: CpuClock + AllocGlobal>(
    rt: &R,
    session: &mut Session<SeedCoins>,
    place: Path,
    line: &str,
) -> Result<Cost, Failure> {
    let item = read_item(rt.alloc(), line.as_bytes())?;
    let start = clock::now(rt);
    let report = session.apply(Edit::Insert { place, item })?;
    let seconds = clock::since(rt, start)?;
    session.apply(Edit::Delete { place })?;
    Ok(Cost {
        seconds,
        applied: report.applied,
        by_frame: report.by_frame,
    })
}

/// How many MiB of memory the program holds, as Linux says.
fn resident<R: Files + AllocGlobal>(rt: &R) -> Result<f64, Failure> {
    let reported = running::text_of_file(rt, "/proc/self/statm")?;
    Ok(nearest_usize_to_f64(second_number(reported.as_slice())) / 256.0)
}

/// The second of the numbers in a line.
fn second_number(line: &[u8]) -> usize {
    let mut field: usize = 0;
    let mut number: usize = 0;
    for byte in line {
        if *byte == b' ' {
            field = field.saturating_add(1);
        } else if field == 1 {
            number = number
                .saturating_mul(10)
                .saturating_add(usize::from(byte.wrapping_sub(b'0')));
        }
    }
    number
}
