//! The program `tour`: what a program of your own does with these crates, to be read first.
//!
//! It reads a circuit, runs it, takes two shots of it, opens a session on it, edits it, and prints what each step gives.
//! `docs/build/library.md` goes through it, call by call.
//!
//! - `shown`: bits and rows as they are printed.
//! - `failure`: why the tour ended early.
//!
//! It is proved safe, and nothing is claimed about what it prints.
#![tactic(auto)]

mod failure;
mod shown;

use failure::Failure;
use shown::{Bits, ShownRow};
use stabsim_library::{
    Circuit, Edit, ListCoins, MemoryInput, Path, Session, read_circuit, read_item, run_once,
    run_shots,
};

/// A Bell pair, and a detector that compares its two measurements.
const TEXT: &[u8] = b"H 0\nCX 0 1\nM 0 1\nDETECTOR rec[-1] rec[-2]\n";

fn main(rt: HostRuntime) -> Result<(), Failure> {
    let alloc = rt.alloc();
    let circuit = read_circuit(alloc, &mut MemoryInput::new(TEXT))?;
    let qubits = circuit.qubits();
    println!(rt; "{} steps on {qubits} qubits", circuit.steps())?;

    // Coin 0 is 1: it decides the first outcome. The second is fixed by then.
    let shot = run_once(alloc, &circuit, qubits, &mut ListCoins::new(&[true]))?;
    println!(rt;
        "records {}, of which coins decided {}",
        Bits(shot.records.as_slice()),
        Bits(shot.free.as_slice())
    )?;

    for shot in run_shots(alloc, &circuit, qubits, 0, 0, 2)? {
        println!(rt; "shot {}", Bits(shot.records.as_slice()))?;
    }

    edit(&rt, circuit)
}

/// Opens a session on the circuit, and puts an error in.
fn edit(rt: &HostRuntime, circuit: Circuit) -> Result<(), Failure> {
    let alloc = rt.alloc();
    let qubits = circuit.qubits();
    let mut session = match Session::open(alloc, circuit, qubits, 8192, ListCoins::new(&[true])) {
        Ok(session) => session,
        Err(refused) => return Err(refused.fault.into()),
    };
    for row in session.reduced_rows(alloc)? {
        println!(rt; "stabilised by {}", ShownRow(&row))?;
    }

    // An error on qubit 1 before the measurements: which detectors show it?
    let edit = Edit::Insert {
        place: Path::new(&[2]),
        item: read_item(alloc, b"X 1")?,
    };
    match session.apply(edit) {
        Ok(report) => println!(rt;
            "steps carried out {}, gone over by a frame {}",
            report.applied, report.by_frame
        )?,
        Err(refused) => return Err(refused.fault.into()),
    }
    println!(rt;
        "records {}, detectors {}",
        Bits(session.records()),
        Bits(session.detectors())
    )?;
    Ok(())
}
