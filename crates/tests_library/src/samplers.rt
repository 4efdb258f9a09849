//! Single runs of circuits, and many shots of one.
use stab_circuit::{Circuit, read_circuit};
use stab_pauli::{Fault, MemoryInput, Refusal};
use stab_recording::Sampler;
use stab_sampler::run_shots;
use stab_session::{ListCoins, SeedCoins, Shot, run_once};
use std::alloc::Global;
use std::test::Fail;

/// Free and fixed outcomes, resets, inverted targets, products, feedback, detectors and observables.
const ROUNDS: &str = "H 0
CX 0 1
REPEAT 3 {
    H 2
    CX 2 3
    M 2 !3
    DETECTOR rec[-1] rec[-2]
    R 2
    MPP X0*!Z2 !Y1*Y3
    CX rec[-2] 1 rec[-1] 2
    MR 3
    OBSERVABLE_INCLUDE(1) rec[-1]
}
MX 0 1
OBSERVABLE_INCLUDE(0) rec[-1] rec[-2]
";

fn read(alloc: Global, text: &str) -> Result<Circuit, Fault> {
    read_circuit(alloc, &mut MemoryInput::new(text.as_bytes()))
}

/// Whether a shot has these records, randomness, detectors and observables.
fn has(shot: &Shot, lists: [&[bool]; 4]) -> bool {
    let [records, free, detectors, observables] = lists;
    shot.records.as_slice() == records
        && shot.free.as_slice() == free
        && shot.detectors.as_slice() == detectors
        && shot.observables.as_slice() == observables
}

/// Whether a shot has the lists of a run of its own with the coins of its number.
fn is_run(alloc: Global, circuit: &Circuit, shot: &Shot, number: u64) -> Result<bool, Fault> {
    let run = run_once(alloc, circuit, 4, &mut SeedCoins::new(7, number))?;
    let lists = [
        run.records.as_slice(),
        run.free.as_slice(),
        run.detectors.as_slice(),
        run.observables.as_slice(),
    ];
    Ok(has(shot, lists))
}

/// Whether the next shot is a run of its own.
fn agrees(
    alloc: Global,
    circuit: &Circuit,
    sampler: &mut Sampler,
    number: u64,
) -> Result<bool, Fail> {
    let shot = sampler.shot(alloc, &mut SeedCoins::new(7, number))?;
    Ok(is_run(alloc, circuit, &shot, number)?)
}

#[test]
fn shots_are_runs_of_their_own(rt: HostRuntime) -> Result<(), Fail> {
    let circuit = read(rt.alloc(), ROUNDS)?;
    let mut sampler = Sampler::new(rt.alloc(), &circuit, 4)?;
    let mut same = true;
    for number in 0..3 {
        same &= agrees(rt.alloc(), &circuit, &mut sampler, number)?;
    }
    assert!(rt; same);
    Ok(())
}

/// Whether shots at once are this many, and each is a run of its own.
fn agree_at_once(
    alloc: Global,
    circuit: &Circuit,
    first: u64,
    number: usize,
) -> Result<bool, Fault> {
    let shots = run_shots(alloc, circuit, 4, 7, first, number)?;
    let mut same = shots.len() == number;
    for i in 0..shots.len() {
        same &= is_run(alloc, circuit, &shots[i], first.wrapping_add(i as u64))?;
    }
    Ok(same)
}

/// Numbers of first shots, and how many shots: none, one, and such as fill a batch of lanes, or not quite, or go on in
/// the next; at last such as go on after the greatest number with 0.
const RANGES: [(u64, usize); 7] = [
    (9, 0),
    (0, 1),
    (9, 63),
    (1, 64),
    (63, 65),
    (1_000, 130),
    (u64::MAX - 99, 257),
];

#[test]
fn shots_at_once_are_runs_of_their_own(rt: HostRuntime) -> Result<(), Fail> {
    let circuit = read(rt.alloc(), ROUNDS)?;
    let mut same = true;
    for (first, number) in RANGES {
        same &= agree_at_once(rt.alloc(), &circuit, first, number)?;
    }
    assert!(rt; same);
    Ok(())
}

/// Circuits on four qubits whose shots make more than one batch: one with entangled qubits, of which each basis is measured and
/// reset, products of four letters, feedback by all letters, and the same in blocks; one with nothing random; one whose outcomes are
/// random in turn; and one with enough rounds that they are repeated, with the pivots of their random outcomes.
const BATCHED: [&str; 4] = [
    "H 0 2
CX 0 1 2 3
S 1
REPEAT 4 {
    SQRT_X 0
    CY 1 2
    MRX 0 !2
    RY 1
    CZ rec[-1] 3 rec[-2] 0
    CY rec[-2] 2
    MPP X0*Y1*!Z2*X3 Z0*Z1 !Y2
    REPEAT 3 {
        H 1 3
        MY 1 !3
        DETECTOR rec[-1] rec[-4]
        RX 3
        CX rec[-1] 0
    }
    DETECTOR rec[-2] rec[-5] rec[-9]
    DETECTOR
    OBSERVABLE_INCLUDE(2) rec[-3]
    SWAP 0 3
}
M 0 1 2 3
OBSERVABLE_INCLUDE(0) rec[-1] rec[-6]
",
    "X 0 3
CX 0 1
M 0 !1 2 3
DETECTOR rec[-1] rec[-4]
OBSERVABLE_INCLUDE(1) rec[-2]
",
    "REPEAT 50 {
    H 0 1 2 3
    M 0 0 1 2 3
    MR 2
    CX rec[-1] 3
}
DETECTOR rec[-1] rec[-200]
",
    "H 3
M 3 3
REPEAT 400 {
    H 0 1
    M 0 !1
    CX rec[-1] 2 rec[-4] 3
    MX 3
    MR 2
    DETECTOR rec[-1] rec[-3]
    OBSERVABLE_INCLUDE(0) rec[-2]
}
M 3
",
];

#[test]
fn shots_of_many_batches_are_runs_of_their_own(rt: HostRuntime) -> Result<(), Fail> {
    let mut same = true;
    for text in BATCHED {
        let circuit = read(rt.alloc(), text)?;
        same &= agree_at_once(rt.alloc(), &circuit, 3, 600)?;
    }
    assert!(rt; same);
    Ok(())
}

/// Whether a call was refused for a qubit out of range.
fn is_refused<T: Drop>(answer: Result<T, Fault>) -> bool {
    match answer {
        Ok(_) => false,
        Err(fault) => fault == Fault::whole(Refusal::QubitOutOfRange),
    }
}

/// Whether a run on one qubit, shots, and shots at once are refused so.
fn are_refused(alloc: Global, text: &str) -> Result<bool, Fault> {
    let circuit = read(alloc, text)?;
    let run = is_refused(run_once(alloc, &circuit, 1, &mut ListCoins::new(&[])));
    let sampler = is_refused(Sampler::new(alloc, &circuit, 1));
    Ok(run && sampler && is_refused(run_shots(alloc, &circuit, 1, 7, 0, 0)))
}

#[test]
fn too_few_qubits_are_refused(rt: HostRuntime) -> Result<(), Fail> {
    for text in ["M 1", "QUBIT_COORDS(0) 1", "REPEAT 2 {\nCX 0 1\n}"] {
        let refused = are_refused(rt.alloc(), text)?;
        assert!(rt; refused, "{text}");
    }
    Ok(())
}
