//! States that are stored in little memory, and frames from them to others.
use super::calls::Call::{self, One, Two};
use super::calls::EndQubit::{First, Last};
use super::{BELL, ENTANGLE, SIZES, TURN, state};
use stab_pauli::{Letter, Pauli, Refusal};
use stab_tableau::{CompactTableau, Gate, PairGate, Tableau};
use std::alloc::Global;
use std::test::Fail;

// A Bell pair of n qubits, stored.
fn stored_pair(alloc: Global, n: usize) -> Result<CompactTableau, Refusal> {
    let tableau = state(alloc, n, BELL)?;
    tableau.compact(alloc)
}

// The letters by which a state differs from a stored one, if it does by a string.
fn frame(
    alloc: Global,
    preserved: &CompactTableau,
    tableau: &Tableau,
) -> Result<Option<Pauli>, Refusal> {
    let mut frame = Pauli::identity(alloc, preserved.len())?;
    if !preserved.frame_to(tableau, &mut frame) {
        return Ok(None);
    }
    Ok(Some(frame))
}

// Whether the letters by which a state differs from a stored one are these at its ends, and I between.
fn frame_has_ends(
    alloc: Global,
    preserved: &CompactTableau,
    tableau: &Tableau,
    letters: Option<(Letter, Letter)>,
) -> Result<bool, Refusal> {
    match frame(alloc, preserved, tableau)? {
        None => Ok(letters.is_none()),
        Some(frame) => Ok(ends(&frame) == letters),
    }
}

// The first and the last letter of a frame, if all others are I.
fn ends(frame: &Pauli) -> Option<(Letter, Letter)> {
    let n = frame.len();
    if n < 2 {
        return None;
    }
    for qubit in 1..n - 1 {
        if frame.letter(qubit) != Letter::I {
            return None;
        }
    }
    Some((frame.letter(0), frame.letter(n - 1)))
}

// What is done to zeros, and the first and the last letter of the frame from a stored Bell pair to that.
const FRAMES: &[(&[Call], Option<(Letter, Letter)>)] = &[
    (BELL, Some((Letter::I, Letter::I))),
    (
        &[TURN, ENTANGLE, One(Gate::X, First)],
        Some((Letter::X, Letter::I)),
    ),
    (
        &[TURN, ENTANGLE, One(Gate::Y, Last), One(Gate::Z, First)],
        Some((Letter::Z, Letter::Y)),
    ),
    (
        &[TURN, ENTANGLE, One(Gate::Z, Last), One(Gate::X, Last)],
        Some((Letter::I, Letter::Y)),
    ),
    // S twice is Z.
    (
        &[TURN, ENTANGLE, One(Gate::S, First), One(Gate::S, First)],
        Some((Letter::Z, Letter::I)),
    ),
    (&[TURN, ENTANGLE, One(Gate::H, First)], None),
    (&[TURN, ENTANGLE, Two(PairGate::Cz, First, Last)], None),
];

// Whether the frame from a stored Bell pair of n qubits to this many, on which these calls were made, has these
// letters at its ends.
fn has_frame(
    alloc: Global,
    n: usize,
    size: usize,
    calls: &[Call],
    letters: Option<(Letter, Letter)>,
) -> Result<bool, Refusal> {
    let preserved = stored_pair(alloc, n)?;
    match state(alloc, size, calls) {
        Ok(tableau) => frame_has_ends(alloc, &preserved, &tableau, letters),
        Err(refusal) => Err(refusal),
    }
}

// Whether all frames from a stored Bell pair of n qubits are right.
fn has_frames(alloc: Global, n: usize) -> Result<bool, Refusal> {
    for &(calls, letters) in FRAMES {
        if !has_frame(alloc, n, n, calls, letters)? {
            return Ok(false);
        }
    }
    Ok(true)
}

#[test]
fn a_frame_goes_from_a_stored_state_to_one_of_other_signs(rt: HostRuntime) -> Result<(), Fail> {
    for n in SIZES {
        let right = has_frames(rt.alloc(), n)?;
        assert!(rt; right, "{n}");
    }
    let none = has_frame(rt.alloc(), 2, 3, BELL, None)?;
    assert!(rt; none, "another size");
    Ok(())
}
