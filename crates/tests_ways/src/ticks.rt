//! Strings put into small circuits: what they are at each tick.
use crate::ways::{Letters, set, turns};
use stab_circuit::{Circuit, read_circuit};
use stab_pauli::{Letter, MemoryInput, Pauli};
use stab_ways::{Way, way_of};
use std::alloc::Global;
use std::test::Fail;

const X0: Letters = &[(0, Letter::X)];

const X1: Letters = &[(1, Letter::X)];

const Z0: Letters = &[(0, Letter::Z)];

/// A circuit, after how many of its steps a string is put in, and the string; then how many steps are before each tick, and the string there.
type Case = (&'static str, usize, Letters, &'static [(usize, Letters)]);

const CASES: &[Case] = &[
    ("", 0, X0, &[]),
    ("TICK", 0, X0, &[(0, X0)]),
    // Ticks beside it have the string, those in front of it have not.
    ("TICK\nH 0\nTICK", 0, X0, &[(0, X0), (1, Z0)]),
    ("TICK\nH 0\nTICK", 1, X0, &[(1, X0)]),
    (
        "TICK\nH 0\nTICK[tag]\nTICK\nM 0\nTICK",
        0,
        X0,
        &[(0, X0), (1, Z0), (1, Z0), (2, Z0)],
    ),
    // Coordinates are no ticks.
    ("SHIFT_COORDS(1)\nQUBIT_COORDS(1) 0\nH 0", 0, X0, &[]),
    // A string that is gone has no letter.
    ("R 0\nTICK\nH 0\nTICK", 0, X0, &[(1, &[]), (2, &[])]),
    // Each round has its ticks.
    (
        "REPEAT 3 {\nSWAP 0 1\nTICK\n}",
        0,
        X0,
        &[(1, X1), (2, X0), (3, X1)],
    ),
    (
        "REPEAT 2 {\nREPEAT 2 {\nSWAP 0 1\n}\nTICK\n}",
        1,
        X0,
        &[(2, X1), (4, X1)],
    ),
    // All rounds of a block without steps are before one step, and the first counts.
    (
        "H 0\nREPEAT 1000000000000 {\nTICK\nTICK\n}\nH 0\nTICK",
        0,
        X0,
        &[(1, Z0), (1, Z0), (2, X0)],
    ),
];

/// The way of a string of two letters, of which these are not I, by ticks.
fn way(alloc: Global, circuit: &Circuit, steps: usize, letters: Letters) -> Option<Way> {
    let mut string = Pauli::identity(alloc, 2).ok()?;
    for (qubit, letter) in letters {
        set(&mut string, *qubit, *letter);
    }
    circuit.check(string.len()).ok()?;
    way_of(alloc, circuit, true, steps, &string).ok()
}

fn answers(alloc: Global, case: &Case) -> bool {
    let (text, steps, letters, reported) = *case;
    let Ok(circuit) = read_circuit(alloc, &mut MemoryInput::new(text.as_bytes())) else {
        return false;
    };
    let Some(found) = way(alloc, &circuit, steps, letters) else {
        return false;
    };
    turns(&found, reported)
}

#[test]
fn strings_at_ticks_are_as_worked_by_hand(rt: HostRuntime) -> Result<(), Fail> {
    for case in CASES {
        let right = answers(rt.alloc(), case);
        let text = case.0;
        assert!(rt; right, "{text}");
    }
    Ok(())
}
