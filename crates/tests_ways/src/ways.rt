//! Strings put into small circuits: after which instructions they are others, and what they flip.
use stab_circuit::{Circuit, read_circuit};
use stab_pauli::{Letter, MemoryInput, Pauli};
use stab_run::Addition;
use stab_ways::{PlacedLetter, Way, way_of};
use std::alloc::Global;
use std::test::Fail;

/// Letters of a string, by qubit.
pub(crate) type Letters = &'static [(usize, Letter)];

/// A circuit, after how many of its steps a string is put in, and the string; where it is another one, the numbers of the records, detectors
/// and additions to observables that it flips, and the string at the end.
type Case = (
    &'static str,
    usize,
    Letters,
    &'static [(usize, Letters)],
    &'static [usize],
    &'static [usize],
    &'static [usize],
    Letters,
);

const X0: Letters = &[(0, Letter::X)];

const X1: Letters = &[(1, Letter::X)];

const Y0: Letters = &[(0, Letter::Y)];

const Z0: Letters = &[(0, Letter::Z)];

const X0_X1: Letters = &[(0, Letter::X), (1, Letter::X)];

const X0_Z1: Letters = &[(0, Letter::X), (1, Letter::Z)];

const Z0_Z1: Letters = &[(0, Letter::Z), (1, Letter::Z)];

const CASES: &[Case] = &[
    // CX takes X of its control to its target, and Z of its target to its control; H exchanges X and Z.
    (
        "R 0 1\nTICK\nCX 0 1\nTICK\nH 1\nTICK\nM 0 1",
        2,
        X0,
        &[(3, X0_X1), (4, X0_Z1)],
        &[0],
        &[],
        &[],
        X0_Z1,
    ),
    ("CX 1 0", 0, Z0, &[(1, Z0_Z1)], &[], &[], &[], Z0_Z1),
    ("CZ 0 1", 0, X0, &[(1, X0_Z1)], &[], &[], &[], X0_Z1),
    // S makes Y of X, and X of Y up to its sign.
    ("S 0\nS 0", 0, X0, &[(1, Y0), (2, X0)], &[], &[], &[], X0),
    ("H 0\nH 1", 0, X0, &[(1, Z0)], &[], &[], &[], Z0),
    // In one instruction the string is reported after all its targets alone.
    ("SWAP 0 1", 0, X0, &[(1, X1)], &[], &[], &[], X1),
    ("SWAP 0 1 0 1", 0, X0, &[], &[], &[], &[], X0),
    // A reset ends it, and so does a measurement that resets, once it is flipped.
    (
        "CX 0 1\nR 0 1\nM 0 1",
        0,
        X0,
        &[(1, X0_X1), (3, &[])],
        &[],
        &[],
        &[],
        &[],
    ),
    ("MR 0\nM 0", 0, X0, &[(1, &[])], &[0], &[], &[], &[]),
    ("MR 0\nM 0", 1, X0, &[], &[1], &[], &[], X0),
    // Also the letter that stabilises there, and what is left of Y: neither comes through.
    ("R 0\nH 0\nM 0", 0, Z0, &[(1, &[])], &[], &[], &[], &[]),
    ("R 0\nH 0\nM 0", 0, Y0, &[(1, &[])], &[], &[], &[], &[]),
    ("MR 0\nH 0\nM 0", 0, Y0, &[(1, &[])], &[0], &[], &[], &[]),
    ("MR 0\nM 0", 0, Z0, &[(1, &[])], &[], &[], &[], &[]),
    // A second measurement of the qubit finds it reset, also if others are between them.
    ("MR 0 0 1 0", 0, Y0, &[(4, &[])], &[0], &[], &[], &[]),
    ("MR 1 1 0 1 0", 0, X0, &[(5, &[])], &[2], &[], &[], &[]),
    // Z anticommutes with X X, and commutes with Z Z.
    ("MPP X0*X1 Z0*Z1", 0, Z0, &[], &[0], &[], &[], Z0),
    // A flipped record puts X on another qubit, where its own measurement shows it.
    (
        "M 0\nCX rec[-1] 1\nM 1",
        0,
        X0,
        &[(2, X0_X1)],
        &[0, 1],
        &[],
        &[],
        X0_X1,
    ),
    ("M 0\nCX rec[-1] 1\nM 1", 1, X0, &[], &[], &[], &[], X0),
    // After two rounds the string is as it was.
    (
        "REPEAT 4 {\nSWAP 0 1\n}",
        0,
        X0,
        &[(1, X1), (2, X0), (3, X1), (4, X0)],
        &[],
        &[],
        &[],
        X0,
    ),
    (
        "REPEAT 4 {\nSWAP 0 1\n}",
        2,
        X0,
        &[(3, X1), (4, X0)],
        &[],
        &[],
        &[],
        X0,
    ),
    (
        "REPEAT 7 {\nSWAP 0 1\n}",
        3,
        X0,
        &[(4, X1), (5, X0), (6, X1), (7, X0)],
        &[],
        &[],
        &[],
        X0,
    ),
    // It comes back after two rounds, and in every other one it is measured as X. In each two records differ.
    (
        "M 0\nREPEAT 7 {\nH 0\nM 0\nDETECTOR rec[-1] rec[-2]\n}",
        0,
        X0,
        &[
            (2, Z0),
            (5, X0),
            (8, Z0),
            (11, X0),
            (14, Z0),
            (17, X0),
            (20, Z0),
        ],
        &[0, 2, 4, 6],
        &[0, 1, 2, 3, 4, 5, 6],
        &[],
        Z0,
    ),
    // In each round it goes to a qubit that is measured and reset, and flips its record.
    (
        "R 1\nREPEAT 5 {\nCX 0 1\nMR 1\nDETECTOR rec[-1]\nOBSERVABLE_INCLUDE(0) rec[-1]\n}",
        1,
        X0,
        &[
            (2, X0_X1),
            (3, X0),
            (6, X0_X1),
            (7, X0),
            (10, X0_X1),
            (11, X0),
            (14, X0_X1),
            (15, X0),
            (18, X0_X1),
            (19, X0),
        ],
        &[0, 1, 2, 3, 4],
        &[0, 1, 2, 3, 4],
        &[0, 1, 2, 3, 4],
        X0,
    ),
    // The first round looks back to the flipped record before the block, and no later one does.
    (
        "MR 0\nM 1\nREPEAT 6 {\nCX rec[-2] 1\nM 0\n}",
        0,
        X0,
        &[(1, &[]), (3, X1)],
        &[0],
        &[],
        &[],
        X1,
    ),
    // So does the second alone, though the string comes to it as it came to the first.
    (
        "M 1\nMR 0\nREPEAT 6 {\nCX rec[-2] 1\nM 0\n}",
        0,
        X0,
        &[(2, &[]), (5, X1)],
        &[1],
        &[],
        &[],
        X1,
    ),
    // It is gone after the first round, and a detector after the block looks back to the record that it flipped there.
    (
        "R 1\nREPEAT 9 {\nMR 0\nDETECTOR rec[-1]\n}\nDETECTOR rec[-9]",
        1,
        X0,
        &[(2, &[])],
        &[0],
        &[0, 9],
        &[],
        &[],
    ),
    (
        "REPEAT 2 {\nREPEAT 2 {\nS 0\n}\nM 0\n}",
        3,
        X0,
        &[(4, Y0), (5, X0)],
        &[1],
        &[],
        &[],
        X0,
    ),
    // X X stabilises the pair: of two random outcomes that agree it flips both.
    (
        "H 0\nCX 0 1\nM 0 1",
        2,
        X0_X1,
        &[],
        &[0, 1],
        &[],
        &[],
        X0_X1,
    ),
    // Of the records of one instruction those after the string are flipped.
    ("M 0 0 0", 1, X0, &[], &[1, 2], &[], &[], X0),
    (
        "M 0 1\nDETECTOR rec[-1]\nDETECTOR rec[-2]\nDETECTOR rec[-1] rec[-2]\nOBSERVABLE_INCLUDE(0) rec[-1]\nOBSERVABLE_INCLUDE(0) rec[-2]",
        0,
        X1,
        &[],
        &[1],
        &[0, 2],
        &[0],
        X1,
    ),
    // At the end nothing follows.
    ("H 0\nH 1", 2, X0_X1, &[], &[], &[], &[], X0_X1),
    ("", 0, X0, &[], &[], &[], &[], X0),
    // A block without steps is passed at once.
    (
        "REPEAT 1000000000000 {\nTICK\n}\nH 0",
        0,
        X0,
        &[(1, Z0)],
        &[],
        &[],
        &[],
        Z0,
    ),
];

/// Whether these are the letters of a string.
fn are(found: &[PlacedLetter], wanted: Letters) -> bool {
    let mut same = found.len() == wanted.len();
    for index in 0..found.len().min(wanted.len()) {
        let (qubit, letter) = wanted[index];
        same = same && found[index].qubit == qubit && found[index].letter == letter;
    }
    same
}

/// Whether a string has these letters, and no others.
pub(crate) fn left(letters: &[Letter], wanted: Letters) -> bool {
    let mut next = 0;
    for qubit in 0..letters.len() {
        if letters[qubit] == Letter::I {
            continue;
        }
        if next >= wanted.len() || wanted[next].0 != qubit || wanted[next].1 != letters[qubit] {
            return false;
        }
        next += 1;
    }
    next == wanted.len()
}

/// Whether bits are 1 at these numbers alone.
fn ones(bits: &[bool], wanted: &[usize]) -> bool {
    let mut next = 0;
    for number in 0..bits.len() {
        if !bits[number] {
            continue;
        }
        if next >= wanted.len() || wanted[next] != number {
            return false;
        }
        next += 1;
    }
    next == wanted.len()
}

/// Whether additions are flipped at these numbers alone.
fn flipped(additions: &[Addition], wanted: &[usize]) -> bool {
    let mut next = 0;
    for number in 0..additions.len() {
        if !additions[number].bit {
            continue;
        }
        if next >= wanted.len() || wanted[next] != number {
            return false;
        }
        next += 1;
    }
    next == wanted.len()
}

/// Whether a string becomes these.
pub(crate) fn turns(way: &Way, wanted: &[(usize, Letters)]) -> bool {
    let found = way.turns.as_slice();
    let mut same = found.len() == wanted.len();
    for index in 0..found.len().min(wanted.len()) {
        let (after, string) = wanted[index];
        same = same && found[index].after == after && are(found[index].string.as_slice(), string);
    }
    same
}

/// Puts a letter at a qubit, if the string has one there.
pub(crate) fn set(string: &mut Pauli, qubit: usize, letter: Letter) {
    if qubit < string.len() {
        string.set(qubit, letter);
    }
}

/// The way of a string of two letters, of which these are not I.
pub(crate) fn way(alloc: Global, circuit: &Circuit, steps: usize, letters: Letters) -> Option<Way> {
    let mut string = Pauli::identity(alloc, 2).ok()?;
    for (qubit, letter) in letters {
        set(&mut string, *qubit, *letter);
    }
    circuit.check(string.len()).ok()?;
    way_of(alloc, circuit, false, steps, &string).ok()
}

fn answers(alloc: Global, case: &Case) -> bool {
    let (text, steps, letters, reported, records, detectors, additions, end) = *case;
    let Ok(circuit) = read_circuit(alloc, &mut MemoryInput::new(text.as_bytes())) else {
        return false;
    };
    let Some(found) = way(alloc, &circuit, steps, letters) else {
        return false;
    };
    turns(&found, reported)
        && ones(found.end.records(), records)
        && ones(found.end.detectors(), detectors)
        && flipped(found.end.additions(), additions)
        && left(found.end.letters(), end)
}

#[test]
fn strings_go_as_worked_by_hand(rt: HostRuntime) -> Result<(), Fail> {
    for case in CASES {
        let right = answers(rt.alloc(), case);
        let text = case.0;
        assert!(rt; right, "{text}");
    }
    Ok(())
}
