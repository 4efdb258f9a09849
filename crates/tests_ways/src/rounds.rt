//! Strings that come to rounds of long blocks as they came to earlier ones.
use crate::ways::{Letters, left, turns, way};
use stab_circuit::read_circuit;
use stab_pauli::{Letter, MemoryInput};
use std::alloc::Global;
use std::test::Fail;

/// A circuit, after how many of its steps a string is put in, and the string; where it is another one; how many records there are, which is
/// the first that is flipped, and the spacing of those flipped after it; the same of detectors; and the string at the end.
type Case = (
    &'static str,
    usize,
    Letters,
    &'static [(usize, Letters)],
    (usize, usize, usize),
    (usize, usize, usize),
    Letters,
);

const X0: Letters = &[(0, Letter::X)];

const X1: Letters = &[(1, Letter::X)];

const Z0: Letters = &[(0, Letter::Z)];

const CASES: &[Case] = &[
    // No gate is on its qubit, which is measured at the end.
    (
        "REPEAT 1000000 {\nH 0\n}\nM 0 1",
        0,
        X1,
        &[],
        (2, 1, 1),
        (0, 0, 1),
        X1,
    ),
    // X of a target stays X: it goes through each round, and what is measured commutes with it.
    (
        "REPEAT 300000 {\nCX 1 0\nMR 1\nDETECTOR rec[-1]\n}",
        450000,
        X0,
        &[],
        (300000, 300000, 1),
        (300000, 300000, 1),
        X0,
    ),
    // In round 1000 of 250,000 and in all later ones its qubit is measured.
    (
        "REPEAT 250000 {\nM 0 1\nDETECTOR rec[-1]\nDETECTOR rec[-2]\n}",
        4000,
        X1,
        &[],
        (500000, 2001, 2),
        (500000, 2000, 2),
        X1,
    ),
    // It is put in before the last three of a million rounds.
    (
        "REPEAT 1000000 {\nH 0\n}",
        999997,
        X0,
        &[(999998, Z0), (999999, X0), (1000000, Z0)],
        (0, 0, 1),
        (0, 0, 1),
        Z0,
    ),
    // The first round resets it.
    (
        "REPEAT 1000 {\nREPEAT 500 {\nR 0\n}\nM 0\n}",
        0,
        X0,
        &[(1, &[])],
        (1000, 1000, 1),
        (0, 0, 1),
        &[],
    ),
    // In each round it comes through the rounds of an inner block, and is measured.
    (
        "REPEAT 1000 {\nREPEAT 500 {\nR 0\n}\nM 1\n}",
        0,
        X1,
        &[],
        (1000, 0, 1),
        (0, 0, 1),
        X1,
    ),
];

/// Whether there are as many bits as this, and those from one on at a spacing are 1 and no others.
fn flipped(bits: &[bool], wanted: (usize, usize, usize)) -> bool {
    let (count, from, each) = wanted;
    let mut same = bits.len() == count;
    for number in 0..bits.len() {
        let right = number >= from && each > 0 && (number - from) % each == 0;
        same = same && bits[number] == right;
    }
    same
}

fn answers(alloc: Global, case: &Case) -> bool {
    let (text, steps, letters, reported, records, detectors, end) = *case;
    let Ok(circuit) = read_circuit(alloc, &mut MemoryInput::new(text.as_bytes())) else {
        return false;
    };
    let Some(found) = way(alloc, &circuit, steps, letters) else {
        return false;
    };
    turns(&found, reported)
        && flipped(found.end.records(), records)
        && flipped(found.end.detectors(), detectors)
        && left(found.end.letters(), end)
}

#[test]
fn strings_go_through_long_blocks_as_worked_by_hand(rt: HostRuntime) -> Result<(), Fail> {
    for case in CASES {
        let right = answers(rt.alloc(), case);
        let text = case.0;
        assert!(rt; right, "{text}");
    }
    Ok(())
}
