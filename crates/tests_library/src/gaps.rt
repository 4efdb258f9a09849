//! The steps that are after each occurrence of an item in blocks.
use crate::circuit_edits::path_of;
use crate::circuits::read;
use std::alloc::Global;
use std::test::Fail;

/// Whether these are the gaps after the item at a path, or there are none and none are wanted.
fn are_gaps(
    alloc: Global,
    text: &str,
    numbers: &[usize],
    wanted: Option<&[usize]>,
) -> Result<bool, Fail> {
    let circuit = read(alloc, text)?;
    if circuit.steps() > 1_048_576 {
        return Ok(false);
    }
    match (circuit.gaps(alloc, path_of(numbers))?, wanted) {
        (None, None) => Ok(true),
        (Some(gaps), Some(wanted)) => Ok(gaps.as_slice() == wanted),
        (None, Some(_)) | (Some(_), None) => Ok(false),
    }
}

// Two steps; then three rounds of X, of two rounds of nothing, and of two rounds of M M; then one step.
const NESTED: &str =
    "H 0 1\nREPEAT 3 {\nX 0\nREPEAT 2 {\nTICK\n}\nREPEAT 2 {\nM 0 1\n}\n}\nDETECTOR rec[-1]";

// Two rounds of H, of three rounds of S S X Z Z Z, and of four H.
const AROUND: &str = "REPEAT 2 {\nH 0\nREPEAT 3 {\nS 0 1\nX 0\nZ 0 1 2\n}\nH 1 2 3 4\n}\nX 5";

// Sixteen blocks, one in another, about a gate.
const DEEP: &str =
    "REPEAT 1 {\nREPEAT 1 {\nREPEAT 1 {\nREPEAT 1 {\nREPEAT 1 {\nREPEAT 1 {\nREPEAT 1 {\nREPEAT 1 {\nREPEAT 1 {\nREPEAT 1 {\nREPEAT 1 {\nREPEAT 1 {\nREPEAT 1 {\nREPEAT 1 {\nREPEAT 1 {\nREPEAT 2 {\nTICK\nX 0 1 2\n}\n}\n}\n}\n}\n}\n}\n}\n}\n}\n}\n}\n}\n}\n}\n}";

const TOO_MANY: &str = "REPEAT 1048577 {\nTICK\n}";

// Texts, the numbers of a path, and how many steps are after the item there, time after time.
const CASES: &[(&str, &[usize], Option<&[usize]>)] = &[
    (NESTED, &[0], Some(&[0])),
    (NESTED, &[2], Some(&[0])),
    (NESTED, &[1, 0], Some(&[4, 4, 4])),
    (NESTED, &[1, 1, 0], Some(&[0, 5, 0, 5, 0, 4])),
    (NESTED, &[1, 1], Some(&[5, 5, 4])),
    (NESTED, &[1, 2, 0], Some(&[0, 1, 0, 1, 0, 0])),
    (AROUND, &[0, 0], Some(&[22, 22])),
    (AROUND, &[0, 1, 1], Some(&[5, 5, 10, 5, 5, 7])),
    (AROUND, &[0, 1, 2], Some(&[3, 3, 8, 3, 3, 4])),
    (AROUND, &[0, 2], Some(&[19, 0])),
    (
        DEEP,
        &[0, 0, 0, 0, 0, 0, 0, 0, 0, 0, 0, 0, 0, 0, 0, 0, 0],
        Some(&[3, 3]),
    ),
    (
        DEEP,
        &[0, 0, 0, 0, 0, 0, 0, 0, 0, 0, 0, 0, 0, 0, 0, 0, 1],
        Some(&[0, 0]),
    ),
    (NESTED, &[0, 0], None),
    (NESTED, &[9, 0], None),
    (NESTED, &[1, 0, 0], None),
    (TOO_MANY, &[0, 0], None),
];

#[test]
fn the_steps_after_each_occurrence_are_counted(rt: HostRuntime) -> Result<(), Fail> {
    for &(text, path, gaps) in CASES {
        let are = are_gaps(rt.alloc(), text, path, gaps)?;
        assert!(rt; are, "{text}");
    }
    Ok(())
}
