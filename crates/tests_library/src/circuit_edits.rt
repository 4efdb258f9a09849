//! Edits of circuits at paths, and the steps before a path.
use crate::circuits::{fault_of, is_there, prints, read};
use stab_circuit::{Circuit, Edit, Item, Path, Refused, read_item};
use stab_items::Span;
use stab_pauli::Fault;
use std::alloc::Global;
use std::test::Fail;

const ROUNDS: &str = "REPEAT 3 {\n    X 0\n    M 0\n}\nM 0\n";

/// What is done with an item at a path.
#[derive(Clone, Copy)]
pub(crate) enum Call {
    Insert,
    Replace,
    Delete,
}

/// The path of these numbers, which are 1 to 17; else that of the first item.
pub(crate) fn path_of(numbers: &[usize]) -> Path {
    if numbers.is_empty() || numbers.len() > 17 {
        Path::new(&[0])
    } else {
        Path::new(numbers)
    }
}

/// How many steps are before a path, and its first number.
fn steps_to(circuit: &Circuit, numbers: &[usize]) -> (usize, usize) {
    let path = path_of(numbers);
    (circuit.steps_before(path), path.first())
}

// Paths, and how many steps are before them; past the end of a list all its steps are.
const STEPS_BEFORE: &[(&[usize], usize, usize)] = &[
    (&[0], 0, 0),
    (&[1], 2, 1),
    (&[1, 0], 2, 1),
    (&[1, 2], 5, 1),
    (&[1, 9], 6, 1),
    (&[2], 22, 2),
    (&[9], 22, 9),
    (&[9, 1], 22, 9),
    (&[0, 1], 0, 0),
];

#[test]
fn steps_are_counted_up_to_a_place(rt: HostRuntime) -> Result<(), Fail> {
    let circuit = read(rt.alloc(), "X 0 1\nREPEAT 5 {\nH 0\nCX 0 1 2 3\nM 0\n}")?;
    for &(path, steps, first) in STEPS_BEFORE {
        let right = steps_to(&circuit, path) == (steps, first);
        assert!(rt; right, "before {steps}");
    }
    Ok(())
}

/// The refusal's number, or 0; whether an item came back or was taken out; and which steps were
/// changed.
fn reported(answer: Result<(Span, Option<Item>), Refused>) -> (u8, bool, [usize; 3]) {
    match answer {
        Ok((span, taken)) => (0, is_there(taken), [span.first, span.old_end, span.new_end]),
        Err(Refused { fault, item }) => (fault.refusal.number(), is_there(item), [0; 3]),
    }
}

/// The edit that this call is, with the item of a text unless it takes one out.
pub(crate) fn edit_of(alloc: Global, call: Call, place: Path, item: &str) -> Result<Edit, Fault> {
    Ok(match call {
        Call::Insert => Edit::Insert {
            place,
            item: read_item(alloc, item.as_bytes())?,
        },
        Call::Replace => Edit::Replace {
            place,
            item: read_item(alloc, item.as_bytes())?,
        },
        Call::Delete => Edit::Delete { place },
    })
}

/// What an edit on this many qubits answers.
fn judged(
    alloc: Global,
    circuit: &mut Circuit,
    n: usize,
    call: Call,
    numbers: &[usize],
    item: &str,
) -> Result<(u8, bool, [usize; 3]), Fault> {
    let edit = edit_of(alloc, call, path_of(numbers), item)?;
    Ok(reported(circuit.edit(n, edit)))
}

const EDITS: &[(Call, &[usize], &str, usize, (u8, bool, [usize; 3]))] = &[
    (
        Call::Insert,
        &[0, 1],
        "DETECTOR rec[-1]",
        1,
        (8, true, [0; 3]),
    ),
    (Call::Insert, &[0, 1], "X 1", 1, (6, true, [0; 3])),
    (Call::Insert, &[0, 1], "X 1", 2, (0, false, [1, 6, 9])),
    (
        Call::Insert,
        &[0, 1],
        "REPEAT 1048576 {\nX 0\n}",
        2,
        (9, true, [0; 3]),
    ),
    (Call::Insert, &[0, 1], "Y 0 1", 2, (0, false, [1, 9, 15])),
    (Call::Delete, &[0, 1], "", 2, (0, true, [1, 15, 9])),
    (Call::Replace, &[1], "TICK", 2, (0, true, [9, 10, 9])),
];

#[test]
fn an_edit_is_judged_on_its_qubits(rt: HostRuntime) -> Result<(), Fail> {
    let mut circuit = read(rt.alloc(), ROUNDS)?;
    for &(call, path, item, n, answer) in EDITS {
        let found = judged(rt.alloc(), &mut circuit, n, call, path, item)?;
        assert!(rt; found == answer, "{item} on {n}");
    }
    // The circuit has another item in its block and instead of its last one, and no such round.
    let split = fault_of(circuit.split(Path::new(&[0]), u64::MAX));
    let text = "REPEAT 3 {\n    X 0\n    X 1\n    M 0\n}\nTICK\n";
    let printed = prints(rt.alloc(), &circuit, text)?;
    assert!(rt; split == (12, 0) && printed);
    Ok(())
}
