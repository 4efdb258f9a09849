//! Cursors over the unrolled steps of a circuit.
use stab_circuit::{Cursor, read_circuit};
use stab_pauli::{MemoryInput, Refusal};
use std::alloc::Global;
use std::test::Fail;

/// Puts what a cursor gives after a text, a line each.
fn show(
    alloc: Global,
    text: &mut String,
    cursor: &mut Cursor,
    lines: usize,
) -> Result<(), Refusal> {
    for _ in 0..lines {
        let line = format!(in alloc; "{:?}\n", cursor.next())?;
        text.push_str(line.as_str())?;
    }
    Ok(())
}

/// What a cursor gives, this many lines; or twice what it gives from the first step on, if it is started again
/// each time.
fn shown(
    alloc: Global,
    cursor: &mut Cursor,
    lines: usize,
    restarts: bool,
) -> Result<String, Refusal> {
    let mut text = String::new(alloc);
    if restarts {
        cursor.restart();
        show(alloc, &mut text, cursor, lines)?;
        cursor.restart();
    }
    show(alloc, &mut text, cursor, lines)?;
    Ok(text)
}

/// Whether a cursor at a step of a circuit gives these lines.
fn gives(
    alloc: Global,
    circuit: &str,
    step: usize,
    (lines, restarts): (usize, bool),
    steps: &str,
) -> Result<bool, Fail> {
    let circuit = read_circuit(alloc, &mut MemoryInput::new(circuit.as_bytes()))?;
    if step > circuit.steps() {
        return Ok(false);
    }
    let mut cursor = Cursor::at(alloc, &circuit, step)?;
    let text = shown(alloc, &mut cursor, lines, restarts)?;
    Ok(text.as_str() == steps)
}

// A thousand rounds of a thousand gates and a measurement.
const ROUNDS_IN_ROUNDS: &str = "REPEAT 1000 {\nREPEAT 1000 {\nX 0\n}\nM 0\n}";

// Three steps and the end, twice.
const TWICE: &str = "Some(One(S, 0))
Some(One(S, 0))
Some(One(H, 1))
None
Some(One(S, 0))
Some(One(S, 0))
Some(One(H, 1))
None
";

// Texts, positions among their unrolled steps, how many lines are asked for, whether the cursor is started
// again, and the lines.
const CASES: &[(&str, usize, usize, bool, &str)] = &[
    (
        "REPEAT 2 {\nX 0\nM 0 1\n}",
        3,
        5,
        false,
        "Some(One(X, 0))
Some(Collapse { letter: Z, qubit: 0, recorded: true, inverted: false, reset: false })
Some(Collapse { letter: Z, qubit: 1, recorded: true, inverted: false, reset: false })
None
None
",
    ),
    (
        "CX 0 1\nTICK\nSWAP 2 0\nR 0\nMX !1\nMR 2\nQUBIT_COORDS(1) 5\nDETECTOR rec[-1] rec[-2]\nOBSERVABLE_INCLUDE(7) rec[-1]",
        0,
        9,
        false,
        "Some(Two(Cx, 0, 1))
Some(Two(Swap, 2, 0))
Some(Collapse { letter: Z, qubit: 0, recorded: false, inverted: false, reset: true })
Some(Collapse { letter: X, qubit: 1, recorded: true, inverted: true, reset: false })
Some(Collapse { letter: Z, qubit: 2, recorded: true, inverted: false, reset: true })
Some(Detector([1, 2]))
Some(Observable(7, [1]))
None
None
",
    ),
    (
        "REPEAT 2 {\nREPEAT 2 {\nS 0\n}\nH 1\n}",
        1,
        7,
        false,
        "Some(One(S, 0))
Some(One(H, 1))
Some(One(S, 0))
Some(One(S, 0))
Some(One(H, 1))
None
None
",
    ),
    (
        "REPEAT 999999999999999999 {\nREPEAT 999999999999999999 {\nTICK\n}\n}\nH 1",
        0,
        3,
        false,
        "Some(One(H, 1))
None
None
",
    ),
    (
        "MPP X0*X1 Z2 !X0*!Y1*!Z2",
        0,
        5,
        false,
        "Some(Product { factors: [Factor { letter: X, qubit: Qubit { number: 0 }, inverted: false }, Factor { letter: X, qubit: Qubit { number: 1 }, inverted: false }], inverted: false })
Some(Product { factors: [Factor { letter: Z, qubit: Qubit { number: 2 }, inverted: false }], inverted: false })
Some(Product { factors: [Factor { letter: X, qubit: Qubit { number: 0 }, inverted: true }, Factor { letter: Y, qubit: Qubit { number: 1 }, inverted: true }, Factor { letter: Z, qubit: Qubit { number: 2 }, inverted: true }], inverted: true })
None
None
",
    ),
    (
        "MPP !X0*Y1*Z2*X3*Y4*Z5*X6*!Y7*Z8",
        0,
        3,
        false,
        "Some(Product { factors: [Factor { letter: X, qubit: Qubit { number: 0 }, inverted: true }, Factor { letter: Y, qubit: Qubit { number: 1 }, inverted: false }, Factor { letter: Z, qubit: Qubit { number: 2 }, inverted: false }, Factor { letter: X, qubit: Qubit { number: 3 }, inverted: false }, Factor { letter: Y, qubit: Qubit { number: 4 }, inverted: false }, Factor { letter: Z, qubit: Qubit { number: 5 }, inverted: false }, Factor { letter: X, qubit: Qubit { number: 6 }, inverted: false }, Factor { letter: Y, qubit: Qubit { number: 7 }, inverted: true }, Factor { letter: Z, qubit: Qubit { number: 8 }, inverted: false }], inverted: false })
None
None
",
    ),
    (
        "M 0\nCX rec[-1] 2 0 1\nSQRT_Y 3",
        1,
        5,
        false,
        "Some(Controlled(X, 1, 2))
Some(Two(Cx, 0, 1))
Some(One(SqrtY, 3))
None
None
",
    ),
    (
        "MY 0\nMRX !1\nMRY 2\nRX 3\nRY 4\nCY rec[-2] 0\nCZ rec[-1] 1",
        0,
        9,
        false,
        "Some(Collapse { letter: Y, qubit: 0, recorded: true, inverted: false, reset: false })
Some(Collapse { letter: X, qubit: 1, recorded: true, inverted: true, reset: true })
Some(Collapse { letter: Y, qubit: 2, recorded: true, inverted: false, reset: true })
Some(Collapse { letter: X, qubit: 3, recorded: false, inverted: false, reset: true })
Some(Collapse { letter: Y, qubit: 4, recorded: false, inverted: false, reset: true })
Some(Controlled(Y, 2, 0))
Some(Controlled(Z, 1, 1))
None
None
",
    ),
    (
        "REPEAT 1048576 {\nX 0\n}",
        1_048_575,
        3,
        false,
        "Some(One(X, 0))
None
None
",
    ),
    (
        ROUNDS_IN_ROUNDS,
        1_000_998,
        4,
        false,
        "Some(One(X, 0))
Some(Collapse { letter: Z, qubit: 0, recorded: true, inverted: false, reset: false })
None
None
",
    ),
    (
        "X 0",
        1,
        2,
        false,
        "None
None
",
    ),
    (
        "",
        0,
        2,
        false,
        "None
None
",
    ),
    (
        ROUNDS_IN_ROUNDS,
        1000,
        3,
        false,
        "Some(Collapse { letter: Z, qubit: 0, recorded: true, inverted: false, reset: false })
Some(One(X, 0))
Some(One(X, 0))
",
    ),
    ("REPEAT 2 {\nS 0\n}\nH 1", 0, 4, true, TWICE),
    ("REPEAT 2 {\nS 0\n}\nH 1", 1, 4, true, TWICE),
    ("REPEAT 2 {\nS 0\n}\nH 1", 2, 4, true, TWICE),
    ("REPEAT 2 {\nS 0\n}\nH 1", 3, 4, true, TWICE),
];

#[test]
fn a_cursor_gives_the_unrolled_steps_from_a_place(rt: HostRuntime) -> Result<(), Fail> {
    for &(text, step, lines, restarts, steps) in CASES {
        let right = gives(rt.alloc(), text, step, (lines, restarts), steps)?;
        assert!(rt; right, "{text} from step {step}");
    }
    Ok(())
}
