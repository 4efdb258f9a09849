//! The items that the unrolled steps of a circuit are of.
use stab_circuit::read_circuit;
use stab_items::write_path;
use stab_pauli::{MemoryInput, MemoryOutput};
use std::alloc::Global;
use std::test::Fail;

/// Whether this is the text of the path of a step's item, and this many steps from there on are the item's in the
/// same round.
fn is_found(
    alloc: Global,
    circuit: &str,
    step: usize,
    path: &str,
    steps: usize,
) -> Result<bool, Fail> {
    let circuit = read_circuit(alloc, &mut MemoryInput::new(circuit.as_bytes()))?;
    if step >= circuit.steps() {
        return Ok(false);
    }
    let item = circuit.item_of_step(step);
    let mut out = MemoryOutput::new(alloc, 64)?;
    write_path(&mut out, &item.path)?;
    Ok(out.bytes() == path.as_bytes() && item.steps == steps)
}

// Steps 0 and 1 are of item 0. Then come three rounds of five steps, one of item 0 and four of item 2 of the
// block; then two steps of item 3, and one of item 4. Items without steps are between.
const NESTED: &str =
    "H 0 1\nTICK\nREPEAT 3 {\nX 0\nREPEAT 2 {\nTICK\n}\nREPEAT 2 {\nM 0 1\n}\n}\nCX 0 1 2 3\nDETECTOR rec[-1]";

// A thousand rounds of a thousand gates and a measurement.
const ROUNDS_IN_ROUNDS: &str = "REPEAT 1000 {\nREPEAT 1000 {\nX 0\n}\nM 0\n}";

// Sixteen blocks, one in another, about a gate.
const DEEP: &str =
    "REPEAT 1 {\nREPEAT 1 {\nREPEAT 1 {\nREPEAT 1 {\nREPEAT 1 {\nREPEAT 1 {\nREPEAT 1 {\nREPEAT 1 {\nREPEAT 1 {\nREPEAT 1 {\nREPEAT 1 {\nREPEAT 1 {\nREPEAT 1 {\nREPEAT 1 {\nREPEAT 1 {\nREPEAT 1 {\nTICK\nX 0 1 2\n}\n}\n}\n}\n}\n}\n}\n}\n}\n}\n}\n}\n}\n}\n}\n}";

// Texts, steps, the paths of their items, and how many steps are the item's.
const CASES: &[(&str, usize, &str, usize)] = &[
    (NESTED, 0, "0", 2),
    (NESTED, 1, "0", 1),
    (NESTED, 2, "2/0", 1),
    (NESTED, 3, "2/2/0", 2),
    (NESTED, 4, "2/2/0", 1),
    (NESTED, 5, "2/2/0", 2),
    (NESTED, 6, "2/2/0", 1),
    (NESTED, 7, "2/0", 1),
    (NESTED, 16, "2/2/0", 1),
    (NESTED, 17, "3", 2),
    (NESTED, 18, "3", 1),
    (NESTED, 19, "4", 1),
    (ROUNDS_IN_ROUNDS, 1000, "0/1", 1),
    (ROUNDS_IN_ROUNDS, 1_000_998, "0/0/0", 1),
    (ROUNDS_IN_ROUNDS, 1_000_999, "0/1", 1),
    (DEEP, 1, "0/0/0/0/0/0/0/0/0/0/0/0/0/0/0/0/1", 2),
    ("X 0\nM 0 1 2 3 4 5 6 7 8 9 10", 4, "1", 8),
];

#[test]
fn a_step_is_of_the_item_at_its_path(rt: HostRuntime) -> Result<(), Fail> {
    for &(text, step, path, steps) in CASES {
        let right = is_found(rt.alloc(), text, step, path, steps)?;
        assert!(rt; right, "{text} at step {step}");
    }
    Ok(())
}
