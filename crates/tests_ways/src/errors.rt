//! What each error of small circuits flips and leaves.
use stab_pauli::{MemoryInput, MemoryOutput};
use stab_script::run_propagate_each;
use std::alloc::Global;
use std::test::Fail;

/// A circuit, whether errors are everywhere, and the lines.
type Case = (&'static str, bool, &'static str);

const CASES: &[Case] = &[
    ("", true, ""),
    ("H 0\nM 0", false, ""),
    // CX takes X of its control to its target, where it flips the record.
    (
        "R 0 1\nI 0\nCX 0 1\nM 1\nDETECTOR rec[-1]\nOBSERVABLE_INCLUDE(2) rec[-1]",
        false,
        "2 1 X0 M0 D0 L2 left X0*X1\n2 1 Z0 left Z0\n",
    ),
    // A random outcome is flipped as any other; a reset leaves nothing.
    (
        "R 0\nH 0\nM 0",
        true,
        "1 0 X0 left Z0\n1 0 Z0 M0 left X0\n2 1 X0 M0 left X0\n2 1 Z0 left Z0\n2 2 X0 M0 left X0\n2 2 Z0 left Z0\n3 2 X0 left X0\n3 2 Z0 left Z0\n",
    ),
    ("I 0\nMR 0\nM 0", false, "0 0 X0 M0 left 1\n0 0 Z0 left 1\n"),
    // Each round has its errors, at one path.
    (
        "REPEAT 2 {\nI 0\nSWAP 0 1\n}",
        false,
        "0 0/0 X0 left X0\n0 0/0 Z0 left Z0\n2 0/0 X0 left X1\n2 0/0 Z0 left Z1\n",
    ),
];

fn answers(alloc: Global, case: &Case) -> bool {
    let (text, everywhere, lines) = *case;
    let Ok(mut out) = MemoryOutput::new(alloc, 2048) else {
        return false;
    };
    let done = run_propagate_each(
        alloc,
        &mut MemoryInput::new(text.as_bytes()),
        &mut out,
        everywhere,
    );
    done.is_ok() && out.bytes() == lines.as_bytes()
}

#[test]
fn errors_flip_and_leave_what_was_worked_by_hand(rt: HostRuntime) -> Result<(), Fail> {
    for case in CASES {
        let right = answers(rt.alloc(), case);
        let text = case.0;
        assert!(rt; right, "{text}");
    }
    Ok(())
}
