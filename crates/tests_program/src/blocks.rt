//! Several shots of blocks whose rounds come again. They go one after another, and give again what rounds before gave; those of
//! the same lines written out go at once, and carry out each line.
use stab_cli::{Source, run_detect, run_sample};
use stab_pauli::{Fault, MemoryInput, MemoryOutput};
use stab_results::Format;
use std::alloc::{AllocError, Global};
use std::test::Fail;

/// How many shots there are.
const SHOTS: usize = 3;

/// More bytes than they are written in.
const ROOM: usize = 65_536;

/// A block, with the lines around it.
struct Case {
    before: &'static str,
    first_line: &'static str,
    /// How many rounds that line says.
    rounds: usize,
    body: &'static str,
    after: &'static str,
}

const CASES: &[Case] = &[
    // A repetition code, after a first round in which coins decide.
    Case {
        before: "H 0 2 4\nM 1 3\n",
        first_line: "REPEAT 1000 {\n",
        rounds: 1000,
        body: "CX 0 1 2 1 2 3 4 3\nMR 1 3\nDETECTOR rec[-1] rec[-3]\nOBSERVABLE_INCLUDE(1) rec[-2]\n",
        after: "M 0 2 4\nDETECTOR rec[-1] rec[-2] rec[-4]\n",
    },
    // A coin decides whether each round is the same, or every other one.
    Case {
        before: "H 0\nM 0\n",
        first_line: "REPEAT 1200 {\n",
        rounds: 1200,
        body: "CX rec[-1] 1\nM 0\nDETECTOR rec[-1]\n",
        after: "M 1\n",
    },
    // If a coin decides in each round, or too few rounds come again, a shot is given up on its way.
    Case {
        before: "",
        first_line: "REPEAT 1100 {\n",
        rounds: 1100,
        body: "H 0\nM 0\n",
        after: "M 0\n",
    },
    Case {
        before: "H 0\nM 0\nREPEAT 3 {\nX 0\nM 0\n}\n",
        first_line: "REPEAT 700 {\n",
        rounds: 700,
        body: "SWAP 0 1 1 2\nM 0 1\nDETECTOR rec[-2]\n",
        after: "REPEAT 2000 {\nH 0\nM 0\n}\n",
    },
];

/// The lines of a case, with its body this often between a first and a last line.
fn lines_of(
    alloc: Global,
    case: &Case,
    first: &str,
    times: usize,
    last: &str,
) -> Result<Vec<u8>, AllocError> {
    let mut text = Vec::from_slice(alloc, case.before.as_bytes())?;
    text.extend_from_slice(first.as_bytes())?;
    for _ in 0..times {
        text.extend_from_slice(case.body.as_bytes())?;
    }
    text.extend_from_slice(last.as_bytes())?;
    text.extend_from_slice(case.after.as_bytes())?;
    Ok(text)
}

/// Writes what `sample` writes for the shots of a text, and after it what `detect` does.
fn write_shots(alloc: Global, text: &[u8], out: &mut MemoryOutput) -> Result<(), Fault> {
    let source = Source::Seed(3);
    run_sample(
        alloc,
        &mut MemoryInput::new(text),
        out,
        Format::B8,
        SHOTS,
        &source,
    )?;
    run_detect(
        alloc,
        &mut MemoryInput::new(text),
        out,
        Format::B8,
        true,
        SHOTS,
        &source,
    )
}

/// What is written for the shots of a case, with its body this often between a first and a last line.
fn shown_of(
    alloc: Global,
    case: &Case,
    first: &str,
    times: usize,
    last: &str,
) -> Result<MemoryOutput, Fail> {
    let text = lines_of(alloc, case, first, times, last)?;
    let mut out = MemoryOutput::new(alloc, ROOM)?;
    write_shots(alloc, text.as_slice(), &mut out)?;
    Ok(out)
}

/// Whether a block shows what the same lines written out show.
fn agrees(alloc: Global, case: &Case) -> Result<bool, Fail> {
    let block = shown_of(alloc, case, case.first_line, 1, "}\n")?;
    let lines = shown_of(alloc, case, "", case.rounds, "")?;
    Ok(block.bytes() == lines.bytes())
}

#[test]
fn shots_of_blocks_show_what_they_show_written_out(rt: HostRuntime) -> Result<(), Fail> {
    let mut same = true;
    for case in CASES {
        same &= agrees(rt.alloc(), case)?;
    }
    assert!(rt; same);
    Ok(())
}
