//! What the words of the command line ask for.
use crate::jobs::job_of;
use stab_cli::{Job, Source, Usage, write_usage};
use stab_pauli::MemoryOutput;
use std::alloc::Global;
use std::test::Fail;

/// The job that a line asks for. One space separates its words, so that one may be empty.
fn job_of_line(alloc: Global, line: &str) -> Result<Job, Fail> {
    let words: Vec<&str> = line.split(' ').collect(alloc)?;
    job_of(alloc, words.as_slice())
}

/// The text of the job that a line asks for: its command, where its coins come from, and the files that it reads and writes.
fn text_of(alloc: Global, line: &str) -> Result<String, Fail> {
    let job = job_of_line(alloc, line)?;
    let text = format!(in alloc;
        "{:?} {:?} {:?} {:?}",
        job.command, job.source, job.in_path, job.out_path
    )?;
    Ok(text)
}

/// Reports a line of `JOBS` that asks for another job.
fn expect_job(alloc: Global, row: &str) -> Result<(), Fail> {
    let (line, text) = row.split_once('|').unwrap_or((row, ""));
    let asked = text_of(alloc, line)?;
    if asked.as_str() == text {
        return Ok(());
    }
    Err(Fail::new(format_args!("{line:?} asks for {asked}")))
}

/// Lines of words, each with the text of its job after a bar.
const JOBS: &str =
    r#"stabsim sample|Sample { format: F01, shots: Shots { first: 0, number: 1 } } Seed(0) None None
stabsim detect|Detect { format: F01, shots: Shots { first: 0, number: 1 }, append: false } Seed(0) None None
stabsim sample --shots 12 --out_format dets --seed 34 --in a.stim --out b/c.dets|Sample { format: Dets, shots: Shots { first: 0, number: 12 } } Seed(34) Some("a.stim") Some("b/c.dets")
stabsim detect --out b/c.dets --append_observables --in=a.stim --seed=34 --out_format=dets --shots=12|Detect { format: Dets, shots: Shots { first: 0, number: 12 }, append: true } Seed(34) Some("a.stim") Some("b/c.dets")
stabsim propagate --at 3/0 X0*Z1 --in a.stim|Propagate { every: false } Seed(0) Some("a.stim") None
stabsim propagate --every --at 3/0 X0*Z1 --in a.stim|Propagate { every: true } Seed(0) Some("a.stim") None
stabsim propagate_each --in a.stim|PropagateEach { everywhere: false } Seed(0) Some("a.stim") None
stabsim propagate_each --everywhere|PropagateEach { everywhere: true } Seed(0) None None
stabsim sample --first_shot 5 --shots=2|Sample { format: F01, shots: Shots { first: 5, number: 2 } } Seed(0) None None
stabsim detect --first_shot=18446744073709551615|Detect { format: F01, shots: Shots { first: 18446744073709551615, number: 1 }, append: false } Seed(0) None None
stabsim sample --out_format 01|Sample { format: F01, shots: Shots { first: 0, number: 1 } } Seed(0) None None
stabsim sample --out_format b8|Sample { format: B8, shots: Shots { first: 0, number: 1 } } Seed(0) None None
stabsim sample --out_format r8|Sample { format: R8, shots: Shots { first: 0, number: 1 } } Seed(0) None None
stabsim sample --out_format hits|Sample { format: Hits, shots: Shots { first: 0, number: 1 } } Seed(0) None None
stabsim sample --out_format dets|Sample { format: Dets, shots: Shots { first: 0, number: 1 } } Seed(0) None None
stabsim sample --shots 0|Sample { format: F01, shots: Shots { first: 0, number: 0 } } Seed(0) None None
stabsim sample --shots 1|Sample { format: F01, shots: Shots { first: 0, number: 1 } } Seed(0) None None
stabsim sample --shots 007|Sample { format: F01, shots: Shots { first: 0, number: 7 } } Seed(0) None None
stabsim sample --shots +7|Sample { format: F01, shots: Shots { first: 0, number: 7 } } Seed(0) None None
stabsim sample --shots 1000000|Sample { format: F01, shots: Shots { first: 0, number: 1000000 } } Seed(0) None None
stabsim sample --seed 7|Sample { format: F01, shots: Shots { first: 0, number: 1 } } Seed(7) None None
stabsim detect --seed 007|Detect { format: F01, shots: Shots { first: 0, number: 1 }, append: false } Seed(7) None None
stabsim sample --seed +7|Sample { format: F01, shots: Shots { first: 0, number: 1 } } Seed(7) None None
stabsim sample --seed 18446744073709551615|Sample { format: F01, shots: Shots { first: 0, number: 1 } } Seed(18446744073709551615) None None
stabsim sample --coins 1|Sample { format: F01, shots: Shots { first: 0, number: 1 } } List([true]) None None
stabsim detect --coins 0110|Detect { format: F01, shots: Shots { first: 0, number: 1 }, append: false } List([false, true, true, false]) None None
stabsim sample --coins=10|Sample { format: F01, shots: Shots { first: 0, number: 1 } } List([true, false]) None None
stabsim sample --coins |Sample { format: F01, shots: Shots { first: 0, number: 1 } } List([]) None None
stabsim sample --coins=|Sample { format: F01, shots: Shots { first: 0, number: 1 } } List([]) None None
stabsim sample --seed 7 --coins 10|Sample { format: F01, shots: Shots { first: 0, number: 1 } } List([true, false]) None None
stabsim detect --coins 10 --seed 7|Detect { format: F01, shots: Shots { first: 0, number: 1 }, append: false } List([true, false]) None None
stabsim sample --seed 7 --coins |Sample { format: F01, shots: Shots { first: 0, number: 1 } } List([]) None None
stabsim edit|Edit { framed: false, qubits: None, stride: Stride { steps: 8192 } } Seed(0) None None
stabsim edit --qubits 0|Edit { framed: false, qubits: Some(QubitCount { number: 0 }), stride: Stride { steps: 8192 } } Seed(0) None None
stabsim edit --qubits 0017|Edit { framed: false, qubits: Some(QubitCount { number: 17 }), stride: Stride { steps: 8192 } } Seed(0) None None
stabsim edit --stride=1 --qubits=1024|Edit { framed: false, qubits: Some(QubitCount { number: 1024 }), stride: Stride { steps: 1 } } Seed(0) None None
stabsim edit --framed|Edit { framed: true, qubits: None, stride: Stride { steps: 8192 } } Seed(0) None None
stabsim edit --stride 65536|Edit { framed: false, qubits: None, stride: Stride { steps: 65536 } } Seed(0) None None
stabsim edit --seed=34 --out b/c.01 --in a.stim|Edit { framed: false, qubits: None, stride: Stride { steps: 8192 } } Seed(34) Some("a.stim") Some("b/c.01")
stabsim stabilisers|Stabilisers Seed(0) None None
stabsim stabilisers --seed=34 --out b/c.rows --in a.stim|Stabilisers Seed(34) Some("a.stim") Some("b/c.rows")
stabsim stabilisers --seed 7 --coins 10|Stabilisers List([true, false]) None None
stabsim stabilizers --coins=1 --in a.stim|Stabilisers List([true]) Some("a.stim") None
stabsim check|Check Seed(0) None None
stabsim check --out=b.txt --in a.stim|Check Seed(0) Some("a.stim") Some("b.txt")
stabsim deterministic|Deterministic { format: F01 } Seed(0) None None
stabsim deterministic --out_format=hits --in a.stim|Deterministic { format: Hits } Seed(0) Some("a.stim") None
stabsim faults|Faults { layout: Lines, everywhere: false, deterministic_only: false } Seed(0) None None
stabsim faults --everywhere --out=b.txt|Faults { layout: Lines, everywhere: true, deterministic_only: false } Seed(0) None Some("b.txt")
stabsim faults --sure_only --out_format 01|Faults { layout: Shots(F01), everywhere: false, deterministic_only: true } Seed(0) None None
stabsim faults --out_format r8|Faults { layout: Shots(R8), everywhere: false, deterministic_only: false } Seed(0) None None
stabsim faults --out_format=dets --sure_only --everywhere|Faults { layout: Shots(Dets), everywhere: true, deterministic_only: true } Seed(0) None None
stabsim faults --deterministic_only|Faults { layout: Lines, everywhere: false, deterministic_only: true } Seed(0) None None
stabsim deterministic --explain --out_format=b8 --out=b.txt|Explain Seed(0) None Some("b.txt")
stabsim coins --in a.stim|Coins { layout: Lines } Seed(0) Some("a.stim") None
stabsim coins --out_format hits|Coins { layout: Shots(Hits) } Seed(0) None None
stabsim distance|Distance { question: Least, options: DistanceOptions { everywhere: false, letters: All, graphlike: false, observable: None, most: None, deterministic_only: false, progress: false } } Seed(0) None None
stabsim distance --everywhere --letters=XZ --most 1000000000 --in=a.stim|Distance { question: Least, options: DistanceOptions { everywhere: true, letters: XAndZ, graphlike: false, observable: None, most: Some(1000000000), deterministic_only: false, progress: false } } Seed(0) Some("a.stim") None
stabsim distance --most=0 --graphlike --progress --deterministic_only --letters all|Distance { question: Least, options: DistanceOptions { everywhere: false, letters: All, graphlike: true, observable: None, most: Some(0), deterministic_only: true, progress: true } } Seed(0) None None
stabsim distance --observable 4095|Distance { question: Least, options: DistanceOptions { everywhere: false, letters: All, graphlike: false, observable: Some(4095), most: None, deterministic_only: false, progress: false } } Seed(0) None None
stabsim distance --each --most 3 --graphlike|Distance { question: Each, options: DistanceOptions { everywhere: false, letters: All, graphlike: true, observable: None, most: Some(3), deterministic_only: false, progress: false } } Seed(0) None None
stabsim distance --table --everywhere|Distance { question: Errors(Table), options: DistanceOptions { everywhere: true, letters: All, graphlike: false, observable: None, most: None, deterministic_only: false, progress: false } } Seed(0) None None
stabsim distance --wcnf --letters XZ|Distance { question: Errors(Wcnf), options: DistanceOptions { everywhere: false, letters: XAndZ, graphlike: false, observable: None, most: None, deterministic_only: false, progress: false } } Seed(0) None None
stabsim distance --count --observable 0 --most=9|Distance { question: Counted, options: DistanceOptions { everywhere: false, letters: All, graphlike: false, observable: Some(0), most: Some(9), deterministic_only: false, progress: false } } Seed(0) None None
stabsim distance --part 3/4 --most 9 --everywhere|Distance { question: Part(SearchPart { index: 2, count: 4 }), options: DistanceOptions { everywhere: true, letters: All, graphlike: false, observable: None, most: Some(9), deterministic_only: false, progress: false } } Seed(0) None None
stabsim distance --sure_only|Distance { question: Least, options: DistanceOptions { everywhere: false, letters: All, graphlike: false, observable: None, most: None, deterministic_only: true, progress: false } } Seed(0) None None"#;

#[test]
fn words_ask_for_a_job(rt: HostRuntime) -> Result<(), Fail> {
    for row in JOBS.lines() {
        expect_job(rt.alloc(), row)?;
    }
    Ok(())
}

/// Whether a job names this file of coins, and has no coin yet.
fn names_coins(job: &Job) -> bool {
    let named = match &job.coins_path {
        Some(path) => path.as_str() == "a.coins",
        None => false,
    };
    match &job.source {
        Source::List(coins) => named && coins.is_empty(),
        _ => false,
    }
}

/// Whether a command with a seed and a file of coins has a job that names that file.
fn takes_coins(alloc: Global, command: &str) -> Result<bool, Fail> {
    let words = ["stabsim", command, "--seed", "7", "--coins_in", "a.coins"];
    let job = job_of(alloc, &words)?;
    Ok(names_coins(&job))
}

/// Whether coins in a word name no file.
fn needs_no_file(alloc: Global) -> Result<bool, Fail> {
    let job = job_of(alloc, &["stabsim", "sample", "--coins", "1"])?;
    Ok(job.coins_path.is_none())
}

#[test]
fn a_file_of_coins_is_named_and_not_yet_read(rt: HostRuntime) -> Result<(), Fail> {
    let mut named = needs_no_file(rt.alloc())?;
    for command in &["sample", "detect", "stabilisers", "edit"] {
        named &= takes_coins(rt.alloc(), command)?;
    }
    assert!(rt; named);
    Ok(())
}

#[test]
fn help_that_cannot_be_flushed_has_status_1(rt: HostRuntime) -> Result<(), Fail> {
    let mut out = MemoryOutput::new(rt.alloc(), 99)?;
    out.fail_flush();
    let mut err = MemoryOutput::new(rt.alloc(), 99)?;
    let help = Usage::Help(String::from_str(rt.alloc(), "help")?);
    let status = write_usage(&help, &mut out, &mut err);
    let reported = out.bytes() == b"help".as_slice()
        && err.bytes() == b"stabsim: refused 16 WriteFault\n".as_slice();
    assert!(rt; reported && status == 1);
    Ok(())
}
