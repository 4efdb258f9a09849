//! What is written when more of a script is asked for.
use crate::jobs::job_of;
use stab_cli::{KeepsLog, LoggedInput, LoggedRead, Unwatched, run_job_watched};
use stab_pauli::{MemoryInput, MemoryOutput};
use std::alloc::{AllocError, Global};
use std::test::Fail;

/// Lines of 13, 13 and 18 bytes, whose replies have 3, 3 and 2.
const SCRIPT: &[u8] = b"insert 0 X 0\ninsert 1 M 0\nshow measurements\n";

/// How many bytes each read of the script hands over in pieces of 13, and how many are written
/// when it is made. The last read finds the end.
const READS: [(usize, usize); 5] = [(13, 0), (13, 3), (13, 6), (5, 6), (0, 8)];

/// Runs a session of one qubit with this script, and gives the status.
fn run_session(
    alloc: Global,
    script: &mut LoggedInput,
    out: &mut MemoryOutput,
) -> Result<u8, Fail> {
    let mut err = MemoryOutput::new(alloc, 64)?;
    let job = job_of(alloc, &["stabsim", "edit", "--qubits", "1"])?;
    let status = run_job_watched::<_, _, _, _, KeepsLog, _>(
        alloc,
        &job,
        &mut MemoryInput::new(b""),
        script,
        out,
        &mut err,
        &mut Unwatched,
    );
    Ok(status)
}

/// How many bytes each read handed over, and how many were written when it was made.
fn reads_of(alloc: Global, log: &[LoggedRead]) -> Result<Vec<(usize, usize)>, AllocError> {
    let mut reads = Vec::new(alloc);
    for read in log {
        reads.push((read.given().len(), read.written()))?;
    }
    Ok(reads)
}

/// Whether the reads were those of `READS`.
fn is_in_turn(alloc: Global, script: &LoggedInput) -> Result<bool, AllocError> {
    match script.reads() {
        Some(log) => Ok(reads_of(alloc, log)?.as_slice() == READS.as_slice()),
        None => Ok(false),
    }
}

/// Whether the session ends well, with the replies.
fn replies(alloc: Global, script: &mut LoggedInput) -> Result<bool, Fail> {
    let mut out = MemoryOutput::new(alloc, 64)?;
    let status = run_session(alloc, script, &mut out)?;
    Ok(status == 0 && out.bytes() == b"ok\nok\n1\n".as_slice())
}

#[test]
fn each_reply_stands_before_more_of_the_script_is_asked_for(rt: HostRuntime) -> Result<(), Fail> {
    let mut script = LoggedInput::new(rt.alloc(), SCRIPT, 13);
    let replied = replies(rt.alloc(), &mut script)?;
    let in_turn = is_in_turn(rt.alloc(), &script)?;
    assert!(rt; in_turn && replied);
    Ok(())
}
