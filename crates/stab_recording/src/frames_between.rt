//! The frame by which a run differs from a checkpoint of its own, or of another run.

ghost use Rattle.std.specs.Prelude.{◌≡◌, ◌-◌, ◌≤◌, length, take, drop, IfOk, IfErr, IfSome};
ghost use Rattle.stab_io.specs.declared.refusal.Refusal.TheVariants.{OutOfMemory};
ghost use Rattle.stab_run.specs.ProgramStates.{output_of};
ghost use Rattle.stab_recording.specs.FramesFrom.{AreCompared, IsFrameFrom};

use crate::checkpoint::Checkpoint;
use stab_frames::{Propagation, between};
use stab_io::Refusal;
use stab_pauli::Pauli;
use stab_run::Outputs;
use stab_tableau::Tableau;
use std::alloc::Global;

/// How many of the newest records are compared to say whether a frame can begin at a checkpoint, in a run that gave this much; none
/// if it can't. This many of its records are those of the checkpoint's run, whose steps look back no further than the lookback
/// window.
fn records_compared(
    outputs: &Outputs,
    checkpoint: &Checkpoint,
    base: usize,
    window: u32,
) -> Option<usize>
    requires within { base ≤ length outputs.now.records.items }
    ensures compared { IfSome result (AreCompared (output_of outputs.now) base window checkpoint.now) }
{
    let records = outputs.records.len();
    if outputs.free.len() == checkpoint.lengths.free && records == checkpoint.lengths.records {
        return Some(records - base);
    }
    let newest = window as usize;
    if newest <= records && newest <= checkpoint.lengths.records {
        Some(newest)
    } else {
        None
    }
}

/// The last elements, as many as `last`, of the first `first` elements of a list.
fn last_of_first(bits: &[bool], first: usize, last: usize) -> &[bool]
    ensures value { result.now ≡ drop (first - last) (take first bits.now) }
{
    between(bits, first.saturating_sub(last), first)
}

/// The frame by which a state, whose run gave this much, differs from a checkpoint of a run, if the rows of both have the same letters.
/// This many records are those of that run, whose steps look back no further than the lookback window.
///
/// Refusal `OutOfMemory` alone.
pub fn frame_between(
    alloc: Global,
    tableau: &Tableau,
    string: &mut Pauli,
    outputs: &Outputs,
    checkpoint: &Checkpoint,
    old: &Outputs,
    base: usize,
    window: u32,
) -> Result<Option<Propagation>, Refusal>
    requires same_qubits { checkpoint.now.tableau.qubits ≡ tableau.now.qubits }
    requires within { base ≤ length outputs.now.records.items }
    requires string { length string.old.letters ≡ tableau.now.qubits }
    requires randomness { checkpoint.now.lengths.free ≤ length old.now.free.items }
    requires records { checkpoint.now.lengths.records ≤ length old.now.records.items }
    ensures string { length string.new.letters ≡ length string.old.letters }
    ensures propagation { IfOk result (λ found. IfSome found (IsFrameFrom tableau.now (output_of outputs.now) (output_of old.now) base window checkpoint.now)) }
    ensures err { IfErr result (λ r. r ≡ OutOfMemory) }
{
    let compared = match records_compared(outputs, checkpoint, base, window) {
        Some(compared) => compared,
        None => return Ok(None),
    };
    if !checkpoint.tableau.frame_to(tableau, string) {
        return Ok(None);
    }
    let mut propagation = Propagation::new(
        alloc,
        tableau.len(),
        old.free.as_slice(),
        checkpoint.lengths.free,
    )?;
    propagation.multiply(string);
    propagation.flip_records(
        last_of_first(old.records.as_slice(), checkpoint.lengths.records, compared),
        last_of_first(outputs.records.as_slice(), outputs.records.len(), compared),
    )?;
    Ok(Some(propagation))
}
