ghost use Rattle.std.specs.Prelude.{◌≡◌, ◌⊎◌, ℕ, ◌+◌, ◌-◌, ◌≤◌, [], true, false, All, length, take, replicate, IfOk, IfErr};
ghost use Rattle.stab_io.specs.declared.refusal.Refusal.TheVariants.{OutOfMemory};
ghost use Rattle.stab_gates.specs.declared.letter.Letter.TheVariants.{I};
ghost use Rattle.stab_run.specs.Records.{looked_up, ones};
ghost use Rattle.stab_run.specs.Points.{all_coins_of};
ghost use Rattle.stab_frames.specs.inner.Propagates.{IsMissing};
ghost use Rattle.stab_recording.specs.PassedSteps.{MayPropagate};
ghost use Rattle.stab_recording.specs.RestFrames.{AreInOrder, Stabilise, FramesSome, IsRestFrame};

use crate::checkpoint::Checkpoint;
use crate::meeting::has_one;
use crate::propagate::{Stop, propagate_steps};
use crate::states::propagated_checkpoint;
use stab_frames::{Pivots, Propagation};
use stab_io::Refusal;
use stab_items::Cursor;
use stab_pauli::{Letter, Pauli};
use stab_tableau::{CompactTableau, Tableau};
use std::alloc::Global;

/// How many steps are passed together at most: as many as are left.
const MOST_TOGETHER: usize = usize::MAX;

/// Propagates a frame over the steps that a cursor has left, from one step of a run on, past checkpoints of that run in order,
/// until the frame is gone or no step is left. At each checkpoint that it comes to it makes a conjugated one. If it flipped no
/// record that later steps look back to, and its letters stabilise the checkpoint with one of their signs, it flips no sign from
/// there on, and ends; the checkpoint is expanded into the spare tableau if there is one.
///
/// False if a pivot is missing. What it made so far is then irrelevant; the steps that it passed are counted all the same.
///
/// Refusal `OutOfMemory` alone.
pub fn propagate_rest(
    alloc: Global,
    checkpoints: &[Checkpoint],
    from: usize,
    strings: &Pivots,
    free: &[bool],
    window: u32,
    cursor: &mut Cursor,
    propagation: &mut Propagation,
    conjugated: &mut Vec<CompactTableau>,
    spare: &mut Option<Tableau>,
    by_frame: &mut u64,
) -> Result<bool, Refusal>
    requires may { MayPropagate strings.now free.now 0 cursor.old.left by_frame.old propagation.old }
    requires same_qubits { All (λ c. c.tableau.qubits ≡ length propagation.old.letters) checkpoints.now }
    requires order { AreInOrder from (from + length cursor.old.left) checkpoints.now }
    requires nothing_conjugated { conjugated.old.items ≡ [] }
    ensures most { by_frame.new ≤ by_frame.old + length cursor.old.left }
    ensures missing { IfOk result (λ advanced. advanced ≡ false → IsMissing strings.now.strings free.now (propagation.old.coin + all_coins_of (take (by_frame.new - by_frame.old) cursor.old.left))) }
    ensures length { length propagation.new.letters ≡ length propagation.old.letters }
    ensures advanced { IfOk result (λ advanced. advanced ≡ true → IsRestFrame (length propagation.old.letters) strings.now.strings free.now window cursor.old.left from checkpoints.now conjugated.new.items propagation.old propagation.new) }
    ensures err { IfErr result (λ r. r ≡ OutOfMemory) }
{
    let mut at = from;
    for checkpoint in checkpoints {
        let propagated = propagate_steps(
            propagation,
            strings,
            free,
            cursor,
            checkpoint.step - at,
            window,
            true,
            by_frame,
        )?;
        match propagated.stop {
            Stop::NoString => return Ok(false),
            Stop::Gone => return Ok(true),
            Stop::After => {}
        }
        if drop_letters(alloc, checkpoint, window, propagation, spare)? {
            return Ok(true);
        }
        conjugated.push(propagated_checkpoint(alloc, &checkpoint.tableau, propagation.letters())?)?;
        at = checkpoint.step;
    }
    let propagated = propagate_steps(
        propagation,
        strings,
        free,
        cursor,
        MOST_TOGETHER,
        window,
        true,
        by_frame,
    )?;
    Ok(propagated.stop != Stop::NoString)
}

/// Whether a frame flips none of the newest records, as many as steps look back to.
fn is_quiet(propagation: &Propagation, window: u32) -> bool
    ensures quiet { result ≡ true → (k : ℕ) → k ≤ window → looked_up propagation.now.flips.records k ≡ false }
    ensures flips { result ≡ false → 1 ≤ ones propagation.now.flips.records }
{
    let records = propagation.records();
    let (_, newest) = records.split_at(records.len().saturating_sub(window as usize));
    !has_one(newest)
}

/// Drops the letters of a frame if it flipped none of the newest records, as many as steps look back to, and its letters stabilise
/// a checkpoint with one of their signs, since it then flips nothing from there on; true if it did. The checkpoint is expanded into
/// the spare tableau if there is one, which is the spare then.
///
/// Refusal `OutOfMemory` alone.
fn drop_letters(
    alloc: Global,
    checkpoint: &Checkpoint,
    window: u32,
    propagation: &mut Propagation,
    spare: &mut Option<Tableau>,
) -> Result<bool, Refusal>
    requires same_qubits { checkpoint.now.tableau.qubits ≡ length propagation.old.letters }
    ensures length { length propagation.new.letters ≡ length propagation.old.letters }
    ensures quiet { IfOk result (λ dropped. dropped ≡ true → (k : ℕ) → k ≤ window → looked_up propagation.old.flips.records k ≡ false) }
    ensures stabilise { IfOk result (λ dropped. dropped ≡ true → Stabilise propagation.old.letters checkpoint.now.tableau) }
    ensures value { IfOk result (λ dropped. dropped ≡ true → propagation.new ≡ record propagation.old { letters = replicate (length propagation.old.letters) I }) }
    ensures unchanged { IfOk result (λ dropped. dropped ≡ false → propagation.new ≡ propagation.old) }
    ensures conjugate { IfOk result (λ dropped. dropped ≡ false → (1 ≤ ones propagation.old.flips.records) ⊎ FramesSome propagation.old.letters checkpoint.now.tableau) }
    ensures err { IfErr result (λ r. r ≡ OutOfMemory) }
{
    if !is_quiet(propagation, window) {
        return Ok(false);
    }
    let string = string_of(alloc, propagation.letters())?;
    let mut tableau = checkpoint.tableau.tableau(alloc, spare.take())?;
    tableau.stabilises_a_group();
    tableau.stabilisers_generate();
    let sign = tableau.sign_of(&string);
    *spare = Some(tableau);
    let Some(_) = sign else {
        return Ok(false);
    };
    propagation.multiply(&string);
    Ok(true)
}

/// The string of these letters, one a qubit.
///
/// Refusal `OutOfMemory` alone.
fn string_of(alloc: Global, letters: &[Letter]) -> Result<Pauli, Refusal>
    ensures value { IfOk result (λ p. p ≡ record { negative = false; letters = letters.now }) }
    ensures err { IfErr result (λ r. r ≡ OutOfMemory) }
{
    let mut string = Pauli::identity(alloc, letters.len())?;
    for qubit in 0..letters.len() {
        string.set(qubit, letters[qubit]);
    }
    Ok(string)
}
