ghost use Rattle.std.specs.Prelude.{◌≡◌, ℕ, ◌+◌, ◌≤◌, Bool, [], true, List, All, length, take, drop, IfOk, IfErr, IfSome, OnOk};
ghost use Rattle.stab_io.specs.declared.refusal.Refusal.TheVariants.{OutOfMemory};
ghost use Rattle.stab_items.specs.Steps.{Step};
ghost use Rattle.stab_items.specs.declared.edit.Span.{Span};
ghost use Rattle.stab_run.specs.Points.{RunOutput};
ghost use Rattle.stab_frames.specs.Pivots.{pivot_at};
ghost use Rattle.stab_frames.specs.Propagations.{IsPlaced};
ghost use Rattle.stab_recording.specs.Checkpoints.{IsCheckpoint};
ghost use Rattle.stab_recording.specs.PassedSteps.{MayPropagate};
ghost use Rattle.stab_session.specs.PassedSites.{IsFrameBetween, IsBeforeSites, HasGoneThrough, HasPassedPiece};

use stab_frames::{Pivots, Propagation};
use stab_io::Refusal;
use stab_items::Cursor;
use stab_pauli::Pauli;
use stab_recording::{Checkpoint, Stop, count_before, propagate_steps, propagated_checkpoint};
use std::alloc::{AllocError, Global};

/// Pauli gates that are where others were, at one site or at several: the same at each.
#[derive(Drop)]
pub struct PauliChange {
    /// The letters of the old gates at a site and of the new ones, multiplied.
    pub string: Pauli,
    /// How many steps the old gates take at each site.
    pub old: usize,
    /// How many steps the new gates take at each site.
    pub new: usize,
    /// How many steps are after each site, up to the next one, and after the last, up to the end
    /// of what the change spans.
    pub gaps: Vec<usize>,
}

/// Passes this many steps of a cursor. False if fewer are left.
fn skip_steps(cursor: &mut Cursor, count: usize) -> bool
    ensures all { cursor.new.all ≡ cursor.old.all }
    ensures within { result ≡ true → count ≤ length cursor.old.left }
    ensures left { result ≡ true → cursor.new.left ≡ drop count cursor.old.left }
{
    let mut left = count;
    while left > 0 {
        let Some(steps) = cursor.next_steps(left) else {
            return false;
        };
        left -= steps.len();
    }
    true
}

/// Propagates a frame over exactly this many steps of a cursor, and counts them. False if fewer are left, or a string
/// is missing.
///
/// Refusal of memory alone.
fn propagate_exactly(
    propagation: &mut Propagation,
    strings: &Pivots,
    free: &[bool],
    cursor: &mut Cursor,
    count: usize,
    by_frame: &mut u64,
) -> Result<bool, AllocError>
    requires may { MayPropagate strings.now free.now 0 cursor.old.left by_frame.old propagation.old }
    ensures most { by_frame.new ≤ by_frame.old + length cursor.old.left }
    ensures all { cursor.new.all ≡ cursor.old.all }
    ensures length { length propagation.new.letters ≡ length propagation.old.letters }
    ensures placed { OnOk result (IsPlaced free.now propagation.new) }
    ensures passed { IfOk result (λ went. went ≡ true → HasGoneThrough (pivot_at strings.now.strings free.now) free.now count cursor.old.left cursor.new.left by_frame.old by_frame.new propagation.old propagation.new) }
{
    let propagated = propagate_steps(
        propagation,
        strings,
        free,
        cursor,
        count,
        0,
        false,
        by_frame,
    )?;
    Ok(propagated.stop != Stop::NoString && propagated.steps == count)
}

/// How far a step is after a site, if that is no less than one number and no more than another.
fn after_site(step: usize, site: usize, least: usize, most: usize) -> Option<usize>
    ensures some { IfSome result (λ following. (least ≤ following) × (following ≤ most) × (site + following ≡ step)) }
{
    let following = step.checked_sub(site)?;
    if least <= following && following <= most {
        Some(following)
    } else {
        None
    }
}

/// Propagates a frame over the steps of a gap, which a cursor has next. They come after `old` steps of the old run
/// and `new` steps of the new one, and are the same in both. It goes past checkpoints of the old run that are among them. It
/// makes each such checkpoint one of the new run, after others. False if a pivot is missing, or a checkpoint
/// is elsewhere. The steps that it passes are counted either way.
///
/// Refusal `OutOfMemory` alone.
fn propagate_piece(
    alloc: Global,
    checkpoints: &[Checkpoint],
    old: usize,
    new: usize,
    gap: usize,
    strings: &Pivots,
    free: &[bool],
    cursor: &mut Cursor,
    propagation: &mut Propagation,
    passed: &mut Vec<Checkpoint>,
    by_frame: &mut u64,
) -> Result<bool, Refusal>
    requires may { MayPropagate strings.now free.now 0 cursor.old.left by_frame.old propagation.old }
    requires same_qubits { All (λ c. c.tableau.qubits ≡ length propagation.old.letters) checkpoints.now }
    ensures most { by_frame.new ≤ by_frame.old + length cursor.old.left }
    ensures passed { IfOk result (λ went. went ≡ true → HasPassedPiece (pivot_at strings.now.strings free.now) free.now old new gap cursor.old.all cursor.old.left cursor.new.left by_frame.old by_frame.new propagation.old propagation.new checkpoints.now passed.old.items passed.new.items) }
    ensures all { cursor.new.all ≡ cursor.old.all }
    ensures length { length propagation.new.letters ≡ length propagation.old.letters }
    ensures placed { OnOk result (IsPlaced free.now propagation.new) }
    ensures err { IfErr result (λ r. r ≡ OutOfMemory) }
{
    let mut gone = 0;
    for checkpoint in checkpoints {
        let Some(following) = after_site(checkpoint.step, old, gone, gap) else {
            return Ok(false);
        };
        if !propagate_exactly(
            propagation,
            strings,
            free,
            cursor,
            following - gone,
            by_frame,
        )? {
            return Ok(false);
        }
        passed.push(Checkpoint {
            step: new.saturating_add(following),
            lengths: checkpoint.lengths,
            tableau: propagated_checkpoint(alloc, &checkpoint.tableau, propagation.letters())?,
        })?;
        gone = following;
    }
    Ok(propagate_exactly(propagation, strings, free, cursor, gap - gone, by_frame)?)
}

/// The first checkpoints of some, after this many, that are before a step or at it.
fn checkpoints_until(checkpoints: &[Checkpoint], from: usize, step: usize) -> &[Checkpoint]
    requires in_range { from ≤ length checkpoints.now }
    ensures value { (count : ℕ) × (result.now ≡ take count (drop from checkpoints.now)) }
{
    let (_, following) = checkpoints.split_at(from);
    let count = count_before(following, step.saturating_add(1));
    let (first, _) = following.split_at(count);
    first
}

/// Propagates a frame that begins before a step, which both runs have, past the sites of a change of Pauli
/// gates, the first of which is at that step, and over what is between them and after the
/// last. A cursor is at that step of the new run. At each site the frame is multiplied by the string
/// of the change. Checkpoints of the old run that are there are made checkpoints of the new one, in order.
///
/// False if a pivot is missing, or a checkpoint is among the gates of a site, or after all. What it
/// made so far is then irrelevant. The steps that it passes are counted either way.
///
/// Refusal `OutOfMemory` alone.
pub fn propagate_sites(
    alloc: Global,
    checkpoints: &[Checkpoint],
    first: usize,
    change: &PauliChange,
    strings: &Pivots,
    free: &[bool],
    cursor: &mut Cursor,
    propagation: &mut Propagation,
    passed: &mut Vec<Checkpoint>,
    by_frame: &mut u64,
) -> Result<bool, Refusal>
    requires may { MayPropagate strings.now free.now 0 cursor.old.left by_frame.old propagation.old }
    requires string { length change.now.string.letters ≡ length propagation.old.letters }
    requires same_qubits { All (λ c. c.tableau.qubits ≡ length propagation.old.letters) checkpoints.now }
    requires nothing { passed.old.items ≡ [] }
    ensures most { by_frame.new ≤ by_frame.old + length cursor.old.left }
    ensures length { length propagation.new.letters ≡ length propagation.old.letters }
    ensures placed { OnOk result (IsPlaced free.now propagation.new) }
    ensures coin { IfOk result (λ went. went ≡ true → propagation.new.coin ≤ propagation.old.coin + length cursor.old.left) }
    ensures count { IfOk result (λ went. went ≡ true → length passed.new.items ≡ length checkpoints.now) }
    ensures between { IfOk result (λ went. went ≡ true → (coins : ℕ → Bool) (xs : List Step) (base : ℕ) (front : RunOutput) (s : Span) → s.first ≡ first → IsBeforeSites (length propagation.old.letters) coins xs cursor.old.all (pivot_at strings.now.strings free.now) free.now base front s change.now cursor.old.left propagation.old → IsFrameBetween (length propagation.old.letters) coins xs cursor.old.all (pivot_at strings.now.strings free.now) free.now base front s.old_end s.new_end propagation.new) }
    ensures checkpoints { IfOk result (λ went. went ≡ true → (coins : ℕ → Bool) (xs : List Step) (base : ℕ) (front : RunOutput) (s : Span) → s.first ≡ first → IsBeforeSites (length propagation.old.letters) coins xs cursor.old.all (pivot_at strings.now.strings free.now) free.now base front s change.now cursor.old.left propagation.old → All (IsCheckpoint (length propagation.old.letters) coins xs) checkpoints.now → All (IsCheckpoint (length propagation.old.letters) coins cursor.old.all) passed.new.items) }
    ensures err { IfErr result (λ r. r ≡ OutOfMemory) }
{
    let mut old = first;
    let mut new = first;
    for gap in change.gaps.as_slice() {
        if !skip_steps(cursor, change.new) {
            return Ok(false);
        }
        propagation.multiply(&change.string);
        old = old.saturating_add(change.old);
        new = new.saturating_add(change.new);
        let here = checkpoints_until(checkpoints, passed.len(), old.saturating_add(*gap));
        if !propagate_piece(
            alloc,
            here,
            old,
            new,
            *gap,
            strings,
            free,
            cursor,
            propagation,
            passed,
            by_frame,
        )? {
            return Ok(false);
        }
        old = old.saturating_add(*gap);
        new = new.saturating_add(*gap);
    }
    Ok(passed.len() == checkpoints.len())
}
