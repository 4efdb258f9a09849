//! The rounds of a block, on lanes that are propagated over what is recorded of a run. If lanes are again as they were some rounds ago, and no
//! outcome is random from then on to the last round, they flip again what they flipped since.
ghost use Rattle.std.specs.Prelude.{◌≡◌, ◌+◌, ◌*◌, ◌^◌, ◌<◌, ◌≤◌, [], None, All, length, take, IfOk, OnOk, IfErr, IfSome};
ghost use Rattle.stab_io.specs.declared.refusal.Refusal.TheVariants.{OutOfMemory};
ghost use Rattle.stab_items.specs.Steps.{unroll, check_within};
ghost use Rattle.stab_items.specs.Views.{circuit_items};
ghost use Rattle.stab_items.specs.Repeats.{IsRepeat, AreRepeats};
ghost use Rattle.stab_run.specs.ProgramStates.{StepFits};
ghost use Rattle.stab_recording.specs.inner.Advanced.{after_rounds};
ghost use Rattle.stab_sampler.specs.LaneCheckpoints.{IsLaneCheckpoint, GoOn, StaysStored};
ghost use Rattle.stab_sampler.specs.Differences.{ArePropagated};

use crate::checkpoints::{LaneCheckpoint, are_deterministic, comes_again};
use crate::coins::Draw;
use crate::lanes::Lanes;
use crate::measure::RecordedPivots;
use crate::part::propagate_along;
use crate::repeated_flips::repeat_flips;
use crate::word::Word;
use stab_io::Refusal;
use stab_items::{Circuit, Repeat};
use stab_recording::{MOST_SINGLE, is_long, taken_together};
use stab_run::find_rounds;
use std::alloc::{AllocError, Global};

/// Repeats what lanes flip in those rounds after the ones done in which they flip what they flipped since a checkpoint: whole
/// periods. Says how many rounds are done then.
fn fold_rounds<W: Word>(
    recorded_pivots: RecordedPivots,
    lanes: &mut Lanes<W>,
    repeat: Repeat,
    checkpoint: &Option<LaneCheckpoint<W>>,
    done: usize,
) -> Result<usize, AllocError>
    requires later { IfSome checkpoint.now (λ m. m.done < done) }
    requires within { done ≤ repeat.rounds }
    ensures more { IfOk result (λ now. (done ≤ now) × (now ≤ repeat.rounds)) }
    ensures go_on { IfOk result (λ now. GoOn W.at W.lanes recorded_pivots.entry repeat checkpoint.now done now lanes.old lanes.new) }
{
    let Some(checkpoint) = checkpoint else {
        return Ok(done);
    };
    let period = done - checkpoint.done;
    let times = (repeat.rounds - done) / period;
    if times == 0 || !comes_again(checkpoint, lanes, repeat.window) {
        return Ok(done);
    }
    let coins = lanes.free.len().saturating_sub(checkpoint.lengths.free);
    let Some(count) = coins.checked_mul(times + 1) else {
        return Ok(done);
    };
    if !are_deterministic(recorded_pivots.free, checkpoint.lengths.free, count) {
        return Ok(done);
    }
    repeat_flips(lanes, checkpoint.lengths, times)?;
    Ok(done + times * period)
}

/// Whether a checkpoint of lanes on n qubits is stored after this many rounds: after a first, second, fourth, eighth one and so on, if enough steps are
/// left.
fn is_stored_after(repeat: Repeat, done: usize, n: usize) -> bool {
    let left = repeat.rounds.saturating_sub(done);
    done.is_power_of_two() && left >= 2 && left.saturating_mul(repeat.length) / 2 >= n
}

/// Keeps a checkpoint of lanes after this many rounds, if that is worth it. Else the one before stays.
fn keep_checkpoint<W: Word>(
    alloc: Global,
    lanes: &Lanes<W>,
    repeat: Repeat,
    checkpoint: &mut Option<LaneCheckpoint<W>>,
    done: usize,
) -> Result<(), AllocError>
    requires earlier { IfSome checkpoint.old (λ m. m.done ≤ done) }
    ensures earlier { OnOk result (IfSome checkpoint.new (λ m. m.done ≤ done)) }
    ensures stored_after { OnOk result (StaysStored W.at W.lanes lanes.now repeat done checkpoint.old checkpoint.new) }
{
    if is_stored_after(repeat, done, lanes.frames.letters.len()) {
        *checkpoint = Some(LaneCheckpoint::of(alloc, lanes, done)?);
    }
    Ok(())
}

/// Propagates all lanes over a round of a block after this many, and over all those after it in which they flip again what they
/// flipped. Says how many are done then.
fn propagate_round<W: Word, D: Draw<W>>(
    alloc: Global,
    circuit: &Circuit,
    recorded_pivots: RecordedPivots,
    draw: &mut D,
    lanes: &mut Lanes<W>,
    repeat: Repeat,
    checkpoint: &mut Option<LaneCheckpoint<W>>,
    done: usize,
) -> Result<usize, Refusal>
    requires checked { check_within recorded_pivots.strings.now.qubits (circuit_items circuit.now) ≡ None }
    requires repeat { IsRepeat (unroll (circuit_items circuit.now)) repeat }
    requires within { done < repeat.rounds }
    requires earlier { IfSome checkpoint.old (λ m. m.done ≤ done) }
    requires checkpoint { IfSome checkpoint.old (IsLaneCheckpoint W.at W.lanes recorded_pivots (D.sequences draw.old) (unroll (circuit_items circuit.now)) repeat) }
    requires advanced { ArePropagated W.at W.lanes recorded_pivots (D.sequences draw.old) (take (after_rounds repeat done) (unroll (circuit_items circuit.now))) lanes.old }
    ensures same_coins { D.sequences draw.new ≡ D.sequences draw.old }
    ensures more { IfOk result (λ now. (done < now) × (now ≤ repeat.rounds)) }
    ensures earlier { IfOk result (λ now. IfSome checkpoint.new (λ m. m.done ≤ now)) }
    ensures checkpoint { OnOk result (IfSome checkpoint.new (IsLaneCheckpoint W.at W.lanes recorded_pivots.entry (D.sequences draw.old) (unroll (circuit_items circuit.now)) repeat)) }
    ensures advanced { IfOk result (λ now. ArePropagated W.at W.lanes recorded_pivots.entry (D.sequences draw.old) (take (after_rounds repeat now) (unroll (circuit_items circuit.now))) lanes.new) }
    ensures err { IfErr result (λ r. r ≡ OutOfMemory) }
{
    let from = repeat.first + done * repeat.length;
    let length = repeat.length;
    propagate_along(alloc, circuit, recorded_pivots, draw, lanes, from, length)?;
    let now = fold_rounds(recorded_pivots, lanes, repeat, checkpoint, done + 1)?;
    keep_checkpoint(alloc, lanes, repeat, checkpoint, now)?;
    Ok(now)
}

/// Propagates all lanes over rounds of a block, one by one and as often as they flip again what they flipped. Says how many are done
/// then: fewer than all if `MOST_SINGLE` were gone over.
fn propagate_rounds<W: Word, D: Draw<W>>(
    alloc: Global,
    circuit: &Circuit,
    recorded_pivots: RecordedPivots,
    draw: &mut D,
    lanes: &mut Lanes<W>,
    repeat: Repeat,
) -> Result<usize, Refusal>
    requires checked { check_within recorded_pivots.strings.now.qubits (circuit_items circuit.now) ≡ None }
    requires repeat { IsRepeat (unroll (circuit_items circuit.now)) repeat }
    requires advanced { ArePropagated W.at W.lanes recorded_pivots (D.sequences draw.old) (take repeat.first (unroll (circuit_items circuit.now))) lanes.old }
    ensures same_coins { D.sequences draw.new ≡ D.sequences draw.old }
    ensures within { IfOk result (λ done. done ≤ repeat.rounds) }
    ensures advanced { IfOk result (λ done. ArePropagated W.at W.lanes recorded_pivots.entry (D.sequences draw.old) (take (after_rounds repeat done) (unroll (circuit_items circuit.now))) lanes.new) }
    ensures err { IfErr result (λ r. r ≡ OutOfMemory) }
{
    let most = repeat.rounds.min(MOST_SINGLE);
    let mut checkpoint = None;
    let mut done = 0;
    while done < most {
        done = propagate_round(
            alloc,
            circuit,
            recorded_pivots,
            draw,
            lanes,
            repeat,
            &mut checkpoint,
            done,
        )?;
    }
    Ok(done)
}

/// Propagates all lanes over the steps from one on up to the last round of a long block that is gone over by itself or flips again what
/// earlier ones flipped. Says which step comes next.
fn propagate_block<W: Word, D: Draw<W>>(
    alloc: Global,
    circuit: &Circuit,
    recorded_pivots: RecordedPivots,
    draw: &mut D,
    lanes: &mut Lanes<W>,
    from: usize,
    repeat: Repeat,
) -> Result<usize, Refusal>
    requires checked { check_within recorded_pivots.strings.now.qubits (circuit_items circuit.now) ≡ None }
    requires before { from ≤ repeat.first }
    requires repeat { IsRepeat (unroll (circuit_items circuit.now)) repeat }
    requires advanced { ArePropagated W.at W.lanes recorded_pivots (D.sequences draw.old) (take from (unroll (circuit_items circuit.now))) lanes.old }
    ensures same_coins { D.sequences draw.new ≡ D.sequences draw.old }
    ensures next { IfOk result (λ next. next ≤ after_rounds repeat repeat.rounds) }
    ensures advanced { IfOk result (λ next. ArePropagated W.at W.lanes recorded_pivots.entry (D.sequences draw.old) (take next (unroll (circuit_items circuit.now))) lanes.new) }
    ensures err { IfErr result (λ r. r ≡ OutOfMemory) }
{
    if !is_long(repeat) {
        return Ok(from);
    }
    let before = repeat.first - from;
    propagate_along(alloc, circuit, recorded_pivots, draw, lanes, from, before)?;
    let done = propagate_rounds(alloc, circuit, recorded_pivots, draw, lanes, repeat)?;
    Ok(repeat.first + done * repeat.length)
}

/// Propagates all lanes over the steps up to the last round of these blocks that is gone over by itself or flips again what earlier
/// ones flipped. Says which step comes next.
fn propagate_blocks<W: Word, D: Draw<W>>(
    alloc: Global,
    circuit: &Circuit,
    recorded_pivots: RecordedPivots,
    draw: &mut D,
    lanes: &mut Lanes<W>,
    repeats: &[Repeat],
) -> Result<usize, Refusal>
    requires checked { check_within recorded_pivots.strings.now.qubits (circuit_items circuit.now) ≡ None }
    requires repeats { AreRepeats 0 (unroll (circuit_items circuit.now)) repeats.now }
    requires advanced { ArePropagated W.at W.lanes recorded_pivots (D.sequences draw.old) [] lanes.old }
    ensures same_coins { D.sequences draw.new ≡ D.sequences draw.old }
    ensures in_range { IfOk result (λ from. from ≤ length (unroll (circuit_items circuit.now))) }
    ensures advanced { IfOk result (λ from. ArePropagated W.at W.lanes recorded_pivots.entry (D.sequences draw.old) (take from (unroll (circuit_items circuit.now))) lanes.new) }
    ensures err { IfErr result (λ r. r ≡ OutOfMemory) }
{
    let mut from = 0;
    for repeat in repeats {
        from = propagate_block(
            alloc,
            circuit,
            recorded_pivots,
            draw,
            lanes,
            from,
            taken_together(*repeat),
        )?;
    }
    Ok(from)
}

/// Propagates all lanes over all steps of a circuit that nothing refuses.
pub fn propagate_all<W: Word, D: Draw<W>>(
    alloc: Global,
    circuit: &Circuit,
    recorded_pivots: RecordedPivots,
    draw: &mut D,
    lanes: &mut Lanes<W>,
) -> Result<(), Refusal>
    requires checked { check_within recorded_pivots.strings.now.qubits (circuit_items circuit.now) ≡ None }
    requires advanced { ArePropagated W.at W.lanes recorded_pivots (D.sequences draw.old) [] lanes.old }
    ensures same_coins { D.sequences draw.new ≡ D.sequences draw.old }
    ensures advanced { OnOk result (ArePropagated W.at W.lanes recorded_pivots.entry (D.sequences draw.old) (unroll (circuit_items circuit.now)) lanes.new) }
    ensures fits { OnOk result (All (StepFits recorded_pivots.entry.strings.now.qubits) (unroll (circuit_items circuit.now))) }
    ensures err { IfErr result (λ r. r ≡ OutOfMemory) }
{
    let repeats = find_rounds(alloc, circuit)?;
    let from = propagate_blocks(
        alloc,
        circuit,
        recorded_pivots,
        draw,
        lanes,
        repeats.as_slice(),
    )?;
    propagate_along(
        alloc,
        circuit,
        recorded_pivots,
        draw,
        lanes,
        from,
        usize::MAX,
    )?;
    Ok(())
}
