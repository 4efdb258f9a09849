//! One step of a run, on the lanes that are propagated over what is recorded of it. Lanes keep flips instead of bits.
ghost use Rattle.std.specs.Prelude.{◌≡◌, ℕ, ◌<◌, ◌∷◌, [], ◌++◌, ◌&&◌, if◌then◌else◌, length, OnOk};
ghost use Rattle.stab_pauli.specs.Paulis.{single};
ghost use Rattle.stab_frames.specs.Frames.{times_where};
ghost use Rattle.stab_items.specs.Steps.{detector, HasDistinctQubits};
ghost use Rattle.stab_items.specs.StepValues.{step_shown};
ghost use Rattle.stab_run.specs.Runs.{flip_of};
ghost use Rattle.stab_run.specs.ProgramStates.{StepFits};
ghost use Rattle.stab_sampler.specs.Lanes.{lane_letters};
ghost use Rattle.stab_sampler.specs.Differences.{MayPropagateLanes, GoOver, GoWithoutCoins};

use crate::coins::Draw;
use crate::frames::Frames;
use crate::lanes::{Lanes, Sum, looked_up, parity};
use crate::measure::{RecordedPivots, decide};
use crate::word::Word;
use stab_items::Step;
use stab_pauli::Letter;
use stab_run::flip;
use std::alloc::AllocError;

/// Multiplies the strings of the lanes whose bit is 1 by a letter that flips the outcome, if the measurement resets.
fn reset_if<W: Word>(frames: &mut Frames<W>, letter: Letter, qubit: usize, resets: bool, flips: W)
    requires in_range { qubit < length frames.old.letters.items }
    ensures size { length frames.new.letters.items ≡ length frames.old.letters.items }
    ensures letters { (l : ℕ) → l < W.lanes → lane_letters W.at l frames.new.letters.items ≡ times_where (resets && W.at flips l) (single (length frames.old.letters.items) qubit (flip_of letter)).letters (lane_letters W.at l frames.old.letters.items) }
{
    if resets {
        frames.multiply_letter(flip(letter), qubit, flips);
    }
}

/// Appends an item, if there is one.
pub fn push_when<T: Copy>(items: &mut Vec<T>, test: bool, item: T) -> Result<(), AllocError>
    ensures value { OnOk result (items.new.items ≡ items.old.items ++ (if test then item ∷ [] else [])) }
{
    if test {
        items.push(item)?;
    }
    Ok(())
}

/// Propagates all lanes over a detector.
pub fn propagate_detector<W: Word>(
    lanes: &mut Lanes<W>,
    lookbacks: &[u32],
) -> Result<(), AllocError>
    ensures goes { OnOk result (GoWithoutCoins W.at W.lanes (detector lookbacks.now ∷ []) lanes.old lanes.new) }
{
    let flips = parity(lanes.records.as_slice(), lookbacks);
    lanes.detectors.push(flips)?;
    Ok(())
}

/// Propagates all lanes over one step.
pub fn propagate_step<W: Word, D: Draw<W>>(
    recorded_pivots: RecordedPivots,
    draw: &mut D,
    lanes: &mut Lanes<W>,
    step: Step,
) -> Result<(), AllocError>
    requires may { MayPropagateLanes recorded_pivots lanes.old }
    requires fits { StepFits recorded_pivots.strings.now.qubits (step_shown step) }
    requires distinct { HasDistinctQubits (step_shown step) }
    ensures same_coins { D.sequences draw.new ≡ D.sequences draw.old }
    ensures goes { OnOk result (GoOver W.at W.lanes recorded_pivots.entry (D.sequences draw.old) (step_shown step.entry ∷ []) lanes.old lanes.new) }
{
    match step {
        Step::One(gate, qubit) => lanes.frames.apply(gate, qubit),
        Step::Two(gate, first, second) => lanes.frames.apply_pair(gate, first, second),
        Step::Controlled(letter, k, qubit) => {
            let controls = looked_up(lanes.records.as_slice(), k);
            lanes.frames.multiply_letter(letter, qubit, controls);
        }
        Step::Collapse {
            letter,
            qubit,
            recorded,
            inverted: _,
            reset,
        } => {
            let anticommuting = lanes.frames.anticommuting_letter(letter, qubit);
            let flips = decide(recorded_pivots, draw, lanes, anticommuting)?;
            reset_if(&mut lanes.frames, letter, qubit, reset, flips);
            push_when(&mut lanes.records, recorded, flips)?;
        }
        Step::Product {
            factors,
            inverted: _,
        } => {
            let anticommuting = lanes.frames.anticommuting_factors(factors);
            let flips = decide(recorded_pivots, draw, lanes, anticommuting)?;
            lanes.records.push(flips)?;
        }
        Step::Detector(lookbacks) => propagate_detector(lanes, lookbacks)?,
        Step::Observable(observable, lookbacks) => {
            let flips = parity(lanes.records.as_slice(), lookbacks);
            lanes.sums.push(Sum {
                observable,
                parity: flips,
            })?;
        }
    }
    Ok(())
}
