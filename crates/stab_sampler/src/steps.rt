//! Steps of one instruction, or of detectors, together on the lanes that are propagated over what is recorded of a run.
ghost use Rattle.std.specs.Prelude.{◌≡◌, ◌∷◌, [], All, length, map, OnOk};
ghost use Rattle.stab_items.specs.Steps.{one, controlled_step, measured, detector};
ghost use Rattle.stab_items.specs.StepValues.{lookbacks_of, steps_shown, HaveDistinctQubits};
ghost use Rattle.stab_run.specs.ProgramStates.{StepFits};
ghost use Rattle.stab_sampler.specs.Differences.{MayPropagateLanes, GoOver, GoWithoutCoins};

use crate::coins::Draw;
use crate::lanes::{Lanes, looked_up};
use crate::measure::RecordedPivots;
use crate::step::{propagate_detector, propagate_step};
use crate::word::Word;
use stab_instructions::{Axis, ControlledPair, MeasureTarget, Measurement, Qubit};
use stab_items::{Detectors, Steps, controlled_gate, measured_step};
use stab_tableau::Gate;
use std::alloc::AllocError;

/// Propagates all lanes over a gate on each of some qubits.
fn propagate_gates<W: Word>(lanes: &mut Lanes<W>, gate: Gate, qubits: &[Qubit])
    requires fits { All (StepFits (length lanes.old.frames.letters.items)) (map (one gate) qubits.now) }
    ensures frames { length lanes.new.frames.letters.items ≡ length lanes.old.frames.letters.items }
    ensures goes { GoWithoutCoins W.at W.lanes (map (one gate) qubits.now) lanes.old lanes.new }
{
    for qubit in qubits {
        lanes.frames.apply(gate, qubit.number());
    }
}

/// Propagates all lanes over X, Y or Z under the control of a qubit, or of a record.
fn propagate_pair<W: Word>(lanes: &mut Lanes<W>, axis: Axis, pair: ControlledPair)
    requires fits { StepFits (length lanes.old.frames.letters.items) (controlled_step axis pair) }
    ensures frames { length lanes.new.frames.letters.items ≡ length lanes.old.frames.letters.items }
    ensures goes { GoWithoutCoins W.at W.lanes (controlled_step axis pair ∷ []) lanes.old lanes.new }
{
    match pair {
        ControlledPair::Qubits(pair) => {
            let first = pair.first().number();
            let second = pair.second().number();
            lanes
                .frames
                .apply_pair(controlled_gate(axis), first, second);
        }
        ControlledPair::Record(qubit, lookback) => {
            let controls = looked_up(lanes.records.as_slice(), lookback.number());
            lanes
                .frames
                .multiply_letter(axis.letter(), qubit.number(), controls);
        }
    }
}

/// Propagates all lanes over that for each of some pairs.
fn propagate_pairs<W: Word>(lanes: &mut Lanes<W>, axis: Axis, pairs: &[ControlledPair])
    requires fits { All (StepFits (length lanes.old.frames.letters.items)) (map (controlled_step axis) pairs.now) }
    ensures frames { length lanes.new.frames.letters.items ≡ length lanes.old.frames.letters.items }
    ensures goes { GoWithoutCoins W.at W.lanes (map (controlled_step axis) pairs.now) lanes.old lanes.new }
{
    for pair in pairs {
        propagate_pair(lanes, axis, *pair);
    }
}

/// Propagates all lanes over the measurements of targets.
fn propagate_targets<W: Word, D: Draw<W>>(
    recorded_pivots: RecordedPivots,
    draw: &mut D,
    lanes: &mut Lanes<W>,
    measurement: Measurement,
    targets: &[MeasureTarget],
) -> Result<(), AllocError>
    requires may { MayPropagateLanes recorded_pivots lanes.old }
    requires fits { All (StepFits recorded_pivots.strings.now.qubits) (map (measured measurement) targets.now) }
    ensures same_coins { D.sequences draw.new ≡ D.sequences draw.old }
    ensures goes { OnOk result (GoOver W.at W.lanes recorded_pivots.entry (D.sequences draw.old) (map (measured measurement) targets.now) lanes.old lanes.new) }
{
    for target in targets {
        let step = measured_step(measurement, *target);
        propagate_step(recorded_pivots, draw, lanes, step)?;
    }
    Ok(())
}

/// Gathers which detectors are flipped.
fn propagate_detectors<W: Word>(
    lanes: &mut Lanes<W>,
    detectors: Detectors,
) -> Result<(), AllocError>
    ensures goes { OnOk result (GoWithoutCoins W.at W.lanes (map detector (lookbacks_of detectors.entry)) lanes.old lanes.new) }
{
    for position in 0..detectors.len() {
        propagate_detector(lanes, detectors.get(position))?;
    }
    Ok(())
}

/// Propagates all lanes over steps.
pub fn propagate_instruction<W: Word, D: Draw<W>>(
    recorded_pivots: RecordedPivots,
    draw: &mut D,
    lanes: &mut Lanes<W>,
    steps: Steps,
) -> Result<(), AllocError>
    requires may { MayPropagateLanes recorded_pivots lanes.old }
    requires fits { All (StepFits recorded_pivots.strings.now.qubits) (steps_shown steps) }
    requires distinct { HaveDistinctQubits steps }
    ensures same_coins { D.sequences draw.new ≡ D.sequences draw.old }
    ensures goes { OnOk result (GoOver W.at W.lanes recorded_pivots.entry (D.sequences draw.old) (steps_shown steps.entry) lanes.old lanes.new) }
{
    match steps {
        Steps::Gates(gate, qubits) => {
            propagate_gates(lanes, gate, qubits);
            Ok(())
        }
        Steps::Pairs(axis, pairs) => {
            propagate_pairs(lanes, axis, pairs);
            Ok(())
        }
        Steps::Measurements(measurement, targets) => {
            propagate_targets(recorded_pivots, draw, lanes, measurement, targets)
        }
        Steps::Detectors(detectors) => {
            propagate_detectors(lanes, detectors)?;
            Ok(())
        }
        Steps::Single(step) => propagate_step(recorded_pivots, draw, lanes, step),
    }
}
