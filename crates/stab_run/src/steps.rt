//! Steps of one instruction, or of detectors, carried out together.

ghost use Rattle.std.specs.Prelude.{◌≡◌, ℕ, ◌+◌, ◌<◌, ◌≤◌, ◌^◌, Bool, ◌∷◌, [], All, length, map, OnOk};
ghost use Rattle.stab_tableau.specs.Tableaus.{TableauState};
ghost use Rattle.stab_items.specs.Steps.{one, controlled_step, measured, detector};
ghost use Rattle.stab_items.specs.StepValues.{lookbacks_of, steps_shown};
ghost use Rattle.stab_run.specs.Records.{ones};
ghost use Rattle.stab_run.specs.Points.{RunOutput};
ghost use Rattle.stab_run.specs.ProgramStates.{StepFits, IsRun, CostsAtMost, program_state, output_of};

use crate::coins::Coins;
use crate::records::{Outputs, looked_up, parity};
use crate::step::{apply_step, apply_where};
use stab_instructions::{Axis, ControlledPair, MeasureTarget, Measurement, Qubit};
use stab_items::{Detectors, Steps, controlled_gate, measured_step};
use stab_pauli::Pauli;
use stab_tableau::{Gate, Tableau};
use std::alloc::AllocError;

/// Carries out steps on a tableau, gathers what they give, and counts them. The string is for
/// products to be written into.
pub fn apply_steps<C: Coins>(
    tableau: &mut Tableau,
    string: &mut Pauli,
    coins: &mut C,
    outputs: &mut Outputs,
    steps: Steps,
    applied: &mut u64,
) -> Result<(), AllocError>
    requires same_length { length string.old.letters ≡ tableau.old.qubits }
    requires fits { All (StepFits tableau.old.qubits) (steps_shown steps) }
    requires few { applied.old + length (steps_shown steps) < 2 ^ 63 }
    ensures counted { OnOk result (applied.new ≡ applied.old + length (steps_shown steps.entry)) }
    ensures costs { CostsAtMost (steps_shown steps.entry) applied.old applied.new (C.asks coins.old) (C.asks coins.new) }
    ensures qubits { tableau.new.qubits ≡ tableau.old.qubits }
    ensures string { length string.new.letters ≡ length string.old.letters }
    ensures same_coins { C.sequence coins.new ≡ C.sequence coins.old }
    ensures asks_random { OnOk result (C.asks coins.new + ones outputs.old.free.items ≤ C.asks coins.old + ones outputs.new.free.items) }
    ensures run { OnOk result (IsRun tableau.old.qubits (C.sequence coins.old) (steps_shown steps.entry) (program_state tableau.old (output_of outputs.old)) (program_state tableau.new (output_of outputs.new))) }
{
    match steps {
        Steps::Gates(gate, qubits) => {
            apply_gates(tableau, gate, qubits, applied);
            Ok(())
        }
        Steps::Pairs(axis, pairs) => {
            apply_pairs(tableau, outputs.records.as_slice(), axis, pairs, applied);
            Ok(())
        }
        Steps::Measurements(measurement, targets) => {
            measure_targets(
                tableau,
                string,
                coins,
                outputs,
                measurement,
                targets,
                applied,
            )
        }
        Steps::Detectors(detectors) => {
            take_parities(outputs, detectors, applied)?;
            Ok(())
        }
        Steps::Single(step) => apply_step(tableau, string, coins, outputs, step, applied),
    }
}

/// Applies a gate to each of some qubits, and counts them.
fn apply_gates(tableau: &mut Tableau, gate: Gate, qubits: &[Qubit], applied: &mut u64)
    requires fits { All (StepFits tableau.old.qubits) (map (one gate) qubits.now) }
    requires few { applied.old + length qubits.now < 2 ^ 63 }
    ensures counted { applied.new ≡ applied.old + length qubits.now }
    ensures qubits { tableau.new.qubits ≡ tableau.old.qubits }
    ensures run { (coins : ℕ → Bool) (output : RunOutput) → IsRun tableau.old.qubits coins (map (one gate) qubits.now) (program_state tableau.old output) (program_state tableau.new output) }
{
    *applied += qubits.len() as u64;
    for qubit in qubits {
        tableau.apply(gate, qubit.number());
    }
}

/// Applies X, Y or Z under the control of a qubit, or if a record is 1.
fn apply_pair(tableau: &mut Tableau, records: &[bool], axis: Axis, pair: ControlledPair)
    requires fits { StepFits tableau.old.qubits (controlled_step axis pair) }
    ensures qubits { tableau.new.qubits ≡ tableau.old.qubits }
    ensures run { (coins : ℕ → Bool) (output : RunOutput) → output.records ≡ records.now → IsRun tableau.old.qubits coins (controlled_step axis pair ∷ []) (program_state tableau.old output) (program_state tableau.new output) }
{
    match pair {
        ControlledPair::Qubits(pair) => {
            let first = pair.first().number();
            tableau.apply_pair(controlled_gate(axis), first, pair.second().number());
        }
        ControlledPair::Record(qubit, lookback) => {
            let bit = looked_up(records, lookback.number());
            apply_where(tableau, bit, axis.letter(), qubit.number());
        }
    }
}

/// Applies X, Y or Z in this way for each of some pairs, and counts them.
fn apply_pairs(
    tableau: &mut Tableau,
    records: &[bool],
    axis: Axis,
    pairs: &[ControlledPair],
    applied: &mut u64,
)
    requires fits { All (StepFits tableau.old.qubits) (map (controlled_step axis) pairs.now) }
    requires few { applied.old + length pairs.now < 2 ^ 63 }
    ensures counted { applied.new ≡ applied.old + length pairs.now }
    ensures qubits { tableau.new.qubits ≡ tableau.old.qubits }
    ensures run { (coins : ℕ → Bool) (output : RunOutput) → output.records ≡ records.now → IsRun tableau.old.qubits coins (map (controlled_step axis) pairs.now) (program_state tableau.old output) (program_state tableau.new output) }
{
    *applied += pairs.len() as u64;
    for pair in pairs {
        apply_pair(tableau, records, axis, *pair);
    }
}

/// Carries out the measurements of targets, gathers what they give, and counts them.
fn measure_targets<C: Coins>(
    tableau: &mut Tableau,
    string: &mut Pauli,
    coins: &mut C,
    outputs: &mut Outputs,
    measurement: Measurement,
    targets: &[MeasureTarget],
    applied: &mut u64,
) -> Result<(), AllocError>
    requires same_length { length string.old.letters ≡ tableau.old.qubits }
    requires fits { All (StepFits tableau.old.qubits) (map (measured measurement) targets.now) }
    requires few { applied.old + length targets.now < 2 ^ 63 }
    ensures counted { OnOk result (applied.new ≡ applied.old + length targets.now) }
    ensures costs { CostsAtMost (map (measured measurement) targets.now) applied.old applied.new (C.asks coins.old) (C.asks coins.new) }
    ensures qubits { tableau.new.qubits ≡ tableau.old.qubits }
    ensures string { length string.new.letters ≡ length string.old.letters }
    ensures same_coins { C.sequence coins.new ≡ C.sequence coins.old }
    ensures asks_random { OnOk result (C.asks coins.new + ones outputs.old.free.items ≤ C.asks coins.old + ones outputs.new.free.items) }
    ensures run { OnOk result (IsRun tableau.old.qubits (C.sequence coins.old) (map (measured measurement) targets.now) (program_state tableau.old (output_of outputs.old)) (program_state tableau.new (output_of outputs.new))) }
{
    for target in targets {
        let step = measured_step(measurement, *target);
        apply_step(tableau, string, coins, outputs, step, applied)?;
    }
    Ok(())
}

/// Gathers the parities of the records that detectors name, and counts them.
fn take_parities(
    outputs: &mut Outputs,
    detectors: Detectors,
    applied: &mut u64,
) -> Result<(), AllocError>
    requires few { applied.old + length (lookbacks_of detectors) < 2 ^ 63 }
    ensures counted { applied.new ≡ applied.old + length (lookbacks_of detectors.entry) }
    ensures free { outputs.new.free ≡ outputs.old.free }
    ensures run { OnOk result ((tableau : TableauState) (coins : ℕ → Bool) → IsRun tableau.qubits coins (map detector (lookbacks_of detectors.entry)) (program_state tableau (output_of outputs.old)) (program_state tableau (output_of outputs.new))) }
{
    *applied += detectors.len() as u64;
    for position in 0..detectors.len() {
        let bit = parity(outputs.records.as_slice(), detectors.get(position));
        outputs.detectors.push(bit)?;
    }
    Ok(())
}
