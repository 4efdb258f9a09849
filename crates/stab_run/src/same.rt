//! Whether steps that are given together are the same as others.
ghost use Rattle.std.specs.Prelude.{◌≡◌, ◌+◌, ◌≤◌, ◌∷◌, [], length, take, drop, map};
ghost use Rattle.std.specs.Bool.{OnTrue};
ghost use Rattle.stab_items.specs.Steps.{one, two, collapse, product, observable, controlled_step, measured};
ghost use Rattle.stab_items.specs.StepValues.{step_shown, steps_shown, lookbacks_of};

use stab_gates::{Gate, Letter, PairGate};
use stab_instructions::{Axis, ControlledPair, Factor, MeasureTarget, Measurement, Qubit};
use stab_items::{Detectors, Step, Steps};

/// Whether these are the steps of a gate on qubits.
fn are_gates(gate: Gate, qubits: &[Qubit], steps: Steps) -> bool
    ensures same { OnTrue result (map (one gate) qubits.now ≡ steps_shown steps.entry) }
{
    match steps {
        Steps::Gates(other, others) => {
            let same_gate = gate == other;
            let same_list = qubits == others;
            same_gate && same_list
        }
        _ => false,
    }
}

/// Whether these are the steps of pairs.
fn are_pairs(axis: Axis, pairs: &[ControlledPair], steps: Steps) -> bool
    ensures same { OnTrue result (map (controlled_step axis) pairs.now ≡ steps_shown steps.entry) }
{
    match steps {
        Steps::Pairs(other, others) => {
            let same_axis = axis == other;
            let same_list = pairs == others;
            same_axis && same_list
        }
        _ => false,
    }
}

/// Whether these are the steps of measured targets.
fn are_measurements(measurement: Measurement, targets: &[MeasureTarget], steps: Steps) -> bool
    ensures same { OnTrue result (map (measured measurement) targets.now ≡ steps_shown steps.entry) }
{
    match steps {
        Steps::Measurements(other, others) => {
            let same_measurement = measurement == other;
            let same_list = targets == others;
            same_measurement && same_list
        }
        _ => false,
    }
}

/// Whether detectors from a position on begin with others.
fn detectors_begin_with(detectors: Detectors, position: usize, others: Detectors) -> bool
    requires within { position + length (lookbacks_of others) ≤ length (lookbacks_of detectors) }
    ensures same { OnTrue result (take (length (lookbacks_of others.entry)) (drop position (lookbacks_of detectors.entry)) ≡ lookbacks_of others.entry) }
{
    for number in 0..others.len() {
        let same = detectors.get(position + number) == others.get(number);
        if !same {
            return false;
        }
    }
    true
}

/// Whether a step is this gate on two qubits.
fn is_two(gate: PairGate, first: usize, second: usize, step: Step) -> bool
    ensures same { OnTrue result (two gate first second ≡ step_shown step.entry) }
{
    match step {
        Step::Two(other, front, back) => {
            let same_gate = gate == other;
            let same_first = first == front;
            let same_second = second == back;
            same_gate && same_first && same_second
        }
        _ => false,
    }
}

/// Whether a step is this measurement or reset of a qubit.
fn is_collapse(
    letter: Letter,
    qubit: usize,
    recorded: bool,
    inverted: bool,
    reset: bool,
    step: Step,
) -> bool
    ensures same { OnTrue result (collapse letter qubit recorded inverted reset ≡ step_shown step.entry) }
{
    match step {
        Step::Collapse {
            letter: other,
            qubit: position,
            recorded: stored,
            inverted: inverted_too,
            reset: again,
        } => {
            let same_letter = letter == other;
            let same_qubit = qubit == position;
            let same_record = recorded == stored;
            let same_bit = inverted == inverted_too;
            let same_reset = reset == again;
            same_letter && same_qubit && same_record && same_bit && same_reset
        }
        _ => false,
    }
}

/// Whether a step is the measurement of this product.
fn is_product(factors: &[Factor], inverted: bool, step: Step) -> bool
    ensures same { OnTrue result (product factors.now inverted ≡ step_shown step.entry) }
{
    match step {
        Step::Product {
            factors: others,
            inverted: other,
        } => {
            let same_bit = inverted == other;
            let same_list = factors == others;
            same_bit && same_list
        }
        _ => false,
    }
}

/// Whether a step is this addition to an observable.
fn is_observable(number: u32, lookbacks: &[u32], step: Step) -> bool
    ensures same { OnTrue result (observable number lookbacks.now ≡ step_shown step.entry) }
{
    match step {
        Step::Observable(other, others) => {
            let same_number = number == other;
            let same_list = lookbacks == others;
            same_number && same_list
        }
        _ => false,
    }
}

/// Whether a step that is given by itself is the same as another one. Of steps that are given together in another way
/// it never says so.
fn is_step(step: Step, other: Step) -> bool
    ensures same { OnTrue result (step_shown step.entry ≡ step_shown other.entry) }
{
    match step {
        Step::Two(gate, first, second) => is_two(gate, first, second, other),
        Step::Collapse {
            letter,
            qubit,
            recorded,
            inverted,
            reset,
        } => is_collapse(letter, qubit, recorded, inverted, reset, other),
        Step::Product { factors, inverted } => is_product(factors, inverted, other),
        Step::Observable(number, lookbacks) => is_observable(number, lookbacks, other),
        Step::One(..) | Step::Controlled(..) | Step::Detector(..) => false,
    }
}

/// Whether these are this step, given by itself.
fn is_single(step: Step, steps: Steps) -> bool
    ensures same { OnTrue result (step_shown step.entry ∷ [] ≡ steps_shown steps.entry) }
{
    match steps {
        Steps::Single(other) => is_step(step, other),
        _ => false,
    }
}

/// Whether steps that are given together are the same as others. Of detectors it never says so.
pub(crate) fn are_same(steps: Steps, others: Steps) -> bool
    ensures same { OnTrue result (steps_shown steps.entry ≡ steps_shown others.entry) }
{
    match steps {
        Steps::Gates(gate, qubits) => are_gates(gate, qubits, others),
        Steps::Pairs(axis, pairs) => are_pairs(axis, pairs, others),
        Steps::Measurements(measurement, targets) => are_measurements(measurement, targets, others),
        Steps::Single(step) => is_single(step, others),
        Steps::Detectors(_) => false,
    }
}

/// Whether steps that are given together begin, from a position among them on, with others. Only
/// detectors are compared in parts; all others as a whole.
pub(crate) fn begin_with(steps: Steps, position: usize, others: Steps) -> bool
    requires within { position + length (steps_shown others) ≤ length (steps_shown steps) }
    ensures same { OnTrue result (take (length (steps_shown others.entry)) (drop position (steps_shown steps.entry)) ≡ steps_shown others.entry) }
{
    match (steps, others) {
        (Steps::Detectors(detectors), Steps::Detectors(more)) => {
            detectors_begin_with(detectors, position, more)
        }
        _ => position == 0 && are_same(steps, others),
    }
}
