//! Resets on the way of a string: they leave no letter on their qubit.

ghost use Rattle.std.specs.Prelude.{◌≡◌, ◌<◌, ◌≤◌, Bool, false, All, List, length, map, take};
ghost use Rattle.std.specs.List.{list_any};
ghost use Rattle.stab_items.specs.Steps.{measured};
ghost use Rattle.stab_items.specs.StepValues.{HaveDistinctQubits, step_shown, steps_shown};
ghost use Rattle.stab_run.specs.ProgramStates.{StepFits};
ghost use Rattle.stab_ways.specs.PutIn.{reset_leaves, step_leaves};
ghost use Rattle.stab_ways.specs.inner.Walks.{EndsTogether, IsFront, has_letter_at, steps_leave};

use stab_frames::Propagation;
use stab_gates::Letter;
use stab_instructions::{MeasureTarget, Measurement};
use stab_items::{Step, Steps};

// Measurements that reset are looked at as many at once: a string has letters on few of their qubits.
const PART: usize = 32;

/// Whether a string has a letter at the qubit of a target.
fn has_letter(letters: &[Letter], target: MeasureTarget) -> bool
    requires in_range { target.qubit < length letters.now }
    ensures value { result ≡ has_letter_at letters.now target }
{
    letters[target.qubit.number()] != Letter::I
}

/// Whether a string has a letter at the qubit of some target.
fn has_letters(letters: &[Letter], targets: &[MeasureTarget]) -> bool
    requires in_range { All (λ t. t.qubit < length letters.now) targets.now }
    ensures value { result ≡ list_any (has_letter_at letters.now) targets.now }
{
    let mut found = false;
    for target in targets {
        found |= has_letter(letters, *target);
    }
    found
}

/// All measurements, which do not reset.
fn without_resets<'a>(
    letters: &[Letter],
    measurement: Measurement,
    targets: &'a [MeasureTarget],
) -> Steps<'a>
    requires none { measurement.resets ≡ false }
    requires some { 0 < length targets.now }
    ensures front { IsFront (steps_shown result) (map (measured measurement) targets.now) }
    ensures distinct { HaveDistinctQubits result }
    ensures together { (flips : List Bool) → EndsTogether (length letters.now) (steps_shown result) (record { letters = letters.now; flips = flips }) }
{
    let _count = letters.len();
    Steps::Measurements(measurement, targets)
}

/// The first of some measurements.
fn first_alone<'a>(
    letters: &[Letter],
    measurement: Measurement,
    targets: &'a [MeasureTarget],
) -> Steps<'a>
    requires some { 0 < length targets.now }
    ensures front { IsFront (steps_shown result) (map (measured measurement) targets.now) }
    ensures distinct { HaveDistinctQubits result }
    ensures together { (flips : List Bool) → EndsTogether (length letters.now) (steps_shown result) (record { letters = letters.now; flips = flips }) }
{
    let _count = letters.len();
    Steps::Measurements(measurement, targets.split_at(1).0)
}

/// The first of some measurements, as many as this, all of them on qubits without a letter.
fn without_letters<'a>(
    letters: &[Letter],
    measurement: Measurement,
    targets: &'a [MeasureTarget],
    count: usize,
) -> Steps<'a>
    requires fits { All (StepFits (length letters.now)) (map (measured measurement) targets.now) }
    requires some { 0 < count }
    requires within { count ≤ length targets.now }
    requires none { list_any (has_letter_at letters.now) (take count targets.now) ≡ false }
    ensures front { IsFront (steps_shown result) (map (measured measurement) targets.now) }
    ensures distinct { HaveDistinctQubits result }
    ensures together { (flips : List Bool) → EndsTogether (length letters.now) (steps_shown result) (record { letters = letters.now; flips = flips }) }
{
    let _count = letters.len();
    Steps::Measurements(measurement, targets.split_at(count).0)
}

/// The first of some measurements, as many as a string passes at once: of those that reset all on qubits without a letter, or one.
fn measurements_at_once<'a>(
    letters: &[Letter],
    measurement: Measurement,
    targets: &'a [MeasureTarget],
) -> Steps<'a>
    requires fits { All (StepFits (length letters.now)) (map (measured measurement) targets.now) }
    requires some { 0 < length targets.now }
    ensures front { IsFront (steps_shown result) (map (measured measurement) targets.now) }
    ensures distinct { HaveDistinctQubits result }
    ensures together { (flips : List Bool) → EndsTogether (length letters.now) (steps_shown result) (record { letters = letters.now; flips = flips }) }
{
    if !measurement.resets {
        return without_resets(letters, measurement, targets);
    }
    let count = PART.min(targets.len());
    if has_letters(letters, targets.split_at(count).0) {
        return first_alone(letters, measurement, targets);
    }
    without_letters(letters, measurement, targets, count)
}

/// The first of some steps, as many as a string passes at once: what resets leave of it after them is what they leave one by one.
pub(crate) fn at_once<'a>(letters: &[Letter], steps: Steps<'a>) -> Steps<'a>
    requires fits { All (StepFits (length letters.now)) (steps_shown steps) }
    requires some { 0 < length (steps_shown steps) }
    requires distinct { HaveDistinctQubits steps }
    ensures front { IsFront (steps_shown result) (steps_shown steps.entry) }
    ensures distinct { HaveDistinctQubits result }
    ensures together { (flips : List Bool) → EndsTogether (length letters.now) (steps_shown result) (record { letters = letters.now; flips = flips }) }
{
    match steps {
        Steps::Measurements(measurement, targets) => {
            measurements_at_once(letters, measurement, targets)
        }
        Steps::Gates(_, _) => steps,
        Steps::Pairs(_, _) => steps,
        Steps::Detectors(_) => steps,
        Steps::Single(_) => steps,
    }
}

/// Leaves a letter out on its qubit, if that was reset to it.
fn leave_out(propagation: &mut Propagation, resets: bool, letter: Letter, qubit: usize)
    requires in_range { qubit < length propagation.old.letters }
    ensures value { propagation.new ≡ record propagation.old { letters = reset_leaves (length propagation.old.letters) resets letter qubit propagation.old.letters } }
    ensures length { length propagation.new.letters ≡ length propagation.old.letters }
{
    if resets && propagation.letter(qubit).times(letter) == Letter::I {
        propagation.multiply_letter(letter, qubit);
    }
}

/// Leaves out what the measurement of a target has left, if it resets.
fn leave_out_target(propagation: &mut Propagation, measurement: Measurement, target: MeasureTarget)
    requires in_range { target.qubit < length propagation.old.letters }
    ensures value { propagation.new ≡ record propagation.old { letters = step_leaves (length propagation.old.letters) (measured measurement target) propagation.old.letters } }
    ensures length { length propagation.new.letters ≡ length propagation.old.letters }
{
    let letter = measurement.axis.letter();
    leave_out(
        propagation,
        measurement.resets,
        letter,
        target.qubit.number(),
    );
}

/// Leaves out what measurements that reset have left.
fn leave_out_measured(
    propagation: &mut Propagation,
    measurement: Measurement,
    targets: &[MeasureTarget],
)
    requires fits { All (StepFits (length propagation.old.letters)) (map (measured measurement) targets.now) }
    ensures value { propagation.new ≡ record propagation.old { letters = steps_leave (length propagation.old.letters) (map (measured measurement) targets.now) propagation.old.letters } }
    ensures length { length propagation.new.letters ≡ length propagation.old.letters }
{
    for target in targets {
        leave_out_target(propagation, measurement, *target);
    }
}

/// Leaves out what a step has left, if it is a reset.
fn leave_out_one(propagation: &mut Propagation, step: Step)
    requires fits { StepFits (length propagation.old.letters) (step_shown step) }
    ensures value { propagation.new ≡ record propagation.old { letters = step_leaves (length propagation.old.letters) (step_shown step.entry) propagation.old.letters } }
    ensures length { length propagation.new.letters ≡ length propagation.old.letters }
{
    match step {
        Step::Collapse {
            letter,
            qubit,
            reset,
            ..
        } => leave_out(propagation, reset, letter, qubit),
        Step::One(_, _) => {}
        Step::Two(_, _, _) => {}
        Step::Controlled(_, _, _) => {}
        Step::Product { .. } => {}
        Step::Detector(_) => {}
        Step::Observable(_, _) => {}
    }
}

/// Leaves out what resets among steps have left.
pub(crate) fn leave_out_reset(propagation: &mut Propagation, steps: Steps)
    requires fits { All (StepFits (length propagation.old.letters)) (steps_shown steps) }
    ensures value { propagation.new ≡ record propagation.old { letters = steps_leave (length propagation.old.letters) (steps_shown steps.entry) propagation.old.letters } }
    ensures length { length propagation.new.letters ≡ length propagation.old.letters }
{
    match steps {
        Steps::Measurements(measurement, targets) => {
            leave_out_measured(propagation, measurement, targets);
        }
        Steps::Single(step) => leave_out_one(propagation, step),
        Steps::Gates(_, _) => {}
        Steps::Pairs(_, _) => {}
        Steps::Detectors(_) => {}
    }
}
