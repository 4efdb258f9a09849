//! How far back steps look.
ghost use Rattle.std.specs.Prelude.{◌≡◌, ◌≤◌, false, nat_lt, All, map, take};
ghost use Rattle.std.specs.List.{list_any};
ghost use Rattle.stab_instructions.specs.declared.axis.Axis.{Axis};
ghost use Rattle.stab_items.specs.Steps.{controlled_step, detector, LooksWithin};
ghost use Rattle.stab_items.specs.StepValues.{step_shown, steps_shown, lookbacks_of};

use crate::detectors::Detectors;
use crate::step::Step;
use crate::steps::Steps;
use stab_instructions::ControlledPair;

/// The greatest of numbers and another.
fn greatest(least: u32, numbers: &[u32]) -> u32
    ensures more { least ≤ result }
    ensures within { list_any (nat_lt result) numbers.now ≡ false }
{
    let mut greatest = least;
    for number in numbers {
        greatest = greatest.max(*number);
    }
    greatest
}

/// How far back a pair looks, if a record controls it, or else 0.
fn lookback_of(pair: ControlledPair) -> u32
    ensures within { (axis : Axis) → LooksWithin result (controlled_step axis pair) }
{
    match pair {
        ControlledPair::Qubits(_) => 0,
        ControlledPair::Record(_, lookback) => lookback.number(),
    }
}

/// The greatest of a number and the lookbacks of records that control pairs.
pub fn furthest(least: u32, pairs: &[ControlledPair]) -> u32
    ensures more { least ≤ result }
    ensures within { (axis : Axis) → All (LooksWithin result) (map (controlled_step axis) pairs.now) }
{
    let mut greatest = least;
    for pair in pairs {
        greatest = greatest.max(lookback_of(*pair));
    }
    greatest
}

/// The greatest of a number and the lookbacks of detectors.
pub fn furthest_detector(least: u32, detectors: Detectors) -> u32
    ensures more { least ≤ result }
    ensures within { All (LooksWithin result) (map detector (lookbacks_of detectors.entry)) }
{
    let mut window = least;
    for position in 0..detectors.len() {
        window = greatest(window, detectors.get(position));
    }
    window
}

/// The greatest of a number and the lookbacks of a step.
pub fn furthest_of(least: u32, step: Step) -> u32
    ensures more { least ≤ result }
    ensures within { LooksWithin result (step_shown step.entry) }
{
    match step {
        Step::One(..) | Step::Two(..) | Step::Collapse { .. } | Step::Product { .. } => least,
        Step::Controlled(_, k, _) => least.max(k),
        Step::Detector(lookbacks) | Step::Observable(_, lookbacks) => greatest(least, lookbacks),
    }
}

/// The greatest of a number and the lookbacks of steps that are given together.
pub fn furthest_of_steps(least: u32, steps: Steps) -> u32
    ensures more { least ≤ result }
    ensures within { All (LooksWithin result) (steps_shown steps.entry) }
{
    match steps {
        Steps::Gates(_, _) => least,
        Steps::Measurements(_, _) => least,
        Steps::Pairs(_, pairs) => furthest(least, pairs),
        Steps::Detectors(detectors) => furthest_detector(least, detectors),
        Steps::Single(step) => furthest_of(least, step),
    }
}
