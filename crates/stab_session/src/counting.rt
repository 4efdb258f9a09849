ghost use Rattle.std.specs.Prelude.{◌≡◌, ℕ, ◌+◌, ◌<◌, ◌^◌, Bool, length, take, drop};
ghost use Rattle.stab_items.specs.StepValues.{step_shown, steps_shown};
ghost use Rattle.stab_run.specs.Points.{Point, given, outputs};
ghost use Rattle.stab_run.specs.Cuts.{lengths_of};
ghost use Rattle.stab_session.specs.LongerLists.{longer, AreBelow};

use stab_items::{Cursor, Step, Steps};
use stab_run::Lengths;

/// How long the lists of a run are after the next steps of a cursor, at most this many, by their lengths
/// before these. The cursor passes these steps.
pub fn lengths_after(cursor: &mut Cursor, most: usize, before: Lengths) -> Lengths
    requires few { AreBelow (2 ^ 63) (length cursor.old.left) before }
    ensures all { cursor.new.all ≡ cursor.old.all }
    ensures left { cursor.new.left ≡ drop most cursor.old.left }
    ensures value { (n : ℕ) (coins : ℕ → Bool) (a : Point) → result ≡ longer before (lengths_of (outputs n coins (take most cursor.old.left) a)) }
{
    let mut lengths = before;
    let mut left = most;
    while left > 0 {
        let Some(steps) = cursor.next_steps(left) else {
            return lengths;
        };
        left -= steps.len();
        lengths = lengths_with(lengths, steps);
    }
    lengths
}

/// How long the lists are with what some steps give, by their lengths before.
fn lengths_with(before: Lengths, steps: Steps) -> Lengths
    requires few { AreBelow (2 ^ 63) (length (steps_shown steps)) before }
    ensures value { (n : ℕ) (coins : ℕ → Bool) (a : Point) → result ≡ longer before (lengths_of (outputs n coins (steps_shown steps.entry) a)) }
{
    match steps {
        Steps::Gates(..) | Steps::Pairs(..) => before,
        Steps::Measurements(_, targets) => Lengths {
            records: before.records + targets.len(),
            free: before.free + targets.len(),
            ..before
        },
        Steps::Detectors(detectors) => Lengths {
            detectors: before.detectors + detectors.len(),
            ..before
        },
        Steps::Single(step) => lengths_with_one(before, step),
    }
}

/// How long they are with what one step gives.
fn lengths_with_one(before: Lengths, step: Step) -> Lengths
    requires few { AreBelow (2 ^ 63) 1 before }
    ensures value { (n : ℕ) (coins : ℕ → Bool) (a : Point) → result ≡ longer before (lengths_of (given n coins (step_shown step.entry) a)) }
{
    match step {
        Step::One(..) | Step::Two(..) | Step::Controlled(..) => before,
        Step::Collapse { recorded, .. } => Lengths {
            records: before.records + usize::from(recorded),
            free: before.free + 1,
            ..before
        },
        Step::Product { .. } => Lengths {
            records: before.records + 1,
            free: before.free + 1,
            ..before
        },
        Step::Detector(_) => Lengths {
            detectors: before.detectors + 1,
            ..before
        },
        Step::Observable(..) => Lengths {
            additions: before.additions + 1,
            ..before
        },
    }
}
