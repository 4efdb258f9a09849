//! Where the steps of an item are in the unrolled circuit, and what they make.
ghost use Rattle.std.specs.Prelude.{◌≡◌, ◌≤◌, ◌<◌, ◌+◌, ◌^◌, None, take, drop, IfOk, IfErr, IfSome};
ghost use Rattle.stab_io.specs.declared.refusal.Refusal.TheVariants.{OutOfMemory};
ghost use Rattle.stab_items.specs.ItemsAt.{item_at};
ghost use Rattle.stab_items.specs.Steps.{check_of, makes, detectors_in as detectors_made};
ghost use Rattle.stab_items.specs.Views.{circuit_items};
ghost use Rattle.stab_items.specs.StepValues.{step_shown};
ghost use Rattle.stab_run.specs.Points.{coins_of};
ghost use Rattle.stab_script.specs.ItemCounts.{counts_of, path_after as after_of, steps_up_to, steps_at, counts_text};
ghost use Rattle.stab_script.specs.CountedReplies.{text_found};
ghost use Rattle.stab_script.specs.inner.StepCounts.{counted_with, IsOfSteps};
ghost use Rattle.stab_script.specs.CountedAnswers.{GivesText};

use crate::reply::{Reply, StepCounts, memory};
use stab_circuit::{Circuit, Cursor, Path, Step};
use stab_io::Refusal;
use std::alloc::Global;

/// How many records a step makes.
fn records_in(step: Step) -> usize
    ensures value { result ≡ makes (step_shown step.entry) }
    ensures one { result ≤ 1 }
{
    match step {
        Step::Collapse { recorded, .. } => { if recorded { 1 } else { 0 } }
        Step::Product { .. } => 1,
        Step::One(_, _)
        | Step::Two(_, _, _)
        | Step::Controlled(_, _, _)
        | Step::Detector(_)
        | Step::Observable(_, _) => 0,
    }
}

/// How many detectors a step has.
fn detectors_in(step: Step) -> usize
    ensures value { result ≡ detectors_made (step_shown step.entry) }
    ensures one { result ≤ 1 }
{
    match step {
        Step::Detector(_) => 1,
        Step::One(_, _)
        | Step::Two(_, _, _)
        | Step::Controlled(_, _, _)
        | Step::Collapse { .. }
        | Step::Product { .. }
        | Step::Observable(_, _) => 0,
    }
}

/// How many coins a step has.
fn coins_in(step: Step) -> usize
    ensures value { result ≡ coins_of (step_shown step.entry) }
    ensures one { result ≤ 1 }
{
    match step {
        Step::Collapse { .. } | Step::Product { .. } => 1,
        Step::One(_, _)
        | Step::Two(_, _, _)
        | Step::Controlled(_, _, _)
        | Step::Detector(_)
        | Step::Observable(_, _) => 0,
    }
}

/// The counts with those of one more step.
fn with_step(counts: StepCounts, step: Step) -> StepCounts
    requires of_steps { IsOfSteps counts }
    requires room { counts.steps + 1 < 2 ^ 64 }
    ensures value { result ≡ counted_with counts (step_shown step.entry) }
{
    StepCounts {
        steps: counts.steps + 1,
        records: counts.records + records_in(step),
        detectors: counts.detectors + detectors_in(step),
        coins: counts.coins + coins_in(step),
    }
}

/// Counts the next steps, up to this many.
fn count_steps(cursor: &mut Cursor, most: usize) -> StepCounts
    ensures value { result ≡ counts_of (take most cursor.old.left) }
    ensures left { cursor.new.left ≡ drop most cursor.old.left }
{
    let mut counts = StepCounts {
        steps: 0,
        records: 0,
        detectors: 0,
        coins: 0,
    };
    let mut left = most;
    'steps: while left > 0 {
        match cursor.next() {
            Some(step) => counts = with_step(counts, step),
            None => return counts,
        }
        left -= 1;
    }
    counts
}

/// The path after another in its list, if there can be one.
fn path_after(path: &Path) -> Option<Path>
    ensures value { IfSome result (λ p. p ≡ after_of path.now) }
{
    let blocks = path.blocks();
    let depth = blocks.len();
    if depth > 16 || path.position() == usize::MAX {
        return None;
    }
    let mut positions = [0; 17];
    positions[..depth].copy_from_slice(blocks);
    positions[depth] = path.position() + 1;
    Some(Path::new(&positions[..depth + 1]))
}

/// The counts of the steps before an item, and of those of the item at it.
///
/// Refusal `OutOfMemory` alone: no memory holds a list so long that nothing can be after it.
fn item_counts(
    alloc: Global,
    circuit: &Circuit,
    path: &Path,
) -> Result<(StepCounts, StepCounts), Refusal>
    requires checked { check_of (circuit_items circuit.now) ≡ None }
    ensures before { IfOk result (λ c. c.0 ≡ counts_of (steps_up_to path.now (circuit_items circuit.now))) }
    ensures own { IfOk result (λ c. c.1 ≡ counts_of (steps_at path.now (circuit_items circuit.now))) }
    ensures err { IfErr result (λ r. r ≡ OutOfMemory) }
{
    let Some(following) = path_after(path) else {
        return Err(Refusal::OutOfMemory);
    };
    let first = circuit.steps_before(*path);
    let end = circuit.steps_before(following);
    let mut cursor = Cursor::at(alloc, circuit, 0)?;
    let before = count_steps(&mut cursor, first);
    let own = count_steps(&mut cursor, end.saturating_sub(first));
    Ok((before, own))
}

/// The line of where the item at a path is.
///
/// Refusals: those of `Circuit::item`, and `OutOfMemory`.
pub fn show_counts(alloc: Global, circuit: &Circuit, path: Path) -> Result<Reply, Refusal>
    requires checked { check_of (circuit_items circuit.now) ≡ None }
    ensures shows { GivesText result (text_found (λ x. counts_text path (circuit_items circuit.now)) (item_at path circuit.now)) }
{
    // A path without an item is refused before anything is counted.
    let _ = circuit.item(path)?;
    let (before, own) = item_counts(alloc, circuit, &path)?;
    memory(Reply::counts(alloc, before, own))
}
