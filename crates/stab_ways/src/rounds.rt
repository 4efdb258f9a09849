//! A string on its way over items, and rounds of blocks.

ghost use Rattle.std.specs.Prelude.{◌≡◌, ◌+◌, ◌*◌, ◌≤◌, false, All, length, OnOk};
ghost use Rattle.stab_items.specs.Items.{before, done, listed};
ghost use Rattle.stab_items.specs.Steps.{looks_too_far, rounds, unroll, most_steps};
ghost use Rattle.stab_run.specs.ProgramStates.{StepFits};
ghost use Rattle.stab_ways.specs.Ways.{part_rounds, carried_parts, rounds_counted};
ghost use Rattle.stab_ways.specs.inner.Walks.{walked, walk_shown, IsWalkOn};

use crate::folds::{Checkpoint, fold_rounds};
use crate::walk::{Walk, over_instruction};
use stab_instructions::Kind;
use stab_items::{Item, Part};
use stab_pauli::Pauli;
use std::alloc::{AllocError, Global};

/// Passes an item.
#[cycle(walking)]
fn over_item(alloc: Global, walk: &mut Walk, string: &Pauli, item: &Item) -> Result<(), AllocError>
    requires walks { IsWalkOn (length string.now.letters) walk.old }
    requires fits { All (StepFits (length string.now.letters)) (unroll (before item.now done)) }
    requires few { walk.old.steps + length (unroll (before item.now done)) ≤ most_steps }
    ensures walks { OnOk result (IsWalkOn (length string.now.letters) walk.new) }
    ensures over { OnOk result (walk_shown walk.new ≡ walked (length string.now.letters) string.now.letters (carried_parts (before item.now done)) (walk_shown walk.old)) }
{
    match item.part() {
        Part::Tick => {
            over_instruction(alloc, walk, string, &Kind::Tick)?;
            Ok(())
        }
        Part::Operation { kind, .. } => {
            over_instruction(alloc, walk, string, kind)?;
            Ok(())
        }
        Part::Block {
            count,
            body,
            stored,
            ..
        } => {
            over_rounds(alloc, walk, string, body, count.number(), stored.window)?;
            Ok(())
        }
    }
}

/// Passes this many rounds of items, which look no further back from a round than the window.
#[cycle(walking)]
fn over_rounds(
    alloc: Global,
    walk: &mut Walk,
    string: &Pauli,
    body: &[Item],
    count: u64,
    window: u32,
) -> Result<(), AllocError>
    requires walks { IsWalkOn (length string.now.letters) walk.old }
    requires fits { All (StepFits (length string.now.letters)) (rounds count (unroll (listed body.now))) }
    requires near { looks_too_far window (unroll (listed body.now)) ≡ false }
    requires few { walk.old.steps + count * length (unroll (listed body.now)) ≤ most_steps }
    ensures walks { OnOk result (IsWalkOn (length string.now.letters) walk.new) }
    ensures over { OnOk result (walk_shown walk.new ≡ walked (length string.now.letters) string.now.letters (part_rounds (rounds_counted count (length (unroll (listed body.now)))) (carried_parts (listed body.now))) (walk_shown walk.old)) }
{
    let mut checkpoint = Checkpoint::of(alloc, walk, 0, 0)?;
    let mut done = 0;
    'rounds: while done < count {
        let steps = walk.steps;
        over_items(alloc, walk, string, body)?;
        // Rounds without a step all come after the same steps, however many they are.
        if walk.steps == steps {
            return Ok(());
        }
        done = fold_rounds(
            alloc,
            walk,
            string,
            body,
            &mut checkpoint,
            done + 1,
            count,
            window,
        )?;
    }
    Ok(())
}

/// Passes items.
#[cycle(walking)]
pub(crate) fn over_items(
    alloc: Global,
    walk: &mut Walk,
    string: &Pauli,
    items: &[Item],
) -> Result<(), AllocError>
    requires walks { IsWalkOn (length string.now.letters) walk.old }
    requires fits { All (StepFits (length string.now.letters)) (unroll (listed items.now)) }
    requires few { walk.old.steps + length (unroll (listed items.now)) ≤ most_steps }
    ensures walks { OnOk result (IsWalkOn (length string.now.letters) walk.new) }
    ensures over { OnOk result (walk_shown walk.new ≡ walked (length string.now.letters) string.now.letters (carried_parts (listed items.now)) (walk_shown walk.old)) }
{
    'items: for item in items {
        over_item(alloc, walk, string, item)?;
    }
    Ok(())
}
