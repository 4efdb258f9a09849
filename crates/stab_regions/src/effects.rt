ghost use Rattle.std.specs.Prelude.{◌≡◌, ℕ, ◌+◌, ◌*◌, ◌^◌, ◌<◌, ◌≤◌, ◌&&◌, [], ◌∷◌, length, slice_set, IfOk, OnOk};
ghost use Rattle.stab_frames.specs.inner.Touches.{acts};
ghost use Rattle.stab_items.specs.Steps.{HasDistinctQubits};
ghost use Rattle.stab_items.specs.StepValues.{step_shown};
ghost use Rattle.stab_run.specs.ProgramStates.{StepFits};
ghost use Rattle.stab_parities.specs.OddNumbers.{row};
ghost use Rattle.stab_regions.specs.inner.RowMoves.{HasNumbers};
ghost use Rattle.stab_regions.specs.inner.EffectsAt.{numbers_in, IsEffectsAt, ClearsQubit, ClearsReset, EffectsMoveTo};

use crate::counts::Counts;
use crate::parities::Parities;
use crate::region_rows::RegionRows;
use stab_items::Step;
use stab_pauli::Letter;
use std::alloc::{AllocError, Global};
use std::collections::VecDeque;

/// Rows of one number each, every second one from the first on.
fn rows_of_one(alloc: Global, first: usize, count: usize) -> Result<Vec<Parities>, AllocError>
    requires few { first + 2 * count ≤ 2 ^ 32 }
    ensures len { IfOk result (λ rows. length rows.items ≡ count) }
    ensures value { IfOk result (λ rows. (k : ℕ) → k < count → row rows.items k ≡ (first + 2 * k) ∷ []) }
{
    let mut rows = Vec::with_capacity(alloc, count)?;
    'rows: while rows.len() < count {
        let number = first + 2 * rows.len();
        rows.push(Parities::one(alloc, number as u32)?)?;
    }
    Ok(rows)
}

/// What letters that are put in after the last step leave, by numbers: of records, then detectors, then observables, and then of the X and
/// the Z part of the letter on each qubit at the end.
pub fn effects_at_end(alloc: Global, counts: Counts) -> Result<RegionRows, AllocError>
    requires few { numbers_in counts < 2 ^ 32 }
    ensures state { IfOk result (IsEffectsAt counts []) }
{
    let observable = counts.records + counts.detectors;
    let first = observable + counts.observables;
    Ok(RegionRows {
        by_x: rows_of_one(alloc, first, counts.qubits)?,
        by_z: rows_of_one(alloc, first + 1, counts.qubits)?,
        records: VecDeque::new(alloc),
        record_end: counts.records,
        detector_end: observable,
        observable,
    })
}

/// Takes all numbers out of a row.
fn clear(alloc: Global, rows: &mut [Parities], site: usize)
    requires in_range { site < length rows.old }
    ensures same_length { length rows.new ≡ length rows.old }
    ensures value { rows.new ≡ slice_set rows.old site [] }
{
    rows[site] = Parities::none(alloc);
}

/// Takes the letters on a qubit away, if a step resets it.
fn clear_qubit(effects: &mut RegionRows, alloc: Global, letter: Letter, qubit: usize, reset: bool)
    requires rows { length effects.old.by_z.items ≡ length effects.old.by_x.items }
    requires in_range { qubit < length effects.old.by_x.items }
    ensures cleared { ClearsQubit (reset && acts letter) qubit effects.old effects.new }
{
    if reset && letter != Letter::I {
        clear(alloc, effects.by_x.as_mut_slice(), qubit);
        clear(alloc, effects.by_z.as_mut_slice(), qubit);
    }
}

/// Takes away the letters that a step resets: no letter in front of it is left after it.
fn clear_reset(effects: &mut RegionRows, alloc: Global, step: Step)
    requires rows { length effects.old.by_z.items ≡ length effects.old.by_x.items }
    requires fits { StepFits (length effects.old.by_x.items) (step_shown step) }
    ensures cleared { ClearsReset (step_shown step.entry) effects.old effects.new }
{
    match step {
        Step::Collapse {
            letter,
            qubit,
            reset,
            ..
        } => clear_qubit(effects, alloc, letter, qubit, reset),
        Step::One(_, _) => {}
        Step::Two(_, _, _) => {}
        Step::Controlled(_, _, _) => {}
        Step::Product { .. } => {}
        Step::Detector(_) => {}
        Step::Observable(_, _) => {}
    }
}

/// Moves effects to the point before a step.
pub fn before_effects(effects: &mut RegionRows, alloc: Global, step: Step) -> Result<(), AllocError>
    requires rows { length effects.old.by_z.items ≡ length effects.old.by_x.items }
    requires fits { StepFits (length effects.old.by_x.items) (step_shown step) }
    requires distinct { HasDistinctQubits (step_shown step) }
    requires there { HasNumbers effects.old (step_shown step) }
    ensures moved { OnOk result (EffectsMoveTo (step_shown step.entry) effects.old effects.new) }
{
    clear_reset(effects, alloc, step);
    effects.before(alloc, step, false)?;
    Ok(())
}
