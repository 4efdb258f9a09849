ghost use Rattle.std.specs.Prelude.{◌≡◌, ℕ, ◌-◌, ◌*◌, ◌<◌, ◌≤◌, [], ◌∷◌, ◌++◌, true, List, All, length, reverse, slice_index_or, OnOk};
ghost use Rattle.std.specs.List.{flat_map};
ghost use Rattle.stab_items.specs.StepValues.{step_shown};
ghost use Rattle.stab_regions.specs.inner.Sites.{step_qubits, where_asked};
ghost use Rattle.stab_regions.specs.inner.SiteRows.{rows_on, rows_around, Ascend};

use crate::parities::Parities;
use crate::single_error_rows::SingleErrorRows;
use crate::sites::{Sides, qubit_in, qubits_in};
use stab_items::Step;
use std::alloc::AllocError;

/// Puts the rows of X and then Z on a qubit after others.
fn keep_on(
    retained: &mut SingleErrorRows,
    by_x: &[Parities],
    by_z: &[Parities],
    qubit: usize,
) -> Result<(), AllocError>
    requires in_range { qubit < length by_x.now }
    requires same_length { length by_z.now ≡ length by_x.now }
    ensures value { OnOk result (retained.new ≡ retained.old ++ rows_on by_x.now by_z.now qubit) }
    ensures ascend { Ascend by_x.now by_z.now qubit }
{
    let (x, z) = (by_x[qubit].numbers(), by_z[qubit].numbers());
    retained.push(x)?;
    retained.push(z)?;
    Ok(())
}

/// Keeps the rows of X and Z on each of a step's qubits after it, if single errors there are asked for.
pub fn keep_all(
    retained: &mut SingleErrorRows,
    by_x: &[Parities],
    by_z: &[Parities],
    asked: bool,
    step: Step,
) -> Result<(), AllocError>
    requires in_range { All (λ q. q < length by_x.now) (step_qubits (step_shown step)) }
    requires same_length { length by_z.now ≡ length by_x.now }
    ensures value { OnOk result (asked ≡ true → retained.new ≡ flat_map (rows_on by_x.now by_z.now) (step_qubits (step_shown step.entry))) }
    ensures ascend { OnOk result (asked ≡ true → All (Ascend by_x.now by_z.now) (step_qubits (step_shown step.entry))) }
{
    if !asked {
        return Ok(());
    }
    retained.clear();
    'qubits: for k in 0..qubits_in(step) {
        keep_on(retained, by_x, by_z, qubit_in(step, k))?;
    }
    Ok(())
}

/// Puts the rows of X and Z on a qubit before others, which are stored the last first, if single errors there are asked for.
fn add_front(
    rows: &mut SingleErrorRows,
    by_x: &[Parities],
    by_z: &[Parities],
    asked: bool,
    qubit: usize,
) -> Result<(), AllocError>
    requires in_range { qubit < length by_x.now }
    requires same_length { length by_z.now ≡ length by_x.now }
    ensures value { OnOk result (reverse rows.new ≡ where_asked asked (rows_on by_x.now by_z.now qubit) ++ reverse rows.old) }
    ensures ascend { asked ≡ true → Ascend by_x.now by_z.now qubit }
{
    if asked {
        let (x, z) = (by_x[qubit].numbers(), by_z[qubit].numbers());
        rows.push(z)?;
        rows.push(x)?;
    }
    Ok(())
}

/// The same of the last two of this many rows that are stored.
fn add_retained(
    rows: &mut SingleErrorRows,
    retained: &SingleErrorRows,
    asked: bool,
    end: usize,
) -> Result<(), AllocError>
    requires two { asked ≡ true → 2 ≤ end }
    requires in_range { asked ≡ true → end ≤ length retained.now }
    ensures value { OnOk result (reverse rows.new ≡ where_asked asked (slice_index_or retained.now (end - 2) [] ∷ slice_index_or retained.now (end - 1) [] ∷ []) ++ reverse rows.old) }
{
    if asked {
        rows.push(retained.row(end - 1))?;
        rows.push(retained.row(end - 2))?;
    }
    Ok(())
}

/// Adds the rows of all letters that are asked for at a step, by the rows in front of it and those that are stored of its qubits after it.
pub fn add_all(
    rows: &mut SingleErrorRows,
    by_x: &[Parities],
    by_z: &[Parities],
    retained: &SingleErrorRows,
    sides: Sides,
    step: Step,
) -> Result<(), AllocError>
    requires in_range { All (λ q. q < length by_x.now) (step_qubits (step_shown step)) }
    requires same_length { length by_z.now ≡ length by_x.now }
    requires retained { sides.following ≡ true → length retained.now ≡ 2 * length (step_qubits (step_shown step)) }
    ensures value { OnOk result ((after_x after_z : List (List ℕ)) → (sides.following ≡ true → retained.now ≡ flat_map (rows_on after_x after_z) (step_qubits (step_shown step.entry))) → reverse rows.new ≡ flat_map (rows_around sides by_x.now by_z.now after_x after_z) (step_qubits (step_shown step.entry)) ++ reverse rows.old) }
    ensures ascend { OnOk result (sides.front ≡ true → All (Ascend by_x.now by_z.now) (step_qubits (step_shown step.entry))) }
{
    let mut left = qubits_in(step);
    let mut end = retained.len();
    'qubits: while left > 0 {
        left -= 1;
        add_retained(rows, retained, sides.following, end)?;
        add_front(rows, by_x, by_z, sides.front, qubit_in(step, left))?;
        end = end.saturating_sub(2);
    }
    Ok(())
}
