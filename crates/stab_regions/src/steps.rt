ghost use Rattle.std.specs.Prelude.{◌≡◌, ℕ, Bool, ◌+◌, ◌<◌, ◌&&◌, length, IfOk, OnOk, if◌then◌else◌};
ghost use Rattle.stab_items.specs.Steps.{controlled, collapse};
ghost use Rattle.stab_run.specs.Runs.{flip_of};
ghost use Rattle.stab_regions.specs.Rows.{bits_at, MovesRegion};
ghost use Rattle.stab_parities.specs.OddNumbers.{odd, row};

use crate::lookbacks::{look_back, newest};
use crate::parities::Parities;
use crate::rows::{flipped, multiply};
use stab_pauli::Letter;
use stab_run::flip;
use std::alloc::{AllocError, Global};
use std::collections::VecDeque;

/// Moves regions to the point before a letter that a record controls: the record counts if the
/// letter flips.
pub fn before_controlled(
    alloc: Global,
    by_x: &[Parities],
    by_z: &[Parities],
    records: &mut VecDeque<Parities>,
    letter: Letter,
    k: u32,
    qubit: usize,
) -> Result<(), AllocError>
    requires in_range { qubit < length by_x.now }
    requires same_length { length by_z.now ≡ length by_x.now }
    ensures regions { OnOk result (MovesRegion (length by_x.now) (controlled letter k qubit) by_x.now by_z.now records.old.items by_x.now by_z.now records.new.items) }
{
    let parities = flipped(alloc, by_x, by_z, letter, qubit)?;
    look_back(alloc, records, k, &parities)?;
    Ok(())
}

/// The parities that are flipped by what a reset corrects by; none if it is no reset.
fn corrected(
    alloc: Global,
    by_x: &[Parities],
    by_z: &[Parities],
    letter: Letter,
    qubit: usize,
    reset: bool,
) -> Result<Parities, AllocError>
    requires in_range { qubit < length by_x.now }
    requires same_length { length by_z.now ≡ length by_x.now }
    ensures odd { IfOk result (λ p. (i : ℕ) → odd i p ≡ (reset && bits_at i (flip_of letter) (row by_x.now qubit) (row by_z.now qubit))) }
{
    if reset {
        flipped(alloc, by_x, by_z, flip(letter), qubit)
    } else {
        Ok(Parities::none(alloc))
    }
}

/// Takes away the newest record if there is one, and gives the parities whose regions had it.
fn taken(alloc: Global, records: &mut VecDeque<Parities>, recorded: bool) -> Parities
    ensures odd { (i : ℕ) → odd i result ≡ (recorded && odd i (row records.old.items 0)) }
    ensures others { (k : ℕ) → row records.new.items k ≡ row records.old.items (if recorded then k + 1 else k) }
{
    if recorded {
        newest(alloc, records)
    } else {
        Parities::none(alloc)
    }
}

/// Moves regions to the point before a measurement of a letter: its outcome counts if its record
/// does, and if what is corrected by it flips.
pub fn before_collapse(
    alloc: Global,
    by_x: &mut [Parities],
    by_z: &mut [Parities],
    records: &mut VecDeque<Parities>,
    letter: Letter,
    qubit: usize,
    recorded: bool,
    reset: bool,
) -> Result<(), AllocError>
    requires in_range { qubit < length by_x.old }
    requires same_length { length by_z.old ≡ length by_x.old }
    ensures same_x { length by_x.new ≡ length by_x.old }
    ensures same_z { length by_z.new ≡ length by_z.old }
    ensures regions { OnOk result ((inverted : Bool) → MovesRegion (length by_x.old) (collapse letter qubit recorded inverted reset) by_x.old by_z.old records.old.items by_x.new by_z.new records.new.items) }
{
    let corrected = corrected(alloc, by_x, by_z, letter, qubit, reset)?;
    let taken = taken(alloc, records, recorded);
    let counted = taken.with(alloc, &corrected)?;
    multiply(alloc, by_x, by_z, letter, qubit, &counted)?;
    Ok(())
}
