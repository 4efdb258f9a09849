ghost use Rattle.std.specs.Prelude.{◌≡◌, ℕ, ◌<◌, Bool, length, IfOk, OnOk};
ghost use Rattle.stab_regions.specs.Rows.{Toggles, TogglesWhere, bits_at, MovesLetters, multiplied};
ghost use Rattle.stab_parities.specs.OddNumbers.{odd, row};

use crate::parities::Parities;
use stab_pauli::Letter;
use std::alloc::{AllocError, Global};

/// Toggles parities in a row.
#[tactic(auto, using(crate::proofs::RowLemmas::toggles_set))]
pub fn toggle(
    alloc: Global,
    rows: &mut [Parities],
    site: usize,
    parities: &Parities,
) -> Result<(), AllocError>
    requires in_range { site < length rows.old }
    ensures same_length { length rows.new ≡ length rows.old }
    ensures value { OnOk result (Toggles rows.old rows.new site parities.now) }
{
    if parities.is_empty() {
        return Ok(());
    }
    rows[site] = rows[site].merged(alloc, parities)?;
    Ok(())
}

/// Does so, if the bit is 1.
#[tactic(auto, using(crate::proofs::RowLemmas::toggles_true, crate::proofs::RowLemmas::toggles_false))]
pub fn toggle_if(
    alloc: Global,
    bit: bool,
    rows: &mut [Parities],
    site: usize,
    parities: &Parities,
) -> Result<(), AllocError>
    requires in_range { site < length rows.old }
    ensures same_length { length rows.new ≡ length rows.old }
    ensures value { OnOk result (TogglesWhere bit rows.old rows.new site parities.now) }
{
    if bit {
        toggle(alloc, rows, site, parities)
    } else {
        Ok(())
    }
}

/// Toggles in a row the parities of another, if the bit is 1.
#[tactic(auto, using(crate::proofs::RowLemmas::toggles_set, crate::proofs::RowLemmas::toggles_true, crate::proofs::RowLemmas::toggles_false))]
pub fn toggle_within_if(
    alloc: Global,
    bit: bool,
    rows: &mut [Parities],
    site: usize,
    other: usize,
) -> Result<(), AllocError>
    requires in_range { site < length rows.old }
    requires other_in_range { other < length rows.old }
    ensures same_length { length rows.new ≡ length rows.old }
    ensures value { OnOk result (TogglesWhere bit rows.old rows.new site (row rows.old other)) }
{
    if bit {
        rows[site] = rows[site].merged(alloc, &rows[other])?;
    }
    Ok(())
}

/// The parities that a letter on a qubit flips, by those that X flips there and those that Z does.
pub fn flipped(
    alloc: Global,
    by_x: &[Parities],
    by_z: &[Parities],
    letter: Letter,
    qubit: usize,
) -> Result<Parities, AllocError>
    requires in_range { qubit < length by_x.now }
    requires same_length { length by_z.now ≡ length by_x.now }
    ensures odd { IfOk result (λ p. (i : ℕ) → odd i p ≡ bits_at i letter (row by_x.now qubit) (row by_z.now qubit)) }
{
    match letter {
        Letter::I => Ok(Parities::none(alloc)),
        Letter::X => by_x[qubit].copy(alloc),
        Letter::Y => by_x[qubit].merged(alloc, &by_z[qubit]),
        Letter::Z => by_z[qubit].copy(alloc),
    }
}

/// Multiplies the strings of these parities by a letter on a qubit.
pub fn multiply(
    alloc: Global,
    by_x: &mut [Parities],
    by_z: &mut [Parities],
    letter: Letter,
    qubit: usize,
    parities: &Parities,
) -> Result<(), AllocError>
    requires in_range { qubit < length by_x.old }
    requires same_length { length by_z.old ≡ length by_x.old }
    ensures same_x { length by_x.new ≡ length by_x.old }
    ensures same_z { length by_z.new ≡ length by_z.old }
    ensures strings { OnOk result (MovesLetters (length by_x.old) (multiplied (length by_x.old) letter qubit parities.now) by_x.old by_z.old by_x.new by_z.new) }
{
    toggle_if(alloc, letter.anticommutes(Letter::X), by_x, qubit, parities)?;
    toggle_if(alloc, letter.anticommutes(Letter::Z), by_z, qubit, parities)
}
