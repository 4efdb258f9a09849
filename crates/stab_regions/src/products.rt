ghost use Rattle.std.specs.Prelude.{◌≡◌, ℕ, Bool, false, ◌<◌, All, length, IfOk, OnOk};
ghost use Rattle.stab_pauli.specs.Paulis.{Signed, anticommute};
ghost use Rattle.stab_instructions.specs.Products.{names_twice};
ghost use Rattle.stab_items.specs.Steps.{product};
ghost use Rattle.stab_run.specs.Runs.{string_of};
ghost use Rattle.stab_regions.specs.Regions.{product_where};
ghost use Rattle.stab_regions.specs.Rows.{ShowsLetters, MovesLetters, MovesRegion};
ghost use Rattle.stab_parities.specs.OddNumbers.{odd};

use crate::lookbacks::newest;
use crate::parities::Parities;
use crate::rows::{flipped, multiply};
use stab_instructions::Factor;
use std::alloc::{AllocError, Global};
use std::collections::VecDeque;

/// Multiplies the strings of these parities by a product.
fn multiply_product(
    alloc: Global,
    by_x: &mut [Parities],
    by_z: &mut [Parities],
    factors: &[Factor],
    parities: &Parities,
) -> Result<(), AllocError>
    requires in_range { All (λ f. f.qubit < length by_x.old) factors.now }
    requires distinct { names_twice factors.now ≡ false }
    requires same_length { length by_z.old ≡ length by_x.old }
    ensures same_x { length by_x.new ≡ length by_x.old }
    ensures same_z { length by_z.new ≡ length by_z.old }
    ensures strings { OnOk result (MovesLetters (length by_x.old) (λ i s. product_where (odd i parities.now) (string_of (length by_x.old) factors.now) s) by_x.old by_z.old by_x.new by_z.new) }
{
    for factor in factors {
        let (letter, qubit) = (factor.letter.letter(), factor.qubit.number());
        multiply(alloc, by_x, by_z, letter, qubit, parities)?;
    }
    Ok(())
}

/// Moves regions to the point before a measured product: its outcome counts if its record does.
pub fn before_product(
    alloc: Global,
    by_x: &mut [Parities],
    by_z: &mut [Parities],
    records: &mut VecDeque<Parities>,
    factors: &[Factor],
) -> Result<(), AllocError>
    requires in_range { All (λ f. f.qubit < length by_x.old) factors.now }
    requires distinct { names_twice factors.now ≡ false }
    requires same_length { length by_z.old ≡ length by_x.old }
    ensures same_x { length by_x.new ≡ length by_x.old }
    ensures same_z { length by_z.new ≡ length by_z.old }
    ensures regions { OnOk result ((inverted : Bool) → MovesRegion (length by_x.old) (product factors.now inverted) by_x.old by_z.old records.old.items by_x.new by_z.new records.new.items) }
{
    let taken = newest(alloc, records);
    multiply_product(alloc, by_x, by_z, factors, &taken)?;
    Ok(())
}

/// The parities whose strings anticommute with a product.
pub fn flipped_by_product(
    alloc: Global,
    by_x: &[Parities],
    by_z: &[Parities],
    factors: &[Factor],
) -> Result<Parities, AllocError>
    requires in_range { All (λ f. f.qubit < length by_x.now) factors.now }
    requires distinct { names_twice factors.now ≡ false }
    requires same_length { length by_z.now ≡ length by_x.now }
    ensures odd { IfOk result (λ p. (i : ℕ) (s : Signed) → length s.letters ≡ length by_x.now → ShowsLetters i by_x.now by_z.now s.letters → odd i p ≡ anticommute (string_of (length by_x.now) factors.now) s) }
{
    let mut parities = Parities::none(alloc);
    for factor in factors {
        let (letter, qubit) = (factor.letter.letter(), factor.qubit.number());
        let more = flipped(alloc, by_x, by_z, letter, qubit)?;
        parities = parities.with(alloc, &more)?;
    }
    Ok(parities)
}
