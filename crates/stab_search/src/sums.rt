//! Variables for what errors flip together.
ghost use Rattle.std.specs.Prelude.{◌≡◌, ℕ, ◌+◌, ◌<◌, ◌^◌, ◌∷◌, [], length, All, IfOk, OnOk, slice_index_or};
ghost use Rattle.stab_search.specs.inner.Sums.{Adds, AreBuilt, AreParities};

use crate::table::Table;
use std::alloc::{AllocError, Global};

/// A problem has at most this many sums, and fewer errors, so that its clauses can be counted.
pub const MOST: usize = 1 << 60;

/// A variable that is true if exactly one of two others is.
#[derive(Clone, Copy, Debug, PartialEq, Eq)]
pub struct Sum {
    pub left: usize,
    pub right: usize,
    pub both: usize,
}

/// Sums, of which the first is variable `first`, and for each detector and observable the variable that says whether it is flipped, or 0 if
/// no error flips it.
#[derive(Drop)]
pub struct Parities {
    pub first: usize,
    pub sums: Vec<Sum>,
    pub parities: Vec<usize>,
}

/// Makes the list of parities long enough for a number.
fn reach(parities: &mut Vec<usize>, number: u32) -> Result<(), AllocError>
    ensures long { OnOk result (number < length parities.new.items) }
    ensures same { (i : ℕ) → slice_index_or parities.new.items i 0 ≡ slice_index_or parities.old.items i 0 }
    ensures below { (end : ℕ) → 0 < end → All (λ v. v < end) parities.old.items → All (λ v. v < end) parities.new.items }
{
    let length = number as usize + 1;
    if parities.len() < length {
        parities.resize(length, 0)?;
    }
    Ok(())
}

/// Adds the variable of an error to what is flipped at a number.
fn add_flip(built: &mut Parities, variable: usize, number: u32) -> Result<(), AllocError>
    requires built { AreBuilt built.old }
    requires variable { 0 < variable }
    requires error { variable < built.old.first }
    ensures first { built.new.first ≡ built.old.first }
    ensures built { OnOk result (AreBuilt built.new) }
    ensures adds { OnOk result (Adds variable (number ∷ []) built.old.sums.items built.old.parities.items built.new.sums.items built.new.parities.items) }
{
    reach(&mut built.parities, number)?;
    let number = number as usize;
    let parity = built.parities[number];
    if parity == 0 {
        built.parities[number] = variable;
        return Ok(());
    }
    if built.sums.len() >= MOST {
        return Err(AllocError);
    }
    let both = built.first + built.sums.len();
    built.sums.push(Sum {
        left: parity,
        right: variable,
        both,
    })?;
    built.parities[number] = both;
    Ok(())
}

/// Adds the variable of an error to all that it flips.
fn add_error(built: &mut Parities, variable: usize, flipped: &[u32]) -> Result<(), AllocError>
    requires built { AreBuilt built.old }
    requires variable { 0 < variable }
    requires error { variable < built.old.first }
    ensures first { built.new.first ≡ built.old.first }
    ensures built { OnOk result (AreBuilt built.new) }
    ensures adds { OnOk result (Adds variable flipped.now built.old.sums.items built.old.parities.items built.new.sums.items built.new.parities.items) }
{
    'each: for number in flipped {
        add_flip(built, variable, *number)?;
    }
    Ok(())
}

/// The parities of a table's errors, whose variables are 1 and so on. The variable after theirs is left over.
pub fn parities_of(alloc: Global, table: &Table) -> Result<Parities, AllocError>
    requires countable { length table.now.rows < 2 ^ 60 }
    ensures first { IfOk result (λ p. p.first ≡ length table.now.rows + 2) }
    ensures built { IfOk result (λ p. AreBuilt p) }
    ensures parities { IfOk result (λ p. AreParities table.now.rows p.sums.items p.parities.items) }
{
    let mut built = Parities {
        first: table.len() + 2,
        sums: Vec::new(alloc),
        parities: Vec::new(alloc),
    };
    'errors: for number in 0..table.len() {
        add_error(&mut built, number + 1, table.row(number))?;
    }
    Ok(built)
}
