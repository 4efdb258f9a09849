ghost use Rattle.std.specs.Prelude.{◌≡◌, ℕ, ◌<◌, ◌≤◌, true, length, slice_index, IfOk, IfSome};
ghost use Rattle.stab_parities.specs.Ascending.{IsAscending};
ghost use Rattle.stab_search.specs.LogicalErrors.{IsLogicalError};
ghost use Rattle.stab_search.specs.Tables.{flipped_by_rows};
ghost use Rattle.stab_parities.specs.OddNumbers.{odd};
ghost use Rattle.stab_search.specs.inner.Lists.{ForEach};
ghost use Rattle.stab_search.specs.inner.Shortest.{IsLogicalSet};

use crate::row::Row;
use crate::sets::set_of;
use crate::table::Table;
use stab_parities::merge_into;
use std::alloc::{AllocError, Global};

/// The numbers in the table of the rows found, in ascending order, if they are a logical error.
pub fn logical_set(
    alloc: Global,
    table: &Table,
    found: &[usize],
    numbers: &[usize],
) -> Result<Option<Vec<usize>>, AllocError>
    ensures set { IfOk result (λ a. IfSome a (λ v. IsLogicalSet table.now (length found.now) v.items)) }
{
    if !are_below(found, numbers.len()) {
        return Ok(None);
    }
    let set = set_of(alloc, found, numbers)?;
    if !is_logical(alloc, table.detectors(), table.rows(), set.as_slice())? {
        return Ok(None);
    }
    Ok(Some(set))
}

/// Whether each number is less than the end.
fn are_below(found: &[usize], end: usize) -> bool
    ensures yes { result ≡ true → (k : ℕ) → k < length found.now → slice_index found.now k < end }
{
    'each: for k in found {
        if *k >= end {
            return false;
        }
    }
    true
}

/// Whether these rows flip an observable and no detector.
pub fn is_logical(
    alloc: Global,
    detectors: usize,
    rows: &[Row],
    errors: &[usize],
) -> Result<bool, AllocError>
    ensures yes { IfOk result (λ b. b ≡ true → IsLogicalError (record { detectors = detectors; rows = rows.now }) errors.now) }
{
    let flipped = match flipped_by(alloc, rows, errors)? {
        None => return Ok(false),
        Some(flipped) => flipped,
    };
    let flips = flipped.as_slice();
    if flips.is_empty() {
        return Ok(false);
    }
    Ok(flips[0] as usize >= detectors)
}

/// What these rows flip together, if each is there.
pub fn flipped_by(
    alloc: Global,
    rows: &[Row],
    errors: &[usize],
) -> Result<Option<Vec<u32>>, AllocError>
    ensures inside { IfOk result (λ a. IfSome a (λ v. ForEach (λ r. r < length rows.now) errors.now)) }
    ensures ascending { IfOk result (λ a. IfSome a (λ v. IsAscending v.items)) }
    ensures odd { IfOk result (λ a. IfSome a (λ v. (i : ℕ) → odd i v.items ≡ flipped_by_rows rows.now errors.now i)) }
{
    let mut flipped: Vec<u32> = Vec::new(alloc);
    'each: for r in errors {
        if *r >= rows.len() {
            return Ok(None);
        }
        let mut next = Vec::new(alloc);
        let row = &rows[*r];
        merge_into(&mut next, flipped.as_slice(), row.numbers())?;
        flipped = next;
    }
    Ok(Some(flipped))
}
