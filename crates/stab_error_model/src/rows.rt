//! What an error flips, by the table of single errors.
ghost use Rattle.std.specs.Prelude.{◌≡◌, ℕ, ◌+◌, IfOk};
ghost use Rattle.stab_gates.specs.Letters.{◌⊕◌};
ghost use Rattle.stab_parities.specs.OddNumbers.{row, odd};
ghost use Rattle.stab_parities.specs.Ascending.{IsAscending};
ghost use Rattle.stab_error_model.specs.inner.ErrorRows.{RowsAscend, letter_flips, error_names};

use crate::placed::{Error, ErrorSite, PlacedLetter};
use stab_gates::Letter;
use stab_parities::merge_into;
use stab_regions::SingleErrorTable;
use std::alloc::{AllocError, Global};

/// A row of the table of single errors, empty beyond the end.
fn row_at(table: &SingleErrorTable, number: usize) -> &[u32]
    ensures value { result.now ≡ row table.now.rows number }
{
    if number < table.len() {
        table.row(number)
    } else {
        &[]
    }
}

/// What X flips at a site.
fn by_x(table: &SingleErrorTable, site: ErrorSite) -> &[u32]
    ensures value { result.now ≡ row table.now.rows site.row }
{
    row_at(table, site.row)
}

/// What Z flips at a site.
fn by_z(table: &SingleErrorTable, site: ErrorSite) -> &[u32]
    ensures value { result.now ≡ row table.now.rows (site.row + 1) }
{
    if site.row < table.len() {
        row_at(table, site.row + 1)
    } else {
        &[]
    }
}

/// A copy of a row.
pub(crate) fn copied(alloc: Global, row: &[u32]) -> Result<Vec<u32>, AllocError>
    ensures value { IfOk result (λ v. v.items ≡ row.now) }
{
    let mut numbers = Vec::with_capacity(alloc, row.len())?;
    numbers.extend_from_slice(row)?;
    Ok(numbers)
}

/// The numbers of one row or the other, and not of both.
fn merged(alloc: Global, left: &[u32], right: &[u32]) -> Result<Vec<u32>, AllocError>
    requires left { IsAscending left.now }
    requires right { IsAscending right.now }
    ensures ascending { IfOk result (λ v. IsAscending v.items) }
    ensures odd { IfOk result (λ v. (i : ℕ) → odd i v.items ≡ odd i left.now ⊕ odd i right.now) }
{
    let mut numbers = Vec::new(alloc);
    merge_into(&mut numbers, left, right)?;
    Ok(numbers)
}

/// What a letter at a site flips.
fn letter_row(
    alloc: Global,
    table: &SingleErrorTable,
    placed: PlacedLetter,
) -> Result<Vec<u32>, AllocError>
    requires ascend { RowsAscend table.now.rows }
    ensures ascending { IfOk result (λ v. IsAscending v.items) }
    ensures odd { IfOk result (λ v. (i : ℕ) → odd i v.items ≡ letter_flips i table.now.rows placed) }
{
    let site = placed.site;
    match placed.letter {
        Letter::I => Ok(Vec::new(alloc)),
        Letter::X => copied(alloc, by_x(table, site)),
        Letter::Y => merged(alloc, by_x(table, site), by_z(table, site)),
        Letter::Z => copied(alloc, by_z(table, site)),
    }
}

/// What two letters at sites flip together.
fn letters_row(
    alloc: Global,
    table: &SingleErrorTable,
    first: PlacedLetter,
    second: PlacedLetter,
) -> Result<Vec<u32>, AllocError>
    requires ascend { RowsAscend table.now.rows }
    ensures ascending { IfOk result (λ v. IsAscending v.items) }
    ensures odd { IfOk result (λ v. (i : ℕ) → odd i v.items ≡ letter_flips i table.now.rows first ⊕ letter_flips i table.now.rows second) }
{
    let by_first = letter_row(alloc, table, first)?;
    let by_second = letter_row(alloc, table, second)?;
    merged(alloc, by_first.as_slice(), by_second.as_slice())
}

/// What an error flips.
pub(crate) fn error_row(
    alloc: Global,
    table: &SingleErrorTable,
    error: Error,
) -> Result<Vec<u32>, AllocError>
    requires ascend { RowsAscend table.now.rows }
    ensures ascending { IfOk result (λ v. IsAscending v.items) }
    ensures odd { IfOk result (λ v. (i : ℕ) → odd i v.items ≡ error_names i table.now.rows error) }
{
    match error {
        Error::Letter(placed) => letter_row(alloc, table, placed),
        Error::Letters(first, second) => letters_row(alloc, table, first, second),
        Error::Record {
            flip,
            back: Some(back),
            ..
        } => letters_row(alloc, table, flip, back),
        Error::Record { flip, .. } => letter_row(alloc, table, flip),
    }
}
