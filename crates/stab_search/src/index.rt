ghost use Rattle.std.specs.Prelude.{◌≡◌, ◌≢◌, ℕ, ◌<◌, true, false, [], ◌∷◌, ◌++◌, slice_index, slice_index_or, IfOk, OnOk};
ghost use Rattle.stab_search.specs.inner.Lists.{ForEach, has};
ghost use Rattle.stab_search.specs.inner.Indexes.{rows_listed, ListsDetectors};

use crate::row::Row;
use std::alloc::{AllocError, Global};

/// For each detector or observable the rows that flip it.
pub fn rows_by_detector(alloc: Global, rows: &[Row]) -> Result<Vec<Vec<usize>>, AllocError>
    ensures index { IfOk result (λ v. ListsDetectors rows.now v.items) }
{
    let mut index = Vec::new(alloc);
    'all: for r in 0..rows.len() {
        let row = &rows[r];
        list_row(alloc, &mut index, row.numbers(), r)?;
    }
    Ok(index)
}

/// Lists row r at each of these positions.
fn list_row(
    alloc: Global,
    index: &mut Vec<Vec<usize>>,
    positions: &[u32],
    r: usize,
) -> Result<(), AllocError>
    ensures others { OnOk result ((d q : ℕ) → has q (rows_listed index.old.items d) ≡ true → has q (rows_listed index.new.items d) ≡ true) }
    ensures each { OnOk result ((d : ℕ) → has d positions.now ≡ true → has r (rows_listed index.new.items d) ≡ true) }
    ensures inside { OnOk result ((n d : ℕ) → r < n → ForEach (λ q. q < n) (rows_listed index.old.items d) → ForEach (λ q. q < n) (rows_listed index.new.items d)) }
{
    'each: for d in positions {
        list(alloc, index, *d as usize, r)?;
    }
    Ok(())
}

/// Lists row r at a position.
pub fn list(
    alloc: Global,
    index: &mut Vec<Vec<usize>>,
    position: usize,
    r: usize,
) -> Result<(), AllocError>
    ensures here { OnOk result (rows_listed index.new.items position ≡ rows_listed index.old.items position ++ r ∷ []) }
    ensures elsewhere { OnOk result ((e : ℕ) → e ≢ position → rows_listed index.new.items e ≡ rows_listed index.old.items e) }
{
    'grow: while index.len() <= position {
        index.push(Vec::new(alloc))?;
    }
    index[position].push(r)?;
    Ok(())
}

/// The rows listed at a position.
pub fn rows_at(index: &[Vec<usize>], position: usize) -> &[usize]
    ensures value { result.now ≡ rows_listed index.now position }
{
    if position < index.len() {
        index[position].as_slice()
    } else {
        &[]
    }
}

/// Number k, 0 past the end.
pub fn entry(numbers: &[usize], k: usize) -> usize
    ensures value { result ≡ slice_index numbers.now k }
{
    if k < numbers.len() { numbers[k] } else { 0 }
}

/// Bit k, false past the end.
pub fn bit_at(bits: &[bool], k: usize) -> bool
    ensures value { result ≡ slice_index_or bits.now k false }
{
    if k < bits.len() { bits[k] } else { false }
}
