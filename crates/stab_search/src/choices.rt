//! Errors of which each set of errors with weights that completes those chosen has one: few are tried where few are enough.

ghost use Rattle.std.specs.Prelude.{◌≡◌, ◌≢◌, ℕ, ◌+◌, ◌-◌, ◌<◌, ◌≤◌, true, false, length, slice_index, IfOk, OnOk, ◌^◌};
ghost use Rattle.stab_parities.specs.OddNumbers.{odd, row};
ghost use Rattle.stab_search.specs.inner.Covers.{shares};
ghost use Rattle.stab_search.specs.inner.Errors.{IsKeyed};
ghost use Rattle.stab_search.specs.inner.Lists.{ForEach, has};
ghost use Rattle.stab_search.specs.inner.Ways.{MeetsEach};

use crate::covers::{covering, seldom};
use crate::errors::Errors;
use std::alloc::{AllocError, Global};

/// Errors of which each set of `left` errors with weights that completes those chosen has one. `cover` is scratch, 0 between calls.
///
/// They are all that have the key of what is flipped, if one is left; all that flip one detector; or all that flip many: of `left` errors that
/// flip N detectors back, one flips N / `left` of them.
pub fn choices(
    errors: &Errors,
    weights: &[u64],
    flipped: &[u32],
    key: u64,
    left: usize,
    cover: &mut [usize],
) -> Result<Vec<usize>, AllocError>
    requires keyed { IsKeyed errors.now.numbers flipped.now key }
    requires some { 0 < length flipped.now }
    requires detector { slice_index flipped.now 0 < errors.now.table.detectors }
    requires left { 0 < left }
    requires weights { length weights.now ≡ length errors.now.table.rows }
    requires cover { length cover.old ≡ length errors.now.table.rows }
    ensures inside { IfOk result (λ v. ForEach (λ r. r < length errors.now.table.rows) v.items) }
    ensures meet { IfOk result (λ v. MeetsEach errors.now.table weights.now flipped.now left v.items) }
    ensures cover { length cover.new ≡ length cover.old }
{
    if left == 1 {
        let last = live(errors.alloc(), errors.with_key(key), weights)?;
        return Ok(last);
    }
    let detectors = errors.detectors_of(flipped);
    let rarest = errors.flipping(seldom(errors, detectors));
    let by_rarest = live(errors.alloc(), rarest, weights)?;
    if left == 2 {
        return Ok(by_rarest);
    }
    count_shares(errors, weights, detectors, cover);
    let least = (detectors.len() - 1) / left + 1;
    let by_cover = covering(errors, detectors, least, cover)?;
    if by_rarest.len() < by_cover.len() {
        Ok(by_rarest)
    } else {
        Ok(by_cover)
    }
}

/// Counts for each error with a weight how many of these detectors it flips, on top of what `cover` has.
fn count_shares(errors: &Errors, weights: &[u64], detectors: &[u32], cover: &mut [usize])
    requires weights { length weights.now ≡ length errors.now.table.rows }
    requires cover { length cover.old ≡ length errors.now.table.rows }
    ensures covers { (e : ℕ) → e < length errors.now.table.rows → 0 < slice_index weights.now e → shares errors.now.table.rows e detectors.now ≤ slice_index cover.new e }
    ensures length { length cover.new ≡ length cover.old }
{
    for position in 0..detectors.len() {
        count_each(errors.flipping(detectors[position]), weights, cover);
    }
}

/// Adds 1 for each of these errors that has a weight.
fn count_each(rows: &[usize], weights: &[u64], cover: &mut [usize])
    ensures more { (e : ℕ) → has e rows.now ≡ true → 0 < slice_index weights.now e → e < length weights.now → e < length cover.old → (n : ℕ) → n < 2 ^ 64 - 1 → n ≤ slice_index cover.old e → n + 1 ≤ slice_index cover.new e }
    ensures others { (e : ℕ) → slice_index cover.old e ≤ slice_index cover.new e }
    ensures length { length cover.new ≡ length cover.old }
{
    for r in rows {
        add_one(*r, weights, cover);
    }
}

/// Adds 1 for error r if it has a weight.
fn add_one(r: usize, weights: &[u64], cover: &mut [usize])
    ensures more { 0 < slice_index weights.now r → r < length weights.now → r < length cover.old → (n : ℕ) → n < 2 ^ 64 - 1 → n ≤ slice_index cover.old r → n + 1 ≤ slice_index cover.new r }
    ensures others { (e : ℕ) → slice_index cover.old e ≤ slice_index cover.new e }
    ensures length { length cover.new ≡ length cover.old }
{
    if is_live(r, weights) && r < cover.len() {
        cover[r] = cover[r].saturating_add(1);
    }
}

/// Whether error r has a weight.
fn is_live(r: usize, weights: &[u64]) -> bool
    ensures yes { r < length weights.now → 0 < slice_index weights.now r → result ≡ true }
    ensures inside { result ≡ true → r < length weights.now }
{
    r < weights.len() && weights[r] > 0
}

/// Those of these errors that have a weight.
fn live(alloc: Global, rows: &[usize], weights: &[u64]) -> Result<Vec<usize>, AllocError>
    ensures inside { IfOk result (λ v. ForEach (λ r. r < length weights.now) v.items) }
    ensures all { IfOk result (λ v. (e : ℕ) → has e rows.now ≡ true → e < length weights.now → 0 < slice_index weights.now e → has e v.items ≡ true) }
{
    let mut found = Vec::with_capacity(alloc, rows.len())?;
    for r in rows {
        take_live(*r, weights, &mut found)?;
    }
    Ok(found)
}

/// Takes error r if it has a weight.
fn take_live(r: usize, weights: &[u64], found: &mut Vec<usize>) -> Result<(), AllocError>
    ensures inside { OnOk result (ForEach (λ r. r < length weights.now) found.old.items → ForEach (λ r. r < length weights.now) found.new.items) }
    ensures preserved { OnOk result ((e : ℕ) → has e found.old.items ≡ true → has e found.new.items ≡ true) }
    ensures taken { OnOk result (r < length weights.now → 0 < slice_index weights.now r → has r found.new.items ≡ true) }
{
    if is_live(r, weights) {
        found.push(r)?;
    }
    Ok(())
}
