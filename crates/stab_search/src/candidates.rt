//! Errors of which each set that completes those chosen has one: few are tried where few are enough.
ghost use Rattle.std.specs.Prelude.{◌≡◌, ◌≢◌, ℕ, ◌+◌, ◌-◌, ◌<◌, ◌≤◌, true, false, List, length, slice_index, IfOk, OnOk, [], ◌^◌};
ghost use Rattle.stab_search.specs.inner.Covers.{MayBe, CoversEach};
ghost use Rattle.stab_search.specs.inner.Ends.{Meet};
ghost use Rattle.stab_search.specs.inner.Errors.{IsKeyed};
ghost use Rattle.stab_search.specs.inner.Indexes.{rows_listed};
ghost use Rattle.stab_search.specs.inner.Lists.{ForEach, has};
ghost use Rattle.stab_parities.specs.OddNumbers.{odd, row};

use crate::covers::{covering, is_covering, seldom, set_zero, take_covering};
use crate::errors::Errors;
use std::alloc::{AllocError, Global};

/// With this many errors left, all that flip one detector are taken: to look up by keys which of them one more error completes takes less
/// time than to count what each flips.
const PLAIN: usize = 2;

/// Errors of which each set of `left` errors has one that completes those chosen. `cover` is scratch, 0 between calls.
///
/// They are some among which are all with the key of what is flipped, if one is left; all that flip one detector; or all that flip many: of
/// `left` errors that flip N detectors back, one flips N / `left` of them.
pub fn candidates(
    errors: &Errors,
    first: usize,
    path: &[usize],
    flipped: &[u32],
    key: u64,
    left: usize,
    cover: &mut [usize],
) -> Result<Vec<usize>, AllocError>
    requires keyed { IsKeyed errors.now.numbers flipped.now key }
    requires some { 0 < length flipped.now }
    requires detector { slice_index flipped.now 0 < errors.now.table.detectors }
    requires left { 0 < left }
    requires cover { length cover.old ≡ length errors.now.table.rows }
    ensures inside { IfOk result (λ v. ForEach (λ r. r < length errors.now.table.rows) v.items) }
    ensures meet { IfOk result (λ v. Meet errors.now.table errors.now.pairs first path.now flipped.now left v.items) }
    ensures cover { length cover.new ≡ length cover.old }
{
    if left == 1 {
        let last = Vec::from_slice(errors.alloc(), errors.with_key(key))?;
        return Ok(last);
    }
    let detectors = errors.detectors_of(flipped);
    if left == PLAIN {
        let one = errors.flipping(seldom(errors, detectors));
        let all = Vec::from_slice(errors.alloc(), one)?;
        return Ok(all);
    }
    count(errors, first, detectors, cover);
    leave_out(errors, path, cover);
    let rarest = errors.flipping(rarest(errors, detectors, cover));
    let by_rarest = live(errors.alloc(), rarest, cover)?;
    let least = (detectors.len() - 1) / left + 1;
    let by_cover = covering(errors, detectors, least, cover)?;
    if by_rarest.len() < by_cover.len() {
        Ok(by_rarest)
    } else {
        Ok(by_cover)
    }
}

/// Counts for each error after the first one how many of these detectors it flips, on top of what `cover` has.
fn count(errors: &Errors, first: usize, detectors: &[u32], cover: &mut [usize])
    requires cover { length cover.old ≡ length errors.now.table.rows }
    ensures covers { CoversEach errors.now.table.rows errors.now.pairs first [] detectors.now cover.new }
    ensures length { length cover.new ≡ length cover.old }
{
    for position in 0..detectors.len() {
        count_each(errors.flipping(detectors[position]), first, cover);
    }
}

/// Adds 1 for each of these errors after the first one.
fn count_each(rows: &[usize], first: usize, cover: &mut [usize])
    ensures more { (e : ℕ) → has e rows.now ≡ true → first < e → e < length cover.old → (n : ℕ) → n < 2 ^ 64 - 1 → n ≤ slice_index cover.old e → n + 1 ≤ slice_index cover.new e }
    ensures others { (e : ℕ) → slice_index cover.old e ≤ slice_index cover.new e }
    ensures length { length cover.new ≡ length cover.old }
{
    for r in rows {
        add_one(*r, first, cover);
    }
}

/// Adds 1 for error r if it is after the first one.
fn add_one(r: usize, first: usize, cover: &mut [usize])
    ensures more { first < r → r < length cover.old → (n : ℕ) → n < 2 ^ 64 - 1 → n ≤ slice_index cover.old r → n + 1 ≤ slice_index cover.new r }
    ensures others { (e : ℕ) → slice_index cover.old e ≤ slice_index cover.new e }
    ensures length { length cover.new ≡ length cover.old }
{
    if r > first && r < cover.len() {
        cover[r] = cover[r].saturating_add(1);
    }
}

/// Takes out those chosen, and those that need not be tried with them.
fn leave_out(errors: &Errors, path: &[usize], cover: &mut [usize])
    ensures others { (e : ℕ) → has e path.now ≡ false → ((a : ℕ) → has a path.now ≡ true → has e (rows_listed errors.now.pairs a) ≡ false) → slice_index cover.new e ≡ slice_index cover.old e }
    ensures length { length cover.new ≡ length cover.old }
{
    clear(path, cover);
    for a in path {
        clear(errors.left_out(*a), cover);
    }
}

/// Sets these to 0.
fn clear(rows: &[usize], cover: &mut [usize])
    ensures others { (e : ℕ) → has e rows.now ≡ false → slice_index cover.new e ≡ slice_index cover.old e }
    ensures length { length cover.new ≡ length cover.old }
{
    for r in rows {
        set_zero(*r, cover);
    }
}

/// The detector that the fewest errors flip that may be tried.
fn rarest(errors: &Errors, detectors: &[u32], cover: &[usize]) -> u32
    requires some { 0 < length detectors.now }
    ensures among { has result detectors.now ≡ true }
{
    let mut best = detectors[0];
    let mut fewest = usize::MAX;
    for d in detectors {
        let count = live_count(errors.flipping(*d), cover, fewest);
        if count < fewest {
            best = *d;
            fewest = count;
        }
    }
    best
}

/// How many of these errors may be tried, if that is fewer than `end`.
fn live_count(rows: &[usize], cover: &[usize], end: usize) -> usize {
    let mut count: usize = 0;
    for r in rows {
        if count >= end {
            break;
        }
        if is_covering(*r, 1, cover) {
            count = count.saturating_add(1);
        }
    }
    count
}

/// Those of these errors that may be tried.
fn live(alloc: Global, rows: &[usize], cover: &[usize]) -> Result<Vec<usize>, AllocError>
    ensures inside { IfOk result (λ v. ForEach (λ r. r < length cover.now) v.items) }
    ensures all { IfOk result (λ v. (e : ℕ) → has e rows.now ≡ true → e < length cover.now → 1 ≤ slice_index cover.now e → has e v.items ≡ true) }
{
    let mut found = Vec::with_capacity(alloc, rows.len())?;
    for r in rows {
        take_covering(*r, 1, cover, &mut found)?;
    }
    Ok(found)
}
