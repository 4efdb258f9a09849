//! The sets of errors that complete those chosen, counted: each with the product of its errors' weights.

ghost use Rattle.std.specs.Prelude.{◌≡◌, ℕ, ◌+◌, ◌*◌, ◌<◌, ◌≤◌, ◌⊎◌, true, false, List, [], ◌++◌, length, slice_index, slice_set, IfOk, OnOk};
ghost use Rattle.stab_parities.specs.OddNumbers.{row};
ghost use Rattle.stab_search.specs.LogicalErrors.{HasNoneWithin};
ghost use Rattle.stab_search.specs.inner.Errors.{key_of, IsKeyed};
ghost use Rattle.stab_search.specs.inner.Lists.{ForEach, has};
ghost use Rattle.stab_search.specs.inner.Ways.{ways, ReportsNumber, HasNoFewer, IsWaysPart};

use crate::choices::choices;
use crate::errors::Errors;
use stab_parities::merge_into;
use std::alloc::{AllocError, Global};

/// The ways to complete what is flipped by `left` errors that have weights. `cover` is scratch.
#[cycle(ways)]
pub fn ways(
    errors: &Errors,
    weights: &mut [u64],
    flipped: &[u32],
    key: u64,
    left: usize,
    cover: &mut [usize],
) -> Result<Option<u64>, AllocError>
    requires keyed { IsKeyed errors.now.numbers flipped.now key }
    requires none { HasNoneWithin errors.now.table left }
    requires fewer { HasNoFewer errors.now.table flipped.now left }
    requires weights { length weights.old ≡ length errors.now.table.rows }
    requires cover { length cover.old ≡ length errors.now.table.rows }
    ensures count { IfOk result (ReportsNumber (ways errors.now.table.detectors errors.now.table.rows weights.old left flipped.now)) }
    ensures weights { OnOk result (weights.new ≡ weights.old) }
    ensures cover { length cover.new ≡ length cover.old }
{
    if !flips_detector(flipped, errors.detectors()) {
        return Ok(Some(ways_without_detector(flipped, left)));
    }
    if left == 0 {
        return Ok(Some(0));
    }
    let next = choices(errors, weights, flipped, key, left, cover)?;
    let tried = next.as_slice();
    let retained = weights_at(errors.alloc(), tried, weights)?;
    let before = retained.as_slice();
    let rest = left - 1;
    let sum = try_each(errors, tried, weights, flipped, key, rest, cover)?;
    put_back(tried, before, weights);
    Ok(sum)
}

/// The ways with one of these errors and `rest` others. It leaves the weights of these errors at 0.
#[cycle(ways)]
pub fn try_each(
    errors: &Errors,
    tried: &[usize],
    weights: &mut [u64],
    flipped: &[u32],
    key: u64,
    rest: usize,
    cover: &mut [usize],
) -> Result<Option<u64>, AllocError>
    requires keyed { IsKeyed errors.now.numbers flipped.now key }
    requires none { HasNoneWithin errors.now.table rest }
    requires fewer { HasNoFewer errors.now.table flipped.now (rest + 1) }
    requires inside { ForEach (λ e. e < length errors.now.table.rows) tried.now }
    requires weights { length weights.old ≡ length errors.now.table.rows }
    requires cover { length cover.old ≡ length errors.now.table.rows }
    ensures count { IfOk result (λ a. IsWaysPart errors.now.table weights.old weights.new (rest + 1) flipped.now a) }
    ensures zero { OnOk result ((e : ℕ) → has e tried.now ≡ true → slice_index weights.new e ≡ 0) }
    ensures others { OnOk result ((e : ℕ) → has e tried.now ≡ false → slice_index weights.new e ≡ slice_index weights.old e) }
    ensures weights { length weights.new ≡ length weights.old }
    ensures cover { length cover.new ≡ length cover.old }
{
    let mut next = Vec::new(errors.alloc());
    let mut sum = Some(0);
    'tries: for g in tried {
        let more = try_error(errors, *g, weights, flipped, key, rest, &mut next, cover)?;
        sum = plus(sum, more);
    }
    Ok(sum)
}

/// The ways with error g and `rest` others. It leaves the weight of g at 0. What is flipped after g is written to `next`.
#[cycle(ways)]
fn try_error(
    errors: &Errors,
    g: usize,
    weights: &mut [u64],
    flipped: &[u32],
    key: u64,
    rest: usize,
    next: &mut Vec<u32>,
    cover: &mut [usize],
) -> Result<Option<u64>, AllocError>
    requires keyed { IsKeyed errors.now.numbers flipped.now key }
    requires none { HasNoneWithin errors.now.table rest }
    requires fewer { HasNoFewer errors.now.table flipped.now (rest + 1) }
    requires inside { g < length errors.now.table.rows }
    requires weights { length weights.old ≡ length errors.now.table.rows }
    requires cover { length cover.old ≡ length errors.now.table.rows }
    ensures count { IfOk result (ReportsNumber (slice_index weights.old g * ways errors.now.table.detectors errors.now.table.rows (slice_set weights.old g 0) rest (row errors.now.table.rows g ++ flipped.now))) }
    ensures weights { OnOk result (weights.new ≡ slice_set weights.old g 0) }
    ensures length { length weights.new ≡ length weights.old }
    ensures cover { length cover.new ≡ length cover.old }
{
    let weight = weights[g];
    weights[g] = 0;
    let next_key = key ^ errors.key(g);
    if weight == 0 {
        return Ok(Some(0));
    }
    if rest == 1 && !is_live_key(errors, weights, next_key) {
        return Ok(Some(0));
    }
    merge_into(next, flipped, errors.row(g))?;
    let each = ways(errors, weights, next.as_slice(), next_key, rest, cover)?;
    Ok(times(weight, each))
}

/// Whether some error with a weight may have this key.
fn is_live_key(errors: &Errors, weights: &[u64], key: u64) -> bool
    requires weights { length weights.now ≡ length errors.now.table.rows }
    ensures not { result ≡ false → (e : ℕ) → e < length errors.now.table.rows → key_of errors.now.numbers (row errors.now.table.rows e) ≡ key → slice_index weights.now e ≡ 0 }
{
    errors.has_key(key) && any_live(errors.with_key(key), weights)
}

/// Whether one of these errors has a weight.
fn any_live(errors: &[usize], weights: &[u64]) -> bool
    ensures not { result ≡ false → (e : ℕ) → has e errors.now ≡ true → slice_index weights.now e ≡ 0 }
{
    'errors: for e in errors {
        if *e < weights.len() && weights[*e] > 0 {
            return true;
        }
    }
    false
}

/// Whether the first of these numbers is a detector.
fn flips_detector(flipped: &[u32], detectors: usize) -> bool
    ensures yes { result ≡ true → (0 < length flipped.now) × (slice_index flipped.now 0 < detectors) }
    ensures not { result ≡ false → (flipped.now ≡ []) ⊎ ((0 < length flipped.now) × (detectors ≤ slice_index flipped.now 0)) }
{
    !flipped.is_empty() && (flipped[0] as usize) < detectors
}

/// The ways to complete what is flipped if that has no detector: one if observables are flipped and no error is left.
fn ways_without_detector(flipped: &[u32], left: usize) -> u64
    ensures one { left ≡ 0 → 0 < length flipped.now → result ≡ 1 }
    ensures none { 0 < left → result ≡ 0 }
    ensures nothing { flipped.now ≡ [] → result ≡ 0 }
{
    if left == 0 && !flipped.is_empty() {
        1
    } else {
        0
    }
}

/// The weights of these errors.
fn weights_at(alloc: Global, errors: &[usize], weights: &[u64]) -> Result<Vec<u64>, AllocError>
    requires inside { ForEach (λ e. e < length weights.now) errors.now }
    ensures count { IfOk result (λ v. length v.items ≡ length errors.now) }
    ensures each { IfOk result (λ v. (k : ℕ) → k < length errors.now → slice_index v.items k ≡ slice_index weights.now (slice_index errors.now k)) }
{
    let mut found = Vec::with_capacity(alloc, errors.len())?;
    'errors: for k in 0..errors.len() {
        found.push(weights[errors[k]])?;
    }
    Ok(found)
}

/// Gives these errors the weights that they had before.
fn put_back(errors: &[usize], before: &[u64], weights: &mut [u64])
    requires inside { ForEach (λ e. e < length weights.old) errors.now }
    requires count { length before.now ≡ length errors.now }
    ensures back { (was : List ℕ) → length was ≡ length weights.old → ((k : ℕ) → k < length errors.now → slice_index before.now k ≡ slice_index was (slice_index errors.now k)) → ((e : ℕ) → has e errors.now ≡ false → slice_index weights.old e ≡ slice_index was e) → weights.new ≡ was }
{
    'errors: for k in 0..errors.len() {
        weights[errors[k]] = before[k];
    }
}

/// The sum of two numbers, if it fits in 64 bits.
fn plus(a: Option<u64>, b: Option<u64>) -> Option<u64>
    ensures sum { (m n : ℕ) → ReportsNumber m a → ReportsNumber n b → ReportsNumber (m + n) result }
{
    match (a, b) {
        (Some(a), Some(b)) => a.checked_add(b),
        _ => None,
    }
}

/// The product of a weight and a number, if it fits in 64 bits.
fn times(weight: u64, number: Option<u64>) -> Option<u64>
    requires some { 0 < weight }
    ensures product { (n : ℕ) → ReportsNumber n number → ReportsNumber (weight * n) result }
{
    match number {
        Some(number) => weight.checked_mul(number),
        None => None,
    }
}
