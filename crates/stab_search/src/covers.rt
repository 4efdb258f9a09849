//! Counts of how many flipped detectors each error flips, and the errors for which they are high.
ghost use Rattle.std.specs.Prelude.{◌≡◌, ◌≢◌, ℕ, ◌<◌, ◌≤◌, true, false, length, slice_index, IfOk, OnOk};
ghost use Rattle.stab_parities.specs.OddNumbers.{odd, row};
ghost use Rattle.stab_search.specs.inner.Lists.{ForEach, has};

use crate::errors::Errors;
use std::alloc::AllocError;

/// The number of errors for which memory is had at once.
const USUAL_SIZE: usize = 32;

/// The detector that the fewest errors flip.
pub fn seldom(errors: &Errors, detectors: &[u32]) -> u32
    requires some { 0 < length detectors.now }
    ensures among { has result detectors.now ≡ true }
{
    let mut best = detectors[0];
    let mut fewest = usize::MAX;
    for d in detectors {
        let count = errors.flipping(*d).len();
        if count < fewest {
            best = *d;
            fewest = count;
        }
    }
    best
}

/// The errors that flip at least this many of the detectors, as `cover` counts them. The counts of all errors that flip one are set to 0.
pub fn covering(
    errors: &Errors,
    detectors: &[u32],
    least: usize,
    cover: &mut [usize],
) -> Result<Vec<usize>, AllocError>
    ensures inside { IfOk result (λ v. ForEach (λ r. r < length cover.old) v.items) }
    ensures all { IfOk result (λ v. (e d : ℕ) → e < length cover.old → least ≤ slice_index cover.old e → has d detectors.now ≡ true → e < length errors.now.table.rows → odd d (row errors.now.table.rows e) ≡ true → has e v.items ≡ true) }
    ensures length { length cover.new ≡ length cover.old }
{
    let mut found = Vec::with_capacity(errors.alloc(), USUAL_SIZE)?;
    for d in detectors {
        take(errors.flipping(*d), least, cover, &mut found)?;
    }
    Ok(found)
}

/// Takes those of these errors that flip at least this many of the detectors, and sets all of them to 0.
fn take(
    rows: &[usize],
    least: usize,
    cover: &mut [usize],
    found: &mut Vec<usize>,
) -> Result<(), AllocError>
    ensures inside { OnOk result ((n : ℕ) → length cover.old ≤ n → ForEach (λ r. r < n) found.old.items → ForEach (λ r. r < n) found.new.items) }
    ensures preserved { OnOk result ((e : ℕ) → has e found.old.items ≡ true → has e found.new.items ≡ true) }
    ensures taken { OnOk result ((e : ℕ) → e < length cover.old → least ≤ slice_index cover.old e → has e rows.now ≡ true → has e found.new.items ≡ true) }
    ensures others { OnOk result ((e : ℕ) → has e rows.now ≡ false → slice_index cover.new e ≡ slice_index cover.old e) }
    ensures length { length cover.new ≡ length cover.old }
{
    for r in rows {
        take_covering(*r, least, cover, found)?;
        set_zero(*r, cover);
    }
    Ok(())
}

/// Takes error r if it flips at least this many of the detectors.
pub fn take_covering(
    r: usize,
    least: usize,
    cover: &[usize],
    found: &mut Vec<usize>,
) -> Result<(), AllocError>
    ensures inside { OnOk result ((n : ℕ) → length cover.now ≤ n → ForEach (λ r. r < n) found.old.items → ForEach (λ r. r < n) found.new.items) }
    ensures preserved { OnOk result ((e : ℕ) → has e found.old.items ≡ true → has e found.new.items ≡ true) }
    ensures taken { OnOk result (r < length cover.now → least ≤ slice_index cover.now r → has r found.new.items ≡ true) }
{
    if is_covering(r, least, cover) {
        found.push(r)?;
    }
    Ok(())
}

/// Whether error r flips at least this many of the detectors.
pub fn is_covering(r: usize, least: usize, cover: &[usize]) -> bool
    ensures yes { r < length cover.now → least ≤ slice_index cover.now r → result ≡ true }
    ensures inside { result ≡ true → r < length cover.now }
{
    r < cover.len() && cover[r] >= least
}

/// Sets the count of error r to 0.
pub fn set_zero(r: usize, cover: &mut [usize])
    ensures others { (e : ℕ) → r ≢ e → slice_index cover.new e ≡ slice_index cover.old e }
    ensures length { length cover.new ≡ length cover.old }
{
    if r < cover.len() {
        cover[r] = 0;
    }
}
