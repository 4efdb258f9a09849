//! Steps: in a circuit of rounds, what an error flips, with each detector for the one a round later, is what another error flips.
//!
//! No proof rests on how a step is found: each error is checked.
ghost use Rattle.std.specs.Prelude.{◌≡◌, ℕ, ◌<◌, true, length, slice_index};
ghost use Rattle.stab_parities.specs.Ascending.{IsAscending};
ghost use Rattle.stab_search.specs.inner.Steps.{lowered, AreLower, AreMoved, MovesDown, MoveDown};

use crate::errors::Errors;
use std::alloc::AllocError;

/// Of how many errors it is tried whether a step moves them down.
const TRIED: usize = 64;

/// For each detector the one that it moves to, by the step that moves down the most of some errors, if it moves down most of these.
///
/// A step is a number of flipped detectors. A detector to which no other is so far does not move.
pub(crate) fn find_step(errors: &Errors) -> Result<Option<Vec<u32>>, AllocError> {
    let flipped = flipped_by(errors)?;
    let mut best = 0;
    let mut most = TRIED / 2;
    for step in 1..flipped.len() {
        let moved = moved_of_some(errors, flipped.as_slice(), step);
        if moved > most {
            best = step;
            most = moved;
        }
    }
    if best == 0 {
        return Ok(None);
    }
    let lower = lower_by(errors, flipped.as_slice(), best)?;
    Ok(Some(lower))
}

/// The detectors that errors flip.
fn flipped_by(errors: &Errors) -> Result<Vec<u32>, AllocError> {
    let mut flipped = Vec::new(errors.alloc());
    for d in 0..u32::MAX {
        if d as usize >= errors.flipped_detectors() {
            break;
        }
        if !errors.flipping(d).is_empty() {
            flipped.push(d)?;
        }
    }
    Ok(flipped)
}

/// How many of some errors a step moves down, as far as keys say. They are taken evenly from all.
fn moved_of_some(errors: &Errors, flipped: &[u32], step: usize) -> usize {
    let mut moved: usize = 0;
    for k in 0..TRIED {
        let r = k.saturating_mul(errors.len()) / TRIED;
        if r < errors.len() && may_move(errors, flipped, errors.row(r), step) {
            moved = moved.saturating_add(1);
        }
    }
    moved
}

/// Whether each detector among these numbers has one a step below it, and an error has the key of those.
fn may_move(errors: &Errors, flipped: &[u32], numbers: &[u32], step: usize) -> bool
    requires ascending { IsAscending numbers.now }
{
    let mut key = 0;
    for d in errors.detectors_of(numbers) {
        match flipped.binary_search(d) {
            Ok(position) if position >= step && position < flipped.len() => {
                key ^= errors.number(flipped[position - step]);
            }
            _ => return false,
        }
    }
    errors.has_key(key)
}

/// For each detector the one a step below it, or itself if there is none.
fn lower_by(errors: &Errors, flipped: &[u32], step: usize) -> Result<Vec<u32>, AllocError> {
    let mut lower = Vec::with_capacity(errors.alloc(), errors.flipped_detectors())?;
    for d in 0..u32::MAX {
        if d as usize >= errors.flipped_detectors() {
            break;
        }
        match flipped.binary_search(&d) {
            Ok(position) if position >= step && position < flipped.len() => {
                lower.push(flipped[position - step])?;
            }
            _ => lower.push(d)?,
        }
    }
    Ok(lower)
}

/// The errors that a step does not move down, and then the others.
pub(crate) fn order_by(errors: &Errors, lower: &[u32]) -> Result<Vec<usize>, AllocError> {
    let mut order = Vec::with_capacity(errors.alloc(), errors.len())?;
    let mut moved = Vec::with_capacity(errors.alloc(), errors.len())?;
    for r in 0..errors.len() {
        if moves_down(errors, r, lower) {
            moved.push(r)?;
        } else {
            order.push(r)?;
        }
    }
    order.extend_from_slice(moved.as_slice())?;
    Ok(order)
}

/// The number from which on a step moves down each error.
pub fn moved_from(errors: &Errors, lower: &[u32]) -> usize
    ensures lower { result < length errors.now.table.rows → AreLower errors.now.table.detectors lower.now }
    ensures moved { MoveDown errors.now.table result lower.now }
{
    let mut from = errors.len();
    if !are_lower(errors.detectors(), lower) {
        return from;
    }
    'later: while from > 0 {
        if !moves_down(errors, from - 1, lower) {
            return from;
        }
        from -= 1;
    }
    from
}

/// Whether each number of a list is a detector, and has a detector in the list.
fn are_lower(detectors: usize, lower: &[u32]) -> bool
    ensures yes { result ≡ true → AreLower detectors lower.now }
{
    if lower.len() > detectors {
        return false;
    }
    'each: for k in 0..lower.len() {
        if lower[k] as usize >= detectors {
            return false;
        }
    }
    true
}

/// Whether a step moves error r to an error before it.
fn moves_down(errors: &Errors, r: usize, lower: &[u32]) -> bool
    requires inside { r < length errors.now.table.rows }
    ensures yes { result ≡ true → MovesDown errors.now.table lower.now r }
{
    let upper = errors.row(r);
    'candidates: for q in errors.with_key(key_below(errors, upper, lower)) {
        if *q < r && are_moved(lower, errors.row(*q), upper) {
            return true;
        }
    }
    false
}

/// The key of these numbers moved down by a step.
fn key_below(errors: &Errors, numbers: &[u32], lower: &[u32]) -> u64
    requires ascending { IsAscending numbers.now }
{
    let mut key = 0;
    for d in errors.detectors_of(numbers) {
        key ^= errors.number(lowered(lower, *d));
    }
    key
}

/// Whether numbers are others moved down by a step.
fn are_moved(lower: &[u32], below: &[u32], above: &[u32]) -> bool
    ensures yes { result ≡ true → AreMoved lower.now below.now above.now }
{
    if below.len() != above.len() {
        return false;
    }
    'each: for k in 0..above.len() {
        if below[k] != lowered(lower, above[k]) {
            return false;
        }
    }
    true
}

/// The number that a step moves a number to: an observable keeps its own.
fn lowered(lower: &[u32], i: u32) -> u32
    ensures value { result ≡ lowered lower.now i }
{
    let k = i as usize;
    if k < lower.len() { lower[k] } else { i }
}
