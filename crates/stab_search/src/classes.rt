//! Classes of detectors such that errors of one class each are enough: in a code of X and Z checks, those of the X and those of the Z.
//!
//! No proof rests on how classes are found: each row is checked.
ghost use Rattle.std.specs.Prelude.{◌<◌, length};

use crate::errors::Errors;
use crate::index::entry;
use std::alloc::AllocError;

/// The class of each detector. Those of class 0 can be ignored, as no error of them alone flips an observable.
///
/// Two detectors have one class if a chain of errors connects them, each error with a detector of the next. Errors whose detectors are those
/// of two others do not count.
pub(crate) fn classes_of(errors: &Errors) -> Result<Vec<usize>, AllocError> {
    let parents = joined_by(errors)?;
    let observed = observed_by(errors, parents.as_slice())?;
    let mut classes = Vec::with_capacity(errors.alloc(), observed.len())?;
    for d in 0..observed.len() {
        let leader = leader_of(parents.as_slice(), d);
        classes.push(entry(observed.as_slice(), leader))?;
    }
    Ok(classes)
}

/// A forest of the detectors, joined by errors that are no unions of two: for each its parent, a root its own.
fn joined_by(errors: &Errors) -> Result<Vec<usize>, AllocError> {
    let mut parents = Vec::with_capacity(errors.alloc(), errors.flipped_detectors())?;
    for d in 0..errors.flipped_detectors() {
        parents.push(d)?;
    }
    for r in 0..errors.len() {
        if !is_union(errors, r) {
            join(parents.as_mut_slice(), errors.detectors_of(errors.row(r)));
        }
    }
    Ok(parents)
}

/// The leader of a detector's tree, which is the root.
fn leader_of(parents: &[usize], d: usize) -> usize {
    let mut at = d;
    for _ in 0..parents.len() {
        if at >= parents.len() || parents[at] == at {
            break;
        }
        at = parents[at];
    }
    at
}

/// Joins the trees of these detectors.
fn join(parents: &mut [usize], detectors: &[u32]) {
    if detectors.is_empty() {
        return;
    }
    let first = leader_of(parents, detectors[0] as usize);
    for d in detectors {
        let d = *d as usize;
        let leader = leader_of(parents, d);
        if leader < parents.len() && d < parents.len() {
            parents[leader] = first;
            parents[d] = first;
        }
    }
}

/// For each detector that is first of those of an error that flips an observable the class of these, else 0.
fn observed_by(errors: &Errors, parents: &[usize]) -> Result<Vec<usize>, AllocError> {
    let mut observed = vec![in errors.alloc(); 0; parents.len()]?;
    for r in 0..errors.len() {
        note_observed(errors, r, parents, observed.as_mut_slice());
    }
    Ok(observed)
}

/// Notes the class of error r if it flips an observable, and detectors of one class.
fn note_observed(errors: &Errors, r: usize, parents: &[usize], observed: &mut [usize])
    requires inside { r < length errors.now.table.rows }
{
    let numbers = errors.row(r);
    let detectors = errors.detectors_of(numbers);
    if detectors.is_empty() || detectors.len() == numbers.len() {
        return;
    }
    let leader = leader_of(parents, detectors[0] as usize);
    for d in detectors {
        if leader_of(parents, *d as usize) != leader {
            return;
        }
    }
    if leader < observed.len() {
        observed[leader] = leader.saturating_add(1);
    }
}

/// Whether the detectors that error r flips are those of two errors that share none, as far as keys say.
fn is_union(errors: &Errors, r: usize) -> bool
    requires inside { r < length errors.now.table.rows }
{
    let whole = errors.detectors_of(errors.row(r));
    if whole.is_empty() {
        return false;
    }
    for a in errors.flipping(whole[0]) {
        if *a < errors.len() && errors.has_key(errors.key(r) ^ errors.key(*a)) {
            let part = errors.detectors_of(errors.row(*a));
            if part.len() < whole.len() && part.iter().all(|d| whole.binary_search(d).is_ok()) {
                return true;
            }
        }
    }
    false
}

/// The number of a detector, by its class.
#[derive(Clone, Copy, PartialEq, Eq, PartialOrd, Ord)]
struct Numbered {
    class: usize,
    number: u64,
}

/// The numbers of the detectors that an error flips, sorted by their classes.
fn by_class(
    errors: &Errors,
    classes: &[usize],
    flipped: &[u32],
) -> Result<Vec<Numbered>, AllocError> {
    let mut sorted = Vec::new(errors.alloc());
    for d in flipped {
        let (class, number) = (entry(classes, *d as usize), errors.number(*d));
        if class != 0 {
            sorted.push(Numbered { class, number })?;
        }
    }
    sorted.sort()?;
    Ok(sorted)
}

/// For each class the error that flips what an error flips of that class, in the order of the classes. They are found by keys alone.
pub(crate) fn parts_of(
    errors: &Errors,
    classes: &[usize],
    flipped: &[u32],
) -> Result<Vec<usize>, AllocError> {
    let sorted = by_class(errors, classes, flipped)?;
    let mut parts = Vec::new(errors.alloc());
    let mut key = 0;
    for k in 0..sorted.len() {
        key ^= sorted[k].number;
        if k + 1 == sorted.len() || sorted[k + 1].class != sorted[k].class {
            if let Some(r) = with_key(errors, key) {
                parts.push(r)?;
            }
            key = 0;
        }
    }
    Ok(parts)
}

/// An error with this key, if there is one.
fn with_key(errors: &Errors, key: u64) -> Option<usize> {
    for r in errors.with_key(key) {
        if *r < errors.len() && errors.key(*r) == key {
            return Some(*r);
        }
    }
    None
}
