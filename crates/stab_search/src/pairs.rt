//! Pairs of errors that need not be tried together: one other error, or two later ones, flip the same.
//!
//! No proof rests on how pairs are found: each is checked.
ghost use Rattle.std.specs.Prelude.{◌≡◌, ◌≢◌, ◌⊎◌, ℕ, ◌<◌, true, false, List, length, IfOk, OnOk};
ghost use Rattle.stab_gates.specs.Letters.{◌⊕◌};
ghost use Rattle.stab_search.specs.Tables.{flipped_by_rows};
ghost use Rattle.stab_parities.specs.OddNumbers.{odd, row};
ghost use Rattle.stab_search.specs.inner.Lists.{ForEach};
ghost use Rattle.stab_search.specs.inner.Pairs.{KeepFirst, IsLeftOut, ArePairs};

use crate::errors::Errors;
use crate::index::{list, rows_at};
use crate::logical::flipped_by;
use std::alloc::{AllocError, Global};

/// With how many of the sums after it that have its key a sum is compared.
const NEAR: usize = 15;

/// What one error flips (a = b), or two, by a key that is the same if they flip the same.
#[derive(Clone, Copy, PartialEq, Eq, PartialOrd, Ord)]
struct Sum {
    key: u64,
    a: usize,
    b: usize,
}

/// For each error those that need not be tried with it.
pub(crate) fn pairs_of(errors: &Errors) -> Result<Vec<Vec<usize>>, AllocError>
    ensures pairs { IfOk result (λ v. ArePairs errors.now.table.rows errors.now.firsts v.items) }
{
    let mut sums = sums_of(errors)?;
    sums.sort_unstable();
    let mut pairs = Vec::new(errors.alloc());
    for position in 0..sums.len() {
        compare_next(errors, sums.as_slice(), position, &mut pairs)?;
    }
    Ok(pairs)
}

/// The sums of one error, and of each two that flip a common detector.
fn sums_of(errors: &Errors) -> Result<Vec<Sum>, AllocError> {
    let mut seen = vec![in errors.alloc(); usize::MAX; errors.len()]?;
    let mut sums = Vec::new(errors.alloc());
    for a in 0..errors.len() {
        let key = errors.key(a);
        sums.push(Sum { key, a, b: a })?;
        add_sums(errors, a, seen.as_mut_slice(), &mut sums)?;
    }
    Ok(sums)
}

/// Adds the sums of error a and each error after it that flips one of its detectors.
fn add_sums(
    errors: &Errors,
    a: usize,
    seen: &mut [usize],
    sums: &mut Vec<Sum>,
) -> Result<(), AllocError>
    requires inside { a < length errors.now.table.rows }
{
    for d in errors.detectors_of(errors.row(a)) {
        add_sums_with(errors, a, errors.flipping(*d), seen, sums)?;
    }
    Ok(())
}

/// Adds the sums of error a and each of the others after it that it was not added with.
fn add_sums_with(
    errors: &Errors,
    a: usize,
    others: &[usize],
    seen: &mut [usize],
    sums: &mut Vec<Sum>,
) -> Result<(), AllocError>
    requires inside { a < length errors.now.table.rows }
{
    for b in others {
        let b = *b;
        if a < b && b < errors.len() && b < seen.len() && seen[b] != a {
            seen[b] = a;
            let key = errors.key(a) ^ errors.key(b);
            sums.push(Sum { key, a, b })?;
        }
    }
    Ok(())
}

/// Compares a sum with those after it that have its key.
fn compare_next(
    errors: &Errors,
    sums: &[Sum],
    position: usize,
    pairs: &mut Vec<Vec<usize>>,
) -> Result<(), AllocError>
    requires inside { position < length sums.now }
    requires pairs { ArePairs errors.now.table.rows errors.now.firsts pairs.old.items }
    ensures pairs { OnOk result (ArePairs errors.now.table.rows errors.now.firsts pairs.new.items) }
{
    let sum = sums[position];
    let end = sums.len().min(position.saturating_add(NEAR + 1));
    for other in position + 1..end {
        if sums[other].key != sum.key {
            break;
        }
        compare(errors, sum, sums[other], pairs)?;
    }
    Ok(())
}

/// Leaves pairs out if two sums are the same.
fn compare(
    errors: &Errors,
    first: Sum,
    second: Sum,
    pairs: &mut Vec<Vec<usize>>,
) -> Result<(), AllocError>
    requires pairs { ArePairs errors.now.table.rows errors.now.firsts pairs.old.items }
    ensures pairs { OnOk result (ArePairs errors.now.table.rows errors.now.firsts pairs.new.items) }
{
    if first.a == first.b {
        leave_three(errors, second.a, second.b, first.a, pairs)
    } else if second.a == second.b {
        leave_three(errors, first.a, first.b, second.a, pairs)
    } else {
        leave_four(errors, first.a, first.b, second.a, second.b, pairs)
    }
}

/// Leaves out each two of three errors that flip nothing together: the third flips the same.
fn leave_three(
    errors: &Errors,
    a: usize,
    b: usize,
    c: usize,
    pairs: &mut Vec<Vec<usize>>,
) -> Result<(), AllocError>
    requires pairs { ArePairs errors.now.table.rows errors.now.firsts pairs.old.items }
    ensures pairs { OnOk result (ArePairs errors.now.table.rows errors.now.firsts pairs.new.items) }
{
    if !are_even(errors, &[a, b, c])? {
        return Ok(());
    }
    leave(errors.alloc(), pairs, a, b)?;
    leave(errors.alloc(), pairs, a, c)?;
    leave(errors.alloc(), pairs, b, c)?;
    Ok(())
}

/// Leaves out each two of four errors that flip nothing together, if the other two are after one of them.
fn leave_four(
    errors: &Errors,
    a: usize,
    b: usize,
    c: usize,
    d: usize,
    pairs: &mut Vec<Vec<usize>>,
) -> Result<(), AllocError>
    requires pairs { ArePairs errors.now.table.rows errors.now.firsts pairs.old.items }
    ensures pairs { OnOk result (ArePairs errors.now.table.rows errors.now.firsts pairs.new.items) }
{
    if !are_even(errors, &[a, b, c, d])? {
        return Ok(());
    }
    leave_earlier(errors, a, b, c, d, pairs)?;
    leave_earlier(errors, c, d, a, b, pairs)?;
    leave_earlier(errors, a, c, b, d, pairs)?;
    leave_earlier(errors, b, d, a, c, pairs)?;
    leave_earlier(errors, a, d, b, c, pairs)?;
    leave_earlier(errors, b, c, a, d, pairs)?;
    Ok(())
}

/// Leaves out errors a and b, if c and d are after one of them.
fn leave_earlier(
    errors: &Errors,
    a: usize,
    b: usize,
    c: usize,
    d: usize,
    pairs: &mut Vec<Vec<usize>>,
) -> Result<(), AllocError>
    requires inside_c { c < length errors.now.table.rows }
    requires inside_d { d < length errors.now.table.rows }
    requires same { (i : ℕ) → odd i (row errors.now.table.rows a) ⊕ odd i (row errors.now.table.rows b) ≡ odd i (row errors.now.table.rows c) ⊕ odd i (row errors.now.table.rows d) }
    requires pairs { ArePairs errors.now.table.rows errors.now.firsts pairs.old.items }
    ensures pairs { OnOk result (ArePairs errors.now.table.rows errors.now.firsts pairs.new.items) }
{
    if !are_after(a, b, c, d) || !keep_first(errors.firsts(), a, b, c, d) {
        return Ok(());
    }
    leave(errors.alloc(), pairs, a, b)?;
    Ok(())
}

/// Whether errors c and d are both after a, or both after b.
fn are_after(a: usize, b: usize, c: usize, d: usize) -> bool
    ensures value { result ≡ true → ((a < c) × (a < d)) ⊎ ((b < c) × (b < d)) }
{
    (a < c && a < d) || (b < c && b < d)
}

/// Whether a set with an error that can be first still has one with c and d for a and b.
fn keep_first(firsts: usize, a: usize, b: usize, c: usize, d: usize) -> bool
    ensures value { result ≡ true → KeepFirst firsts a b c d }
{
    c < firsts || d < firsts || (a >= firsts && b >= firsts)
}

/// Whether these are errors that flip nothing together.
fn are_even(errors: &Errors, numbers: &[usize]) -> Result<bool, AllocError>
    ensures inside { IfOk result (λ b. b ≡ true → ForEach (λ r. r < length errors.now.table.rows) numbers.now) }
    ensures even { IfOk result (λ b. b ≡ true → (i : ℕ) → flipped_by_rows errors.now.table.rows numbers.now i ≡ false) }
{
    match flipped_by(errors.alloc(), errors.rows(), numbers)? {
        None => Ok(false),
        Some(flipped) => Ok(flipped.is_empty()),
    }
}

/// Lists two errors with each other.
fn leave(alloc: Global, pairs: &mut Vec<Vec<usize>>, a: usize, b: usize) -> Result<(), AllocError>
    ensures pairs { OnOk result ((rows : List (List ℕ)) (firsts : ℕ) → IsLeftOut rows firsts a b ⊎ IsLeftOut rows firsts b a → ArePairs rows firsts pairs.old.items → ArePairs rows firsts pairs.new.items) }
{
    if a == b {
        return Ok(());
    }
    list_with(alloc, pairs, a, b)?;
    list_with(alloc, pairs, b, a)?;
    Ok(())
}

/// Lists error b with error a, once.
fn list_with(
    alloc: Global,
    pairs: &mut Vec<Vec<usize>>,
    a: usize,
    b: usize,
) -> Result<(), AllocError>
    ensures pairs { OnOk result ((rows : List (List ℕ)) (firsts : ℕ) → a ≢ b → IsLeftOut rows firsts a b ⊎ IsLeftOut rows firsts b a → ArePairs rows firsts pairs.old.items → ArePairs rows firsts pairs.new.items) }
{
    if rows_at(pairs.as_slice(), a).contains(&b) {
        return Ok(());
    }
    list(alloc, pairs, a, b)?;
    Ok(())
}
