ghost use Rattle.std.specs.Prelude.{◌≡◌, ℕ, ◌<◌, ◌≤◌, Bool, true, false, List, length, slice_index_or, IfOk, IsTrue};
ghost use Rattle.stab_search.specs.Tables.{ErrorTable};
ghost use Rattle.stab_parities.specs.OddNumbers.{odd, row};
ghost use Rattle.stab_search.specs.LogicalErrors.{HasNone};
ghost use Rattle.stab_search.specs.inner.Certificates.{IsCertificate, odd_members};

use crate::index::bit_at;
use crate::row::{Row, end_of_rows};
use std::alloc::{AllocError, Global};

/// Finds members for certificates. No proof rests on it: what it finds is checked.
pub trait Members {
    /// For each number whether it is the observable, or a detector that is to add up to it with the others.
    fn members(&self, alloc: Global, observable: usize) -> Result<Vec<bool>, AllocError>;
}

/// Whether the members found show that no logical error exists.
pub fn are_certified<M: Members>(
    alloc: Global,
    detectors: usize,
    rows: &[Row],
    found: &M,
) -> Result<bool, AllocError>
    ensures none { IfOk result (λ b. b ≡ true → HasNone (record { detectors = detectors; rows = rows.now })) }
{
    'observables: for o in detectors..end_of_rows(rows) {
        let members = found.members(alloc, o)?;
        if !is_certificate(rows, detectors, o, members.as_slice()) {
            return Ok(false);
        }
    }
    Ok(true)
}

/// Whether the members are the observable and detectors, and each row names an even number of them.
fn is_certificate(rows: &[Row], detectors: usize, observable: usize, members: &[bool]) -> bool
    ensures yes { result ≡ true → IsCertificate (record { detectors = detectors; rows = rows.now }) observable members.now }
{
    are_detectors(members, detectors, observable) && are_even(rows, members)
}

/// Whether the observable is a member, and all other members are detectors.
fn are_detectors(members: &[bool], detectors: usize, observable: usize) -> bool
    ensures observable { result ≡ true → slice_index_or members.now observable false ≡ true }
    ensures detectors { result ≡ true → (i : ℕ) → detectors ≤ i → slice_index_or members.now i false ≡ true → i ≡ observable }
{
    if !bit_at(members, observable) {
        return false;
    }
    'members: for i in detectors..members.len() {
        if members[i] && i != observable {
            return false;
        }
    }
    true
}

/// Whether each row names an even number of members.
fn are_even(rows: &[Row], members: &[bool]) -> bool
    ensures yes { result ≡ true → (r : ℕ) → r < length rows.now → odd_members members.now (row rows.now r) ≡ false }
{
    'rows: for r in 0..rows.len() {
        let row = &rows[r];
        if names_odd(members, row.numbers()) {
            return false;
        }
    }
    true
}

/// Whether an odd number of these are members.
fn names_odd(members: &[bool], numbers: &[u32]) -> bool
    ensures value { result ≡ odd_members members.now numbers.now }
{
    let mut odd = false;
    'each: for i in numbers {
        odd ^= bit_at(members, *i as usize);
    }
    odd
}
