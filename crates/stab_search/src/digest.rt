//! A digest of what is searched: FNV-1a, over numbers of 64 bits, not bytes.
ghost use Rattle.std.specs.Prelude.{◌≡◌, ◌*◌, ◌%◌, ◌^◌, ◌∷◌, length, bit_xor};
ghost use Rattle.stab_search.specs.SearchParts.{digest, digest_rows, digest_searched};

use crate::errors::Errors;
use crate::row::Row;

/// The digest of nothing.
pub(crate) const EMPTY: u64 = 14695981039346656037;

/// What a number is multiplied by.
const PRIME: u64 = 1099511628211;

/// Takes a number into a digest.
fn with(before: u64, number: u64) -> u64
    ensures value { result ≡ (bit_xor before number * 1099511628211) % 2 ^ 64 }
{
    (before ^ number).wrapping_mul(PRIME)
}

/// Takes a row into a digest: its length, and its numbers.
fn with_row(before: u64, row: &[u32]) -> u64
    ensures value { result ≡ digest before (length row.now ∷ row.now) }
{
    let mut after = with(before, row.len() as u64);
    'each: for n in row {
        after = with(after, u64::from(*n));
    }
    after
}

/// Takes rows into a digest.
fn with_rows(before: u64, rows: &[Row]) -> u64
    ensures value { result ≡ digest_rows before rows.now }
{
    let mut after = before;
    'rows: for row in rows {
        after = with_row(after, row.numbers());
    }
    after
}

/// Takes what is searched into a digest.
pub(crate) fn with_errors(before: u64, errors: &Errors) -> u64
    ensures value { result ≡ digest_searched before (record { table = errors.now.table; firsts = errors.now.firsts }) }
{
    let detectors = with(before, errors.detectors() as u64);
    let firsts = with(detectors, errors.firsts() as u64);
    let count = with(firsts, errors.len() as u64);
    with_rows(count, errors.rows())
}
