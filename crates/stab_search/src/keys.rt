ghost use Rattle.std.specs.Prelude.{◌≡◌, ◌≢◌, ℕ, ◌<◌, true, false, length, slice_index, bit_and, IfOk};
ghost use Rattle.stab_search.specs.inner.Lists.{ForEach, has};
ghost use Rattle.stab_search.specs.inner.Indexes.{rows_listed};

use crate::index::list;
use std::alloc::{AllocError, Global};

/// The low bits of a key by which rows are listed: one less than a power of two, from 255 to 2^20 - 1, about as many as there are rows.
pub(crate) fn mask_for(rows: usize) -> u64 {
    let mut mask: u64 = 255;
    for _ in 0..12 {
        if mask < rows as u64 {
            mask = mask.wrapping_mul(2).wrapping_add(1);
        }
    }
    mask
}

/// For each value of the low bits the rows whose keys have it.
pub fn rows_by_key(alloc: Global, keys: &[u64], mask: u64) -> Result<Vec<Vec<usize>>, AllocError>
    ensures inside { IfOk result (λ v. (position : ℕ) → ForEach (λ r. r < length keys.now) (rows_listed v.items position)) }
    ensures complete { IfOk result (λ v. (r : ℕ) → r < length keys.now → has r (rows_listed v.items (bit_and (slice_index keys.now r) mask)) ≡ true) }
{
    let mut index = Vec::new(alloc);
    'keys: for r in 0..keys.len() {
        list(alloc, &mut index, (keys[r] & mask) as usize, r)?;
    }
    Ok(index)
}

/// Whether one of the candidates has this key.
pub fn has_key(keys: &[u64], candidates: &[usize], key: u64) -> bool
    ensures not { result ≡ false → (r : ℕ) → has r candidates.now ≡ true → r < length keys.now → slice_index keys.now r ≢ key }
{
    'candidates: for r in candidates {
        if *r < keys.len() && keys[*r] == key {
            return true;
        }
    }
    false
}
