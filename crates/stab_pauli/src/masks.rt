//! Masks: words whose bits choose among 64 rows that lie one after another, or among 64 letters of a string.
//!
//! What is done to the chosen rows goes from bit to bit, so that no test of a row has to be guessed.

ghost use Rattle.std.specs.Prelude.{◌≡◌, ◌≢◌, ℕ, ◌+◌, ◌*◌, ◌^◌, ◌<◌, ◌≤◌, true, false};
ghost use Rattle.stab_pauli.specs.Masks.{chooses};

use crate::packed::row;

/// Whether row k is chosen.
#[inline(always)]
pub fn holds(mask: u64, k: usize) -> bool
    requires in_range { k < 64 }
    ensures value { result ≡ chooses mask k }
{
    row::bit_of(mask, k)
}

/// The first row that is chosen.
#[inline(always)]
pub fn first(mask: u64) -> usize
    requires some { mask ≢ 0 }
    ensures in_range { result < 64 }
    ensures chosen { chooses mask result ≡ true }
{
    mask.trailing_zeros() as usize
}

/// The mask without row k.
#[inline(always)]
pub fn without(mask: u64, k: usize) -> u64
    requires in_range { k < 64 }
    ensures gone { chooses result k ≡ false }
    ensures others { (j : ℕ) → j ≢ k → j < 64 → chooses result j ≡ chooses mask j }
    ensures preserved { result ≤ mask }
    ensures fewer { chooses mask k ≡ true → result < mask }
{
    mask & !(1 << k)
}

/// The mask with row k, which is not chosen before, if the bit says so.
#[inline(always)]
pub fn with_if(mask: u64, k: usize, chosen: bool) -> u64
    requires in_range { k < 64 }
    requires blank { chooses mask k ≡ false }
    ensures here { chooses result k ≡ chosen }
    ensures others { (j : ℕ) → j ≢ k → chooses result j ≡ chooses mask j }
{
    mask | (u64::from(chosen) << k)
}

/// The mask of fewer than 64 rows with a further row before all others.
#[inline(always)]
pub fn following(mask: u64, size: usize, chosen: bool) -> u64
    requires room { size < 64 }
    requires short { mask < 2 ^ size }
    ensures first { chooses result 0 ≡ chosen }
    ensures others { (k : ℕ) → chooses result (k + 1) ≡ chooses mask k }
    ensures short { result < 2 ^ (size + 1) }
{
    2 * mask + u64::from(chosen)
}

/// The mask of at most 56 rows with eight further rows before all others, which have a mask of their own.
#[inline(always)]
pub fn after_eight(mask: u64, size: usize, eight: u64) -> u64
    requires room { size + 8 ≤ 64 }
    requires short { mask < 2 ^ size }
    requires eight { eight < 2 ^ 8 }
    ensures first { (k : ℕ) → k < 8 → chooses result k ≡ chooses eight k }
    ensures others { (k : ℕ) → chooses result (k + 8) ≡ chooses mask k }
    ensures short { result < 2 ^ (size + 8) }
{
    256 * mask + eight
}
