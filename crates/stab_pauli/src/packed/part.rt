//! Parts: the words of eight rows that lie side by side. They say which of these rows have X or Y on a qubit, and on which qubits
//! of the same word any of them has.

ghost use Rattle.std.specs.Prelude.{◌≡◌, ℕ, ◌+◌, ◌*◌, ◌/◌, ◌^◌, ◌<◌, true, length, slice_index_or};
ghost use Rattle.std.specs.Simd.Lanes.{chunk};
ghost use Rattle.stab_gates.specs.declared.letter.Letter.TheVariants.{I};
ghost use Rattle.stab_gates.specs.XParts.{has_x};
ghost use Rattle.stab_pauli.specs.Masks.{chooses};
ghost use Rattle.stab_pauli.specs.inner.Blocks.{row_letters};

use crate::masks;
use crate::packed::{flat, row};

/// Which of the eight rows have X or Y on a qubit, and on which of the 64 qubits of its word any of them has, each by a
/// mask. If few rows of a table have, most parts have none, so one test of all eight words comes first. If half of the rows
/// have, hardly any part has none, and the processor predicts that test.
#[inline(always)]
pub(crate) fn rows_with_x(blocks: usize, part: &[u64], qubit: usize) -> (u64, u64)
    requires length { length part.now ≡ 8 * blocks * 8 }
    requires in_range { qubit < 256 * blocks }
    ensures value { (k : ℕ) → k < 8 → chooses result.0 k ≡ has_x (slice_index_or (row_letters blocks (chunk (8 * blocks * k) (8 * blocks) part.now)) qubit I) }
    ensures short { result.0 < 2 ^ 8 }
    ensures positions { (k j : ℕ) → k < 8 → j < 64 → has_x (slice_index_or (row_letters blocks (chunk (8 * blocks * k) (8 * blocks) part.now)) (64 * (qubit / 64) + j) I) ≡ true → chooses result.1 j ≡ true }
{
    let positions = positions_with_x(blocks, part, qubit / 64);
    if !row::bit_of(positions, qubit % 64) {
        return (0, positions);
    }
    (mask_of_x(blocks, part, qubit), positions)
}

/// On which of the 64 qubits of a word any of the eight rows has X or Y, by a mask.
#[inline(always)]
fn positions_with_x(blocks: usize, part: &[u64], word: usize) -> u64
    requires length { length part.now ≡ 8 * blocks * 8 }
    requires in_range { word < 4 * blocks }
    ensures value { (k j : ℕ) → k < 8 → j < 64 → has_x (slice_index_or (row_letters blocks (chunk (8 * blocks * k) (8 * blocks) part.now)) (64 * word + j) I) ≡ true → chooses result j ≡ true }
{
    let mut positions = 0;
    for k in 0..8 {
        positions = positions | x_mask(blocks, part, k, word);
    }
    positions
}

/// Which of the eight rows have X or Y on a qubit, by a look at each. The mask grows from the last row to the first, so
/// that each of its bits takes one addition.
#[inline(always)]
fn mask_of_x(blocks: usize, part: &[u64], qubit: usize) -> u64
    requires length { length part.now ≡ 8 * blocks * 8 }
    requires in_range { qubit < 256 * blocks }
    ensures value { (k : ℕ) → k < 8 → chooses result k ≡ has_x (slice_index_or (row_letters blocks (chunk (8 * blocks * k) (8 * blocks) part.now)) qubit I) }
    ensures short { result < 2 ^ 8 }
{
    let mut mask = 0;
    let mut a: usize = 8;
    while a > 0 {
        let word = x_mask(blocks, part, a - 1, qubit / 64);
        mask = masks::following(mask, 8 - a, row::bit_of(word, qubit % 64));
        a -= 1;
    }
    mask
}

/// On which of the 64 qubits of a word row k of the eight has X or Y, by a mask.
#[inline(always)]
fn x_mask(blocks: usize, part: &[u64], k: usize, word: usize) -> u64
    requires length { length part.now ≡ 8 * blocks * 8 }
    requires row_in_range { k < 8 }
    requires in_range { word < 4 * blocks }
    ensures value { (j : ℕ) → j < 64 → chooses result j ≡ has_x (slice_index_or (row_letters blocks (chunk (8 * blocks * k) (8 * blocks) part.now)) (64 * word + j) I) }
{
    row::x_mask(blocks, flat::row_of(part, 8, blocks, k), word)
}
