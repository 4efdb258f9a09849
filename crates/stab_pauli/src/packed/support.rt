//! The support of a string, by blocks: a product with a string of which some blocks are letters I reads and writes the others
//! alone.

ghost use Rattle.std.specs.Prelude.{◌≡◌, ◌+◌, ◌*◌, ◌<◌, ◌≤◌, length};
ghost use Rattle.std.specs.Simd.Lanes.{chunk, put_chunk};
ghost use Rattle.stab_pauli.specs.inner.Words.{xor_words, words_odd};
ghost use Rattle.stab_pauli.specs.inner.Powers.{strings_meet};
ghost use Rattle.stab_pauli.specs.inner.Blocks.{row_letters, CoversLetters};

use crate::masks;
use crate::packed::{flat, ones, sparse};
use std::simd::u64x4;

/// Which of at most 64 blocks of a row have a letter other than I, by a mask.
#[inline(always)]
pub(crate) fn of(blocks: usize, row: &[u64]) -> u64
    requires few { blocks ≤ 64 }
    requires length { length row.now ≡ 8 * blocks }
    ensures value { CoversLetters blocks result row.now }
{
    let mut mask = 0;
    for block in 0..blocks {
        let at = 8 * block;
        mask = masks::with_if(mask, block, !sparse::is_blank(&row[at..at + 8]));
    }
    mask
}

/// Multiplies row a of this many rows by another row, as `flat::multiply_by` does, in the blocks alone that a mask names: in all
/// others the other row has letters I.
#[inline(always)]
pub(crate) fn multiply_by(
    words: &mut [u64],
    count: usize,
    blocks: usize,
    a: usize,
    support: u64,
    other: &[u64],
) -> bool
    requires few { blocks ≤ 64 }
    requires all { length words.old ≡ 8 * blocks * count }
    requires in_range { a < count }
    requires other_length { length other.now ≡ 8 * blocks }
    requires support { CoversLetters blocks support other.now }
    ensures words { words.new ≡ put_chunk (8 * blocks * a) words.old (xor_words (chunk (8 * blocks * a) (8 * blocks) words.old) other.now) }
    ensures meet { result ≡ strings_meet (row_letters blocks (chunk (8 * blocks * a) (8 * blocks) words.old)) (row_letters blocks other.now) }
{
    let at = flat::offset_of(words.len(), count, blocks, a);
    multiply(blocks, &mut words[at..at + 8 * blocks], support, other)
}

/// Makes a row of this many blocks the product of itself and another, as `row::multiply` does, by a walk over the blocks that a
/// mask names.
#[inline(always)]
fn multiply(blocks: usize, row: &mut [u64], support: u64, other: &[u64]) -> bool
    requires few { blocks ≤ 64 }
    requires length { length row.old ≡ 8 * blocks }
    requires other_length { length other.now ≡ 8 * blocks }
    requires support { CoversLetters blocks support other.now }
    ensures words { row.new ≡ xor_words row.old other.now }
    ensures meet { result ≡ strings_meet (row_letters blocks row.old) (row_letters blocks other.now) }
{
    let mut meets = u64x4::splat(0);
    let mut rest = support;
    while rest != 0 {
        let block = masks::first(rest);
        meets = meets ^ multiply_block(row, 8 * block, other);
        rest = masks::without(rest, block);
    }
    ones::are_odd(meets)
}

/// Multiplies the block of a row at a word by that of another row there, and says at which positions its Z bits meet X bits
/// of the other.
#[inline(always)]
fn multiply_block(row: &mut [u64], at: usize, other: &[u64]) -> u64x4
    requires fits { at + 8 ≤ length row.old }
    requires other_fits { at + 8 ≤ length other.now }
    ensures words { row.new ≡ put_chunk at row.old (xor_words (chunk at 8 row.old) (chunk at 8 other.now)) }
    ensures size { length result ≡ 4 }
    ensures meet { words_odd 64 result ≡ strings_meet (row_letters 1 (chunk at 8 row.old)) (row_letters 1 (chunk at 8 other.now)) }
{
    let x = u64x4::from_slice(&row[at..]);
    let z = u64x4::from_slice(&row[at + 4..]);
    let other_x = u64x4::from_slice(&other[at..]);
    let other_z = u64x4::from_slice(&other[at + 4..]);
    (x ^ other_x).copy_to_slice(&mut row[at..]);
    (z ^ other_z).copy_to_slice(&mut row[at + 4..]);
    z & other_x
}
