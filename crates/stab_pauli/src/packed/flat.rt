//! Rows that lie side by side in one slice of words.

ghost use Rattle.std.specs.Prelude.{◌≡◌, ◌≢◌, ◌+◌, ◌*◌, ◌<◌, ◌≤◌, ◌⊎◌, ◌++◌, ◌↔◌, IsTrue, length, replicate, slice_set};
ghost use Rattle.std.specs.Simd.Lanes.{chunk, put_chunk};
ghost use Rattle.stab_pauli.specs.inner.Words.{xor_words, swapped_words, AreShort};
ghost use Rattle.stab_pauli.specs.inner.Powers.{strings_meet};
ghost use Rattle.stab_pauli.specs.inner.Blocks.{row_letters, IsRewritten};

use crate::packed::{ones, row};
use stab_gates::Letter;
use std::simd::u64x4;

/// Where the words of row a of this many rows begin.
#[inline(always)]
pub(crate) fn offset_of(size: usize, count: usize, blocks: usize, a: usize) -> usize
    requires in_range { a < count }
    requires all { size ≡ 8 * blocks * count }
    ensures value { result ≡ 8 * blocks * a }
    ensures inside { result + 8 * blocks ≤ size }
{
    8 * blocks * a
}

/// The words of row a.
#[inline(always)]
pub(crate) fn row_of(words: &[u64], count: usize, blocks: usize, a: usize) -> &[u64]
    requires all { length words.now ≡ 8 * blocks * count }
    requires in_range { a < count }
    ensures value { result.now ≡ chunk (8 * blocks * a) (8 * blocks) words.now }
    ensures size { length result.now ≡ 8 * blocks }
{
    let at = offset_of(words.len(), count, blocks, a);
    &words[at..at + 8 * blocks]
}

/// Where the words of the eight rows from row a on begin.
#[inline(always)]
fn position_of_part(size: usize, count: usize, blocks: usize, a: usize) -> usize
    requires in_range { a + 8 ≤ count }
    requires all { size ≡ 8 * blocks * count }
    ensures value { result ≡ 8 * blocks * a }
    ensures inside { result + 8 * blocks * 8 ≤ size }
{
    8 * blocks * a
}

/// The words of the eight rows from row a on.
#[inline(always)]
pub(crate) fn part_of(words: &[u64], count: usize, blocks: usize, a: usize) -> &[u64]
    requires all { length words.now ≡ 8 * blocks * count }
    requires in_range { a + 8 ≤ count }
    ensures value { result.now ≡ chunk (8 * blocks * a) (8 * blocks * 8) words.now }
    ensures size { length result.now ≡ 8 * blocks * 8 }
{
    let at = position_of_part(words.len(), count, blocks, a);
    &words[at..at + 8 * blocks * 8]
}

/// Multiplies row a of this many rows by row b, and says whether its Z bits meet X bits of row b at an odd number of
/// positions, as all products here do.
#[inline(always)]
pub(crate) fn multiply(words: &mut [u64], count: usize, blocks: usize, a: usize, b: usize) -> bool
    requires all { length words.old ≡ 8 * blocks * count }
    requires a_in_range { a < count }
    requires b_in_range { b < count }
    requires distinct { a ≢ b }
    ensures words { words.new ≡ put_chunk (8 * blocks * a) words.old (xor_words (chunk (8 * blocks * a) (8 * blocks) words.old) (chunk (8 * blocks * b) (8 * blocks) words.old)) }
    ensures meet { result ≡ strings_meet (row_letters blocks (chunk (8 * blocks * a) (8 * blocks) words.old)) (row_letters blocks (chunk (8 * blocks * b) (8 * blocks) words.old)) }
{
    let size = words.len();
    if blocks == 1 {
        let first = offset_of(size, count, 1, a);
        let second = offset_of(size, count, 1, b);
        return multiply_block(words, first, second);
    }
    let first = offset_of(size, count, blocks, a);
    let second = offset_of(size, count, blocks, b);
    multiply_at(words, blocks, first, second)
}

/// Multiplies the block at word a by the one at word b. Up to 256 qubits it is the whole row, and takes no loop.
#[inline(always)]
fn multiply_block(words: &mut [u64], a: usize, b: usize) -> bool
    requires a_fits { a + 8 ≤ length words.old }
    requires b_fits { b + 8 ≤ length words.old }
    ensures words { words.new ≡ put_chunk a words.old (xor_words (chunk a 8 words.old) (chunk b 8 words.old)) }
    ensures meet { result ≡ strings_meet (row_letters 1 (chunk a 8 words.old)) (row_letters 1 (chunk b 8 words.old)) }
{
    let x = u64x4::from_slice(&words[a..]);
    let z = u64x4::from_slice(&words[a + 4..]);
    let other_x = u64x4::from_slice(&words[b..]);
    let other_z = u64x4::from_slice(&words[b + 4..]);
    (x ^ other_x).copy_to_slice(&mut words[a..]);
    (z ^ other_z).copy_to_slice(&mut words[a + 4..]);
    ones::are_odd(z & other_x)
}

/// Multiplies the row of this many blocks at word a by the one at word b, which it does not overlap.
#[inline(always)]
fn multiply_at(words: &mut [u64], blocks: usize, a: usize, b: usize) -> bool
    requires a_fits { a + 8 * blocks ≤ length words.old }
    requires b_fits { b + 8 * blocks ≤ length words.old }
    requires disjoint { (a + 8 * blocks ≤ b) ⊎ (b + 8 * blocks ≤ a) }
    ensures words { words.new ≡ put_chunk a words.old (xor_words (chunk a (8 * blocks) words.old) (chunk b (8 * blocks) words.old)) }
    ensures meet { result ≡ strings_meet (row_letters blocks (chunk a (8 * blocks) words.old)) (row_letters blocks (chunk b (8 * blocks) words.old)) }
{
    let size = 8 * blocks;
    if a < b {
        let (front, back) = words.split_at_mut(b);
        row::multiply(blocks, &mut front[a..a + size], &back[..size])
    } else {
        let (front, back) = words.split_at_mut(a);
        row::multiply(blocks, &mut back[..size], &front[b..b + size])
    }
}

/// Multiplies row a by another row.
#[inline(always)]
pub(crate) fn multiply_by(
    words: &mut [u64],
    count: usize,
    blocks: usize,
    a: usize,
    other: &[u64],
) -> bool
    requires all { length words.old ≡ 8 * blocks * count }
    requires in_range { a < count }
    requires other_length { length other.now ≡ 8 * blocks }
    ensures words { words.new ≡ put_chunk (8 * blocks * a) words.old (xor_words (chunk (8 * blocks * a) (8 * blocks) words.old) other.now) }
    ensures meet { result ≡ strings_meet (row_letters blocks (chunk (8 * blocks * a) (8 * blocks) words.old)) (row_letters blocks other.now) }
{
    let at = offset_of(words.len(), count, blocks, a);
    row::multiply(blocks, &mut words[at..at + 8 * blocks], other)
}

/// Multiplies the block at word a by another, as `multiply_block` does, of which the words with X bits and those with Z bits
/// are at hand.
#[inline(always)]
pub(crate) fn multiply_block_by(words: &mut [u64], a: usize, other_x: u64x4, other_z: u64x4) -> bool
    requires fits { a + 8 ≤ length words.old }
    requires x_size { length other_x ≡ 4 }
    requires z_size { length other_z ≡ 4 }
    ensures words { words.new ≡ put_chunk a words.old (xor_words (chunk a 8 words.old) (other_x ++ other_z)) }
    ensures meet { result ≡ strings_meet (row_letters 1 (chunk a 8 words.old)) (row_letters 1 (other_x ++ other_z)) }
{
    let x = u64x4::from_slice(&words[a..]);
    let z = u64x4::from_slice(&words[a + 4..]);
    (x ^ other_x).copy_to_slice(&mut words[a..]);
    (z ^ other_z).copy_to_slice(&mut words[a + 4..]);
    ones::are_odd(z & other_x)
}

/// Makes row a another row.
#[inline(always)]
pub(crate) fn copy_from(words: &mut [u64], count: usize, blocks: usize, a: usize, other: &[u64])
    requires all { length words.old ≡ 8 * blocks * count }
    requires in_range { a < count }
    requires other_length { length other.now ≡ 8 * blocks }
    ensures words { words.new ≡ put_chunk (8 * blocks * a) words.old other.now }
{
    let at = offset_of(words.len(), count, blocks, a);
    words[at..at + 8 * blocks].copy_from_slice(other);
}

/// Makes row a letters I.
#[inline(always)]
pub(crate) fn clear(words: &mut [u64], count: usize, blocks: usize, a: usize)
    requires all { length words.old ≡ 8 * blocks * count }
    requires in_range { a < count }
    ensures words { words.new ≡ put_chunk (8 * blocks * a) words.old (replicate (8 * blocks) 0) }
{
    let at = offset_of(words.len(), count, blocks, a);
    words[at..at + 8 * blocks].fill(0);
}

/// Puts a letter on a qubit in row a.
#[inline(always)]
pub(crate) fn set(
    words: &mut [u64],
    count: usize,
    blocks: usize,
    a: usize,
    qubit: usize,
    letter: Letter,
)
    requires all { length words.old ≡ 8 * blocks * count }
    requires in_range { a < count }
    requires qubit_in_range { qubit < 256 * blocks }
    ensures words { IsRewritten (8 * blocks * a) (8 * blocks) words.old words.new (λ new. row_letters blocks new ≡ slice_set (row_letters blocks (chunk (8 * blocks * a) (8 * blocks) words.old)) qubit letter) }
{
    let at = offset_of(words.len(), count, blocks, a);
    row::set(blocks, &mut words[at..at + 8 * blocks], qubit, letter);
}

/// Exchanges row a and row b.
#[inline(always)]
pub(crate) fn swap(words: &mut [u64], count: usize, blocks: usize, a: usize, b: usize)
    requires all { length words.old ≡ 8 * blocks * count }
    requires a_in_range { a < count }
    requires b_in_range { b < count }
    requires distinct { a ≢ b }
    ensures words { words.new ≡ swapped_words (8 * blocks * a) (8 * blocks * b) (8 * blocks) words.old }
{
    let size = words.len();
    // One block, which most codes have, is handled by itself, so that its two halves need no loop.
    if blocks == 1 {
        let first = offset_of(size, count, 1, a);
        let second = offset_of(size, count, 1, b);
        swap_at(words, 1, first, second);
        return;
    }
    let first = offset_of(size, count, blocks, a);
    let second = offset_of(size, count, blocks, b);
    swap_at(words, blocks, first, second);
}

/// Exchanges the rows of this many blocks at word a and at word b, which do not overlap.
#[inline(always)]
fn swap_at(words: &mut [u64], blocks: usize, a: usize, b: usize)
    requires a_fits { a + 8 * blocks ≤ length words.old }
    requires b_fits { b + 8 * blocks ≤ length words.old }
    requires disjoint { (a + 8 * blocks ≤ b) ⊎ (b + 8 * blocks ≤ a) }
    ensures words { words.new ≡ swapped_words a b (8 * blocks) words.old }
{
    for half in 0..2 * blocks {
        let first = u64x4::from_slice(&words[a + 4 * half..]);
        let second = u64x4::from_slice(&words[b + 4 * half..]);
        second.copy_to_slice(&mut words[a + 4 * half..]);
        first.copy_to_slice(&mut words[b + 4 * half..]);
    }
}

/// Whether both are the same words. Slices at hand are known to have words of 64 bits, and the caller learns so too.
#[inline(always)]
pub(crate) fn same(words: &[u64], others: &[u64]) -> bool
    requires are_short { AreShort 64 words.now }
    requires others_are_short { AreShort 64 others.now }
    ensures value { IsTrue result ↔ (words.now ≡ others.now) }
    ensures short { AreShort 64 words.now }
    ensures others_short { AreShort 64 others.now }
{
    words == others
}
