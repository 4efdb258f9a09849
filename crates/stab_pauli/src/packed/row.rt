//! The words of one string, in blocks.

ghost use Rattle.std.specs.Prelude.{◌≡◌, ◌≢◌, ℕ, ◌+◌, ◌*◌, ◌/◌, ◌%◌, ◌^◌, ◌<◌, ◌≤◌, length, slice_index_or, slice_set, eqb, IfSome, IfNone, true, false};
ghost use Rattle.std.specs.Int.{bit_at};
ghost use Rattle.stab_gates.specs.declared.letter.Letter.TheVariants.{I};
ghost use Rattle.stab_gates.specs.Phases.{phase_add, phase_of_sign, sign_of_phase, phase_inverse};
ghost use Rattle.stab_gates.specs.XParts.{has_x};
ghost use Rattle.stab_pauli.specs.Paulis.{strings_anticommute};
ghost use Rattle.stab_pauli.specs.Masks.{chooses};
ghost use Rattle.stab_pauli.specs.inner.Words.{xor_words, letter_of_bits};
ghost use Rattle.stab_pauli.specs.inner.Powers.{string_power, strings_meet, sign_power};
ghost use Rattle.stab_gates.specs.Letters.{letter_power};
ghost use Rattle.stab_pauli.specs.inner.Blocks.{row_letters, AreBlocks, HasNoXBefore, IsFirstX, IsBlankFrom, IsNextBit, IsNextLetter};

use crate::packed::ones;
use stab_gates::{Letter, Phase};
use std::simd::u64x4;

/// How many blocks n letters take.
#[inline(always)]
pub(crate) fn blocks_of(n: usize) -> usize
    ensures value { AreBlocks n result }
{
    n / 256 + (n % 256 + 255) / 256
}

/// The power of i before the bits of a product, by those of both and whether Z bits of the first meet X bits of the
/// second at an odd number of positions.
#[inline(always)]
pub(crate) fn product_power(first: Phase, second: Phase, meet: bool) -> Phase
    ensures value { result ≡ phase_add (phase_add first second) (phase_of_sign meet) }
{
    first.times(second).times(Phase::of_sign(meet))
}

/// Makes a row of this many blocks the product of itself and another, and says whether its Z bits meet X bits of the
/// other at an odd number of positions.
#[inline(always)]
pub(crate) fn multiply(blocks: usize, row: &mut [u64], other: &[u64]) -> bool
    requires length { length row.old ≡ 8 * blocks }
    requires other_length { length other.now ≡ 8 * blocks }
    ensures words { row.new ≡ xor_words row.old other.now }
    ensures meet { result ≡ strings_meet (row_letters blocks row.old) (row_letters blocks other.now) }
{
    let mut meets = u64x4::splat(0);
    for block in 0..blocks {
        let at = 8 * block;
        let x = u64x4::from_slice(&row[at..]);
        let z = u64x4::from_slice(&row[at + 4..]);
        let other_x = u64x4::from_slice(&other[at..]);
        let other_z = u64x4::from_slice(&other[at + 4..]);
        meets = meets ^ (z & other_x);
        (x ^ other_x).copy_to_slice(&mut row[at..]);
        (z ^ other_z).copy_to_slice(&mut row[at + 4..]);
    }
    ones::are_odd(meets)
}

/// Whether two rows of this many blocks anticommute.
#[inline(always)]
pub(crate) fn anticommute(blocks: usize, row: &[u64], other: &[u64]) -> bool
    requires length { length row.now ≡ 8 * blocks }
    requires other_length { length other.now ≡ 8 * blocks }
    ensures value { result ≡ strings_anticommute (row_letters blocks row.now) (row_letters blocks other.now) }
{
    let mut meets = u64x4::splat(0);
    for block in 0..blocks {
        let at = 8 * block;
        let x = u64x4::from_slice(&row[at..]);
        let z = u64x4::from_slice(&row[at + 4..]);
        let other_x = u64x4::from_slice(&other[at..]);
        let other_z = u64x4::from_slice(&other[at + 4..]);
        meets = (meets ^ (z & other_x)) ^ (x & other_z);
    }
    ones::are_odd(meets)
}

/// The power of i of the letters of a row of this many blocks before their bits: one for each Y.
#[inline(always)]
pub(crate) fn power(blocks: usize, row: &[u64]) -> Phase
    requires length { length row.now ≡ 8 * blocks }
    ensures value { result ≡ string_power (row_letters blocks row.now) }
{
    let mut count = 0u32;
    for block in 0..blocks {
        let at = 8 * block;
        let x = u64x4::from_slice(&row[at..]);
        let z = u64x4::from_slice(&row[at + 4..]);
        count = count.wrapping_add(ones::all_ones(x & z));
    }
    Phase::of_count(count)
}

/// Whether the sign of a row of this many blocks is -, by the power of i before its bits.
#[inline(always)]
pub(crate) fn is_negative(blocks: usize, row: &[u64], power_before: Phase) -> bool
    requires length { length row.now ≡ 8 * blocks }
    ensures value { result ≡ sign_of_phase (sign_power power_before (row_letters blocks row.now)) }
{
    power(blocks, row).inverse().times(power_before).sign()
}

/// The power of i before the bits of a string when one of its letters has become another and its sign stays.
#[inline(always)]
pub(crate) fn power_with(power_before: Phase, old: Letter, new: Letter) -> Phase
    ensures value { result ≡ phase_add (phase_inverse (letter_power old)) (phase_add (letter_power new) power_before) }
{
    old.power().inverse().times(new.power().times(power_before))
}

/// The letter on a qubit in a row of this many blocks.
#[inline(always)]
pub(crate) fn letter(blocks: usize, row: &[u64], qubit: usize) -> Letter
    requires length { length row.now ≡ 8 * blocks }
    requires in_range { qubit < 256 * blocks }
    ensures value { result ≡ slice_index_or (row_letters blocks row.now) qubit I }
{
    let at = x_word(qubit);
    let bit = qubit % 64;
    letter_of(bit_of(row[at], bit), bit_of(row[at + 4], bit))
}

/// Puts a letter on a qubit in a row of this many blocks.
#[inline(always)]
pub(crate) fn set(blocks: usize, row: &mut [u64], qubit: usize, letter: Letter)
    requires length { length row.old ≡ 8 * blocks }
    requires in_range { qubit < 256 * blocks }
    ensures size { length row.new ≡ 8 * blocks }
    ensures letters { row_letters blocks row.new ≡ slice_set (row_letters blocks row.old) qubit letter }
{
    let at = x_word(qubit);
    let bit = qubit % 64;
    let (x, z) = bits_of(letter);
    row[at] = with_bit(row[at], bit, x);
    row[at + 4] = with_bit(row[at + 4], bit, z);
}

/// Whether the letter on a qubit in a row of this many blocks is X or Y: its X bit.
#[inline(always)]
pub(crate) fn has_x_at(blocks: usize, row: &[u64], qubit: usize) -> bool
    requires length { length row.now ≡ 8 * blocks }
    requires in_range { qubit < 256 * blocks }
    ensures value { result ≡ has_x (slice_index_or (row_letters blocks row.now) qubit I) }
{
    bit_of(x_mask(blocks, row, qubit / 64), qubit % 64)
}

/// Which of the 64 letters of a word of a row of this many blocks are X or Y, by a mask: the word of their X bits.
#[inline(always)]
pub(crate) fn x_mask(blocks: usize, row: &[u64], word: usize) -> u64
    requires length { length row.now ≡ 8 * blocks }
    requires in_range { word < 4 * blocks }
    ensures value { (k : ℕ) → k < 64 → chooses result k ≡ has_x (slice_index_or (row_letters blocks row.now) (64 * word + k) I) }
{
    row[8 * (word / 4) + word % 4]
}

/// The first qubit in a row of this many blocks whose letter is X or Y.
pub(crate) fn first_x(blocks: usize, row: &[u64]) -> Option<usize>
    requires few { blocks ≤ 2 ^ 56 }
    requires length { length row.now ≡ 8 * blocks }
    ensures none { IfNone result (HasNoXBefore (256 * blocks) (row_letters blocks row.now)) }
    ensures some { IfSome result (IsFirstX (256 * blocks) (row_letters blocks row.now)) }
{
    let start = 4 * still_blocks(blocks, row);
    for word in start..4 * blocks {
        let x = row[8 * (word / 4) + word % 4];
        if x != 0 {
            return Some(64 * word + x.trailing_zeros() as usize);
        }
    }
    None
}

/// How many blocks at the front of a row have no X part.
#[inline(always)]
fn still_blocks(blocks: usize, row: &[u64]) -> usize
    requires length { length row.now ≡ 8 * blocks }
    ensures in_range { result ≤ blocks }
    ensures still { HasNoXBefore (256 * result) (row_letters blocks row.now) }
{
    for block in 0..blocks {
        let at = 8 * block;
        if (row[at] | row[at + 1]) | (row[at + 2] | row[at + 3]) != 0 {
            return block;
        }
    }
    blocks
}

/// The first qubit in a row of this many blocks, from one on, whose letter is not I.
#[inline(always)]
pub(crate) fn next_letter(blocks: usize, row: &[u64], from: usize) -> Option<usize>
    requires few { blocks ≤ 2 ^ 56 }
    requires length { length row.now ≡ 8 * blocks }
    ensures none { IfNone result (IsBlankFrom from (256 * blocks) (row_letters blocks row.now)) }
    ensures some { IfSome result (IsNextLetter from (256 * blocks) (row_letters blocks row.now)) }
{
    for word in from / 64..4 * blocks {
        let at = 8 * (word / 4) + word % 4;
        if let Some(bit) = next_bit(row[at] | row[at + 4], from.saturating_sub(64 * word)) {
            return Some(64 * word + bit);
        }
    }
    None
}

/// The first bit of a word that is 1, from one on.
#[inline(always)]
fn next_bit(word: u64, from: usize) -> Option<usize>
    requires in_range { from < 64 }
    ensures none { IfNone result ((k : ℕ) → from ≤ k → k < 64 → bit_at word k ≡ 0) }
    ensures some { IfSome result (IsNextBit from word) }
{
    let rest = word >> from;
    if rest == 0 {
        return None;
    }
    Some(from + rest.trailing_zeros() as usize)
}

/// Which of the 64 letters of a word of a row of this many blocks are not I, by a mask.
#[inline(always)]
pub(crate) fn letters_mask(blocks: usize, row: &[u64], word: usize) -> u64
    requires length { length row.now ≡ 8 * blocks }
    requires in_range { word < 4 * blocks }
    ensures chosen { (k : ℕ) → k < 64 → chooses result k ≡ true → slice_index_or (row_letters blocks row.now) (64 * word + k) I ≢ I }
    ensures unchosen { (k : ℕ) → k < 64 → chooses result k ≡ false → slice_index_or (row_letters blocks row.now) (64 * word + k) I ≡ I }
{
    let at = 8 * (word / 4) + word % 4;
    row[at] | row[at + 4]
}

/// The index of the word with the X bit of a qubit.
#[inline(always)]
pub(crate) fn x_word(qubit: usize) -> usize
    ensures value { result ≡ 8 * (qubit / 256) + qubit % 256 / 64 }
{
    8 * (qubit / 256) + qubit % 256 / 64
}

/// A bit of a word.
#[inline(always)]
pub(crate) fn bit_of(word: u64, bit: usize) -> bool
    requires in_range { bit < 64 }
    ensures value { result ≡ eqb (bit_at word bit) 1 }
{
    (word >> bit) % 2 == 1
}

/// The word with one of its bits set to a value.
#[inline(always)]
fn with_bit(word: u64, bit: usize, value: bool) -> u64
    requires in_range { bit < 64 }
    ensures same { eqb (bit_at result bit) 1 ≡ value }
    ensures others { (k : ℕ) → k ≢ bit → k < 64 → bit_at result k ≡ bit_at word k }
{
    if value {
        word | (1 << bit)
    } else {
        word & !(1 << bit)
    }
}

/// The letter of an X bit and a Z bit.
#[inline(always)]
fn letter_of(x: bool, z: bool) -> Letter
    ensures value { result ≡ letter_of_bits x z }
{
    match (x, z) {
        (false, false) => Letter::I,
        (true, false) => Letter::X,
        (true, true) => Letter::Y,
        (false, true) => Letter::Z,
    }
}

/// The X bit and the Z bit of a letter.
#[inline(always)]
fn bits_of(letter: Letter) -> (bool, bool)
    ensures value { letter_of_bits result.0 result.1 ≡ letter }
{
    match letter {
        Letter::I => (false, false),
        Letter::X => (true, false),
        Letter::Y => (true, true),
        Letter::Z => (false, true),
    }
}
