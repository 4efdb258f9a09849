//! Rows that a mask chooses.

use super::PauliRows;
use crate::masks;
use crate::packed::{flat, part, row, sparse, support};
use crate::pauli::Pauli;
use stab_gates::Phase;
use std::simd::u64x4;

impl PauliRows {
    ghost use Rattle.std.specs.Prelude.{◌≡◌, ℕ, ◌+◌, ◌-◌, ◌*◌, ◌/◌, ◌^◌, ◌<◌, ◌≤◌, ◌++◌, true, false, length, slice_index_or};
    ghost use Rattle.stab_gates.specs.declared.letter.Letter.TheVariants.{I};
    ghost use Rattle.stab_gates.specs.XParts.{has_x};
    ghost use Rattle.stab_pauli.specs.Paulis.{with_sign, anticommute};
    ghost use Rattle.stab_pauli.specs.Rows.{row_at, with_row, product_times_i, product_times_i_if};
    ghost use Rattle.stab_pauli.specs.inner.Blocks.{blocks_of, row_letters, signed_row, IsSignedRow, CoversLetters};
    ghost use Rattle.stab_pauli.specs.Masks.{chooses, AreChosen, CoversSupport};

    /// Which of the 64 rows from one on have X or Y at a qubit, by a mask: bit k says it for row first + k, and is 0 if
    /// there is no such row. It is not inlined, which costs little for 64 rows: within its caller the words of eight rows would
    /// not all stay in registers.
    #[inline(never)]
    pub fn rows_with_x(&self, first: usize, qubit: usize) -> u64
        requires first_in_range { first ≤ length self.now.rows }
        requires qubit_in_range { qubit < self.now.qubits }
        ensures value { (k : ℕ) → k < 64 → chooses result k ≡ has_x (slice_index_or (row_at self.now (first + k)).letters qubit I) }
    {
        let end = first + (self.len() - first).min(64);
        self.mask_of_x(first, end, qubit).0
    }

    /// The same, and at which of the 64 qubits from 64 * (qubit / 64) on any of these rows has X or Y, by a mask too, which
    /// leaves none out: their X bits lie in one word with that of the qubit, and so are read anyway.
    #[inline(never)]
    pub fn rows_and_positions_with_x(&self, first: usize, qubit: usize) -> (u64, u64)
        requires first_in_range { first ≤ length self.now.rows }
        requires qubit_in_range { qubit < self.now.qubits }
        ensures value { (k : ℕ) → k < 64 → chooses result.0 k ≡ has_x (slice_index_or (row_at self.now (first + k)).letters qubit I) }
        ensures positions { (k j : ℕ) → k < 64 → j < 64 → has_x (slice_index_or (row_at self.now (first + k)).letters (64 * (qubit / 64) + j) I) ≡ true → chooses result.1 j ≡ true }
    {
        let end = first + (self.len() - first).min(64);
        self.mask_of_x(first, end, qubit)
    }

    /// Which of up to 64 rows from one on and before another have X or Y at a qubit, and at which of the 64 qubits of its word
    /// any of them has, each by a mask. The first grows from the last rows to the first: by the few that make no part of
    /// eight, and then by one part at a time, most of which are done by one test if few rows have the bit. If the second
    /// is not asked for, inlining leaves nothing of it.
    #[inline(always)]
    fn mask_of_x(&self, first: usize, end: usize, qubit: usize) -> (u64, u64)
        requires from { first ≤ end }
        requires few { end ≤ first + 64 }
        requires in_range { end ≤ length self.now.rows }
        requires qubit_in_range { qubit < self.now.qubits }
        ensures value { (k : ℕ) → first + k < end → chooses result.0 k ≡ has_x (slice_index_or (row_at self.now (first + k)).letters qubit I) }
        ensures short { result.0 < 2 ^ (end - first) }
        ensures positions { (k j : ℕ) → first + k < end → j < 64 → has_x (slice_index_or (row_at self.now (first + k)).letters (64 * (qubit / 64) + j) I) ≡ true → chooses result.1 j ≡ true }
    {
        let mut a = first + (end - first) / 8 * 8;
        let (mut mask, mut positions) = self.mask_row_by_row(a, end, qubit);
        while a > first {
            let (eight, among) = self.eight_with_x(a - 8, qubit);
            mask = masks::after_eight(mask, end - a, eight);
            positions = positions | among;
            a -= 8;
        }
        (mask, positions)
    }

    /// The same, with a look at each row.
    #[inline(always)]
    fn mask_row_by_row(&self, first: usize, end: usize, qubit: usize) -> (u64, u64)
        requires from { first ≤ end }
        requires few { end ≤ first + 64 }
        requires in_range { end ≤ length self.now.rows }
        requires qubit_in_range { qubit < self.now.qubits }
        ensures value { (k : ℕ) → first + k < end → chooses result.0 k ≡ has_x (slice_index_or (row_at self.now (first + k)).letters qubit I) }
        ensures short { result.0 < 2 ^ (end - first) }
        ensures positions { (k j : ℕ) → first + k < end → j < 64 → has_x (slice_index_or (row_at self.now (first + k)).letters (64 * (qubit / 64) + j) I) ≡ true → chooses result.1 j ≡ true }
    {
        let mut mask = 0;
        let mut positions = 0;
        let mut a = end;
        while a > first {
            let word = self.x_mask(a - 1, qubit / 64);
            mask = masks::following(mask, end - a, row::bit_of(word, qubit % 64));
            positions = positions | word;
            a -= 1;
        }
        (mask, positions)
    }

    /// At which of the 64 qubits of a word row a has X or Y, by a mask.
    #[inline(always)]
    fn x_mask(&self, a: usize, word: usize) -> u64
        requires in_range { a < length self.now.rows }
        requires some { 64 * word < self.now.qubits }
        ensures value { (j : ℕ) → j < 64 → chooses result j ≡ has_x (slice_index_or (row_at self.now a).letters (64 * word + j) I) }
    {
        let words = flat::row_of(self.words.as_slice(), self.powers.len(), self.blocks, a);
        row::x_mask(self.blocks, words, word)
    }

    /// Which of the eight rows from row a on have X or Y at a qubit, and at which of the 64 qubits of its word any of them has,
    /// each by a mask.
    #[inline(always)]
    fn eight_with_x(&self, a: usize, qubit: usize) -> (u64, u64)
        requires in_range { a + 8 ≤ length self.now.rows }
        requires qubit_in_range { qubit < self.now.qubits }
        ensures value { (k : ℕ) → k < 8 → chooses result.0 k ≡ has_x (slice_index_or (row_at self.now (a + k)).letters qubit I) }
        ensures short { result.0 < 2 ^ 8 }
        ensures positions { (k j : ℕ) → k < 8 → j < 64 → has_x (slice_index_or (row_at self.now (a + k)).letters (64 * (qubit / 64) + j) I) ≡ true → chooses result.1 j ≡ true }
    {
        let words = flat::part_of(self.words.as_slice(), self.powers.len(), self.blocks, a);
        part::rows_with_x(self.blocks, words, qubit)
    }

    /// Makes each chosen one of the 64 rows from one on i times the product of itself and another string, with which it
    /// anticommutes, in this order. Its `support_mask` says in which blocks that string may have letters other than I: a caller that
    /// multiplies many rows by it asks for that once.
    #[inline(always)]
    pub fn multiply_rows_by_times_i(&mut self, first: usize, mask: u64, other: &Pauli, support: u64)
        requires few { self.old.qubits ≤ 2 ^ 14 }
        requires in_range { (k : ℕ) → k < 64 → chooses mask k ≡ true → first + k < length self.old.rows }
        requires same_length { length other.now.letters ≡ self.old.qubits }
        requires support { CoversSupport support other.now.letters }
        requires anticommuting { (k : ℕ) → k < 64 → chooses mask k ≡ true → anticommute (row_at self.old (first + k)) other.now ≡ true }
        ensures value { AreChosen first mask (λ b p. product_times_i_if b p other.now) self.old self.new }
    {
        if self.blocks == 1 {
            let words = other.words.as_slice();
            let x = u64x4::from_slice(words);
            let z = u64x4::from_slice(&words[4..]);
            self.multiply_rows_by_block(first, mask, x, z, other.power);
            return;
        }
        self.multiply_rows_by_blocks(first, mask, other, support);
    }

    /// The same, of any number of blocks.
    #[inline(always)]
    fn multiply_rows_by_blocks(&mut self, first: usize, mask: u64, other: &Pauli, support: u64)
        requires few { self.old.qubits ≤ 2 ^ 14 }
        requires in_range { (k : ℕ) → k < 64 → chooses mask k ≡ true → first + k < length self.old.rows }
        requires same_length { length other.now.letters ≡ self.old.qubits }
        requires support { CoversSupport support other.now.letters }
        requires anticommuting { (k : ℕ) → k < 64 → chooses mask k ≡ true → anticommute (row_at self.old (first + k)) other.now ≡ true }
        ensures value { AreChosen first mask (λ b p. product_times_i_if b p other.now) self.old self.new }
    {
        // If all blocks have letters other than I, as in dense states, there is none to pass over.
        if (support.count_ones() as usize) < self.blocks {
            let words = other.words.as_slice();
            sparse::are_short(words);
            self.multiply_rows_in_support(first, mask, support, words, other.power);
            return;
        }
        self.multiply_rows_by_string(first, mask, other);
    }

    /// The same, block after block.
    #[inline(always)]
    fn multiply_rows_by_string(&mut self, first: usize, mask: u64, other: &Pauli)
        requires in_range { (k : ℕ) → k < 64 → chooses mask k ≡ true → first + k < length self.old.rows }
        requires same_length { length other.now.letters ≡ self.old.qubits }
        requires anticommuting { (k : ℕ) → k < 64 → chooses mask k ≡ true → anticommute (row_at self.old (first + k)) other.now ≡ true }
        ensures value { AreChosen first mask (λ b p. product_times_i_if b p other.now) self.old self.new }
    {
        let _count = self.len();
        let mut rest = mask;
        while rest != 0 {
            let k = masks::first(rest);
            self.multiply_by_times_i(first + k, other);
            rest = masks::without(rest, k);
        }
    }

    /// The same of one block, and the words of the string stay at hand over all rows.
    #[inline(always)]
    fn multiply_rows_by_block(&mut self, first: usize, mask: u64, x: u64x4, z: u64x4, power: Phase)
        requires in_range { (k : ℕ) → k < 64 → chooses mask k ≡ true → first + k < length self.old.rows }
        requires x_size { length x ≡ 4 }
        requires z_size { length z ≡ 4 }
        requires string { IsSignedRow self.old.qubits 1 power (x ++ z) }
        requires anticommuting { (k : ℕ) → k < 64 → chooses mask k ≡ true → anticommute (row_at self.old (first + k)) (signed_row self.old.qubits power (row_letters 1 (x ++ z))) ≡ true }
        ensures value { AreChosen first mask (λ b p. product_times_i_if b p (signed_row self.old.qubits power (row_letters 1 (x ++ z)))) self.old self.new }
    {
        let _count = self.len();
        let mut rest = mask;
        while rest != 0 {
            let k = masks::first(rest);
            self.multiply_by_block(first + k, x, z, power);
            rest = masks::without(rest, k);
        }
    }

    /// Makes row a i times the product of itself and a string of one block, with which it anticommutes, in this order.
    #[inline(always)]
    fn multiply_by_block(&mut self, a: usize, x: u64x4, z: u64x4, power: Phase)
        requires in_range { a < length self.old.rows }
        requires x_size { length x ≡ 4 }
        requires z_size { length z ≡ 4 }
        requires string { IsSignedRow self.old.qubits 1 power (x ++ z) }
        requires anticommuting { anticommute (row_at self.old a) (signed_row self.old.qubits power (row_letters 1 (x ++ z))) ≡ true }
        ensures value { self.new ≡ with_row self.old a (product_times_i (row_at self.old a) (signed_row self.old.qubits power (row_letters 1 (x ++ z)))) }
    {
        let at = flat::offset_of(self.words.len(), self.powers.len(), 1, a);
        let meet = flat::multiply_block_by(self.words.as_mut_slice(), at, x, z);
        self.powers[a] = row::product_power(self.powers[a], power, meet).times_i();
    }

    /// The same in the blocks that a mask names, if all other blocks of the string are letters I: of these nothing is read
    /// or written.
    #[inline(always)]
    fn multiply_rows_in_support(
        &mut self,
        first: usize,
        mask: u64,
        support: u64,
        words: &[u64],
        power: Phase,
    )
        requires in_range { (k : ℕ) → k < 64 → chooses mask k ≡ true → first + k < length self.old.rows }
        requires few { blocks_of self.old.qubits ≤ 64 }
        requires string { IsSignedRow self.old.qubits (blocks_of self.old.qubits) power words.now }
        requires support { CoversLetters (blocks_of self.old.qubits) support words.now }
        requires anticommuting { (k : ℕ) → k < 64 → chooses mask k ≡ true → anticommute (row_at self.old (first + k)) (signed_row self.old.qubits power (row_letters (blocks_of self.old.qubits) words.now)) ≡ true }
        ensures value { AreChosen first mask (λ b p. product_times_i_if b p (signed_row self.old.qubits power (row_letters (blocks_of self.old.qubits) words.now))) self.old self.new }
    {
        let _count = self.len();
        let mut rest = mask;
        while rest != 0 {
            let k = masks::first(rest);
            self.multiply_in_support(first + k, support, words, power);
            rest = masks::without(rest, k);
        }
    }

    /// Makes row a i times the product of itself and a string, with which it anticommutes, in this order, in the blocks that a
    /// mask names.
    #[inline(always)]
    fn multiply_in_support(&mut self, a: usize, support: u64, words: &[u64], power: Phase)
        requires in_range { a < length self.old.rows }
        requires few { blocks_of self.old.qubits ≤ 64 }
        requires string { IsSignedRow self.old.qubits (blocks_of self.old.qubits) power words.now }
        requires support { CoversLetters (blocks_of self.old.qubits) support words.now }
        requires anticommuting { anticommute (row_at self.old a) (signed_row self.old.qubits power (row_letters (blocks_of self.old.qubits) words.now)) ≡ true }
        ensures value { self.new ≡ with_row self.old a (product_times_i (row_at self.old a) (signed_row self.old.qubits power (row_letters (blocks_of self.old.qubits) words.now))) }
    {
        let count = self.powers.len();
        let rows = self.words.as_mut_slice();
        let meet = support::multiply_by(rows, count, self.blocks, a, support, words);
        self.powers[a] = row::product_power(self.powers[a], power, meet).times_i();
    }

    /// Flips the signs of the chosen ones of the 64 rows from one on.
    #[inline(always)]
    pub fn negate_rows(&mut self, first: usize, mask: u64)
        requires in_range { (k : ℕ) → k < 64 → chooses mask k ≡ true → first + k < length self.old.rows }
        ensures value { AreChosen first mask with_sign self.old self.new }
    {
        let _count = self.len();
        let mut rest = mask;
        while rest != 0 {
            let k = masks::first(rest);
            self.negate_if(first + k, true);
            rest = masks::without(rest, k);
        }
    }
}
