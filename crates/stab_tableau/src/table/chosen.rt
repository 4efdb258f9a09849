//! The rows of 32 qubits that a mask chooses: its bits 2k and 2k + 1 stand for those of the k-th qubit.

use super::Table;
use stab_pauli::Pauli;

impl Table {
    ghost use Rattle.std.specs.Prelude.{◌≡◌, ℕ, ◌+◌, ◌*◌, ◌/◌, ◌<◌, ◌≤◌, true, length};
    ghost use Rattle.stab_gates.specs.XParts.{has_x};
    ghost use Rattle.stab_pauli.specs.Masks.{chooses, CoversSupport};
    ghost use Rattle.stab_pauli.specs.Paulis.{anticommute, with_sign};
    ghost use Rattle.stab_pauli.specs.Rows.{product_times_i_if};
    ghost use Rattle.stab_tableau.specs.declared.table.InverseRow.{InverseRow};
    ghost use Rattle.stab_tableau.specs.Gates.{letter_at};
    ghost use Rattle.stab_tableau.specs.inner.InverseRows.{rows_at};
    ghost use Rattle.stab_tableau.specs.inner.Pairs.{row_position, row_string, ArePairsChosen};

    /// Which rows of the 32 qubits from one on, which is a multiple of 32, have X or Y at a position. The rows are looked at only
    /// if one of them may.
    #[inline(always)]
    pub fn rows_with_x(&mut self, first: usize, position: usize) -> u64
        requires first_in_range { first < length self.old }
        requires group { 32 * (first / 32) ≡ first }
        requires position_in_range { position < length self.old }
        ensures value { (w : InverseRow) (k : ℕ) → k < 32 → chooses result (row_position w k) ≡ has_x (letter_at (row_string w (rows_at self.old (first + k))).letters position) }
        ensures unchanged { self.new ≡ self.old }
    {
        self.supports.rows_with_x(&self.rows, first / 32, position)
    }

    /// Makes each chosen row of the 32 qubits from one on i times the product of itself and a string, with which it
    /// anticommutes, and whose `support_mask` is at hand.
    #[inline(always)]
    pub fn multiply_rows_by_times_i(&mut self, first: usize, mask: u64, other: &Pauli, support: u64)
        requires first_in_range { first < length self.old }
        requires group { 32 * (first / 32) ≡ first }
        requires in_range { (w : InverseRow) (k : ℕ) → k < 32 → chooses mask (row_position w k) ≡ true → first + k < length self.old }
        requires same_length { length other.now.letters ≡ length self.old }
        requires support { CoversSupport support other.now.letters }
        requires anticommuting { (w : InverseRow) (k : ℕ) → k < 32 → chooses mask (row_position w k) ≡ true → anticommute (row_string w (rows_at self.old (first + k))) other.now ≡ true }
        ensures value { ArePairsChosen first mask (λ b p. product_times_i_if b p other.now) self.old self.new }
    {
        self.rows
            .multiply_rows_by_times_i(2 * first, mask, other, support);
        self.supports.widen(first / 32, mask, other);
    }

    /// Flips the signs of the chosen rows of the 32 qubits from one on.
    #[inline(always)]
    pub fn negate_rows(&mut self, first: usize, mask: u64)
        requires first_in_range { first ≤ length self.old }
        requires in_range { (w : InverseRow) (k : ℕ) → k < 32 → chooses mask (row_position w k) ≡ true → first + k < length self.old }
        ensures value { ArePairsChosen first mask with_sign self.old self.new }
    {
        self.rows.negate_rows(2 * first, mask);
    }
}
