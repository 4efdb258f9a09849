mod chosen;
mod compact;

use crate::supports::XSupports;
pub use compact::CompactTable;
use stab_io::Refusal;
use stab_pauli::{Letter, Pauli, PauliRows};
use std::alloc::Global;
use std::marker::Model;

/// One of the two preimages of a qubit.
#[derive(Clone, Copy)]
pub enum InverseRow {
    /// That of X.
    OfX,
    /// That of Z.
    OfZ,
}

impl InverseRow {
    ghost use Rattle.std.specs.Prelude.{◌≡◌, ◌≤◌};
    ghost use Rattle.stab_gates.specs.Limits.{most_qubits};
    ghost use Rattle.stab_tableau.specs.inner.Pairs.{row_position};

    /// Where the string lies among those of all qubits.
    #[inline(always)]
    fn position(self, qubit: usize) -> usize
        requires few { qubit ≤ most_qubits }
        ensures value { result ≡ row_position self qubit }
    {
        match self {
            InverseRow::OfX => 2 * qubit,
            InverseRow::OfZ => 2 * qubit + 1,
        }
    }
}

/// The preimages of X and Z on each qubit: what all that happened made into these.
///
/// Those of qubit q are the strings 2q and 2q + 1 of one allocation. Contracts see a list of pairs.
#[derive(Drop)]
pub struct Table {
    rows: PauliRows,
    // At which positions the rows of 32 qubits may have X or Y: it saves looks, and contracts don't see it.
    supports: XSupports,
}

impl Model for Table {
    ghost use Rattle.std.specs.Prelude.{List};
    ghost use Rattle.stab_tableau.specs.inner.InverseRows.{InverseRows};
    ghost use Rattle.stab_tableau.specs.inner.Pairs.{paired_strings, IsPaired};
    ghost use Rattle.stab_tableau.specs.inner.Supports.{Covers};

    ghost Value = { List InverseRows };

    ghost view = { λ t. paired_strings t.rows.rows };

    ghost invariant = { λ t. IsPaired t.rows × Covers t.supports t.rows };
}

impl Table {
    ghost use Rattle.std.specs.Prelude.{◌≡◌, ◌≢◌, ℕ, ◌<◌, ◌≤◌, ◌⊎◌, true, false, length, slice_set, ◌↔◌, IsTrue, IfOk, IfErr, IfSome, IfNone};
    ghost use Rattle.std.specs.List.{list_any};
    ghost use Rattle.stab_io.specs.declared.refusal.Refusal.TheVariants.{OutOfMemory};
    ghost use Rattle.stab_gates.specs.XParts.{has_x};
    ghost use Rattle.stab_gates.specs.Letters.{letters_anticommute};
    ghost use Rattle.stab_pauli.specs.Paulis.{single, anticommute, product, with_sign};
    ghost use Rattle.stab_pauli.specs.Rows.{product_times_i};
    ghost use Rattle.stab_gates.specs.Limits.{most_qubits};
    ghost use Rattle.stab_tableau.specs.Gates.{letter_at};
    ghost use Rattle.stab_tableau.specs.inner.InverseRows.{rows_at, zeros_row, IsOver};
    ghost use Rattle.stab_tableau.specs.inner.Frames.{SameLetters};
    ghost use Rattle.stab_tableau.specs.inner.Pairs.{row_string, put, rows_exchanged};

    /// Rows of letters I alone, for n qubits.
    pub fn new(alloc: Global, n: usize) -> Result<Table, Refusal>
        requires few { n ≤ most_qubits }
        ensures size { IfOk result (λ t. length t ≡ n) }
        ensures over { IfOk result (λ t. (q : ℕ) → q < n → IsOver n (rows_at t q)) }
        ensures err { IfErr result (λ r. r ≡ OutOfMemory) }
    {
        let rows = PauliRows::new(alloc, 2 * n, n)?;
        let supports = XSupports::new(alloc, 2 * n)?;
        Ok(Table { rows, supports })
    }

    /// The same rows in memory of their own.
    pub fn copy(&self, alloc: Global) -> Result<Table, Refusal>
        ensures ok { IfOk result (λ t. t ≡ self.now) }
        ensures err { IfErr result (λ r. r ≡ OutOfMemory) }
    {
        let rows = self.rows.copy(alloc)?;
        let supports = self.supports.copy(alloc)?;
        Ok(Table { rows, supports })
    }

    /// Whether both have the same rows.
    pub fn same(&self, other: &Table) -> bool
        ensures value { IsTrue result ↔ (self.now ≡ other.now) }
    {
        self.rows.same(&other.rows)
    }

    /// Whether both have rows with the same letters, whatever their signs.
    pub fn same_letters(&self, other: &Table) -> bool
        ensures value { IsTrue result ↔ SameLetters self.now other.now }
    {
        self.rows.same_letters(&other.rows)
    }

    /// The number of qubits.
    #[inline(always)]
    pub fn len(&self) -> usize
        ensures value { result ≡ length self.now }
        ensures few { result ≤ most_qubits }
    {
        self.rows.qubits()
    }

    /// Makes the rows of a qubit those in the state of all zeros.
    #[inline(always)]
    pub fn reset(&mut self, qubit: usize)
        requires in_range { qubit < length self.old }
        ensures row { self.new ≡ slice_set self.old qubit (zeros_row (length self.old) qubit) }
    {
        self.reset_row(InverseRow::OfX, qubit, Letter::X);
        self.reset_row(InverseRow::OfZ, qubit, Letter::Z);
    }

    // Makes a row one letter on its own qubit.
    #[inline(always)]
    fn reset_row(&mut self, row: InverseRow, qubit: usize, letter: Letter)
        requires in_range { qubit < length self.old }
        ensures row { self.new ≡ put row qubit (single (length self.old) qubit letter) self.old }
    {
        self.rows.clear(row.position(qubit));
        self.rows.set(row.position(qubit), qubit, letter);
        self.supports.forget(row.position(qubit));
    }

    /// Flips the sign of a row if the bit is 1.
    #[inline(always)]
    pub fn negate_if(&mut self, row: InverseRow, qubit: usize, bit: bool)
        requires in_range { qubit < length self.old }
        ensures value { self.new ≡ put row qubit (with_sign bit (row_string row (rows_at self.old qubit))) self.old }
    {
        self.rows.negate_if(row.position(qubit), bit);
    }

    /// Exchanges two rows.
    #[inline(always)]
    pub fn exchange(&mut self, row: InverseRow, qubit: usize, other: InverseRow, other_qubit: usize)
        requires in_range { qubit < length self.old }
        requires other_in_range { other_qubit < length self.old }
        requires distinct { (row ≢ other) ⊎ (qubit ≢ other_qubit) }
        ensures value { self.new ≡ rows_exchanged row qubit other other_qubit self.old }
    {
        self.rows
            .swap(row.position(qubit), other.position(other_qubit));
        self.supports
            .swap(row.position(qubit), other.position(other_qubit));
    }

    /// Makes a row the product of itself and another, with which it commutes.
    #[inline(always)]
    pub fn multiply(&mut self, row: InverseRow, qubit: usize, other: InverseRow, other_qubit: usize)
        requires in_range { qubit < length self.old }
        requires other_in_range { other_qubit < length self.old }
        requires distinct { (row ≢ other) ⊎ (qubit ≢ other_qubit) }
        requires commuting { anticommute (row_string row (rows_at self.old qubit)) (row_string other (rows_at self.old other_qubit)) ≡ false }
        ensures value { self.new ≡ put row qubit (product (row_string row (rows_at self.old qubit)) (row_string other (rows_at self.old other_qubit))) self.old }
    {
        self.rows
            .multiply(row.position(qubit), other.position(other_qubit));
        self.supports.forget(row.position(qubit));
    }

    /// Makes a row i times the product of itself and another, with which it anticommutes.
    #[inline(always)]
    pub fn multiply_times_i(
        &mut self,
        row: InverseRow,
        qubit: usize,
        other: InverseRow,
        other_qubit: usize,
    )
        requires in_range { qubit < length self.old }
        requires other_in_range { other_qubit < length self.old }
        requires distinct { (row ≢ other) ⊎ (qubit ≢ other_qubit) }
        requires anticommuting { anticommute (row_string row (rows_at self.old qubit)) (row_string other (rows_at self.old other_qubit)) ≡ true }
        ensures value { self.new ≡ put row qubit (product_times_i (row_string row (rows_at self.old qubit)) (row_string other (rows_at self.old other_qubit))) self.old }
    {
        self.rows
            .multiply_times_i(row.position(qubit), other.position(other_qubit));
        self.supports.forget(row.position(qubit));
    }

    /// Makes a string the product of itself and a row, with which it commutes.
    #[inline(always)]
    pub fn multiply_into(&self, row: InverseRow, qubit: usize, out: &mut Pauli)
        requires in_range { qubit < length self.now }
        requires same_length { length out.old.letters ≡ length self.now }
        requires commuting { anticommute out.old (row_string row (rows_at self.now qubit)) ≡ false }
        ensures value { out.new ≡ product out.old (row_string row (rows_at self.now qubit)) }
    {
        self.rows.multiply_into(row.position(qubit), out);
    }

    /// Makes a string i times the product of itself and a row, with which it anticommutes.
    #[inline(always)]
    pub fn multiply_into_times_i(&self, row: InverseRow, qubit: usize, out: &mut Pauli)
        requires in_range { qubit < length self.now }
        requires same_length { length out.old.letters ≡ length self.now }
        requires anticommuting { anticommute out.old (row_string row (rows_at self.now qubit)) ≡ true }
        ensures value { out.new ≡ product_times_i out.old (row_string row (rows_at self.now qubit)) }
    {
        self.rows.multiply_into_times_i(row.position(qubit), out);
    }

    /// Makes a string what a row is.
    #[inline(always)]
    pub fn copy_row(&self, row: InverseRow, qubit: usize, out: &mut Pauli)
        requires in_range { qubit < length self.now }
        requires same_length { length out.old.letters ≡ length self.now }
        ensures value { out.new ≡ row_string row (rows_at self.now qubit) }
    {
        self.rows.copy_row(row.position(qubit), out);
    }

    /// The letter of a row at a position.
    #[inline(always)]
    pub fn letter(&self, row: InverseRow, qubit: usize, position: usize) -> Letter
        requires in_range { qubit < length self.now }
        requires position_in_range { position < length self.now }
        ensures value { result ≡ letter_at (row_string row (rows_at self.now qubit)).letters position }
    {
        self.rows.letter(row.position(qubit), position)
    }

    /// Whether the letter of a row at a position is X or Y, and so anticommutes with Z.
    #[inline(always)]
    pub fn has_x(&self, row: InverseRow, qubit: usize, position: usize) -> bool
        requires in_range { qubit < length self.now }
        requires position_in_range { position < length self.now }
        ensures value { result ≡ has_x (letter_at (row_string row (rows_at self.now qubit)).letters position) }
    {
        self.rows.has_x(row.position(qubit), position)
    }

    /// Whether the sign of a row is -.
    #[inline(always)]
    pub fn is_negative(&self, row: InverseRow, qubit: usize) -> bool
        requires in_range { qubit < length self.now }
        ensures value { result ≡ (row_string row (rows_at self.now qubit)).negative }
    {
        self.rows.is_negative(row.position(qubit))
    }

    /// The sign of a row of letters I and Z alone, which is the outcome of a measurement, or `None` if it has others.
    #[inline(always)]
    pub fn fixed_sign(&self, row: InverseRow, qubit: usize) -> Option<bool>
        requires in_range { qubit < length self.now }
        requires over { length (row_string row (rows_at self.now qubit)).letters ≡ length self.now }
        ensures some { IfSome result (λ b. (b ≡ (row_string row (rows_at self.now qubit)).negative) × (list_any has_x (row_string row (rows_at self.now qubit)).letters ≡ false)) }
        ensures none { IfNone result ((k : ℕ) × (k < length (row_string row (rows_at self.now qubit)).letters) × (has_x (letter_at (row_string row (rows_at self.now qubit)).letters k) ≡ true)) }
    {
        match self.rows.first_x(row.position(qubit)) {
            Some(_) => None,
            None => Some(self.rows.fixed_sign(row.position(qubit))),
        }
    }
}
