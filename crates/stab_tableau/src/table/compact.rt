use super::{InverseRow, Table};
use crate::supports::XSupports;
use stab_io::Refusal;
use stab_pauli::{CompactRows, Letter};
use std::alloc::Global;
use std::marker::Model;

/// The rows of a table that are stored in little memory, to go back to.
///
/// Contracts see of them what they see of a table.
#[derive(Drop)]
pub struct CompactTable {
    rows: CompactRows,
}

impl Model for CompactTable {
    ghost use Rattle.std.specs.Prelude.{List};
    ghost use Rattle.stab_tableau.specs.inner.InverseRows.{InverseRows};
    ghost use Rattle.stab_tableau.specs.inner.Pairs.{paired_strings, IsPaired};

    ghost Value = { List InverseRows };

    ghost view = { λ t. paired_strings t.rows.rows };

    ghost invariant = { λ t. IsPaired t.rows };
}

impl Table {
    ghost use Rattle.std.specs.Prelude.{◌≡◌, IfOk, IfErr};
    ghost use Rattle.stab_io.specs.declared.refusal.Refusal.TheVariants.{OutOfMemory};

    /// The same rows, stored in little memory.
    pub fn compact(&self, alloc: Global) -> Result<CompactTable, Refusal>
        ensures ok { IfOk result (λ t. t ≡ self.now) }
        ensures err { IfErr result (λ r. r ≡ OutOfMemory) }
    {
        let rows = self.rows.compact(alloc)?;
        Ok(CompactTable { rows })
    }
}

impl CompactTable {
    ghost use Rattle.std.specs.Prelude.{◌≡◌, ◌<◌, ◌↔◌, IsTrue, IfOk, IfErr, length, slice_set};
    ghost use Rattle.stab_io.specs.declared.refusal.Refusal.TheVariants.{OutOfMemory};
    ghost use Rattle.stab_gates.specs.Letters.{◌⊕◌};
    ghost use Rattle.stab_pauli.specs.Paulis.{with_sign};
    ghost use Rattle.stab_tableau.specs.inner.Frames.{SameLetters, conjugated_row};
    ghost use Rattle.stab_tableau.specs.inner.InverseRows.{rows_at};
    ghost use Rattle.stab_tableau.specs.inner.Pairs.{row_string, put};

    /// The number of qubits.
    pub fn len(&self) -> usize
        ensures value { result ≡ length self.now }
    {
        self.rows.qubits()
    }

    /// The same rows again. It takes memory only for their signs.
    pub fn copy(&self, alloc: Global) -> Result<CompactTable, Refusal>
        ensures ok { IfOk result (λ t. t ≡ self.now) }
        ensures err { IfErr result (λ r. r ≡ OutOfMemory) }
    {
        let rows = self.rows.copy(alloc)?;
        Ok(CompactTable { rows })
    }

    /// Keeps the letters in the memory of other rows that are stored, if these have the same ones.
    pub fn share(&mut self, other: &CompactTable)
        ensures unchanged { self.new ≡ self.old }
    {
        self.rows.share(&other.rows);
    }

    /// The rows again, in memory of their own.
    pub fn table(&self, alloc: Global) -> Result<Table, Refusal>
        ensures ok { IfOk result (λ t. t ≡ self.now) }
        ensures err { IfErr result (λ r. r ≡ OutOfMemory) }
    {
        let rows = self.rows.rows(alloc)?;
        let supports = XSupports::new(alloc, rows.len())?;
        Ok(Table { rows, supports })
    }

    /// Makes a table these rows, in the memory that it has.
    pub fn write_into(&self, table: &mut Table)
        requires same_number { length table.old ≡ length self.now }
        ensures value { table.new ≡ self.now }
    {
        self.rows.write_into(&mut table.rows);
        table.supports.forget_all();
    }

    /// Whether both are the same rows.
    pub fn are(&self, table: &Table) -> bool
        ensures value { IsTrue result ↔ (self.now ≡ table.now) }
    {
        self.rows.are(&table.rows)
    }

    /// Whether both have rows with the same letters, whatever their signs.
    pub fn same_letters(&self, table: &Table) -> bool
        ensures value { IsTrue result ↔ SameLetters self.now table.now }
    {
        self.rows.same_letters(&table.rows)
    }

    /// Whether the signs of a row differ in both, whose letters are the same.
    #[inline(always)]
    pub fn signs_differ(&self, table: &Table, row: InverseRow, qubit: usize) -> bool
        requires in_range { qubit < length self.now }
        requires same_letters { SameLetters self.now table.now }
        ensures value { result ≡ (row_string row (rows_at self.now qubit)).negative ⊕ (row_string row (rows_at table.now qubit)).negative }
    {
        self.rows.signs_differ(&table.rows, row.position(qubit))
    }

    /// Flips the signs of those rows of a qubit that a letter on it anticommutes with.
    pub fn conjugate(&mut self, letter: Letter, qubit: usize)
        requires in_range { qubit < length self.old }
        ensures value { self.new ≡ slice_set self.old qubit (conjugated_row letter (rows_at self.old qubit)) }
    {
        self.negate_if(InverseRow::OfX, qubit, letter.anticommutes(Letter::X));
        self.negate_if(InverseRow::OfZ, qubit, letter.anticommutes(Letter::Z));
    }

    // Flips the sign of a row if the bit is 1.
    #[inline(always)]
    fn negate_if(&mut self, row: InverseRow, qubit: usize, bit: bool)
        requires in_range { qubit < length self.old }
        ensures value { self.new ≡ put row qubit (with_sign bit (row_string row (rows_at self.old qubit))) self.old }
    {
        self.rows.negate_if(row.position(qubit), bit);
    }
}
