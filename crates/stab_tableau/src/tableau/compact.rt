use super::Tableau;
use crate::group;
use crate::table::CompactTable;
use stab_io::Refusal;
use stab_pauli::{Letter, Pauli};
use std::alloc::Global;
use std::marker::Model;

/// A state that is stored in little memory, to go back to.
///
/// What contracts see of it is the value of the tableau that it was made of.
pub struct CompactTableau {
    table: CompactTable,
}

// Written out, so that a proof sees the drop of a state as one call, and not one for each of its parts.
impl Drop for CompactTableau {
    fn drop(self) {
        let CompactTableau { table: _ } = self;
    }
}

impl Model for CompactTableau {
    ghost use Rattle.std.specs.Prelude.{length};
    ghost use Rattle.stab_tableau.specs.Tableaus.{TableauState};
    ghost use Rattle.stab_tableau.specs.inner.InverseRows.{InverseRows, IsOver};
    ghost use Rattle.stab_tableau.specs.inner.Tables.{IsTableau};

    ghost Value = { TableauState };

    ghost view = { λ t. record { qubits = length t.table; rows = t.table } };

    ghost invariant = { λ t. (scratch : InverseRows) → IsOver (length t.table) scratch → IsTableau (length t.table) t.table scratch };
}

impl Tableau {
    ghost use Rattle.std.specs.Prelude.{◌≡◌, IfOk, IfErr};
    ghost use Rattle.stab_io.specs.declared.refusal.Refusal.TheVariants.{OutOfMemory};

    /// The same state, stored in little memory if most of its words are 0, as for codes.
    ///
    /// Refusal `OutOfMemory` alone.
    pub fn compact(&self, alloc: Global) -> Result<CompactTableau, Refusal>
        ensures ok { IfOk result (λ t. t ≡ self.now) }
        ensures err { IfErr result (λ r. r ≡ OutOfMemory) }
    {
        let table = self.table.compact(alloc)?;
        Ok(CompactTableau { table })
    }
}

impl CompactTableau {
    ghost use Rattle.std.specs.Prelude.{◌≡◌, ◌<◌, ◌↔◌, true, false, length, IsTrue, IfOk, IfErr};
    ghost use Rattle.stab_io.specs.declared.refusal.Refusal.TheVariants.{OutOfMemory};
    ghost use Rattle.stab_pauli.specs.Paulis.{single};
    ghost use Rattle.stab_tableau.specs.Tableaus.{stabilises};
    ghost use Rattle.stab_tableau.specs.Conjugations.{IsConjugated};
    ghost use Rattle.stab_tableau.specs.inner.Frames.{SameLetters};

    /// The number of qubits.
    pub fn len(&self) -> usize
        ensures value { result ≡ self.now.qubits }
    {
        self.table.len()
    }

    /// The same state again. It takes memory only for its signs.
    ///
    /// Refusal `OutOfMemory` alone.
    pub fn copy(&self, alloc: Global) -> Result<CompactTableau, Refusal>
        ensures ok { IfOk result (λ t. t ≡ self.now) }
        ensures err { IfErr result (λ r. r ≡ OutOfMemory) }
    {
        let table = self.table.copy(alloc)?;
        Ok(CompactTableau { table })
    }

    /// Keeps the letters of the rows in the memory of another copy, if its rows have the same letters, as the rows of a code
    /// have when its rounds come to the same state up to signs. What contracts see stays.
    pub fn share(&mut self, other: &CompactTableau)
        ensures unchanged { self.new ≡ self.old }
    {
        self.table.share(&other.table);
    }

    /// The same state as a tableau, in the memory of a spare one that has as many qubits, else in memory of its own.
    ///
    /// Refusal `OutOfMemory` alone.
    pub fn tableau(&self, alloc: Global, spare: Option<Tableau>) -> Result<Tableau, Refusal>
        ensures ok { IfOk result (λ t. t ≡ self.now) }
        ensures err { IfErr result (λ r. r ≡ OutOfMemory) }
    {
        if let Some(mut tableau) = spare {
            if tableau.table.len() == self.table.len() {
                self.table.write_into(&mut tableau.table);
                return Ok(tableau);
            }
        }
        let table = self.table.table(alloc)?;
        let preimage = Pauli::identity(alloc, table.len())?;
        let multiplier = Pauli::identity(alloc, table.len())?;
        Ok(Tableau {
            table,
            preimage,
            multiplier,
        })
    }

    /// Makes a tableau of as many qubits this state, in the memory that it has.
    pub fn write_into(&self, tableau: &mut Tableau)
        requires same_qubits { tableau.old.qubits ≡ self.now.qubits }
        ensures value { tableau.new ≡ self.now }
    {
        self.table.write_into(&mut tableau.table);
    }

    /// Applies a Pauli gate to a qubit of the stored state, in place: at most two signs are flipped. It takes no memory.
    ///
    /// A string stabilises the new state if and only if it stabilised the old one, with its sign flipped if it anticommutes with
    /// the letter.
    pub fn conjugate_letter(&mut self, letter: Letter, qubit: usize)
        requires in_range { qubit < self.old.qubits }
        ensures qubits { self.new.qubits ≡ self.old.qubits }
        ensures conjugated { IsConjugated self.old.qubits (single self.old.qubits qubit letter).letters (stabilises self.old) (stabilises self.new) }
    {
        self.table.conjugate(letter, qubit);
    }

    /// Whether the rows of a tableau differ from the stored ones only in their signs; if so, a string gets the letters by
    /// which the two states differ, and its sign does not matter; otherwise it stays as it was. It takes no memory.
    ///
    /// A string stabilises the tableau's state if and only if it stabilises the stored one, with its sign flipped if it
    /// anticommutes with these letters.
    pub fn frame_to(&self, tableau: &Tableau, frame: &mut Pauli) -> bool
        requires same_length { length frame.old.letters ≡ self.now.qubits }
        ensures length { length frame.new.letters ≡ length frame.old.letters }
        ensures same { (result ≡ true) ↔ SameLetters self.now.rows tableau.now.rows }
        ensures conjugated { result ≡ true → IsConjugated self.now.qubits frame.new.letters (stabilises self.now) (stabilises tableau.now) }
        ensures preserved { result ≡ false → frame.new ≡ frame.old }
    {
        if !self.table.same_letters(&tableau.table) {
            return false;
        }
        group::write_stored_frame(&self.table, &tableau.table, frame);
        true
    }

    /// Whether this is a copy of exactly that state.
    pub fn is_of(&self, tableau: &Tableau) -> bool
        ensures value { IsTrue result ↔ (self.now ≡ tableau.now) }
    {
        self.table.are(&tableau.table)
    }
}
