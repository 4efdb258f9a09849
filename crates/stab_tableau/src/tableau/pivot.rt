use super::Tableau;
use crate::collapse::{Collapse, measure_with_pivot};
use crate::observable::Observable;
use crate::{inverse_rows, rows};
use stab_pauli::{Letter, Pauli};

impl Tableau {
    ghost use Rattle.std.specs.Prelude.{◌≡◌, ℕ, ◌<◌, true, false, length};
    ghost use Rattle.stab_pauli.specs.Paulis.{Signed, single};
    ghost use Rattle.stab_tableau.specs.Tableaus.{stabilises};
    ghost use Rattle.stab_tableau.specs.Rules.{outcome_by, is_random_by, projected_by};
    ghost use Rattle.stab_tableau.specs.Pivots.{IsPivot};

    /// `collapse`, which also, if the outcome is random, makes another string the letters of a stabiliser of the state before that
    /// anticommutes with what is measured, and so exchanges the outcomes. Its sign then does not matter; if the outcome
    /// is fixed the string stays as it was.
    pub fn collapse_with_pivot(&mut self, pauli: &Pauli, coin: bool, pivot: &mut Pauli) -> Collapse
        requires same_length { length pauli.now.letters ≡ self.old.qubits }
        requires pivot_length { length pivot.old.letters ≡ self.old.qubits }
        ensures qubits { self.new.qubits ≡ self.old.qubits }
        ensures outcome { result.outcome ≡ outcome_by (stabilises self.old) pauli.now coin }
        ensures free { result.free ≡ is_random_by (stabilises self.old) pauli.now }
        ensures members { (p : Signed) → length p.letters ≡ self.old.qubits → stabilises self.new p ≡ projected_by (stabilises self.old) pauli.now result.outcome p }
        ensures unchanged { result.free ≡ false → self.new ≡ self.old }
        ensures length { length pivot.new.letters ≡ length pivot.old.letters }
        ensures pivot { result.free ≡ true → IsPivot self.old.qubits (stabilises self.old) pauli.now pivot.new.letters }
        ensures preserved { result.free ≡ false → pivot.new ≡ pivot.old }
    {
        rows::write_preimage(&self.table, pauli, &mut self.preimage);
        let observable = &Observable::String(pauli);
        measure_with_pivot(
            &mut self.table,
            &mut self.preimage,
            &mut self.multiplier,
            observable,
            coin,
            pivot,
        )
    }

    /// `collapse_with_pivot` of one letter on a qubit: of the string with that letter alone, which isn't built.
    pub fn collapse_letter_with_pivot(
        &mut self,
        letter: Letter,
        qubit: usize,
        coin: bool,
        pivot: &mut Pauli,
    ) -> Collapse
        requires in_range { qubit < self.old.qubits }
        requires pivot_length { length pivot.old.letters ≡ self.old.qubits }
        ensures qubits { self.new.qubits ≡ self.old.qubits }
        ensures outcome { result.outcome ≡ outcome_by (stabilises self.old) (single self.old.qubits qubit letter) coin }
        ensures free { result.free ≡ is_random_by (stabilises self.old) (single self.old.qubits qubit letter) }
        ensures members { (p : Signed) → length p.letters ≡ self.old.qubits → stabilises self.new p ≡ projected_by (stabilises self.old) (single self.old.qubits qubit letter) result.outcome p }
        ensures unchanged { result.free ≡ false → self.new ≡ self.old }
        ensures length { length pivot.new.letters ≡ length pivot.old.letters }
        ensures pivot { result.free ≡ true → IsPivot self.old.qubits (stabilises self.old) (single self.old.qubits qubit letter) pivot.new.letters }
        ensures preserved { result.free ≡ false → pivot.new ≡ pivot.old }
    {
        inverse_rows::copy_into(&self.table, qubit, letter, &mut self.preimage);
        let observable = &Observable::Single(letter, qubit);
        measure_with_pivot(
            &mut self.table,
            &mut self.preimage,
            &mut self.multiplier,
            observable,
            coin,
            pivot,
        )
    }
}
