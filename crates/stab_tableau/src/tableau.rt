mod compact;
mod pivot;

ghost use Rattle.std.specs.Prelude.{◌≡◌, ◌<◌, length, IfOk, IfErr};
ghost use Rattle.stab_pauli.specs.Rows.{row_at};
ghost use Rattle.stab_io.specs.declared.refusal.Refusal.TheVariants.{OutOfMemory};

use super::collapse::{Collapse, fixed_sign, measure};
use super::elimination::eliminate;
use super::observable::Observable;
use super::table::{InverseRow, Table};
use super::{group, inverse_rows, rows};
pub use compact::CompactTableau;
use stab_gates::{Gate, PairGate};
use stab_io::Refusal;
use stab_pauli::{Letter, Pauli, PauliRows};
use std::alloc::Global;
use std::marker::Model;

/// A stabiliser state on some qubits, at most 1,024.
///
/// What contracts see of it is a value that holds the preimages of X and Z on each qubit. What clauses promise of that
/// value is the number of qubits (`qubits`), which signed Pauli strings stabilise the state (`stabilises`), and its
/// stabilisers and destabilisers by number. If a clause calls a tableau unchanged, or a copy equal, the whole values
/// are equal, and so all of this is.
pub struct Tableau {
    table: Table,
    // Strings of the same length, to work with: so no gate and no measurement takes memory.
    preimage: Pauli,
    multiplier: Pauli,
}

// Written out, so that a proof sees the drop of a state as one call, and not one for each of its parts.
impl Drop for Tableau {
    fn drop(self) {
        let Tableau {
            table: _,
            preimage: _,
            multiplier: _,
        } = self;
    }
}

impl Model for Tableau {
    ghost use Rattle.std.specs.Prelude.{length};
    ghost use Rattle.stab_tableau.specs.Tableaus.{TableauState};
    ghost use Rattle.stab_tableau.specs.inner.Tables.{IsTableau};

    ghost Value = { TableauState };

    ghost view = { λ t. record { qubits = length t.table; rows = t.table } };

    ghost invariant = { λ t. IsTableau (length t.table) t.table (record { x = t.preimage; z = t.multiplier }) };
}

impl Tableau {
    ghost use Rattle.std.specs.Prelude.{◌≡◌, ◌≢◌, ℕ, ◌<◌, ◌≤◌, ◌↔◌, Bool, true, false, [], length, IsTrue, IfOk, IfErr, IfSome};
    ghost use Rattle.stab_pauli.specs.Paulis.{Signed, single, with_sign};
    ghost use Rattle.stab_io.specs.declared.refusal.Refusal.TheVariants.{OutOfMemory};
    ghost use Rattle.stab_gates.specs.Limits.{most_qubits};
    ghost use Rattle.stab_tableau.specs.Gates.{back, back_pair};
    ghost use Rattle.stab_tableau.specs.Traces.{member};
    ghost use Rattle.stab_tableau.specs.Tableaus.{stabilises};
    ghost use Rattle.stab_tableau.specs.Rules.{outcome_by, is_random_by, projected_by};
    ghost use Rattle.stab_tableau.specs.Groups.{IsStabiliserGroup, SameGroup};
    ghost use Rattle.stab_tableau.specs.Reduced.{AreReduced};
    ghost use Rattle.stab_tableau.specs.inner.Tables.{IsTableau};
    ghost use Rattle.stab_tableau.specs.Columns.{stabiliser_of, destabiliser_of, AreDual, CommutesWithAll, IsGenerated};

    /// The state of n qubits, all zero.
    ///
    /// Refusal `OutOfMemory` alone.
    pub fn new(alloc: Global, n: usize) -> Result<Tableau, Refusal>
        requires in_range { n ≤ most_qubits }
        ensures qubits { IfOk result (λ t. t.qubits ≡ n) }
        ensures members { IfOk result (λ t. (p : Signed) → length p.letters ≡ n → stabilises t p ≡ member [] p) }
        ensures err { IfErr result (λ r. r ≡ OutOfMemory) }
    {
        let mut table = Table::new(alloc, n)?;
        rows::reset_rows(&mut table);
        let preimage = Pauli::identity(alloc, n)?;
        let multiplier = Pauli::identity(alloc, n)?;
        Ok(Tableau {
            table,
            preimage,
            multiplier,
        })
    }

    /// The same state in memory of its own.
    ///
    /// Refusal `OutOfMemory` alone.
    pub fn copy(&self, alloc: Global) -> Result<Tableau, Refusal>
        ensures ok { IfOk result (λ t. t ≡ self.now) }
        ensures err { IfErr result (λ r. r ≡ OutOfMemory) }
    {
        let table = self.table.copy(alloc)?;
        let preimage = self.preimage.copy(alloc)?;
        let multiplier = self.multiplier.copy(alloc)?;
        Ok(Tableau {
            table,
            preimage,
            multiplier,
        })
    }

    /// Makes the state all zeros again, in the memory that the tableau has.
    pub fn reset(&mut self)
        ensures qubits { self.new.qubits ≡ self.old.qubits }
        ensures members { (p : Signed) → length p.letters ≡ self.old.qubits → stabilises self.new p ≡ member [] p }
    {
        rows::reset_rows(&mut self.table);
    }

    /// The number of qubits.
    pub fn len(&self) -> usize
        ensures value { result ≡ self.now.qubits }
    {
        self.table.len()
    }

    /// Applies a gate to a qubit.
    ///
    /// A string stabilises the new state if and only if the string that the gate makes into it stabilised the old one.
    pub fn apply(&mut self, gate: Gate, qubit: usize)
        requires in_range { qubit < self.old.qubits }
        ensures qubits { self.new.qubits ≡ self.old.qubits }
        ensures members { (p : Signed) → length p.letters ≡ self.old.qubits → stabilises self.new p ≡ stabilises self.old (back gate qubit p) }
    {
        inverse_rows::apply(&mut self.table, gate, qubit);
    }

    /// Applies a gate to two qubits; of a controlled gate the first is the control.
    ///
    /// A string stabilises the new state if and only if the string that the gate makes into it stabilised the old one.
    pub fn apply_pair(&mut self, gate: PairGate, first: usize, second: usize)
        requires first_in_range { first < self.old.qubits }
        requires second_in_range { second < self.old.qubits }
        requires distinct { second ≢ first }
        ensures qubits { self.new.qubits ≡ self.old.qubits }
        ensures members { (p : Signed) → length p.letters ≡ self.old.qubits → stabilises self.new p ≡ stabilises self.old (back_pair gate first second p) }
    {
        inverse_rows::apply_pair(&mut self.table, gate, first, second);
    }

    /// The sign with which a string stabilises the state, true for -, or `None` if neither sign does.
    ///
    /// The string's own sign counts: the answer for -P is the other one than that for P.
    pub fn sign_of(&mut self, pauli: &Pauli) -> Option<bool>
        requires same_length { length pauli.now.letters ≡ self.old.qubits }
        ensures unchanged { self.new ≡ self.old }
        ensures some { (b : Bool) → (result ≡ Some b) ↔ (stabilises self.old (with_sign b pauli.now) ≡ true) }
        ensures none { (result ≡ None) ↔ (is_random_by (stabilises self.old) pauli.now ≡ true) }
    {
        rows::write_preimage(&self.table, pauli, &mut self.preimage);
        match self.preimage.first_x() {
            Some(_) => None,
            None => Some(self.preimage.fixed_sign()),
        }
    }

    /// Measures a string, with the outcome of the coin if neither of its signs stabilises the state.
    ///
    /// The outcome b projects on (-1)^b times the string.
    pub fn collapse(&mut self, pauli: &Pauli, coin: bool) -> Collapse
        requires same_length { length pauli.now.letters ≡ self.old.qubits }
        ensures qubits { self.new.qubits ≡ self.old.qubits }
        ensures outcome { result.outcome ≡ outcome_by (stabilises self.old) pauli.now coin }
        ensures free { result.free ≡ is_random_by (stabilises self.old) pauli.now }
        ensures members { (p : Signed) → length p.letters ≡ self.old.qubits → stabilises self.new p ≡ projected_by (stabilises self.old) pauli.now result.outcome p }
        ensures unchanged { result.free ≡ false → self.new ≡ self.old }
    {
        rows::write_preimage(&self.table, pauli, &mut self.preimage);
        let observable = &Observable::String(pauli);
        measure(
            &mut self.table,
            &mut self.preimage,
            &mut self.multiplier,
            observable,
            coin,
        )
    }

    /// Measures one letter on a qubit: `collapse` of the string with that letter alone, which isn't built.
    pub fn collapse_letter(&mut self, letter: Letter, qubit: usize, coin: bool) -> Collapse
        requires in_range { qubit < self.old.qubits }
        ensures qubits { self.new.qubits ≡ self.old.qubits }
        ensures outcome { result.outcome ≡ outcome_by (stabilises self.old) (single self.old.qubits qubit letter) coin }
        ensures free { result.free ≡ is_random_by (stabilises self.old) (single self.old.qubits qubit letter) }
        ensures members { (p : Signed) → length p.letters ≡ self.old.qubits → stabilises self.new p ≡ projected_by (stabilises self.old) (single self.old.qubits qubit letter) result.outcome p }
        ensures unchanged { result.free ≡ false → self.new ≡ self.old }
    {
        inverse_rows::copy_into(&self.table, qubit, letter, &mut self.preimage);
        let observable = &Observable::Single(letter, qubit);
        measure(
            &mut self.table,
            &mut self.preimage,
            &mut self.multiplier,
            observable,
            coin,
        )
    }

    /// The outcome of a measurement of one letter on a qubit if it is fixed, or `None` if a coin would decide.
    ///
    /// A measurement with a fixed outcome leaves the state as it is, so after `Some` there is nothing to collapse.
    pub fn fixed_letter(&mut self, letter: Letter, qubit: usize) -> Option<bool>
        requires in_range { qubit < self.old.qubits }
        ensures unchanged { self.new ≡ self.old }
        ensures none { (result ≡ None) ↔ (is_random_by (stabilises self.old) (single self.old.qubits qubit letter) ≡ true) }
        ensures outcome { IfSome result (λ b. (coin : Bool) → outcome_by (stabilises self.old) (single self.old.qubits qubit letter) coin ≡ b) }
        ensures members { IfSome result (λ b. (p : Signed) → length p.letters ≡ self.old.qubits → stabilises self.old p ≡ projected_by (stabilises self.old) (single self.old.qubits qubit letter) b p) }
    {
        match letter {
            Letter::X => self.table.fixed_sign(InverseRow::OfX, qubit),
            Letter::Z => self.table.fixed_sign(InverseRow::OfZ, qubit),
            Letter::I | Letter::Y => {
                inverse_rows::copy_into(&self.table, qubit, letter, &mut self.preimage);
                fixed_sign(&self.preimage)
            }
        }
    }

    /// Stabiliser k of the n stabilisers that are in the columns of the tableau, k below n.
    ///
    /// They commute and are independent, so the strings that stabilise the state are their products. Refusal
    /// `OutOfMemory` alone.
    pub fn stabiliser(&mut self, alloc: Global, k: usize) -> Result<Pauli, Refusal>
        requires in_range { k < self.old.qubits }
        ensures unchanged { self.new ≡ self.old }
        ensures value { IfOk result (λ p. p ≡ stabiliser_of self.old k) }
        ensures length { IfOk result (λ p. length p.letters ≡ self.old.qubits) }
        ensures member { IfOk result (λ p. stabilises self.old p ≡ true) }
        ensures err { IfErr result (λ r. r ≡ OutOfMemory) }
    {
        let mut stabiliser = Pauli::identity(alloc, self.len())?;
        rows::write_stabiliser_letters(&mut self.table, k, &mut stabiliser);
        rows::write_preimage(&self.table, &stabiliser, &mut self.preimage);
        stabiliser.negate_if(self.preimage.is_negative());
        Ok(stabiliser)
    }

    /// Destabiliser k, k below n, which anticommutes with stabiliser k and with no other; its sign says nothing and is +.
    ///
    /// Refusal `OutOfMemory` alone.
    pub fn destabiliser(&self, alloc: Global, k: usize) -> Result<Pauli, Refusal>
        requires in_range { k < self.now.qubits }
        ensures value { IfOk result (λ p. p ≡ destabiliser_of self.now k) }
        ensures length { IfOk result (λ p. length p.letters ≡ self.now.qubits) }
        ensures err { IfErr result (λ r. r ≡ OutOfMemory) }
    {
        let mut destabiliser = Pauli::identity(alloc, self.len())?;
        rows::write_column(&self.table, Letter::X, k, &mut destabiliser);
        Ok(destabiliser)
    }

    /// A law, and no work: the strings that stabilise the state are a group, whose members commute, and of no string
    /// both signs.
    pub fn stabilises_a_group(&self)
        ensures law { IsStabiliserGroup self.now.qubits (stabilises self.now) }
    {
        let _ = &self.table;
    }

    /// A law, and no work: stabilisers commute, destabilisers commute, and a stabiliser and a destabiliser anticommute
    /// if they have the same number.
    pub fn stabilisers_are_dual(&self)
        ensures law { (j k : ℕ) → j < self.now.qubits → k < self.now.qubits → AreDual self.now j k }
    {
        let _ = &self.table;
    }

    /// A law, and no work: a string that commutes with every string that stabilises the state is, up to sign, the
    /// product of the stabilisers whose destabilisers anticommute with it, and that product stabilises the state.
    pub fn stabilisers_generate(&self)
        ensures law { (p : Signed) → length p.letters ≡ self.now.qubits → CommutesWithAll self.now p → IsGenerated self.now p }
    {
        let _ = &self.table;
    }

    /// Whether two tableaus are equal, row by row. States that differ in this way may still be stabilised by the same strings.
    pub fn same(&self, other: &Tableau) -> bool
        ensures value { IsTrue result ↔ (self.now ≡ other.now) }
    {
        self.table.same(&other.table)
    }

    /// Whether two states on as many qubits are stabilised by the same signed strings; it takes no memory.
    ///
    /// Cheapest first: equal rows; rows that differ only in their signs; else each stabiliser of this state, up to the
    /// first that does not stabilise the other.
    pub fn same_group(&mut self, other: &mut Tableau) -> bool
        requires same_length { other.old.qubits ≡ self.old.qubits }
        ensures unchanged { self.new ≡ self.old }
        ensures other_unchanged { other.new ≡ other.old }
        ensures value { (result ≡ true) ↔ SameGroup self.old.qubits (stabilises self.old) (stabilises other.old) }
    {
        if self.table.same(&other.table) {
            return true;
        }
        if self.table.same_letters(&other.table) {
            return group::same_by_signs(
                &self.table,
                &other.table,
                &mut self.preimage,
                &mut self.multiplier,
            );
        }
        other.has_stabilisers(&mut self.table, &mut self.preimage, &mut self.multiplier)
    }

    // Whether each stabiliser of a table stabilises this state: then both have one group, since any other string of the
    // one commutes with all of them and so is, up to sign, their product.
    fn has_stabilisers(
        &mut self,
        table: &mut Table,
        preimage: &mut Pauli,
        stabiliser: &mut Pauli,
    ) -> bool
        requires tableau { IsTableau (length table.old) table.old (record { x = preimage.old; z = stabiliser.old }) }
        requires same_length { self.old.qubits ≡ length table.old }
        ensures unchanged { self.new ≡ self.old }
        ensures same_table { table.new ≡ table.old }
        ensures tableau { IsTableau (length table.old) table.old (record { x = preimage.new; z = stabiliser.new }) }
        ensures value { (result ≡ true) ↔ SameGroup (length table.old) (stabilises (record { qubits = length table.old; rows = table.old })) (stabilises self.old) }
    {
        self.stabilises_a_group();
        for k in 0..table.len() {
            group::write_stabiliser(table, k, preimage, stabiliser);
            match self.sign_of(stabiliser) {
                None => return false,
                Some(negative) => {
                    if negative {
                        return false;
                    }
                }
            }
        }
        true
    }

    /// The reduced rows of the strings that stabilise the state, n in number: by ascending position of the first 1 of some
    /// of these strings, bits in the order x_0 .. x_(n-1), z_0 .. z_(n-1), the one with its first 1 there and 0 at every
    /// other such position.
    ///
    /// States of one group have the same reduced rows, and only they. Refusal `OutOfMemory` alone.
    pub fn reduced_rows(&mut self, alloc: Global) -> Result<Vec<Pauli>, Refusal>
        ensures unchanged { self.new ≡ self.old }
        ensures count { IfOk result (λ rows. length rows.items ≡ self.old.qubits) }
        ensures reduced { IfOk result (λ rows. AreReduced self.old.qubits (stabilises self.old) rows.items) }
        ensures err { IfErr result (λ r. r ≡ OutOfMemory) }
    {
        self.stabilises_a_group();
        let table = &mut self.table;
        let n = table.len();
        let mut rows = PauliRows::new(alloc, n, n)?;
        group::write_stabilisers(table, &mut self.preimage, &mut self.multiplier, &mut rows);
        eliminate(&mut rows);
        strings_of(alloc, &rows)
    }
}

// A row's string, in memory of its own.
fn string_of(alloc: Global, rows: &PauliRows, row: usize) -> Result<Pauli, Refusal>
    requires in_range { row < length rows.now.rows }
    ensures ok { IfOk result (λ string. string ≡ row_at rows.now row) }
    ensures err { IfErr result (λ r. r ≡ OutOfMemory) }
{
    let mut string = Pauli::identity(alloc, rows.qubits())?;
    rows.copy_row(row, &mut string);
    Ok(string)
}

// The strings of rows, each in memory of its own.
fn strings_of(alloc: Global, rows: &PauliRows) -> Result<Vec<Pauli>, Refusal>
    ensures ok { IfOk result (λ strings. strings.items ≡ rows.now.rows) }
    ensures err { IfErr result (λ r. r ≡ OutOfMemory) }
{
    let mut strings = Vec::with_capacity(alloc, rows.len())?;
    for row in 0..rows.len() {
        strings.push(string_of(alloc, rows, row)?)?;
    }
    Ok(strings)
}
