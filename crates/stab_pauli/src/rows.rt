mod chosen;
mod compact;

use super::packed::{flat, row};
use super::pauli::Pauli;
pub use compact::CompactRows;
use stab_gates::{Letter, Phase};
use stab_io::Refusal;
use std::alloc::Global;
use std::marker::Model;

/// Signed Pauli strings of one length, side by side in one allocation, with the powers of i that give their signs in
/// another.
///
/// Contracts see the number of qubits and the list of the strings. Only `new` and `copy` take memory.
pub struct PauliRows {
    qubits: usize,
    blocks: usize,
    words: Vec<u64>,
    // The power of i before the X bits and then the Z bits of each.
    powers: Vec<Phase>,
}

// Written out, so that a proof sees the drop of rows as one call, and not one for each of their parts.
impl Drop for PauliRows {
    fn drop(self) {
        let PauliRows {
            qubits: _,
            blocks: _,
            words: _,
            powers: _,
        } = self;
    }
}

impl Model for PauliRows {
    ghost use Rattle.stab_pauli.specs.Rows.{Rows};
    ghost use Rattle.stab_pauli.specs.inner.Blocks.{table, IsTable};

    ghost Value = { Rows };

    ghost view = { λ p. table p.qubits p.blocks p.words.items p.powers.items };

    ghost invariant = { λ p. IsTable p.qubits p.blocks p.words.items p.powers.items };
}

impl PauliRows {
    ghost use Rattle.std.specs.Prelude.{◌≡◌, ◌≢◌, ◌<◌, ◌≤◌, ◌^◌, ◌↔◌, true, false, length, take, replicate, slice_index_or, slice_set, IfOk, IfErr, IfSome, IfNone, IsTrue};
    ghost use Rattle.std.specs.List.{list_any};
    ghost use Rattle.stab_pauli.specs.Paulis.{identity, with_sign, anticommute, product};
    ghost use Rattle.stab_pauli.specs.Phaseds.{phased, times_phase, phased_product};
    ghost use Rattle.stab_gates.specs.XParts.{has_x};
    ghost use Rattle.stab_pauli.specs.Rows.{row_at, with_row, with_letter, swapped_rows, product_times_i, unsigned_rows};
    ghost use Rattle.stab_gates.specs.declared.letter.Letter.TheVariants.{I};
    ghost use Rattle.stab_gates.specs.declared.phase.Phase.TheVariants.{Quarter};
    ghost use Rattle.stab_io.specs.declared.refusal.Refusal.TheVariants.{OutOfMemory};

    /// This many strings of letters I with the sign +.
    ///
    /// Refusal `OutOfMemory` alone.
    pub fn new(alloc: Global, rows: usize, qubits: usize) -> Result<PauliRows, Refusal>
        requires few { rows ≤ 2 ^ 24 }
        requires short { qubits ≤ 2 ^ 24 }
        ensures ok { IfOk result (λ r. r ≡ record { qubits = qubits; rows = replicate rows (identity qubits) }) }
        ensures err { IfErr result (λ r. r ≡ OutOfMemory) }
    {
        let blocks = row::blocks_of(qubits);
        let words = vec![in alloc; 0; 8 * blocks * rows]?;
        let powers = vec![in alloc; Phase::Zero; rows]?;
        Ok(PauliRows {
            qubits,
            blocks,
            words,
            powers,
        })
    }

    /// The same strings in memory of their own.
    ///
    /// Refusal `OutOfMemory` alone.
    pub fn copy(&self, alloc: Global) -> Result<PauliRows, Refusal>
        ensures ok { IfOk result (λ r. r ≡ self.now) }
        ensures err { IfErr result (λ r. r ≡ OutOfMemory) }
    {
        Ok(PauliRows {
            qubits: self.qubits,
            blocks: self.blocks,
            words: Vec::from_slice(alloc, self.words.as_slice())?,
            powers: Vec::from_slice(alloc, self.powers.as_slice())?,
        })
    }

    /// The number of strings.
    pub fn len(&self) -> usize
        ensures value { result ≡ length self.now.rows }
    {
        self.powers.len()
    }

    /// The number of qubits.
    pub fn qubits(&self) -> usize
        ensures value { result ≡ self.now.qubits }
    {
        self.qubits
    }

    /// The letter of row a at a qubit.
    #[inline(always)]
    pub fn letter(&self, a: usize, qubit: usize) -> Letter
        requires in_range { a < length self.now.rows }
        requires qubit_in_range { qubit < self.now.qubits }
        ensures value { result ≡ slice_index_or (row_at self.now a).letters qubit I }
    {
        let words = flat::row_of(self.words.as_slice(), self.powers.len(), self.blocks, a);
        row::letter(self.blocks, words, qubit)
    }

    /// Whether the letter of row a at a qubit is X or Y: one bit of one word.
    #[inline(always)]
    pub fn has_x(&self, a: usize, qubit: usize) -> bool
        requires in_range { a < length self.now.rows }
        requires qubit_in_range { qubit < self.now.qubits }
        ensures value { result ≡ has_x (slice_index_or (row_at self.now a).letters qubit I) }
    {
        let words = flat::row_of(self.words.as_slice(), self.powers.len(), self.blocks, a);
        row::has_x_at(self.blocks, words, qubit)
    }

    /// Whether the sign of row a is -.
    #[inline(always)]
    pub fn is_negative(&self, a: usize) -> bool
        requires in_range { a < length self.now.rows }
        ensures value { result ≡ (row_at self.now a).negative }
    {
        let words = flat::row_of(self.words.as_slice(), self.powers.len(), self.blocks, a);
        row::is_negative(self.blocks, words, self.powers[a])
    }

    /// Whether the sign of row a is -, if no letter of it is X or Y: then none has to be looked at.
    #[inline(always)]
    pub fn fixed_sign(&self, a: usize) -> bool
        requires in_range { a < length self.now.rows }
        requires fixed { list_any has_x (row_at self.now a).letters ≡ false }
        ensures value { result ≡ (row_at self.now a).negative }
    {
        self.powers[a].sign()
    }

    /// The first qubit whose letter in row a is X or Y.
    #[inline(always)]
    pub fn first_x(&self, a: usize) -> Option<usize>
        requires in_range { a < length self.now.rows }
        ensures none { IfNone result (list_any has_x (row_at self.now a).letters ≡ false) }
        ensures in_range { IfSome result (λ k. k < self.now.qubits) }
        ensures has_x { IfSome result (λ k. has_x (slice_index_or (row_at self.now a).letters k I) ≡ true) }
        ensures first { IfSome result (λ k. list_any has_x (take k (row_at self.now a).letters) ≡ false) }
    {
        let words = flat::row_of(self.words.as_slice(), self.powers.len(), self.blocks, a);
        row::first_x(self.blocks, words)
    }

    /// Puts a letter at a qubit of row a, and keeps the sign and all other letters.
    #[inline(always)]
    pub fn set(&mut self, a: usize, qubit: usize, letter: Letter)
        requires in_range { a < length self.old.rows }
        requires qubit_in_range { qubit < self.old.qubits }
        ensures value { self.new ≡ with_row self.old a (with_letter qubit letter (row_at self.old a)) }
    {
        let count = self.powers.len();
        let old = self.letter(a, qubit);
        flat::set(
            self.words.as_mut_slice(),
            count,
            self.blocks,
            a,
            qubit,
            letter,
        );
        self.powers[a] = row::power_with(self.powers[a], old, letter);
    }

    /// Flips the sign of row a if the bit is 1.
    #[inline(always)]
    pub fn negate_if(&mut self, a: usize, bit: bool)
        requires in_range { a < length self.old.rows }
        ensures value { self.new ≡ with_row self.old a (with_sign bit (row_at self.old a)) }
    {
        self.powers[a] = self.powers[a].times(Phase::of_sign(bit));
    }

    /// Makes the letters of row a I and its sign +.
    #[inline(always)]
    pub fn clear(&mut self, a: usize)
        requires in_range { a < length self.old.rows }
        ensures value { self.new ≡ with_row self.old a (identity self.old.qubits) }
    {
        let count = self.powers.len();
        flat::clear(self.words.as_mut_slice(), count, self.blocks, a);
        self.powers[a] = Phase::Zero;
    }

    /// Exchanges row a and row b.
    #[inline(always)]
    pub fn swap(&mut self, a: usize, b: usize)
        requires a_in_range { a < length self.old.rows }
        requires b_in_range { b < length self.old.rows }
        requires distinct { a ≢ b }
        ensures value { self.new ≡ swapped_rows self.old a b }
    {
        let count = self.powers.len();
        flat::swap(self.words.as_mut_slice(), count, self.blocks, a, b);
        self.powers.swap(a, b);
    }

    /// Makes row a the product of itself and row b, with which it commutes, in this order.
    #[inline(always)]
    pub fn multiply(&mut self, a: usize, b: usize)
        requires a_in_range { a < length self.old.rows }
        requires b_in_range { b < length self.old.rows }
        requires distinct { a ≢ b }
        requires commuting { anticommute (row_at self.old a) (row_at self.old b) ≡ false }
        ensures value { self.new ≡ with_row self.old a (product (row_at self.old a) (row_at self.old b)) }
    {
        let count = self.powers.len();
        let meet = flat::multiply(self.words.as_mut_slice(), count, self.blocks, a, b);
        self.powers[a] = row::product_power(self.powers[a], self.powers[b], meet);
    }

    /// Makes row a i times the product of itself and row b, with which it anticommutes, in this order, which has a sign
    /// again.
    #[inline(always)]
    pub fn multiply_times_i(&mut self, a: usize, b: usize)
        requires a_in_range { a < length self.old.rows }
        requires b_in_range { b < length self.old.rows }
        requires distinct { a ≢ b }
        requires anticommuting { anticommute (row_at self.old a) (row_at self.old b) ≡ true }
        ensures value { self.new ≡ with_row self.old a (product_times_i (row_at self.old a) (row_at self.old b)) }
        ensures phased { phased (row_at self.new a) ≡ times_phase Quarter (phased_product (phased (row_at self.old a)) (phased (row_at self.old b))) }
    {
        let count = self.powers.len();
        let meet = flat::multiply(self.words.as_mut_slice(), count, self.blocks, a, b);
        self.powers[a] = row::product_power(self.powers[a], self.powers[b], meet).times_i();
    }

    /// Makes row a i times the product of itself and another string, with which it anticommutes, in this order, which
    /// has a sign again.
    #[inline(always)]
    pub fn multiply_by_times_i(&mut self, a: usize, other: &Pauli)
        requires in_range { a < length self.old.rows }
        requires same_length { length other.now.letters ≡ self.old.qubits }
        requires anticommuting { anticommute (row_at self.old a) other.now ≡ true }
        ensures value { self.new ≡ with_row self.old a (product_times_i (row_at self.old a) other.now) }
        ensures phased { phased (row_at self.new a) ≡ times_phase Quarter (phased_product (phased (row_at self.old a)) (phased other.now)) }
    {
        let count = self.powers.len();
        let words = self.words.as_mut_slice();
        let meet = flat::multiply_by(words, count, self.blocks, a, other.words.as_slice());
        self.powers[a] = row::product_power(self.powers[a], other.power, meet).times_i();
    }

    /// Makes a string the product of itself and row a, with which it commutes, in this order.
    #[inline(always)]
    pub fn multiply_into(&self, a: usize, out: &mut Pauli)
        requires in_range { a < length self.now.rows }
        requires same_length { length out.old.letters ≡ self.now.qubits }
        requires commuting { anticommute out.old (row_at self.now a) ≡ false }
        ensures value { out.new ≡ product out.old (row_at self.now a) }
    {
        let words = flat::row_of(self.words.as_slice(), self.powers.len(), self.blocks, a);
        let meet = row::multiply(self.blocks, out.words.as_mut_slice(), words);
        out.power = row::product_power(out.power, self.powers[a], meet);
    }

    /// Makes a string i times the product of itself and row a, with which it anticommutes, in this order, which has a
    /// sign again.
    #[inline(always)]
    pub fn multiply_into_times_i(&self, a: usize, out: &mut Pauli)
        requires in_range { a < length self.now.rows }
        requires same_length { length out.old.letters ≡ self.now.qubits }
        requires anticommuting { anticommute out.old (row_at self.now a) ≡ true }
        ensures value { out.new ≡ product_times_i out.old (row_at self.now a) }
        ensures phased { phased out.new ≡ times_phase Quarter (phased_product (phased out.old) (phased (row_at self.now a))) }
    {
        let words = flat::row_of(self.words.as_slice(), self.powers.len(), self.blocks, a);
        let meet = row::multiply(self.blocks, out.words.as_mut_slice(), words);
        out.power = row::product_power(out.power, self.powers[a], meet).times_i();
    }

    /// Makes a string what row a is.
    #[inline(always)]
    pub fn copy_row(&self, a: usize, out: &mut Pauli)
        requires in_range { a < length self.now.rows }
        requires same_length { length out.old.letters ≡ self.now.qubits }
        ensures value { out.new ≡ row_at self.now a }
    {
        let words = flat::row_of(self.words.as_slice(), self.powers.len(), self.blocks, a);
        out.words.as_mut_slice().copy_from_slice(words);
        out.power = self.powers[a];
    }

    /// Makes row a another string.
    #[inline(always)]
    pub fn set_row(&mut self, a: usize, other: &Pauli)
        requires in_range { a < length self.old.rows }
        requires same_length { length other.now.letters ≡ self.old.qubits }
        ensures value { self.new ≡ with_row self.old a other.now }
    {
        let count = self.powers.len();
        let words = self.words.as_mut_slice();
        flat::copy_from(words, count, self.blocks, a, other.words.as_slice());
        self.powers[a] = other.power;
    }

    /// Whether both have the same strings.
    pub fn same(&self, other: &PauliRows) -> bool
        ensures value { IsTrue result ↔ (self.now ≡ other.now) }
    {
        let same = self.powers.as_slice() == other.powers.as_slice();
        if !same {
            return false;
        }
        self.same_letters(other)
    }

    /// Whether both have as many strings over as many qubits, with the same letters, whatever their signs.
    pub fn same_letters(&self, other: &PauliRows) -> bool
        ensures value { IsTrue result ↔ (self.now.qubits ≡ other.now.qubits) × (unsigned_rows self.now ≡ unsigned_rows other.now) }
    {
        if self.qubits != other.qubits {
            return false;
        }
        if self.powers.len() != other.powers.len() {
            return false;
        }
        let words = self.words.as_slice();
        let others = other.words.as_slice();
        flat::same(words, others)
    }
}
