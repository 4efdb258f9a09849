ghost use Rattle.std.specs.Prelude.{◌≡◌, ◌*◌, ◌/◌, length, IfOk};
ghost use Rattle.stab_pauli.specs.inner.Sparse.{IsSparse};

use super::PauliRows;
use crate::packed::sparse::{SparseWords, are_short};
use stab_gates::Phase;
use stab_io::Refusal;
use std::alloc::{AllocError, Global};
use std::marker::Model;
use std::rc::Rc;

/// Signed Pauli strings of one length that are stored in little memory, to go back to: words that are 0 take none.
///
/// Contracts see of them what they see of `PauliRows`.
pub struct CompactRows {
    qubits: usize,
    blocks: usize,
    // How many words the rows have.
    size: usize,
    // Copies share them: a copy may only change its signs.
    words: Rc<SparseWords>,
    powers: Vec<Phase>,
}

// Written out, so that a proof sees the drop of rows as one call, and not one for each of their parts.
impl Drop for CompactRows {
    fn drop(self) {
        let CompactRows {
            qubits: _,
            blocks: _,
            size: _,
            words: _,
            powers: _,
        } = self;
    }
}

impl Model for CompactRows {
    ghost use Rattle.stab_pauli.specs.Rows.{Rows};
    ghost use Rattle.stab_pauli.specs.inner.Blocks.{table};
    ghost use Rattle.stab_pauli.specs.inner.Sparse.{spread, IsCompact};

    ghost Value = { Rows };

    ghost view = { λ p. table p.qubits p.blocks (spread p.words.value.gaps.items p.words.value.stored.items p.words.value.following) p.powers.items };

    ghost invariant = { λ p. IsCompact p.qubits p.blocks p.words.value.gaps.items p.words.value.stored.items p.words.value.following p.size p.powers.items };
}

/// Words, without those that are 0, to be shared. There are eight times as many as blocks.
fn shared(alloc: Global, words: &[u64]) -> Result<Rc<SparseWords>, AllocError>
    requires all { length words.now ≡ 8 * (length words.now / 8) }
    ensures value { IfOk result (λ s. IsSparse s.value.gaps.items s.value.stored.items s.value.following words.now) }
{
    let sparse = SparseWords::of(alloc, words, words.len() / 8)?;
    Ok(Rc::new(alloc, sparse)?)
}

impl PauliRows {
    ghost use Rattle.std.specs.Prelude.{◌≡◌, IfOk, IfErr};
    ghost use Rattle.stab_io.specs.declared.refusal.Refusal.TheVariants.{OutOfMemory};

    /// The same strings, stored in little memory.
    ///
    /// Refusal `OutOfMemory` alone.
    pub fn compact(&self, alloc: Global) -> Result<CompactRows, Refusal>
        ensures ok { IfOk result (λ r. r ≡ self.now) }
        ensures err { IfErr result (λ r. r ≡ OutOfMemory) }
    {
        let words = self.words.as_slice();
        Ok(CompactRows {
            qubits: self.qubits,
            blocks: self.blocks,
            size: words.len(),
            words: shared(alloc, words)?,
            powers: Vec::from_slice(alloc, self.powers.as_slice())?,
        })
    }
}

impl CompactRows {
    ghost use Rattle.std.specs.Prelude.{◌≡◌, ◌<◌, ◌↔◌, IsTrue, IfOk, IfErr, length};
    ghost use Rattle.stab_gates.specs.Letters.{◌⊕◌};
    ghost use Rattle.stab_pauli.specs.Paulis.{with_sign};
    ghost use Rattle.stab_pauli.specs.Rows.{row_at, with_row, unsigned_rows};
    ghost use Rattle.stab_io.specs.declared.refusal.Refusal.TheVariants.{OutOfMemory};

    /// The number of qubits.
    pub fn qubits(&self) -> usize
        ensures value { result ≡ self.now.qubits }
    {
        self.qubits
    }

    /// The same strings again. It takes memory only for their signs.
    ///
    /// Refusal `OutOfMemory` alone.
    pub fn copy(&self, alloc: Global) -> Result<CompactRows, Refusal>
        ensures ok { IfOk result (λ r. r ≡ self.now) }
        ensures err { IfErr result (λ r. r ≡ OutOfMemory) }
    {
        Ok(CompactRows {
            qubits: self.qubits,
            blocks: self.blocks,
            size: self.size,
            words: self.words.clone()?,
            powers: Vec::from_slice(alloc, self.powers.as_slice())?,
        })
    }

    /// Keeps the letters in the memory of other strings that are stored, if these have the same ones. What contracts see stays.
    pub fn share(&mut self, other: &CompactRows)
        ensures unchanged { self.new ≡ self.old }
    {
        if Rc::ptr_eq(&self.words, &other.words) {
            return;
        }
        if !self.words.as_ref().is_stored_as(other.words.as_ref()) {
            return;
        }
        if let Ok(words) = other.words.clone() {
            self.words = words;
        }
    }

    /// The strings again, in memory of their own.
    ///
    /// Refusal `OutOfMemory` alone.
    pub fn rows(&self, alloc: Global) -> Result<PauliRows, Refusal>
        ensures ok { IfOk result (λ r. r ≡ self.now) }
        ensures err { IfErr result (λ r. r ≡ OutOfMemory) }
    {
        let mut words = vec![in alloc; 0; self.size]?;
        self.words.as_ref().write_into(words.as_mut_slice());
        Ok(PauliRows {
            qubits: self.qubits,
            blocks: self.blocks,
            words,
            powers: Vec::from_slice(alloc, self.powers.as_slice())?,
        })
    }

    /// Makes rows these strings, in the memory that they have.
    pub fn write_into(&self, rows: &mut PauliRows)
        requires same_qubits { rows.old.qubits ≡ self.now.qubits }
        requires same_number { length rows.old.rows ≡ length self.now.rows }
        ensures value { rows.new ≡ self.now }
    {
        let words = rows.words.as_mut_slice();
        words.fill(0);
        self.words.as_ref().write_into(words);
        rows.powers
            .as_mut_slice()
            .copy_from_slice(self.powers.as_slice());
    }

    /// Whether both are the same strings.
    pub fn are(&self, rows: &PauliRows) -> bool
        ensures value { IsTrue result ↔ (self.now ≡ rows.now) }
    {
        let same = self.powers.as_slice() == rows.powers.as_slice();
        if !same {
            return false;
        }
        if self.qubits != rows.qubits {
            return false;
        }
        let words = rows.words.as_slice();
        let sparse = self.words.as_ref();
        are_short(words);
        are_short(sparse.stored.as_slice());
        sparse.are(words, words.len() / 8)
    }

    /// Whether both have as many strings over as many qubits, with the same letters, whatever their signs.
    pub fn same_letters(&self, rows: &PauliRows) -> bool
        ensures value { IsTrue result ↔ (self.now.qubits ≡ rows.now.qubits) × (unsigned_rows self.now ≡ unsigned_rows rows.now) }
    {
        if self.qubits != rows.qubits {
            return false;
        }
        if self.powers.len() != rows.powers.len() {
            return false;
        }
        let words = rows.words.as_slice();
        let sparse = self.words.as_ref();
        are_short(words);
        are_short(sparse.stored.as_slice());
        sparse.are(words, words.len() / 8)
    }

    /// Whether the signs of row a differ in both, if its letters are the same: then none has to be looked at.
    #[inline(always)]
    pub fn signs_differ(&self, rows: &PauliRows, a: usize) -> bool
        requires in_range { a < length self.now.rows }
        requires other_in_range { a < length rows.now.rows }
        requires same_letters { (row_at self.now a).letters ≡ (row_at rows.now a).letters }
        ensures value { result ≡ (row_at self.now a).negative ⊕ (row_at rows.now a).negative }
    {
        self.powers[a].inverse().times(rows.powers[a]).sign()
    }

    /// Flips the sign of row a if the bit is 1.
    #[inline(always)]
    pub fn negate_if(&mut self, a: usize, bit: bool)
        requires in_range { a < length self.old.rows }
        ensures value { self.new ≡ with_row self.old a (with_sign bit (row_at self.old a)) }
    {
        self.powers[a] = self.powers[a].times(Phase::of_sign(bit));
    }
}
