//! At which positions rows may have X or Y: it saves a look at 64 rows for a position where none of them has.

ghost use Rattle.std.specs.Prelude.{ℕ, ◌*◌, ◌<◌, ◌≤◌};

use stab_io::Refusal;
use stab_pauli::{Pauli, PauliRows, masks};
use std::alloc::Global;
use std::marker::Model;

/// If more rows of a group than these have X or Y at a position, there is hardly a position where none has.
const MOST_ROWS: u32 = 16;

/// For each group of 64 rows, at which positions its rows may have X or Y.
///
/// A word that isn't known stands for all of its 64 positions. A look at a position makes its word known; a change of a row
/// makes the words of its group unknown again; and rows that are multiplied by a string may get X or Y where it has them.
pub struct XSupports {
    // Which of the words of each group are known, by a mask.
    known: Vec<u64>,
    // The words: 16 for each group, which are those of 1,024 positions.
    words: Vec<u64>,
    // Whether many rows had X or Y at the last look. Then the next look makes no word known, as that would hardly help.
    crowded: bool,
}

// Written out, so that a proof sees the drop of supports as one call, and not one for each of their parts.
impl Drop for XSupports {
    fn drop(self) {
        let XSupports {
            known: _,
            words: _,
            crowded: _,
        } = self;
    }
}

impl Model for XSupports {
    ghost use Rattle.stab_tableau.specs.inner.Supports.{Supports, AreSupports};

    ghost Value = { Supports };

    ghost view = { λ s. record { known = s.known.items; words = s.words.items } };

    ghost invariant = { λ s. AreSupports s.known.items s.words.items };
}

impl XSupports {
    ghost use Rattle.std.specs.Prelude.{◌≡◌, ◌≢◌, ℕ, ◌+◌, ◌*◌, ◌/◌, ◌<◌, ◌≤◌, true, false, length, IfOk, IfErr, slice_index_or};
    ghost use Rattle.stab_io.specs.declared.refusal.Refusal.TheVariants.{OutOfMemory};
    ghost use Rattle.stab_gates.specs.declared.letter.Letter.TheVariants.{I};
    ghost use Rattle.stab_gates.specs.Limits.{most_qubits};
    ghost use Rattle.stab_gates.specs.XParts.{has_x};
    ghost use Rattle.stab_pauli.specs.Masks.{chooses, AreChosen};
    ghost use Rattle.stab_pauli.specs.Rows.{Rows, row_at, swapped_rows, product_times_i_if};
    ghost use Rattle.stab_tableau.specs.inner.Supports.{Covers, OthersStay, is_known, has_position};

    /// For this many rows, of which nothing is known.
    ///
    /// Refusal `OutOfMemory` alone.
    pub fn new(alloc: Global, rows: usize) -> Result<XSupports, Refusal>
        requires few { rows ≤ 2 * most_qubits }
        ensures covers { IfOk result (λ s. (r : Rows) → length r.rows ≤ rows → Covers s r) }
        ensures err { IfErr result (λ r. r ≡ OutOfMemory) }
    {
        let groups = rows / 64 + 1;
        let known = vec![in alloc; 0; groups]?;
        let words = vec![in alloc; 0; 16 * groups]?;
        Ok(XSupports {
            known,
            words,
            crowded: false,
        })
    }

    /// The same in memory of their own.
    ///
    /// Refusal `OutOfMemory` alone.
    pub fn copy(&self, alloc: Global) -> Result<XSupports, Refusal>
        ensures ok { IfOk result (λ s. s ≡ self.now) }
        ensures err { IfErr result (λ r. r ≡ OutOfMemory) }
    {
        Ok(XSupports {
            known: Vec::from_slice(alloc, self.known.as_slice())?,
            words: Vec::from_slice(alloc, self.words.as_slice())?,
            crowded: self.crowded,
        })
    }

    /// What is left after a row has changed: nothing is known of its group.
    #[inline(always)]
    pub fn forget(&mut self, row: usize)
        requires in_range { row < 64 * length self.old.known }
        ensures groups { length self.new.known ≡ length self.old.known }
        ensures covers { (old new : Rows) → Covers self.old old → OthersStay row old new → Covers self.new new }
    {
        self.known[row / 64] = 0;
    }

    /// What is left after all rows may have changed: nothing is known.
    pub fn forget_all(&mut self)
        ensures groups { length self.new.known ≡ length self.old.known }
        ensures covers { (r : Rows) → length r.rows ≤ 64 * length self.old.known → Covers self.new r }
    {
        self.known.as_mut_slice().fill(0);
    }

    /// What is left after two rows were exchanged: all, if they are of one group.
    #[inline(always)]
    pub fn swap(&mut self, a: usize, b: usize)
        requires a_in_range { a < 64 * length self.old.known }
        requires b_in_range { b < 64 * length self.old.known }
        ensures covers { (r : Rows) → a < length r.rows → b < length r.rows → Covers self.old r → Covers self.new (swapped_rows r a b) }
    {
        if a / 64 == b / 64 {
            return;
        }
        self.forget(a);
        self.forget(b);
    }

    /// Which of the 64 rows of a group have X or Y at a position, by a mask. The rows are looked at only if one of them may.
    #[inline(always)]
    pub fn rows_with_x(&mut self, rows: &PauliRows, group: usize, position: usize) -> u64
        requires first_in_range { 64 * group < length rows.now.rows }
        requires position_in_range { position < rows.now.qubits }
        requires few { rows.now.qubits ≤ most_qubits }
        requires covers { Covers self.old rows.now }
        ensures value { (k : ℕ) → k < 64 → chooses result k ≡ has_x (slice_index_or (row_at rows.now (64 * group + k)).letters position I) }
        ensures covers { Covers self.new rows.now }
    {
        let _ = &self.known;
        if self.lacks(group, position / 64, position % 64) {
            return 0;
        }
        let mask = self.look(rows, group, position);
        self.crowded = mask.count_ones() > MOST_ROWS;
        mask
    }

    /// The same by a look at the rows.
    #[inline(always)]
    fn look(&mut self, rows: &PauliRows, group: usize, position: usize) -> u64
        requires first_in_range { 64 * group < length rows.now.rows }
        requires position_in_range { position < rows.now.qubits }
        requires few { rows.now.qubits ≤ most_qubits }
        requires covers { Covers self.old rows.now }
        ensures value { (k : ℕ) → k < 64 → chooses result k ≡ has_x (slice_index_or (row_at rows.now (64 * group + k)).letters position I) }
        ensures covers { Covers self.new rows.now }
    {
        let _ = &self.known;
        if self.crowded {
            return rows.rows_with_x(64 * group, position);
        }
        let (mask, positions) = rows.rows_and_positions_with_x(64 * group, position);
        self.put_word(group, position / 64, positions);
        mask
    }

    /// Whether it is known that no row of a group has X or Y at a position.
    #[inline(always)]
    fn lacks(&self, group: usize, word: usize, position: usize) -> bool
        requires in_range { group < length self.now.known }
        requires word_in_range { word < 16 }
        requires position_in_range { position < 64 }
        ensures known { result ≡ true → is_known self.now group word ≡ true }
        ensures value { result ≡ true → has_position self.now group word position ≡ false }
    {
        masks::holds(self.known[group], word)
            && !masks::holds(self.words[16 * group + word], position)
    }

    /// Puts a word that has each position where a row of its group has X or Y.
    #[inline(always)]
    fn put_word(&mut self, group: usize, word: usize, positions: u64)
        requires in_range { group < length self.old.known }
        requires word_in_range { word < 16 }
        ensures covers { (r : Rows) → Covers self.old r → ((k position : ℕ) → k < 64 → position < 64 → has_x (slice_index_or (row_at r (64 * group + k)).letters (64 * word + position) I) ≡ true → chooses positions position ≡ true) → Covers self.new r }
    {
        let known = masks::without(self.known[group], word);
        self.known[group] = masks::with_if(known, word, true);
        self.words[16 * group + word] = positions;
    }

    /// What is left after chosen rows of a group were multiplied by a string.
    #[inline(always)]
    pub fn widen(&mut self, group: usize, mask: u64, string: &Pauli)
        requires in_range { group < length self.old.known }
        requires few { length string.now.letters ≤ most_qubits }
        ensures covers { (old new : Rows) → Covers self.old old → AreChosen (64 * group) mask (λ b p. product_times_i_if b p string.now) old new → Covers self.new new }
    {
        if mask == 0 {
            return;
        }
        if self.known[group] == 0 {
            return;
        }
        self.add_string(group, string);
    }

    /// Adds the positions where a string has X or Y.
    #[inline(always)]
    fn add_string(&mut self, group: usize, string: &Pauli)
        requires in_range { group < length self.old.known }
        requires few { length string.now.letters ≤ most_qubits }
        ensures known { self.new.known ≡ self.old.known }
        ensures preserved { (g word position : ℕ) → has_position self.old g word position ≡ true → has_position self.new g word position ≡ true }
        ensures added { (word position : ℕ) → position < 64 → has_x (slice_index_or string.now.letters (64 * word + position) I) ≡ true → has_position self.new group word position ≡ true }
    {
        for word in 0..words_of(string.len()) {
            self.add_word(group, word, string.x_mask(word));
        }
    }

    /// Adds positions to a word.
    #[inline(always)]
    fn add_word(&mut self, group: usize, word: usize, positions: u64)
        requires in_range { group < length self.old.known }
        requires word_in_range { word < 16 }
        ensures known { self.new.known ≡ self.old.known }
        ensures preserved { (g w position : ℕ) → has_position self.old g w position ≡ true → has_position self.new g w position ≡ true }
        ensures added { (position : ℕ) → chooses positions position ≡ true → has_position self.new group word position ≡ true }
    {
        let _ = &self.known;
        let at = 16 * group + word;
        self.words[at] = self.words[at] | positions;
    }
}

/// How many words of 64 bits hold n.
#[inline(always)]
fn words_of(n: usize) -> usize
    ensures all { n ≤ 64 * result }
    ensures needed { (w : ℕ) → w < result → 64 * w < n }
{
    n / 64 + (n % 64 + 63) / 64
}
