ghost use Rattle.std.specs.Prelude.{◌≡◌, ◌≤◌, ◌++◌, take, drop, OnOk};
ghost use Rattle.stab_run.specs.Records.{ones};

use crate::bits::count_ones;
use crate::letters::weight_of;
use stab_pauli::{Letter, Pauli, masks};
use stab_run::{Addition, Lengths};
use std::alloc::{AllocError, Global};
use std::marker::Model;

/// A frame on its way over the steps of a run: its letters, one a qubit, and what it has flipped
/// since it began.
///
/// Contracts see these, the number of the next coin, and how many outcomes before it were random.
pub struct Propagation {
    letters: Vec<Letter>,
    // How many letters are not I.
    weight: usize,
    records: Vec<bool>,
    // One for each coin that it has passed.
    outcomes: Vec<bool>,
    detectors: Vec<bool>,
    additions: Vec<Addition>,
    // At least this many of the newest records are not flipped.
    still: usize,
    coin: usize,
    number: usize,
}

// Written out, so that a proof sees the drop of a value as one call, and not one for each of its parts.
impl Drop for Propagation {
    fn drop(self) {
        let Propagation {
            letters: _,
            weight: _,
            records: _,
            outcomes: _,
            detectors: _,
            additions: _,
            still: _,
            coin: _,
            number: _,
        } = self;
    }
}

impl Model for Propagation {
    ghost use Rattle.std.specs.Prelude.{◌≡◌, ℕ, ◌≤◌, false, length, replicate};
    ghost use Rattle.stab_run.specs.Records.{looked_up};
    ghost use Rattle.stab_frames.specs.Propagations.{PropagationState};
    ghost use Rattle.stab_frames.specs.inner.Weights.{string_weight};

    ghost Value = { PropagationState };

    ghost view = { λ w. record {
      letters = w.letters.items;
      flips = record { records = w.records.items; free = replicate (length w.outcomes.items) false; outcomes = w.outcomes.items; detectors = w.detectors.items; additions = w.additions.items };
      coin = w.coin;
      number = w.number;
    } };

    ghost invariant = { λ w. (w.weight ≡ string_weight w.letters.items) × ((k : ℕ) → k ≤ w.still → looked_up w.records.items k ≡ false) × (w.number ≤ w.coin) };
}

impl Propagation {
    ghost use Rattle.std.specs.Prelude.{◌≡◌, ℕ, ◌+◌, ◌*◌, ◌^◌, ◌≤◌, ◌<◌, ◌∷◌, [], ◌++◌, true, false, length, replicate, take, drop, slice_index_or, slice_set, OnOk, IfOk};
    ghost use Rattle.stab_gates.specs.declared.letter.Letter.TheVariants.{I};
    ghost use Rattle.stab_pauli.specs.Paulis.{single, string_product};
    ghost use Rattle.stab_run.specs.Records.{ones};
    ghost use Rattle.stab_run.specs.Points.{nothing, joined};
    ghost use Rattle.stab_run.specs.Cuts.{lengths_of, rest_of};
    ghost use Rattle.stab_frames.specs.Propagations.{frame_at, IsGone};
    ghost use Rattle.stab_frames.specs.inner.Propagates.{none_flipped};
    ghost use Rattle.stab_frames.specs.inner.Products.{AreMultiplied};
    ghost use Rattle.stab_frames.specs.Flips.{flipped};

    /// The identity on n qubits, which has flipped nothing, before the coin with this number of a
    /// run with this randomness.
    pub fn new(
        alloc: Global,
        n: usize,
        free: &[bool],
        coin: usize,
    ) -> Result<Propagation, AllocError>
        requires in_range { coin ≤ length free.now }
        ensures value { IfOk result (λ w. w ≡ record { letters = replicate n I; flips = nothing; coin = coin; number = ones (take coin free.now) }) }
    {
        let (front, _) = free.split_at(coin);
        Ok(Propagation {
            letters: vec![in alloc; Letter::I; n]?,
            weight: 0,
            records: Vec::new(alloc),
            outcomes: Vec::new(alloc),
            detectors: Vec::new(alloc),
            additions: Vec::new(alloc),
            still: usize::MAX,
            coin,
            number: count_ones(front),
        })
    }

    /// Multiplies a letter on, at a qubit.
    pub fn multiply_letter(&mut self, letter: Letter, qubit: usize)
        requires in_range { qubit < length self.old.letters }
        ensures value { self.new ≡ record self.old { letters = string_product self.old.letters (single (length self.old.letters) qubit letter).letters } }
        ensures length { length self.new.letters ≡ length self.old.letters }
    {
        let product = self.letters[qubit].times(letter);
        self.set(qubit, product);
    }

    /// Multiplies the letters of a string on.
    pub fn multiply(&mut self, string: &Pauli)
        requires same_length { length string.now.letters ≡ length self.old.letters }
        ensures value { self.new ≡ record self.old { letters = string_product self.old.letters string.now.letters } }
        ensures length { length self.new.letters ≡ length self.old.letters }
    {
        for word in 0..string.len().div_ceil(64) {
            self.multiply_word(string, word);
        }
    }

    /// Multiplies 64 letters of a string on, from 64 * word on. Few of them are not I, so it goes from one of these to the next,
    /// by a mask.
    #[inline(always)]
    fn multiply_word(&mut self, string: &Pauli, word: usize)
        requires some { 64 * word < length string.now.letters }
        requires same_length { length string.now.letters ≡ length self.old.letters }
        ensures alone { self.new ≡ record self.old { letters = self.new.letters } }
        ensures letters { AreMultiplied (64 * word) string.now.letters self.old.letters self.new.letters }
    {
        let _count = string.len();
        let mut rest = string.letters_mask(word);
        while rest != 0 {
            let bit = masks::first(rest);
            let qubit = 64 * word + bit;
            let product = self.letter(qubit).times(string.letter(qubit));
            self.set(qubit, product);
            rest = masks::without(rest, bit);
        }
    }

    /// Flips further records, after those that it has passed: those at which one list differs from
    /// another of the same length.
    pub fn flip_records(&mut self, records: &[bool], others: &[bool]) -> Result<(), AllocError>
        requires same_length { length others.now ≡ length records.now }
        ensures value { OnOk result (self.new ≡ record self.old { flips = record self.old.flips { records = self.old.flips.records ++ flipped records.now others.now } }) }
    {
        for position in 0..records.len() {
            self.flip_record(others[position] ^ records[position])?;
        }
        Ok(())
    }

    /// How much it has flipped, or not: there is an outcome for each flag.
    pub fn lengths(&self) -> Lengths
        ensures value { result ≡ lengths_of self.now.flips }
        ensures each { length self.now.flips.outcomes ≡ length self.now.flips.free }
    {
        Lengths {
            records: self.records.len(),
            free: self.outcomes.len(),
            detectors: self.detectors.len(),
            additions: self.additions.len(),
        }
    }

    /// Flips again what it flipped after these lengths, and passes this many coins.
    pub fn flip_again(&mut self, from: Lengths, coins: usize) -> Result<(), AllocError>
        requires few { self.old.coin + coins < 2 ^ 63 }
        ensures value { OnOk result (self.new ≡ record self.old { flips = joined self.old.flips (rest_of from self.old.flips); coin = self.old.coin + coins }) }
        ensures letters { self.new.letters ≡ self.old.letters }
    {
        self.still = 0;
        repeat_from(&mut self.records, from.records)?;
        repeat_from(&mut self.outcomes, from.free)?;
        repeat_from(&mut self.detectors, from.detectors)?;
        repeat_from(&mut self.additions, from.additions)?;
        self.coin += coins;
        Ok(())
    }

    /// The letters, one a qubit.
    pub fn letters(&self) -> &[Letter]
        ensures value { result.now ≡ self.now.letters }
    {
        self.letters.as_slice()
    }

    /// The letter at a qubit.
    pub fn letter(&self, qubit: usize) -> Letter
        requires in_range { qubit < length self.now.letters }
        ensures value { result ≡ slice_index_or self.now.letters qubit I }
    {
        self.letters[qubit]
    }

    /// Which records it has flipped since it began.
    pub fn records(&self) -> &[bool]
        ensures value { result.now ≡ self.now.flips.records }
    {
        self.records.as_slice()
    }

    /// Which outcomes, one for each coin.
    pub fn outcomes(&self) -> &[bool]
        ensures value { result.now ≡ self.now.flips.outcomes }
    {
        self.outcomes.as_slice()
    }

    /// Which detectors.
    pub fn detectors(&self) -> &[bool]
        ensures value { result.now ≡ self.now.flips.detectors }
    {
        self.detectors.as_slice()
    }

    /// Which additions to observables.
    pub fn additions(&self) -> &[Addition]
        ensures value { result.now ≡ self.now.flips.additions }
    {
        self.additions.as_slice()
    }

    /// The number of the next coin.
    pub fn coin(&self) -> usize
        ensures value { result ≡ self.now.coin }
    {
        self.coin
    }

    /// How many outcomes before the next coin's were random.
    pub fn number(&self) -> usize
        ensures value { result ≡ self.now.number }
    {
        self.number
    }

    /// Whether the letters are I and none of this many newest records is flipped.
    pub fn is_gone(&self, window: usize) -> bool
        ensures gone { result ≡ true → (base : ℕ) → IsGone (length self.now.letters) window (frame_at base self.now) }
    {
        self.weight == 0 && window <= self.still
    }

    /// Puts a letter at a qubit.
    pub(crate) fn set(&mut self, qubit: usize, letter: Letter)
        requires in_range { qubit < length self.old.letters }
        ensures value { self.new ≡ record self.old { letters = slice_set self.old.letters qubit letter } }
        ensures length { length self.new.letters ≡ length self.old.letters }
    {
        let old = self.letters[qubit];
        self.letters[qubit] = letter;
        self.weight = self.weight - weight_of(old) + weight_of(letter);
    }

    /// Flips the next record, or not.
    pub(crate) fn flip_record(&mut self, flip: bool) -> Result<(), AllocError>
        ensures value { OnOk result (self.new ≡ record self.old { flips = record self.old.flips { records = self.old.flips.records ++ flip ∷ [] } }) }
        ensures letters { self.new.letters ≡ self.old.letters }
    {
        self.records.push(flip)?;
        self.still = if flip {
            0
        } else {
            self.still.saturating_add(1)
        };
        Ok(())
    }

    /// Flips the next outcome, or not.
    pub(crate) fn flip_outcome(&mut self, flip: bool) -> Result<(), AllocError>
        ensures value { OnOk result (self.new ≡ record self.old { flips = record self.old.flips { free = self.old.flips.free ++ false ∷ []; outcomes = self.old.flips.outcomes ++ flip ∷ [] } }) }
        ensures letters { self.new.letters ≡ self.old.letters }
    {
        self.outcomes.push(flip)?;
        Ok(())
    }

    /// Flips the next detector, or not.
    pub(crate) fn flip_detector(&mut self, flip: bool) -> Result<(), AllocError>
        ensures value { OnOk result (self.new ≡ record self.old { flips = record self.old.flips { detectors = self.old.flips.detectors ++ flip ∷ [] } }) }
        ensures letters { self.new.letters ≡ self.old.letters }
    {
        self.detectors.push(flip)?;
        Ok(())
    }

    /// Flips the next addition to an observable, or not.
    pub(crate) fn flip_addition(&mut self, addition: Addition) -> Result<(), AllocError>
        ensures value { OnOk result (self.new ≡ record self.old { flips = record self.old.flips { additions = self.old.flips.additions ++ addition ∷ [] } }) }
        ensures letters { self.new.letters ≡ self.old.letters }
    {
        self.additions.push(addition)?;
        Ok(())
    }

    /// Passes the next coin, whose outcome was random or not.
    pub(crate) fn skip_coin(&mut self, free: bool)
        requires few { self.old.coin < 2 ^ 63 }
        ensures value { self.new ≡ record self.old { coin = self.old.coin + 1; number = self.old.number + ones (free ∷ []) } }
    {
        self.coin += 1;
        self.number += usize::from(free);
    }

    /// Passes measurements of this many next coins of a run with this randomness, each of which
    /// makes a record that is not flipped.
    pub(crate) fn skip_still(&mut self, free: &[bool], count: usize) -> Result<(), AllocError>
        requires few { self.old.coin + count < 2 ^ 63 }
        ensures value { OnOk result (self.new ≡ record self.old { flips = joined self.old.flips (none_flipped count); coin = self.old.coin + count; number = self.old.number + ones (take count (drop self.old.coin free.now)) }) }
        ensures letters { self.new.letters ≡ self.old.letters }
    {
        self.outcomes.resize(self.outcomes.len() + count, false)?;
        self.records.resize(self.records.len() + count, false)?;
        self.number += ones_from(free, self.coin, count);
        self.still = self.still.saturating_add(count);
        self.coin += count;
        Ok(())
    }
}

/// How many of this many bits from a position on are 1.
fn ones_from(bits: &[bool], from: usize, count: usize) -> usize
    ensures value { result ≡ ones (take count (drop from bits.now)) }
    ensures few { result ≤ count }
{
    let rest = bits.split_at(from.min(bits.len())).1;
    count_ones(rest.split_at(count.min(rest.len())).0)
}

/// Appends what a list has from a position on.
fn repeat_from<T: Copy>(items: &mut Vec<T>, from: usize) -> Result<(), AllocError>
    ensures value { OnOk result (items.new.items ≡ items.old.items ++ drop from items.old.items) }
{
    if from < items.len() {
        // As a whole: `extend_from_within` copies one item after another.
        let again = Vec::from_slice(*items.allocator(), &items[from..])?;
        items.extend_from_slice(again.as_slice())?;
    }
    Ok(())
}
