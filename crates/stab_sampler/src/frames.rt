ghost use Rattle.std.specs.Prelude.{◌≡◌, ◌≢◌, ℕ, ◌+◌, ◌<◌, false, All, length, replicate, IfOk};
ghost use Rattle.stab_gates.specs.declared.letter.Letter.TheVariants;
ghost use Rattle.stab_pauli.specs.Paulis.{single, strings_anticommute};
ghost use Rattle.stab_tableau.specs.Gates.{image, image_pair};
ghost use Rattle.stab_instructions.specs.Products.{names_twice};
ghost use Rattle.stab_run.specs.Runs.{string_of};
ghost use Rattle.stab_frames.specs.Frames.{plus, times_where};
ghost use Rattle.stab_sampler.specs.Lanes.{lane_letters};

use crate::letters::Letters;
use crate::word::Word;
use stab_frames::controlled_letter;
use stab_instructions::Factor;
use stab_pauli::{Letter, Pauli};
use stab_tableau::{Gate, PairGate};
use std::alloc::{AllocError, Global};

/// The same value, this many times.
pub fn repeated<T: Copy>(alloc: Global, value: T, count: usize) -> Result<Vec<T>, AllocError>
    ensures value { IfOk result (λ v. v.items ≡ replicate count value) }
{
    let mut items = Vec::with_capacity(alloc, count)?;
    for made in 0..count {
        items.push(value)?;
    }
    Ok(items)
}

/// A Pauli string for each lane, whose sign does not matter: the letters of all lanes at each qubit.
#[derive(Drop)]
pub struct Frames<W> {
    pub letters: Vec<Letters<W>>,
}

impl<W: Word> Frames<W> {
    /// The letters I on n qubits, in all lanes.
    pub fn blank(alloc: Global, n: usize) -> Result<Frames<W>, AllocError>
        ensures qubits { IfOk result (λ f. length f.letters.items ≡ n) }
        ensures letters { IfOk result (λ f. (l : ℕ) → l < W.lanes → lane_letters W.at l f.letters.items ≡ replicate n TheVariants.I) }
    {
        Ok(Frames {
            letters: repeated(alloc, Letters::blank(), n)?,
        })
    }

    /// Applies a gate to a qubit of each lane's string.
    pub fn apply(&mut self, gate: Gate, qubit: usize)
        requires in_range { qubit < length self.old.letters.items }
        ensures size { length self.new.letters.items ≡ length self.old.letters.items }
        ensures letters { (l : ℕ) → l < W.lanes → lane_letters W.at l self.new.letters.items ≡ (image gate qubit (plus (lane_letters W.at l self.old.letters.items))).letters }
    {
        self.letters[qubit].apply(gate);
    }

    /// Applies a gate to two qubits of each lane's string.
    pub fn apply_pair(&mut self, gate: PairGate, first: usize, second: usize)
        requires first_in_range { first < length self.old.letters.items }
        requires second_in_range { second < length self.old.letters.items }
        requires distinct { second ≢ first }
        ensures size { length self.new.letters.items ≡ length self.old.letters.items }
        ensures letters { (l : ℕ) → l < W.lanes → lane_letters W.at l self.new.letters.items ≡ (image_pair gate first second (plus (lane_letters W.at l self.old.letters.items))).letters }
    {
        match controlled_letter(gate) {
            Some(letter) => {
                let controls = self.letters[first].x;
                let anticommuting = self.letters[second].anticommuting(letter);
                self.letters[first].multiply(Letter::Z, anticommuting);
                self.letters[second].multiply(letter, controls);
            }
            None => {
                let preserved = self.letters[first];
                self.letters[first] = self.letters[second];
                self.letters[second] = preserved;
            }
        }
    }

    /// The lanes whose string anticommutes with a letter on a qubit.
    pub fn anticommuting_letter(&self, letter: Letter, qubit: usize) -> W
        requires in_range { qubit < length self.now.letters.items }
        ensures value { (l : ℕ) → l < W.lanes → W.at result l ≡ strings_anticommute (lane_letters W.at l self.now.letters.items) (single (length self.now.letters.items) qubit letter).letters }
    {
        self.letters[qubit].anticommuting(letter)
    }

    /// The lanes whose string anticommutes with a product of letters on different qubits.
    pub fn anticommuting_factors(&self, factors: &[Factor]) -> W
        requires in_range { All (λ f. f.qubit < length self.now.letters.items) factors.now }
        requires distinct { names_twice factors.now ≡ false }
        ensures value { (l : ℕ) → l < W.lanes → W.at result l ≡ strings_anticommute (lane_letters W.at l self.now.letters.items) (string_of (length self.now.letters.items) factors.now).letters }
    {
        let mut anticommuting = W::all(false);
        for factor in factors {
            let letters = self.letters[factor.qubit.number()];
            anticommuting = anticommuting.xor(letters.anticommuting(factor.letter.letter()));
        }
        anticommuting
    }

    /// Multiplies the strings of the lanes whose bit is 1 by a letter on a qubit.
    pub fn multiply_letter(&mut self, letter: Letter, qubit: usize, lanes: W)
        requires in_range { qubit < length self.old.letters.items }
        ensures size { length self.new.letters.items ≡ length self.old.letters.items }
        ensures letters { (l : ℕ) → l < W.lanes → lane_letters W.at l self.new.letters.items ≡ times_where (W.at lanes l) (single (length self.old.letters.items) qubit letter).letters (lane_letters W.at l self.old.letters.items) }
    {
        self.letters[qubit].multiply(letter, lanes);
    }

    /// Multiplies the strings of the lanes whose bit is 1 by another.
    pub fn multiply(&mut self, string: &Pauli, lanes: W)
        requires same_length { length string.now.letters ≡ length self.old.letters.items }
        ensures size { length self.new.letters.items ≡ length self.old.letters.items }
        ensures letters { (l : ℕ) → l < W.lanes → lane_letters W.at l self.new.letters.items ≡ times_where (W.at lanes l) string.now.letters (lane_letters W.at l self.old.letters.items) }
    {
        let mut qubit = string.next_letter(0);
        while qubit < self.letters.len() {
            self.letters[qubit].multiply(string.letter(qubit), lanes);
            qubit = string.next_letter(qubit + 1);
        }
    }
}
