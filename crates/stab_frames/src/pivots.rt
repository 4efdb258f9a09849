ghost use Rattle.std.specs.Prelude.{◌≡◌, IfOk, map};
ghost use Rattle.stab_frames.specs.Limits.{most_strings as most_of};

use stab_io::Refusal;
use stab_pauli::Pauli;
use std::alloc::{AllocError, Global};
use std::marker::Model;
use std::rc::Rc;

/// Strings of letters that a run keeps, packed, at most 16 MiB of them, which copies of the list share. Those that
/// it has again take a pointer each, and do not count.
/// Contracts see how many letters each has, and the list of their letters.
pub struct Pivots {
    qubits: usize,
    // How many may be stored: more than the limit by as many as are there again.
    most: usize,
    // Their signs are irrelevant.
    strings: Vec<Rc<Pauli>>,
}

// Written out, so that a proof sees the drop of a value as one call, and not one for each of its parts.
impl Drop for Pivots {
    fn drop(self) {
        let Pivots {
            qubits: _,
            most: _,
            strings: _,
        } = self;
    }
}

impl Model for Pivots {
    ghost use Rattle.std.specs.Prelude.{◌≡◌, ◌+◌, ◌≤◌, All, length, map};
    ghost use Rattle.stab_frames.specs.Limits.{most_strings};
    ghost use Rattle.stab_frames.specs.Pivots.{PivotsState};

    ghost Value = { PivotsState };

    ghost view = { λ k. record { qubits = k.qubits; most = k.most; strings = map (λ p. p.value.letters) k.strings.items } };

    ghost invariant = { λ k. All (λ p. length p.value.letters ≡ k.qubits) k.strings.items × (length k.strings.items ≤ k.most) × (k.most ≤ most_strings k.qubits + length k.strings.items) };
}

impl Pivots {
    ghost use Rattle.std.specs.Prelude.{◌≡◌, ◌+◌, ◌≤◌, ◌<◌, ◌↔◌, [], ◌∷◌, ◌++◌, All, IsTrue, length, map, drop, slice_index_or, OnOk, OnErr, IfOk, IfErr};
    ghost use Rattle.stab_io.specs.declared.refusal.Refusal.TheVariants.{OutOfMemory};
    ghost use Rattle.stab_frames.specs.Pivots.{stored_with, stored_again, cut_to, front_stored, own_strings};
    ghost use Rattle.stab_frames.specs.Limits.{most_strings as most_of};

    /// None, of n letters each, with leave to keep as many as the limit says. It takes no memory.
    pub fn new(alloc: Global, n: usize) -> Pivots
        ensures value { result ≡ record { qubits = n; most = most_of n; strings = [] } }
    {
        Pivots {
            qubits: n,
            most: most_strings(n),
            strings: Vec::new(alloc),
        }
    }

    /// How many there are.
    pub fn len(&self) -> usize
        ensures value { result ≡ length self.now.strings }
    {
        self.strings.len()
    }

    /// How many of those that may be stored are used up. Those that are there again use up none.
    pub fn own(&self) -> usize
        ensures value { result ≡ own_strings self.now }
    {
        self.strings.len() + most_strings(self.qubits) - self.most
    }

    /// Whether no further ones are stored.
    pub fn is_full(&self) -> bool
        ensures value { IsTrue result ↔ length self.now.strings ≡ self.now.most }
    {
        self.strings.len() == self.most
    }

    /// Puts the letters of a string after the others, unless as many are stored as may be.
    ///
    /// Refusal `OutOfMemory` alone.
    pub fn push(&mut self, alloc: Global, string: &Pauli) -> Result<(), Refusal>
        requires same_length { length string.now.letters ≡ self.old.qubits }
        ensures qubits { self.new.qubits ≡ self.old.qubits }
        ensures most { self.new.most ≡ self.old.most }
        ensures strings { OnOk result (self.new.strings ≡ stored_with self.old.most self.old.strings (string.now.letters ∷ [])) }
        ensures unchanged { OnErr result (self.new ≡ self.old) }
        ensures err { IfErr result (λ r. r ≡ OutOfMemory) }
    {
        if self.strings.len() < self.most {
            let preserved = Rc::new(alloc, string.copy(alloc)?)?;
            self.strings.push(preserved)?;
        }
        Ok(())
    }

    /// Leaves the first ones, up to this many.
    pub fn truncate(&mut self, count: usize)
        ensures value { self.new ≡ cut_to count self.old }
    {
        self.strings.truncate(count);
        self.most = self.most.min(most_strings(self.qubits).max(count));
    }

    /// Leaves no more than the limit says, those that are there again counted.
    pub fn cut(&mut self)
        ensures value { self.new ≡ cut_to (most_of self.old.qubits) self.old }
    {
        let limit = most_strings(self.qubits);
        self.truncate(limit);
    }

    /// A copy of the first ones, up to this many.
    ///
    /// Refusal `OutOfMemory` alone.
    pub fn front(&self, alloc: Global, count: usize) -> Result<Pivots, Refusal>
        ensures value { IfOk result (λ k. k ≡ front_stored count self.now) }
        ensures err { IfErr result (λ r. r ≡ OutOfMemory) }
    {
        let (front, _) = self
            .strings
            .as_slice()
            .split_at(count.min(self.strings.len()));
        let strings = shared(alloc, front)?;
        let most = self.front_limit(count);
        Ok(Pivots {
            qubits: self.qubits,
            most,
            strings,
        })
    }

    /// How many may be stored in a copy of the first ones, up to this many.
    fn front_limit(&self, count: usize) -> usize
        ensures value { result ≡ (front_stored count self.now).most }
    {
        if count <= self.strings.len() {
            most_strings(self.qubits).max(count)
        } else {
            self.most
        }
    }

    /// Keeps no further ones.
    pub fn close(&mut self)
        ensures value { self.new ≡ record self.old { most = length self.old.strings } }
    {
        self.most = self.strings.len();
    }

    /// Puts others after these, from the one with this number on, as far as there may be as many.
    ///
    /// Refusal `OutOfMemory` alone.
    pub fn append_rest(&mut self, other: &Pivots, from: usize) -> Result<(), Refusal>
        requires same_length { other.now.qubits ≡ self.old.qubits }
        ensures qubits { self.new.qubits ≡ self.old.qubits }
        ensures most { self.new.most ≡ self.old.most }
        ensures strings { OnOk result (self.new.strings ≡ stored_with self.old.most self.old.strings (drop from other.now.strings)) }
        ensures err { IfErr result (λ r. r ≡ OutOfMemory) }
    {
        let (_, rest) = other
            .strings
            .as_slice()
            .split_at(from.min(other.strings.len()));
        self.append(rest)
    }

    /// Puts strings of this list after the others again, from the one with a number up to another's, and lets it
    /// keep as many more.
    ///
    /// Refusal `OutOfMemory` alone.
    pub fn append_again(&mut self, from: usize, to: usize) -> Result<(), Refusal>
        ensures qubits { self.new.qubits ≡ self.old.qubits }
        ensures most { self.old.most ≤ self.new.most }
        ensures value { OnOk result (self.new ≡ stored_again from to self.old) }
        ensures err { IfErr result (λ r. r ≡ OutOfMemory) }
    {
        let end = to.min(self.len());
        for number in from..end {
            self.share_again(number)?;
        }
        Ok(())
    }

    /// Puts the string with a number after the others again, and lets the list keep one more.
    fn share_again(&mut self, number: usize) -> Result<(), Refusal>
        requires in_range { number < length self.old.strings }
        ensures qubits { self.new.qubits ≡ self.old.qubits }
        ensures most { self.old.most ≤ self.new.most }
        ensures value { OnOk result (self.new ≡ record self.old { most = self.old.most + 1; strings = self.old.strings ++ slice_index_or self.old.strings number [] ∷ [] }) }
        ensures err { IfErr result (λ r. r ≡ OutOfMemory) }
    {
        let string = self.strings[number].clone()?;
        self.strings.push(string)?;
        self.most += 1;
        Ok(())
    }

    /// Puts strings that another list keeps too after these, as far as there may be as many.
    fn append(&mut self, strings: &[Rc<Pauli>]) -> Result<(), Refusal>
        requires same_length { All (λ p. length p.value.letters ≡ self.old.qubits) strings.now }
        ensures qubits { self.new.qubits ≡ self.old.qubits }
        ensures most { self.new.most ≡ self.old.most }
        ensures strings { OnOk result (self.new.strings ≡ stored_with self.old.most self.old.strings (map (λ p. p.value.letters) strings.now)) }
        ensures err { IfErr result (λ r. r ≡ OutOfMemory) }
    {
        // What a struct keeps is known once a field of it is looked at.
        let _ = &self.strings;
        for string in strings {
            self.share(string)?;
        }
        Ok(())
    }

    /// Puts a string that another list keeps too after the others, unless as many are stored as may be.
    fn share(&mut self, string: &Rc<Pauli>) -> Result<(), Refusal>
        requires same_length { length string.now.value.letters ≡ self.old.qubits }
        ensures qubits { self.new.qubits ≡ self.old.qubits }
        ensures most { self.new.most ≡ self.old.most }
        ensures strings { OnOk result (self.new.strings ≡ stored_with self.old.most self.old.strings (string.now.value.letters ∷ [])) }
        ensures err { IfErr result (λ r. r ≡ OutOfMemory) }
    {
        if self.strings.len() < self.most {
            self.strings.push(string.clone()?)?;
        }
        Ok(())
    }

    /// The one with a number, counted from 0.
    pub fn string(&self, number: usize) -> &Pauli
        requires in_range { number < length self.now.strings }
        ensures letters { result.now.letters ≡ slice_index_or self.now.strings number [] }
        ensures length { length result.now.letters ≡ self.now.qubits }
    {
        &self.strings[number]
    }
}

/// Strings that two lists share.
fn shared(alloc: Global, strings: &[Rc<Pauli>]) -> Result<Vec<Rc<Pauli>>, AllocError>
    ensures letters { IfOk result (λ s. map (λ p. p.value.letters) s.items ≡ map (λ p. p.value.letters) strings.now) }
{
    let mut list = Vec::new(alloc);
    for string in strings {
        list.push(string.clone()?)?;
    }
    Ok(list)
}

/// How many strings of n letters are stored at most.
fn most_strings(n: usize) -> usize
    ensures value { result ≡ most_of n }
{
    16_777_216 / (n / 4 + 128)
}
