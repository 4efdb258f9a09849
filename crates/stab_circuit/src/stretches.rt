ghost use Rattle.std.specs.Prelude.{◌≡◌};

use crate::first_lines::{after_front, before_lines};
use crate::hashes::{STRETCH_SLOTS, stretch_hash};
use stab_items::Item;
use std::alloc::{AllocError, Global};

/// After this many lines at which no stretch was found except by its position, none is looked for by its first
/// bytes.
const PATIENCE: u32 = 65_536;

/// Stretches of this few lines are found by their position alone, since each is remembered again.
const FEW: u64 = 64;

/// Lines that were read, one after the other, how many they are, and the position of their first item in the
/// outermost list and the position after the last.
#[derive(Clone, Copy)]
pub(crate) struct Stretch<'a> {
    pub(crate) bytes: &'a [u8],
    pub(crate) lines: u64,
    pub(crate) first: usize,
    pub(crate) following: usize,
}

/// Lines that put the items there that are of no stretch: the text from the first of them on, and its
/// number.
#[derive(Clone, Copy)]
pub(crate) struct Run<'a> {
    pub(crate) front: &'a [u8],
    pub(crate) from: u64,
}

/// Lines that were taken at once: how many, and those after them, if there are any.
#[derive(Clone, Copy)]
pub(crate) struct Taken<'a> {
    pub(crate) lines: u64,
    pub(crate) after: Option<&'a [u8]>,
}

/// The newest stretch of a slot: its check and its number.
#[derive(Clone, Copy)]
struct Newest {
    check: u16,
    number: usize,
}

/// Stretches of lines, so that, if many lines come again in one order, they are not read one by one.
///
/// A stretch is looked for after the one that was found last, and elsewhere only if the text begins differently in
/// its first bytes. Copies are stretches too: so in a text that repeats itself each one is found where it is looked
/// for.
#[derive(Drop)]
pub(crate) struct Stretches<'a> {
    alloc: Global,
    /// The lines of the items after the last stretch, if neither a block nor its end is among
    /// them.
    pub(crate) run: Option<Run<'a>>,
    all: Vec<Stretch<'a>>,
    // The number of the stretch after the one that was found last.
    next: usize,
    // The newest stretch by each slot. What it says is tried, and nothing rests on it.
    table: Vec<Newest>,
    // How many lines there were since a stretch was found by its first bytes.
    misses: u32,
}

impl<'a> Stretches<'a> {
    ghost use Rattle.std.specs.Prelude.{◌≡◌, ◌∷◌, ◌++◌, [], None, OnOk, MatchOption};
    ghost use Rattle.std.specs.Option.{option_copied};
    ghost use Rattle.std.specs.List.{Contains};
    ghost use Rattle.stab_circuit.specs.inner.KnownLines.{IsCut};
    ghost use Rattle.stab_circuit.specs.inner.Stretches.{AreLineStretches, IsEnded};

    /// No stretches.
    pub(crate) fn new(alloc: Global) -> Stretches<'a>
        ensures all { result.all.items ≡ [] }
        ensures run { result.run ≡ None }
    {
        Stretches {
            alloc,
            run: None,
            all: Vec::new(alloc),
            next: 0,
            table: Vec::new(alloc),
            misses: 0,
        }
    }

    /// The stretch that a text begins with, and the lines after it, if there are any. One with few lines is
    /// found only right after a stretch.
    pub(crate) fn find(
        &mut self,
        after_stretch: bool,
        text: &'a [u8],
    ) -> Option<(Stretch<'a>, Option<&'a [u8]>)>
        ensures all { self.new.all.items ≡ self.old.all.items }
        ensures run { self.new.run ≡ self.old.run }
        ensures known { MatchOption result (Unit {0}) (λ p. Contains self.old.all.items p.0) }
        ensures front { MatchOption result (Unit {0}) (λ p. IsCut text.now p.0.bytes.now (option_copied p.1)) }
    {
        let next = self.next;
        let least = if after_stretch { 0 } else { FEW };
        if let Some(found) = self.at_front(next, least, text) {
            self.next = next.saturating_add(1);
            return Some(found);
        }
        let number = self.number_by_front(text);
        match self.at_front(number, FEW, text) {
            None => None,
            Some(found) => {
                self.next = number.saturating_add(1);
                self.misses = 0;
                Some(found)
            }
        }
    }

    /// The stretch of this number, if it has at least this many lines and the text begins with it, and the
    /// lines after it.
    #[inline]
    fn at_front(
        &self,
        number: usize,
        least: u64,
        text: &'a [u8],
    ) -> Option<(Stretch<'a>, Option<&'a [u8]>)>
        ensures known { MatchOption result (Unit {0}) (λ p. Contains self.now.all.items p.0) }
        ensures front { MatchOption result (Unit {0}) (λ p. IsCut text.now p.0.bytes.now (option_copied p.1)) }
    {
        if number >= self.all.len() {
            return None;
        }
        let stretch = self.all[number];
        if stretch.lines < least {
            return None;
        }
        match after_front(text, stretch.bytes) {
            Some(after) => Some((stretch, after)),
            None => None,
        }
    }

    /// The number of the newest stretch that may begin as the text does.
    fn number_by_front(&mut self, text: &[u8]) -> usize
        ensures all { self.new.all.items ≡ self.old.all.items }
        ensures run { self.new.run ≡ self.old.run }
    {
        if self.table.is_empty() || self.misses >= PATIENCE {
            return self.all.len();
        }
        self.misses += 1;
        let front = stretch_hash(text);
        match self.table.get(front.slot) {
            Some(newest) if newest.check == front.check => newest.number,
            _ => self.all.len(),
        }
    }

    /// Remembers a stretch.
    pub(crate) fn remember(&mut self, stretch: Stretch<'a>) -> Result<(), AllocError>
        ensures all { OnOk result (self.new.all.items ≡ self.old.all.items ++ stretch.entry ∷ []) }
        ensures run { self.new.run ≡ self.old.run }
    {
        if self.table.is_empty() {
            let none = Newest {
                check: 0,
                number: 0,
            };
            self.table = vec![in self.alloc; none; STRETCH_SLOTS]?;
        }
        let front = stretch_hash(stretch.bytes);
        if stretch.lines >= FEW && front.slot < self.table.len() {
            self.table[front.slot] = Newest {
                check: front.check,
                number: self.all.len(),
            };
        }
        self.all.push(stretch)?;
        Ok(())
    }

    /// Remembers the run that ends before this line, with which the rest begins, and whose items are those
    /// from a position on.
    #[tactic(auto, using(crate::proofs::StretchLemmas::one_more))]
    pub(crate) fn end_run(
        &mut self,
        items: &[Item],
        first: usize,
        line: u64,
        rest: &'a [u8],
    ) -> Result<(), AllocError>
        requires known { AreLineStretches items.now self.old }
        requires ended { MatchOption self.old.run (Unit {0}) (IsEnded items.now first line rest.now) }
        ensures known { OnOk result (AreLineStretches items.now self.new) }
        ensures run { OnOk result (self.new.run ≡ None) }
    {
        let Some(run) = self.run else {
            return Ok(());
        };
        self.run = None;
        let lines = line.saturating_sub(run.from);
        if lines == 0 {
            return Ok(());
        }
        let bytes = before_lines(run.front, Some(rest));
        self.remember(Stretch {
            bytes,
            lines,
            first,
            following: items.len(),
        })
    }
}
