use crate::first_lines::after_front;
use crate::hashes::{Hash, LINE_SLOTS, NO_HASH, line_hash};
use stab_items::{Instruction, Item};
use std::alloc::{AllocError, Global};
use std::marker::Model;
use std::rc::Rc;

/// At most this many lines are remembered.
const MOST: usize = 65_535;

/// This many lines are remembered before the table is made: a short text pays nothing for it.
const FEW: usize = 256;

/// After this many lines that were not known, none is looked for any more.
const PATIENCE: u32 = 8192;

/// A line that was known makes up for this many that were not.
const WORTH: u32 = 4;

/// A line that was read, and the instruction that it means. Contracts see both.
struct KnownLine<'a> {
    bytes: &'a [u8],
    instruction: Rc<Instruction>,
}

// Written out, so that a proof sees the drop of a value as one call, and not one for each of its parts.
impl<'a> Drop for KnownLine<'a> {
    fn drop(self) {
        let KnownLine {
            bytes: _,
            instruction: _,
        } = self;
    }
}

impl<'a> Model for KnownLine<'a> {
    ghost use Rattle.std.specs.Prelude.{ℕ, List};
    ghost use Rattle.stab_instructions.specs.declared.operation.Operation.{Operation};
    ghost use Rattle.stab_circuit.specs.inner.KnownLines.{IsKnownLine};

    ghost Value = { List ℕ × Operation };

    ghost view = { λ l. (l.bytes.now, l.instruction.value) };

    ghost invariant = { λ l. IsKnownLine l.bytes.now l.instruction.value };
}

/// The item of a known line that a text begins with, and the lines after it, if there are any.
#[derive(Drop)]
pub(crate) struct FoundLine<'a> {
    pub(crate) item: Item,
    pub(crate) after: Option<&'a [u8]>,
}

/// The newest line of a slot: its check and its number.
#[derive(Clone, Copy)]
struct Newest {
    check: u16,
    number: u16,
}

/// Lines that were read, so that a line that comes again is not read again.
///
/// Circuits that are written out have the same lines in one order over and over. So a line is looked
/// for after the one that was found last, and elsewhere only if its first bytes are different.
#[derive(Drop)]
pub(crate) struct KnownLines<'a> {
    alloc: Global,
    lines: Vec<KnownLine<'a>>,
    // The number of the line that is looked for first, after the one that was found last.
    next: usize,
    // The newest line by each slot. What it says is tried, and nothing rests on it.
    table: Vec<Newest>,
    // What the line that was looked for last had.
    front: Hash,
    // How many lines were not known, less what those that were known make up for.
    misses: u32,
    gave_up: bool,
}

impl<'a> KnownLines<'a> {
    ghost use Rattle.std.specs.Prelude.{◌≡◌, ◌<◌, IfOk, MatchOption};
    ghost use Rattle.std.specs.Option.{option_copied};
    ghost use Rattle.stab_items.specs.Items.{operation};
    ghost use Rattle.stab_circuit.specs.inner.KnownLines.{IsOneLine, BeginsWithItem, Means};

    /// No lines. None will be remembered for a text that has no line twice, such as that of one item.
    pub(crate) fn new(alloc: Global, gave_up: bool) -> KnownLines<'a> {
        KnownLines {
            alloc,
            lines: Vec::new(alloc),
            next: 0,
            table: Vec::new(alloc),
            front: NO_HASH,
            misses: 0,
            gave_up,
        }
    }

    /// What is known of the line that a text begins with.
    pub(crate) fn find(&mut self, text: &'a [u8]) -> Result<Option<FoundLine<'a>>, AllocError>
        ensures front { IfOk result (λ found. MatchOption found (Unit {0}) (λ f. BeginsWithItem text.entry.now f.item (option_copied f.after))) }
    {
        let mut number = self.next;
        let mut found = self.at_front(number, text)?;
        if found.is_none() {
            number = self.number_by_front(text);
            found = self.at_front(number, text)?;
        }
        if found.is_some() {
            self.next = number.saturating_add(1);
            self.misses = self.misses.saturating_sub(WORTH);
        }
        Ok(found)
    }

    /// What is known of the line of this number, if the text begins with it.
    #[inline]
    fn at_front(&self, number: usize, text: &'a [u8]) -> Result<Option<FoundLine<'a>>, AllocError>
        ensures front { IfOk result (λ found. MatchOption found (Unit {0}) (λ f. BeginsWithItem text.entry.now f.item (option_copied f.after))) }
    {
        if number >= self.lines.len() {
            return Ok(None);
        }
        let known = &self.lines[number];
        match after_front(text, known.bytes) {
            None => Ok(None),
            Some(after) => Ok(Some(FoundLine {
                item: Item::shared(known.instruction.clone()?),
                after,
            })),
        }
    }

    /// The number of the newest line that may begin as the text does, and keeps its slot.
    fn number_by_front(&mut self, text: &[u8]) -> usize {
        if self.table.is_empty() {
            return self.lines.len();
        }
        self.front = line_hash(text);
        match self.table.get(self.front.slot) {
            Some(newest) if newest.check == self.front.check => usize::from(newest.number),
            _ => self.lines.len(),
        }
    }

    /// The item that is the instruction of the line that was looked for last and not found. The line is
    /// remembered with it, unless that seems to be no use.
    pub(crate) fn remember(
        &mut self,
        bytes: &'a [u8],
        instruction: Instruction,
    ) -> Result<Item, AllocError>
        requires whole { IsOneLine bytes.now }
        requires means { Means bytes.now instruction }
        ensures item { IfOk result (λ i. i ≡ operation instruction) }
    {
        if self.misses >= PATIENCE {
            self.give_up();
            return Item::operation(self.alloc, instruction);
        }
        self.misses += 1;
        // Often one line alone is another, and those after it come again.
        self.next = self.next.saturating_add(1);
        let number = self.lines.len();
        if self.gave_up || number >= MOST {
            return Item::operation(self.alloc, instruction);
        }
        self.take_slot(number)?;
        let instruction = Rc::new(self.alloc, instruction)?;
        let item = Item::shared(instruction.clone()?);
        self.lines.push(KnownLine { bytes, instruction })?;
        Ok(item)
    }

    /// Puts the number of a line into the slot of the line that was looked for last.
    fn take_slot(&mut self, number: usize) -> Result<(), AllocError>
        requires few { number < MOST }
    {
        if number == FEW {
            let none = Newest {
                check: 0,
                number: 0,
            };
            self.table = vec![in self.alloc; none; LINE_SLOTS]?;
        }
        let Hash { slot, check } = self.front;
        if slot < self.table.len() {
            self.table[slot] = Newest {
                check,
                number: number as u16,
            };
        }
        Ok(())
    }

    /// Forgets all lines, and remembers none from now on.
    fn give_up(&mut self) {
        self.lines.clear();
        self.table.clear();
        self.gave_up = true;
    }
}
