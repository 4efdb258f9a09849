ghost use Rattle.std.specs.Prelude.{◌≡◌};
ghost use Rattle.stab_instructions.specs.Rules.{IsTag};

use crate::first_lines::{before_lines, first_instruction, meaning_after};
use crate::known_lines::KnownLines;
use crate::line::content;
use crate::meanings::meaning;
use stab_instructions::{Count, Line, Sequence, first_piece};
use stab_io::{Fault, Refusal};
use stab_items::{Instruction, Item, items_summary};
use std::alloc::Global;
use std::mem;

/// A block that is open: its line, count and tag, and the items before it.
#[derive(Drop)]
pub struct OpenBlock {
    line: u64,
    count: Count,
    tag: Sequence<u8>,
    before: Vec<Item>,
    ghost good: { IsTag tag },
}

/// The first items of the outermost list, the open blocks, the innermost last, and the items read in
/// that block, or, if no block is open, those after the first.
#[derive(Drop)]
pub struct CircuitReader {
    pub(crate) alloc: Global,
    pub(crate) outer: Vec<Item>,
    pub(crate) open_blocks: Vec<OpenBlock>,
    pub(crate) items: Vec<Item>,
}

impl CircuitReader {
    ghost use Rattle.std.specs.Prelude.{◌≡◌, ◌<◌, length, Ok, OnOk, IfOk, IfErr, MatchOption};
    ghost use Rattle.std.specs.Option.{option_copied};
    ghost use Rattle.stab_io.specs.declared.refusal.Refusal.TheVariants.{OutOfMemory};
    ghost use Rattle.stab_instructions.specs.Lines.{content_of};
    ghost use Rattle.stab_instructions.specs.Results.{Gives};
    ghost use Rattle.stab_circuit.specs.inner.Readers.{progress_of, before_reading, stepped, opening, closing, finished, is_whole as whole_of, meaning_at, TakesLine, TakesFirst, with_instruction, with_read_item, ReadsItems, IsShallowProgress};
    ghost use Rattle.stab_circuit.specs.inner.KnownLines.{IsOneLine, IsMeant, Means};

    pub(crate) fn new(alloc: Global) -> CircuitReader
        ensures value { progress_of result ≡ before_reading }
    {
        CircuitReader {
            alloc,
            outer: Vec::new(alloc),
            open_blocks: Vec::new(alloc),
            items: Vec::new(alloc),
        }
    }

    /// The items, if no block is open.
    pub(crate) fn finish(self) -> Result<Vec<Item>, Fault>
        ensures gives { ReadsItems result (finished (progress_of self)) }
    {
        let CircuitReader {
            alloc: _,
            mut outer,
            mut open_blocks,
            mut items,
        } = self;
        match open_blocks.pop() {
            Some(open_block) => Err(Fault {
                refusal: Refusal::BadBlock,
                line: open_block.line,
            }),
            None => {
                outer.append(&mut items)?;
                Ok(outer)
            }
        }
    }

    /// Whether a whole item was read.
    #[tactic(auto, using(crate::proofs::ReadLineLemmas::is_whole_stored))]
    fn is_whole(&self) -> bool
        ensures value { result ≡ whole_of (progress_of self.now) }
    {
        let none = self.outer.is_empty();
        self.open_blocks.is_empty() && !(none && self.items.is_empty())
    }

    /// What a content means here, perhaps in one item's text.
    fn found(&self, single: bool, content: &[u8]) -> Result<Line, Refusal>
        ensures gives { Gives result (meaning_at single (progress_of self.now) content.now) }
    {
        if single && self.is_whole() {
            meaning_after(content)
        } else {
            meaning(self.alloc, content)
        }
    }

    /// Takes the first line of a text, and gives the lines after it, if there are any.
    pub(crate) fn take_first<'a>(
        &mut self,
        single: bool,
        line: u64,
        text: &'a [u8],
        known: &mut KnownLines<'a>,
    ) -> Result<Option<&'a [u8]>, Refusal>
        requires shallow { IsShallowProgress (progress_of self.old) }
        ensures gives { TakesFirst single line text.entry.now (progress_of self.old) (progress_of self.new) result }
        ensures shorter { IfOk result (λ after. MatchOption (option_copied after) (Unit {0}) (λ rest. length rest < length text.entry.now)) }
        ensures outer { OnOk result (self.new.outer.items ≡ self.old.outer.items) }
    {
        // If only one item is read, a line after it means no more, and in blocks few lines come again.
        if single || !self.open_blocks.is_empty() {
            return self.take_new(single, line, text, known);
        }
        match known.find(text) {
            Err(_) => Err(Refusal::OutOfMemory),
            Ok(Some(found)) => {
                self.put(found.item)?;
                Ok(found.after)
            }
            Ok(None) => self.take_new(single, line, text, known),
        }
    }

    /// Takes the first line of a text, which is not known, and gives the lines after it.
    fn take_new<'a>(
        &mut self,
        single: bool,
        line: u64,
        text: &'a [u8],
        known: &mut KnownLines<'a>,
    ) -> Result<Option<&'a [u8]>, Refusal>
        requires shallow { IsShallowProgress (progress_of self.old) }
        ensures gives { TakesFirst single line text.entry.now (progress_of self.old) (progress_of self.new) result }
        ensures shorter { IfOk result (λ after. MatchOption (option_copied after) (Unit {0}) (λ rest. length rest < length text.entry.now)) }
        ensures outer { OnOk result (self.new.outer.items ≡ self.old.outer.items) }
    {
        if let Some((kind, after)) = first_instruction(self.alloc, single, text)? {
            let bytes = before_lines(text, after);
            self.take_instruction(Instruction::plain(kind), bytes, known)?;
            return Ok(after);
        }
        let (bytes, after) = first_piece(text, b'\n');
        self.take_content(single, line, content(bytes), bytes, known)?;
        Ok(after)
    }

    fn take_content<'a>(
        &mut self,
        single: bool,
        line: u64,
        content: &[u8],
        bytes: &'a [u8],
        known: &mut KnownLines<'a>,
    ) -> Result<(), Refusal>
        requires shallow { IsShallowProgress (progress_of self.old) }
        requires whole { IsOneLine bytes.now }
        requires content { content.now ≡ content_of bytes.now }
        ensures gives { TakesLine (progress_of self.new) result (stepped line (meaning_at single (progress_of self.old) content.now) (progress_of self.old)) }
        ensures outer { OnOk result (self.new.outer.items ≡ self.old.outer.items) }
    {
        let found = self.found(single, content)?;
        self.take(line, found, bytes, known)
    }

    #[tactic(auto, using(crate::proofs::KnownLineLemmas::opening_good))]
    fn take<'a>(
        &mut self,
        line: u64,
        found: Line,
        bytes: &'a [u8],
        known: &mut KnownLines<'a>,
    ) -> Result<(), Refusal>
        requires shallow { IsShallowProgress (progress_of self.old) }
        requires whole { IsOneLine bytes.now }
        requires means { IsMeant found bytes.now }
        ensures gives { TakesLine (progress_of self.new) result (stepped line (Ok found) (progress_of self.old)) }
        ensures outer { OnOk result (self.new.outer.items ≡ self.old.outer.items) }
    {
        match found {
            Line::Blank => Ok(()),
            Line::Operation(operation) => {
                self.take_instruction(Instruction::new(operation), bytes, known)
            }
            Line::Open { count, tag } => self.open(line, count, tag),
            Line::Close => self.close(),
        }
    }

    /// Takes an instruction, which a line means.
    fn take_instruction<'a>(
        &mut self,
        instruction: Instruction,
        bytes: &'a [u8],
        known: &mut KnownLines<'a>,
    ) -> Result<(), Refusal>
        requires whole { IsOneLine bytes.now }
        requires means { Means bytes.now instruction }
        ensures same { OnOk result (progress_of self.new ≡ with_instruction (progress_of self.old) instruction) }
        ensures fault { IfErr result (λ r. r ≡ OutOfMemory) }
        ensures outer { OnOk result (self.new.outer.items ≡ self.old.outer.items) }
    {
        let item = if self.open_blocks.is_empty() {
            known.remember(bytes, instruction)?
        } else {
            Item::operation(self.alloc, instruction)?
        };
        self.put(item)
    }

    /// Puts an item after the others.
    #[inline]
    #[tactic(auto, using(crate::proofs::ReadLineLemmas::stored_pushed))]
    fn put(&mut self, item: Item) -> Result<(), Refusal>
        ensures same { OnOk result (progress_of self.new ≡ with_read_item (progress_of self.old) item) }
        ensures fault { IfErr result (λ r. r ≡ OutOfMemory) }
        ensures outer { OnOk result (self.new.outer.items ≡ self.old.outer.items) }
    {
        self.items.push(item)?;
        Ok(())
    }

    fn open(&mut self, line: u64, count: Count, tag: Sequence<u8>) -> Result<(), Refusal>
        requires good { IsTag tag }
        ensures gives { TakesLine (progress_of self.new) result (opening line count tag (progress_of self.old)) }
        ensures outer { OnOk result (self.new.outer.items ≡ self.old.outer.items) }
    {
        if self.open_blocks.len() >= 16 {
            return Err(Refusal::TooDeep);
        }
        let empty = Vec::new(self.alloc);
        let before = mem::replace(&mut self.items, empty);
        self.open_blocks.push(OpenBlock {
            line,
            count,
            tag,
            before,
        })?;
        Ok(())
    }

    fn close(&mut self) -> Result<(), Refusal>
        requires shallow { IsShallowProgress (progress_of self.old) }
        ensures gives { TakesLine (progress_of self.new) result (closing (progress_of self.old)) }
        ensures outer { OnOk result (self.new.outer.items ≡ self.old.outer.items) }
    {
        match self.open_blocks.pop() {
            None => Err(Refusal::BadBlock),
            Some(open_block) => {
                let OpenBlock {
                    line: _,
                    count,
                    tag,
                    before,
                } = open_block;
                let body = mem::replace(&mut self.items, before);
                let stored = items_summary(body.as_slice());
                let item = Item::repeat(self.alloc, count, tag, body, stored)?;
                self.items.push(item)?;
                Ok(())
            }
        }
    }
}
