//! The item that looks back too far, or after which the steps are too many.
//!
//! Items are counted as they are, and a block's rounds at its end: in the first round of a block
//! the fewest records are before an item of it, so a lookback that is refused is so in the first round.
use crate::line::content;
use crate::meanings::meaning;
use stab_instructions::{Count, Kind, Line};
use stab_io::Refusal;
use stab_items::{Step, furthest_of, step_at, step_count};
use std::alloc::{AllocError, Global};
use std::fmt::Write;

/// The most steps of a circuit.
const MOST_STEPS: u64 = 1_048_576;

/// An item for which a whole circuit is refused.
#[derive(Drop)]
pub(crate) struct RefusedItem {
    /// Its line, or that of its opening.
    pub(crate) line: u64,
    /// Its path, as scripts of edits have it, and the round if it is in a block.
    pub(crate) path: String,
    /// How many records are before it.
    pub(crate) records: u64,
    /// How many steps the whole text has, or 2^64 - 1 if there are more.
    pub(crate) steps_of_text: u64,
}

/// An item's position in the innermost block around it, and how many steps and records are before it.
#[derive(Clone, Copy)]
struct Before {
    position: u64,
    steps: u64,
    records: u64,
}

/// A block around the next item: its line, its count of rounds, and what is before it.
#[derive(Clone, Copy)]
struct EnclosingBlock {
    line: u64,
    count: Count,
    before: Before,
}

/// A search through a text: the blocks around the next item, what is before it, and the first item for
/// which the circuit is refused, if it was met.
#[derive(Drop)]
struct ItemSearch {
    alloc: Global,
    refusal: Refusal,
    blocks: Vec<EnclosingBlock>,
    now: Before,
    found: Option<RefusedItem>,
}

/// The first item of a text for which the whole circuit is refused, by 8 or 9.
pub(crate) fn find_item(
    alloc: Global,
    text: &[u8],
    refusal: Refusal,
) -> Result<Option<RefusedItem>, AllocError> {
    let mut search = ItemSearch {
        alloc,
        refusal,
        blocks: Vec::new(alloc),
        now: Before {
            position: 0,
            steps: 0,
            records: 0,
        },
        found: None,
    };
    let mut number: u64 = 0;
    for line in text.split(|byte| *byte == b'\n') {
        number = number.saturating_add(1);
        search.take_line(number, content(line))?;
    }
    let Some(mut item) = search.found.take() else {
        return Ok(None);
    };
    item.steps_of_text = search.now.steps;
    Ok(Some(item))
}

impl ItemSearch {
    fn take_line(&mut self, number: u64, content: &[u8]) -> Result<(), AllocError> {
        match meaning(self.alloc, content) {
            Ok(line) => self.take(number, &line),
            Err(Refusal::OutOfMemory) => Err(AllocError),
            Err(_) => Ok(()),
        }
    }

    fn take(&mut self, number: u64, line: &Line) -> Result<(), AllocError> {
        match line {
            Line::Blank => Ok(()),
            Line::Open { count, .. } => self.open(number, *count),
            Line::Close => self.close(),
            Line::Operation(operation) => self.take_operation(number, &operation.kind),
        }
    }

    fn open(&mut self, line: u64, count: Count) -> Result<(), AllocError> {
        let before = self.now;
        self.blocks.push(EnclosingBlock {
            line,
            count,
            before,
        })?;
        self.now.position = 0;
        Ok(())
    }

    /// Counts all rounds of the innermost block.
    fn close(&mut self) -> Result<(), AllocError> {
        let Some(block) = self.blocks.pop() else {
            return Ok(());
        };
        let before = block.before;
        let rounds = block.count.number();
        self.now = Before {
            position: before.position,
            steps: after_rounds(before.steps, self.now.steps, rounds),
            records: after_rounds(before.records, self.now.records, rounds),
        };
        self.end_item(block.line)
    }

    fn take_operation(&mut self, line: u64, kind: &Kind) -> Result<(), AllocError> {
        if self.refusal == Refusal::LookbackTooFar && furthest_lookback(kind) > self.now.records {
            self.note(line)?;
        }
        let steps = step_count(kind) as u64;
        self.now.steps = self.now.steps.saturating_add(steps);
        if let Some(Step::Collapse { recorded: true, .. } | Step::Product { .. }) = step_at(
            kind, 0,
        ) {
            self.now.records = self.now.records.saturating_add(steps);
        }
        self.end_item(line)
    }

    /// Goes on to the next item.
    fn end_item(&mut self, line: u64) -> Result<(), AllocError> {
        if self.refusal == Refusal::TooManySteps && self.now.steps > MOST_STEPS {
            self.note(line)?;
        }
        self.now.position = self.now.position.saturating_add(1);
        Ok(())
    }

    /// Notes the item at the position, unless an earlier one was found.
    fn note(&mut self, line: u64) -> Result<(), AllocError> {
        if self.found.is_some() {
            return Ok(());
        }
        let mut path = String::new(self.alloc);
        for block in self.blocks.iter() {
            write!(path, "{}/", block.before.position)?;
        }
        write!(path, "{}", self.now.position)?;
        if !self.blocks.is_empty() {
            path.push_str(", in the first round of its block")?;
        }
        self.found = Some(RefusedItem {
            line,
            path,
            records: self.now.records,
            steps_of_text: 0,
        });
        Ok(())
    }
}

/// How far back an instruction looks, or 0.
pub(crate) fn furthest_lookback(kind: &Kind) -> u64 {
    let mut furthest = 0;
    for index in 0..step_count(kind) {
        if let Some(step) = step_at(kind, index) {
            furthest = furthest_of(furthest, step);
        }
    }
    u64::from(furthest)
}

/// A number after all rounds of a block, of that before it and that after its first round.
fn after_rounds(before: u64, after_first: u64, rounds: u64) -> u64 {
    let of_round = after_first.saturating_sub(before);
    before.saturating_add(of_round.saturating_mul(rounds))
}
