use crate::instruction::Instruction;
use crate::summary::Summary;
use stab_instructions::{Count, Kind, Sequence};
use std::alloc::{AllocError, Global};
use std::marker::Model;
use std::mem;
use std::rc::Rc;

/// An item of a circuit: an instruction or a block. Contracts see it without pointers.
///
/// A block keeps the summary of one round, and blocks are nested at most 16 deep.
#[cycle(item)]
#[derive(Drop)]
pub struct Item {
    pub(crate) node: Node,
}

/// What an item is.
#[cycle(item)]
#[derive(Drop)]
pub(crate) enum Node {
    // TICK without a tag, which takes no memory.
    Tick,
    // An instruction, which the same lines of a text share.
    Instruction(Rc<Instruction>),
    // A block has a box of its own, so that items stay small.
    Block(Box<Block>),
}

/// A block: what is known of it, and its items.
#[cycle(item)]
#[derive(Drop)]
pub(crate) struct Block {
    pub(crate) head: Head,
    pub(crate) body: Vec<Item>,
}

/// What is known of a block besides its items.
pub(crate) struct Head {
    pub(crate) count: Count,
    pub(crate) tag: Sequence<u8>,
    /// The summary of one round.
    pub(crate) stored: Summary,
}

// Written out, so that a proof sees the drop of a value as one call, and not one for each of its parts.
impl Drop for Head {
    fn drop(self) {
        let Head {
            count: _,
            tag: _,
            stored: _,
        } = self;
    }
}

// Long circuits are lists of items, which an edit moves.
const _: () = prove!(size_of::<Item>() <= 16);

impl Model for Item {
    ghost use Rattle.stab_items.specs.Items.{OneItem, depth_of};
    ghost use Rattle.stab_items.specs.inner.StoredItems.{item_code};

    ghost Value = { OneItem };

    ghost coded = { item_code };

    ghost use Rattle.stab_items.specs.inner.StoredSummaries.{shown, IsStored};

    ghost view = { λ i. shown i.node };

    ghost invariant = { λ i. IsStored i.node };

    ghost size = { depth_of };

    ghost use Rattle.stab_items.specs.inner.ItemSizes.{deep_le-depth};

    ghost size_decreases = { λ i h. deep_le-depth i.node };
}

/// What an item shows of itself.
#[derive(Clone, Copy)]
pub enum Part<'a> {
    /// `TICK` without a tag that keeps no instruction.
    Tick,
    Operation {
        kind: &'a Kind,
        /// Empty if there is none.
        tag: &'a [u8],
    },
    Block {
        count: Count,
        tag: &'a [u8],
        /// The summary of one round.
        stored: Summary,
        body: &'a [Item],
    },
}

impl Item {
    ghost use Rattle.std.specs.Prelude.{◌≡◌, ◌≤◌, [], Some, None, IfOk, IfSome, IfNone};
    ghost use Rattle.stab_instructions.specs.Rules.{IsTag};
    ghost use Rattle.stab_items.specs.Steps.{detector_of};
    ghost use Rattle.stab_items.specs.Nothings.{IsNothing};
    ghost use Rattle.stab_items.specs.Items.{operation as single, repeat as repeated, listed, before, done, depth, AreGood};
    ghost use Rattle.stab_items.specs.inner.Summaries.{summary_of, IsSummary, IsSumOf};
    ghost use Rattle.stab_items.specs.inner.Parts.{part_of, IsPart};
    ghost use Rattle.stab_items.specs.inner.Blocks.{with_rounds, with_body, IsInstruction};

    /// The item that is one instruction.
    pub fn operation(alloc: Global, instruction: Instruction) -> Result<Item, AllocError>
        ensures ok { IfOk result (λ i. i ≡ single instruction) }
    {
        let instruction = Rc::new(alloc, instruction)?;
        Ok(Item::shared(instruction))
    }

    /// The item that is one instruction, which others share. It takes no memory.
    #[inline]
    pub fn shared(instruction: Rc<Instruction>) -> Item
        ensures value { result ≡ single instruction.value }
    {
        Item {
            node: Node::Instruction(instruction),
        }
    }

    /// `TICK` without a tag, which stands for nothing: it has no step, and names no qubit and no
    /// observable. It takes no memory.
    #[tactic(auto, using(crate::proofs::NothingLemmas::tick_nothing))]
    pub fn tick(_alloc: Global) -> Item
        ensures nothing { IsNothing result }
    {
        Item { node: Node::Tick }
    }

    /// The item that is a block: its count of rounds, its tag, the items of one round and their
    /// summary.
    pub fn repeat(
        alloc: Global,
        count: Count,
        tag: Sequence<u8>,
        body: Vec<Item>,
        stored: Summary,
    ) -> Result<Item, AllocError>
        requires tag { IsTag tag }
        requires shallow { depth (listed body.items) ≤ 15 }
        requires sum { IsSumOf (listed body.items) stored }
        ensures ok { IfOk result (λ i. i ≡ repeated count tag (listed body.items)) }
    {
        let head = Head { count, tag, stored };
        let block = Box::new(alloc, Block { head, body })?;
        Ok(Item {
            node: Node::Block(block),
        })
    }

    /// What the item is.
    pub fn part(&self) -> Part<'_>
        ensures value { self.now ≡ part_of result }
        ensures stored { IsPart result }
    {
        match &self.node {
            Node::Tick => Part::Tick,
            Node::Instruction(instruction) => Part::Operation {
                kind: instruction.kind(),
                tag: instruction.tag(),
            },
            Node::Block(block) => Part::Block {
                count: block.head.count,
                tag: block.head.tag.as_slice(),
                stored: block.head.stored,
                body: block.body.as_slice(),
            },
        }
    }

    /// The numbers k of the `rec[-k]` of a detector, or `None` for any other item.
    pub fn detector(&self) -> Option<&[u32]>
        ensures some { IfSome result (λ ks. detector_of self.now ≡ Some ks.now) }
        ensures none { IfNone result (detector_of self.now ≡ None) }
    {
        match self.part() {
            Part::Operation {
                kind: Kind::Detector(located),
                ..
            } => Some(located.records()),
            Part::Tick | Part::Operation { .. } | Part::Block { .. } => None,
        }
    }

    /// Makes a block run this many rounds. An instruction stays as it is.
    pub fn set_rounds(&mut self, count: Count)
        ensures value { self.new ≡ with_rounds count self.old }
    {
        match &mut self.node {
            Node::Tick | Node::Instruction(_) => {}
            Node::Block(block) => block.head.count = count,
        }
    }

    /// Takes the items out of a block, which is then empty, or gives `None` for an instruction, which
    /// stays as it is. It takes no memory.
    pub fn take_body(&mut self) -> Option<Vec<Item>>
        ensures some { IfSome result (λ v. self.old ≡ with_body v.items self.old) }
        ensures shallow { IfSome result (λ v. depth (listed v.items) ≤ 15) }
        ensures left { self.new ≡ with_body [] self.old }
        ensures none { IfNone result (IsInstruction self.old) }
    {
        match &mut self.node {
            Node::Tick | Node::Instruction(_) => None,
            Node::Block(block) => {
                let empty = Vec::new(*block.body.allocator());
                block.head.stored = Summary::NONE;
                Some(mem::replace(&mut block.body, empty))
            }
        }
    }

    /// Puts these items in a block, in place of those in it, and renews what it keeps. An
    /// instruction stays as it is. It takes no memory.
    pub fn set_body(&mut self, items: Vec<Item>)
        requires shallow { depth (listed items.items) ≤ 15 }
        ensures value { self.new ≡ with_body items.items self.old }
    {
        match &mut self.node {
            Node::Tick | Node::Instruction(_) => {}
            Node::Block(block) => {
                block.head.stored = items_summary(items.as_slice());
                block.body = items;
            }
        }
    }

    /// The summary of the item, without a look at targets or at a block's body.
    #[inline]
    #[tactic(auto, using(crate::proofs::SummaryLemmas::tick_sum, crate::proofs::SummaryLemmas::instruction_sum))]
    pub fn summary(&self) -> Summary
        ensures value { result ≡ summary_of (before self.now done) }
        ensures small { IsSummary result }
        ensures good { AreGood (before self.now done) }
    {
        match &self.node {
            Node::Tick => Summary::NONE,
            Node::Instruction(instruction) => instruction.summary(),
            Node::Block(block) => block.head.stored.repeated(block.head.count.number()),
        }
    }
}

ghost use Rattle.std.specs.Prelude.{◌≡◌};
ghost use Rattle.stab_items.specs.Items.{listed, AreGood};
ghost use Rattle.stab_items.specs.inner.Summaries.{summary_of, IsSummary};

/// The summary of the items, by what each keeps.
#[tactic(auto, using(crate::proofs::SummaryLemmas::summary_taken, crate::proofs::GoodItemLemmas::items_good))]
pub fn items_summary(items: &[Item]) -> Summary
    ensures value { result ≡ summary_of (listed items.now) }
    ensures small { IsSummary result }
    ensures good { AreGood (listed items.now) }
{
    let mut all = Summary::NONE;
    for item in items {
        all = all.then(item.summary());
    }
    all
}
