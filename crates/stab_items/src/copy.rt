ghost use Rattle.std.specs.Prelude.{◌≡◌, ◌≤◌, ◌++◌, length, take, drop, IfOk, OnOk};

use crate::item::{Block, Head, Item, Node};
use std::alloc::{AllocError, Global};

/// A copy of an item. It shares an instruction that the item shares.
#[cycle(copying)]
pub fn copied_item(alloc: Global, item: &Item) -> Result<Item, AllocError>
    ensures ok { IfOk result (λ i. i ≡ item.now) }
{
    match &item.node {
        Node::Tick => Ok(Item { node: Node::Tick }),
        Node::Instruction(instruction) => Ok(Item::shared(instruction.clone()?)),
        Node::Block(block) => {
            let body = copied_items(alloc, block.body.as_slice())?;
            let head = copied_head(alloc, &block.head)?;
            let block = Box::new(alloc, Block { head, body })?;
            Ok(Item {
                node: Node::Block(block),
            })
        }
    }
}

/// A copy of items.
#[cycle(copying)]
fn copied_items(alloc: Global, items: &[Item]) -> Result<Vec<Item>, AllocError>
    ensures ok { IfOk result (λ v. v.items ≡ items.now) }
{
    let mut all = Vec::with_capacity(alloc, items.len())?;
    for item in items {
        all.push(copied_item(alloc, item)?)?;
    }
    Ok(all)
}

/// A copy of what is known of a block.
fn copied_head(alloc: Global, head: &Head) -> Result<Head, AllocError>
    ensures ok { IfOk result (λ h. h ≡ head.now) }
{
    let tag = head.tag.copy(alloc)?;
    Ok(Head {
        count: head.count,
        tag,
        stored: head.stored,
    })
}

/// A copy of an item of a long list: of an instruction, as most are, without a call.
#[inline]
fn listed_copy(alloc: Global, item: &Item) -> Result<Item, AllocError>
    ensures ok { IfOk result (λ i. i ≡ item.now) }
{
    match &item.node {
        Node::Instruction(instruction) => Ok(Item::shared(instruction.clone()?)),
        Node::Tick | Node::Block(_) => copied_item(alloc, item),
    }
}

/// Puts copies of some items after all of them.
pub fn push_copies(
    alloc: Global,
    items: &mut Vec<Item>,
    first: usize,
    following: usize,
) -> Result<(), AllocError>
    requires within { following ≤ length items.old.items }
    requires order { first ≤ following }
    ensures ok { OnOk result (items.new.items ≡ items.old.items ++ drop first (take following items.old.items)) }
{
    for position in first..following {
        let copy = listed_copy(alloc, &items[position])?;
        items.push(copy)?;
    }
    Ok(())
}
