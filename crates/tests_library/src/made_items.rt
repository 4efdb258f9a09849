//! An item that a caller makes, and does not read.
use stab_instructions::{Kind, Operation, Sequence};
use stab_items::{Instruction, Item};
use std::alloc::{AllocError, Global};

/// The item of `TICK[by hand]`.
pub fn tagged_tick(alloc: Global) -> Result<Item, AllocError> {
    let tag = Sequence::of_bytes(alloc, b"by hand")?;
    let operation = Operation {
        kind: Kind::Tick,
        tag,
    };
    Item::operation(alloc, Instruction::new(operation))
}
