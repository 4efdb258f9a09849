use crate::one_drop::OneDrop;
use crate::stop::Stop;
use stab_circuit::{Item, Refused, read_item};
use stab_items::write_one_item;
use stab_pauli::{MemoryOutput, Refusal};
use std::alloc::Global;
use std::mem;

/// An item, or none.
pub type ItemSlot = OneDrop<Option<Item>>;

/// The item that a text stands for; none for an empty text.
pub fn item_of(alloc: Global, text: &[u8]) -> Result<ItemSlot, Stop> {
    if text.is_empty() {
        return Ok(OneDrop(None));
    }
    Ok(OneDrop(Some(read_item(alloc, text)?)))
}

/// Takes the item.
pub fn take_item(slot: &mut ItemSlot) -> Result<Item, Stop> {
    match mem::replace(slot, OneDrop(None)).value() {
        Some(item) => Ok(item),
        None => Err(Stop::from(Refusal::PlaceOutOfRange)),
    }
}

/// Puts the item of a refused edit back, and says the fault.
pub fn put_back(slot: &mut ItemSlot, refused: Refused) -> Stop {
    let Refused { fault, item } = refused;
    *slot = OneDrop(item);
    Stop(fault)
}

/// Writes the item.
pub fn show_item(out: &mut MemoryOutput, slot: &ItemSlot) -> Result<(), Stop> {
    match &slot.0 {
        Some(item) => Ok(write_one_item(out, item)?),
        None => Ok(()),
    }
}
