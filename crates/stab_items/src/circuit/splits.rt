ghost use Rattle.std.specs.Prelude.{◌≡◌, ◌<◌, ◌++◌, ◌^◌, Ok, Some, IfOk, IfErr, OnOk};
ghost use Rattle.stab_io.specs.Refusals.{IsCallFault};
ghost use Rattle.stab_items.specs.Splits.{parts_of_item as parts_of, refused_by};
ghost use Rattle.stab_items.specs.inner.Changes.{rounds_of};

use super::Circuit;
use crate::copy::copied_item;
use crate::item::{Item, Part};
use crate::path::Path;
use stab_instructions::Count;
use stab_io::{Fault, Refusal};
use std::alloc::{AllocError, Global};

/// Puts a copy of a block with this many rounds after others, if there are any.
fn push_rounds(
    alloc: Global,
    parts: &mut Vec<Item>,
    item: &Item,
    rounds: u64,
) -> Result<(), AllocError>
    requires few { rounds < 10 ^ 18 }
    ensures ok { OnOk result (parts.new.items ≡ parts.old.items ++ rounds_of rounds item.now) }
{
    if rounds == 0 {
        return Ok(());
    }
    let mut part = copied_item(alloc, item)?;
    part.set_rounds(Count::new(rounds));
    parts.push(part)?;
    Ok(())
}

/// Copies of a block with the rounds before a round, with that round, and with those after it.
fn copied_parts(
    alloc: Global,
    item: &Item,
    before: u64,
    following: u64,
) -> Result<Vec<Item>, AllocError>
    requires few_before { before < 10 ^ 18 }
    requires few_after { following < 10 ^ 18 }
    ensures ok { IfOk result (λ v. v.items ≡ rounds_of before item.now ++ (rounds_of 1 item.now ++ rounds_of following item.now)) }
{
    let mut parts = Vec::new(alloc);
    push_rounds(alloc, &mut parts, item, before)?;
    push_rounds(alloc, &mut parts, item, 1)?;
    push_rounds(alloc, &mut parts, item, following)?;
    Ok(parts)
}

/// What an item becomes if a round is split off.
fn parts_of_item(alloc: Global, item: &Item, round: u64) -> Result<Vec<Item>, Fault>
    ensures ok { IfOk result (λ v. parts_of round (Some item.now) ≡ Ok v.items) }
    ensures fault { IfErr result (λ f. IsCallFault (refused_by (parts_of round (Some item.now))) f) }
{
    let count = match item.part() {
        Part::Tick | Part::Operation { .. } => {
            return Err(Fault::whole(Refusal::NotABlock));
        }
        Part::Block { count, .. } => count.number(),
    };
    if round >= count {
        return Err(Fault::whole(Refusal::PlaceOutOfRange));
    }
    match copied_parts(alloc, item, round, count - (round + 1)) {
        Ok(parts) => Ok(parts),
        Err(_) => Err(Fault::whole(Refusal::OutOfMemory)),
    }
}

impl Circuit {
    ghost use Rattle.std.specs.Prelude.{◌≡◌, ◌<◌, Ok, Some, None, length, OnOk, OnErr, IfErr};
    ghost use Rattle.stab_io.specs.Refusals.{whole, IsCallFault};
    ghost use Rattle.stab_items.specs.declared.edit.Edit.TheVariants.{Insert as inserting, Replace as replacing, Delete as deleting};
    ghost use Rattle.stab_items.specs.Edits.{edited, edit_refusal, taken};
    ghost use Rattle.stab_io.specs.declared.refusal.Refusal.TheVariants.{OutOfMemory};
    ghost use Rattle.stab_items.specs.Splits.{split as after_split, split_refusal};
    ghost use Rattle.stab_items.specs.inner.Changes.{with_parts_at, AreAsDeep, AreBefore};

    /// Puts an item in before the one at a path, if nothing but lack of memory refuses that.
    fn put_one(&mut self, path: Path, item: Item) -> Result<(), Fault>
        requires allowed { edit_refusal (inserting path item) self.old ≡ None }
        ensures ok { OnOk result (edited (inserting path item) self.old ≡ Ok self.new) }
        ensures unchanged { OnErr result (self.new ≡ self.old) }
        ensures fault { IfErr result (λ f. f ≡ whole OutOfMemory) }
    {
        match self.insert(path, item) {
            Ok(()) => Ok(()),
            Err(refused) => Err(refused.fault),
        }
    }

    /// Takes the item at a path out, if nothing refuses that. It takes no memory.
    fn take_one(&mut self, path: Path)
        requires allowed { edit_refusal (deleting path) self.old ≡ None }
        ensures value { edited (deleting path) self.old ≡ Ok self.new }
    {
        match self.delete(path) {
            Ok(_) => {}
            Err(_) => unreachable!(),
        }
    }

    /// Puts an item in place of the one at a path, if nothing refuses that, and gives the old
    /// one. It takes no memory.
    fn exchange(&mut self, path: Path, item: Item) -> Item
        requires allowed { edit_refusal (replacing path item) self.old ≡ None }
        ensures value { edited (replacing path item) self.old ≡ Ok self.new }
        ensures taken { taken (replacing path item) self.old ≡ Some result }
    {
        match self.replace(path, item) {
            Ok(old) => old,
            Err(_) => unreachable!(),
        }
    }

    /// Puts parts in before the item at a path, from the last one on.
    fn put_before(&mut self, path: Path, mut parts: Vec<Item>) -> Result<(), Fault>
        requires deep { AreAsDeep path parts.items self.old }
        ensures ok { OnOk result (AreBefore path parts.items self.old self.new) }
        ensures unchanged { OnErr result (self.new ≡ self.old) }
        ensures fault { IfErr result (λ f. f ≡ whole OutOfMemory) }
    {
        // That no blocks are nested too deep is what lets edits of parts as deep pass.
        let _ = self.items();
        let Some(part) = parts.pop() else {
            return Ok(());
        };
        self.put_one(path, part)?;
        match self.put_before(path, parts) {
            Ok(()) => Ok(()),
            Err(fault) => {
                self.take_one(path);
                Err(fault)
            }
        }
    }

    /// Puts parts in place of the item at a path.
    fn put_parts(&mut self, path: Path, mut parts: Vec<Item>) -> Result<(), Fault>
        requires some { 0 < length parts.items }
        requires deep { AreAsDeep path parts.items self.old }
        ensures ok { OnOk result (with_parts_at path parts.items self.old ≡ Ok self.new) }
        ensures unchanged { OnErr result (self.new ≡ self.old) }
        ensures fault { IfErr result (λ f. f ≡ whole OutOfMemory) }
    {
        // That no blocks are nested too deep is what lets edits of parts as deep pass.
        let _ = self.items();
        let Some(last) = parts.pop() else {
            unreachable!()
        };
        let old = self.exchange(path, last);
        match self.put_before(path, parts) {
            Ok(()) => Ok(()),
            Err(fault) => {
                self.exchange(path, old);
                Err(fault)
            }
        }
    }

    /// Splits a round off the block at a path, counted from 0: the rounds before it become a block,
    /// that round becomes one by itself, and so do the rounds after it; an empty part is left out.
    ///
    /// Refused without a line: 12 if the path goes past a list or the block has no such round, 17
    /// if it goes into or to an item that is no block, 20. The circuit is then as before.
    pub fn split(&mut self, path: Path, round: u64) -> Result<(), Fault>
        ensures ok { OnOk result (after_split path round self.old ≡ Ok self.new) }
        ensures unchanged { OnErr result (self.new ≡ self.old) }
        ensures fault { IfErr result (λ f. IsCallFault (split_refusal path round self.old) f) }
    {
        let alloc = *self.items.allocator();
        let parts = match self.item(path) {
            Ok(item) => parts_of_item(alloc, item, round)?,
            Err(refusal) => return Err(Fault::whole(refusal)),
        };
        self.put_parts(path, parts)
    }
}
