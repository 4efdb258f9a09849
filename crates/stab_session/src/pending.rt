ghost use Rattle.std.specs.Prelude.{◌≡◌, Ok, None, OnErr, IfOk, IfErr};
ghost use Rattle.stab_io.specs.Refusals.{IsCallFault, whole};
ghost use Rattle.stab_items.specs.declared.edit.Edit.TheVariants.{Insert as inserting, Replace as replacing, Delete as deleting};
ghost use Rattle.stab_items.specs.Steps.{check_within};
ghost use Rattle.stab_items.specs.Views.{circuit_items};
ghost use Rattle.stab_items.specs.Edits.{list_refusal, verdict, put_item};
ghost use Rattle.stab_session.specs.inner.Pendings.{taken_back, item_back, finished_items, IsBegun};

use stab_circuit::{Circuit, Edit, Item, Path, Refused};
use stab_io::{Fault, Refusal};
use stab_items::Span;
use std::alloc::Global;

/// An edit that a circuit has, and that can be taken back without memory.
#[derive(Drop)]
pub enum Pending {
    Inserted(Path),
    /// With the old item.
    Replaced(Path, Item),
    /// With the item that is to be deleted, where the circuit has an unused one meanwhile.
    Deleted(Path, Item),
}

/// Makes an edit that can be taken back, if nothing refuses the edited circuit on n qubits. The
/// circuit then has the runs of the edited one.
pub fn begin(
    alloc: Global,
    circuit: &mut Circuit,
    n: usize,
    edit: Edit,
) -> Result<(Pending, Span), Refused>
    requires old_checked { check_within n (circuit_items circuit.old) ≡ None }
    ensures begun { IfOk result (λ b. IsBegun n edit circuit.old circuit.new b.0 b.1) }
    ensures unchanged { OnErr result (circuit.new ≡ circuit.old) }
    ensures refused { IfErr result (λ r. IsCallFault (verdict n edit circuit.old) r.fault) }
    ensures item { IfErr result (λ r. r.item ≡ put_item edit) }
{
    match edit {
        Edit::Insert { place, item } => insert(circuit, n, place, item),
        Edit::Replace { place, item } => replace(circuit, n, place, item),
        Edit::Delete { place } => delete(alloc, circuit, n, place),
    }
}

fn insert(
    circuit: &mut Circuit,
    n: usize,
    place: Path,
    item: Item,
) -> Result<(Pending, Span), Refused>
    requires old_checked { check_within n (circuit_items circuit.old) ≡ None }
    ensures begun { IfOk result (λ b. IsBegun n (inserting place item) circuit.old circuit.new b.0 b.1) }
    ensures unchanged { OnErr result (circuit.new ≡ circuit.old) }
    ensures refused { IfErr result (λ r. IsCallFault (verdict n (inserting place item) circuit.old) r.fault) }
    ensures item { IfErr result (λ r. r.item ≡ put_item (inserting place item)) }
{
    // This shows a proof that the circuit's blocks are nested at most 16 deep.
    let _ = circuit.items();
    match circuit.edit(n, Edit::Insert { place, item }) {
        Ok((span, _)) => Ok((Pending::Inserted(place), span)),
        Err(refused) => Err(refused),
    }
}

fn replace(
    circuit: &mut Circuit,
    n: usize,
    place: Path,
    item: Item,
) -> Result<(Pending, Span), Refused>
    requires old_checked { check_within n (circuit_items circuit.old) ≡ None }
    ensures begun { IfOk result (λ b. IsBegun n (replacing place item) circuit.old circuit.new b.0 b.1) }
    ensures unchanged { OnErr result (circuit.new ≡ circuit.old) }
    ensures refused { IfErr result (λ r. IsCallFault (verdict n (replacing place item) circuit.old) r.fault) }
    ensures item { IfErr result (λ r. r.item ≡ put_item (replacing place item)) }
{
    // This shows a proof that the circuit's blocks are nested at most 16 deep.
    let _ = circuit.items();
    match circuit.edit(n, Edit::Replace { place, item }) {
        Ok((span, Some(old))) => Ok((Pending::Replaced(place, old), span)),
        Ok((_, None)) => unreachable!(),
        Err(refused) => Err(refused),
    }
}

fn delete(
    alloc: Global,
    circuit: &mut Circuit,
    n: usize,
    place: Path,
) -> Result<(Pending, Span), Refused>
    requires old_checked { check_within n (circuit_items circuit.old) ≡ None }
    ensures begun { IfOk result (λ b. IsBegun n (deleting place) circuit.old circuit.new b.0 b.1) }
    ensures unchanged { OnErr result (circuit.new ≡ circuit.old) }
    ensures refused { IfErr result (λ r. IsCallFault (verdict n (deleting place) circuit.old) r.fault) }
    ensures item { IfErr result (λ r. r.item ≡ None) }
{
    // This shows a proof that the circuit's blocks are nested at most 16 deep.
    let _ = circuit.items();
    let item = Item::tick(alloc);
    match circuit.edit(n, Edit::Replace { place, item }) {
        Ok((span, Some(old))) => Ok((Pending::Deleted(place, old), span)),
        Ok((_, None)) => unreachable!(),
        Err(refused) => Err(Refused {
            fault: refused.fault,
            item: None,
        }),
    }
}

/// Finishes an edit. It takes no memory.
pub fn finish(circuit: &mut Circuit, pending: Pending)
    requires allowed { list_refusal (finished_items pending circuit.old) ≡ None }
    ensures value { finished_items pending circuit.old ≡ Ok circuit.new }
{
    match pending {
        Pending::Inserted(_) => {}
        Pending::Replaced(_, _) => {}
        Pending::Deleted(place, _) => match circuit.delete(place) {
            Ok(_) => {}
            Err(_) => unreachable!(),
        },
    }
}

/// Takes an edit back, and gives the item that it put in. It takes no memory.
fn take_back(circuit: &mut Circuit, pending: Pending) -> Option<Item>
    requires allowed { list_refusal (taken_back pending circuit.old) ≡ None }
    ensures value { taken_back pending circuit.old ≡ Ok circuit.new }
    ensures item { result ≡ item_back pending circuit.old }
{
    match pending {
        Pending::Inserted(place) => match circuit.delete(place) {
            Ok(item) => Some(item),
            Err(_) => unreachable!(),
        },
        Pending::Replaced(place, old) => match circuit.replace(place, old) {
            Ok(item) => Some(item),
            Err(_) => unreachable!(),
        },
        Pending::Deleted(place, old) => match circuit.replace(place, old) {
            Ok(_) => None,
            Err(_) => unreachable!(),
        },
    }
}

/// The refusal of an edit, which is taken back. It takes no memory.
pub fn refused(circuit: &mut Circuit, pending: Pending, refusal: Refusal) -> Refused
    requires allowed { list_refusal (taken_back pending circuit.old) ≡ None }
    ensures back { taken_back pending circuit.old ≡ Ok circuit.new }
    ensures item { result.item ≡ item_back pending circuit.old }
    ensures fault { result.fault ≡ whole refusal }
{
    Refused {
        fault: Fault::whole(refusal),
        item: take_back(circuit, pending),
    }
}
