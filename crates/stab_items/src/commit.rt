ghost use Rattle.std.specs.Prelude.{◌≡◌, Some, OnOk, OnErr, IfOk, IfErr};
ghost use Rattle.stab_items.specs.Edits.{changed, edited_in, edited_inside, inner, taken_at, taken_in, IsInsert};
ghost use Rattle.stab_items.specs.inner.Judgements.{IsShallow, IsShallowItem};

use crate::edit::Edit;
use crate::item::Item;
use std::mem;

/// Makes an edit in the innermost list around its place, and gives the item that it takes out. An
/// insertion alone takes memory; if that is refused the edit comes back.
fn commit_at(items: &mut Vec<Item>, edit: Edit) -> Result<Option<Item>, Edit>
    requires allowed { IsShallow (changed edit items.old.items) }
    ensures ok { OnOk result (changed edit items.old.items ≡ Ok items.new.items) }
    ensures taken { IfOk result (λ old. old ≡ taken_at edit items.old.items) }
    ensures edit { IfErr result (λ e. e ≡ edit) }
    ensures memory { OnErr result (IsInsert edit) }
    ensures unchanged { OnErr result (items.new.items ≡ items.old.items) }
{
    match edit {
        Edit::Insert { place, item } => match items.insert(place.position(), item) {
            Ok(()) => Ok(None),
            Err(refused) => Err(Edit::Insert {
                place,
                item: refused.value,
            }),
        },
        Edit::Replace { place, item } => {
            let old = mem::replace(&mut items[place.position()], item);
            Ok(Some(old))
        }
        Edit::Delete { place } => Ok(Some(items.remove(place.position()))),
    }
}

/// Makes an edit in nested blocks of a list, and renews what the blocks keep.
#[cycle(commit)]
pub(crate) fn commit(
    items: &mut Vec<Item>,
    blocks: &[usize],
    edit: Edit,
) -> Result<Option<Item>, Edit>
    requires allowed { IsShallow (edited_in edit blocks.now items.old.items) }
    ensures ok { OnOk result (edited_in edit blocks.now items.old.items ≡ Ok items.new.items) }
    ensures taken { IfOk result (λ old. old ≡ taken_in edit blocks.now items.old.items) }
    ensures edit { IfErr result (λ e. e ≡ edit) }
    ensures memory { OnErr result (IsInsert edit) }
    ensures unchanged { OnErr result (items.new.items ≡ items.old.items) }
{
    match blocks.split_first() {
        None => commit_at(items, edit),
        Some((block, others)) => commit_within(&mut items[*block], others, edit),
    }
}

/// Makes an edit in a block, and renews what it keeps.
#[cycle(commit)]
fn commit_within(item: &mut Item, blocks: &[usize], edit: Edit) -> Result<Option<Item>, Edit>
    requires allowed { IsShallowItem (edited_inside (edited_in edit blocks.now) (Some item.old)) }
    ensures ok { OnOk result (edited_inside (edited_in edit blocks.now) (Some item.old) ≡ Ok item.new) }
    ensures taken { IfOk result (λ old. old ≡ taken_in edit blocks.now (inner (Some item.old))) }
    ensures edit { IfErr result (λ e. e ≡ edit) }
    ensures memory { OnErr result (IsInsert edit) }
    ensures unchanged { OnErr result (item.new ≡ item.old) }
{
    let Some(mut body) = item.take_body() else {
        unreachable!()
    };
    let done = commit(&mut body, blocks, edit);
    item.set_body(body);
    done
}
