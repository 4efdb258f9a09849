ghost use Rattle.std.specs.Prelude.{◌≡◌, slice_get};
ghost use Rattle.stab_items.specs.inner.Judgements.{shown_item};
ghost use Rattle.stab_items.specs.ItemsAt.{item_there, found_inside, item_in as item_within, FindsItem};

use super::Circuit;
use crate::item::Item;
use crate::judge::block_at;
use crate::path::Path;
use stab_io::Refusal;

/// The item that was found, if there is one.
fn item_of(found: Option<&Item>) -> Result<&Item, Refusal>
    ensures value { FindsItem result (item_there (shown_item found.entry)) }
{
    match found {
        None => Err(Refusal::PlaceOutOfRange),
        Some(item) => Ok(item),
    }
}

/// The item at a position of a list.
fn item_of_list(items: &[Item], position: usize) -> Result<&Item, Refusal>
    ensures value { FindsItem result (item_there (slice_get items.now position)) }
{
    item_of(items.get(position))
}

/// The item at a position in nested blocks of a list.
#[cycle(finding)]
fn item_in<'a>(items: &'a [Item], blocks: &[usize], position: usize) -> Result<&'a Item, Refusal>
    ensures value { FindsItem result (item_within blocks.now position items.now) }
{
    match blocks.split_first() {
        None => item_of_list(items, position),
        Some((block, others)) => item_inside(items, *block, others, position),
    }
}

/// The item at a position in a block of a list and the blocks in it.
#[cycle(finding)]
fn item_inside<'a>(
    items: &'a [Item],
    block: usize,
    others: &[usize],
    position: usize,
) -> Result<&'a Item, Refusal>
    ensures value { FindsItem result (found_inside (item_within others.now position) (slice_get items.now block)) }
{
    match block_at(items, block) {
        Err(refusal) => Err(refusal),
        Ok(found) => item_in(found.body, others, position),
    }
}

impl Circuit {
    ghost use Rattle.std.specs.Prelude.{◌≡◌};
    ghost use Rattle.stab_items.specs.ItemsAt.{item_at, FindsItem};

    /// The item at the position of a path. It takes no memory.
    ///
    /// Refused by 12 and 17 along the path, as a replacement there is.
    pub fn item(&self, path: Path) -> Result<&Item, Refusal>
        ensures value { FindsItem result (item_at path self.now) }
    {
        item_in(self.items(), path.blocks(), path.position())
    }
}
