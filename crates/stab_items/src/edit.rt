use crate::item::Item;
use crate::path::Path;
use stab_io::{Fault, Refusal};

/// An edit of a circuit, at a path.
#[derive(Drop)]
pub enum Edit {
    /// An item is put in before the place.
    Insert { place: Path, item: Item },
    /// An item is put in place of the one at the place.
    Replace { place: Path, item: Item },
    /// The item at the place is taken out.
    Delete { place: Path },
}

/// Which steps an edit changed: those from the first up to the one before the end of the outermost
/// item around its place, in the old steps and in the new ones. Steps are counted up to 1,048,577.
#[derive(Clone, Copy, Debug, PartialEq, Eq)]
pub struct Span {
    /// How many steps are before the place.
    pub first: usize,
    /// How many steps were before the end of the outermost item.
    pub old_end: usize,
    /// How many steps are before its end now.
    pub new_end: usize,
}

/// Why an edit was refused, with the item that it would have put in.
#[derive(Drop)]
pub struct Refused {
    pub fault: Fault,
    pub item: Option<Item>,
}

impl Edit {
    ghost use Rattle.std.specs.Prelude.{◌≡◌};
    ghost use Rattle.stab_io.specs.Refusals.{whole};
    ghost use Rattle.stab_items.specs.Edits.{edit_path, put_item};

    /// The path.
    pub(crate) fn path(&self) -> Path
        ensures value { result ≡ edit_path self.now }
    {
        match self {
            Edit::Insert { place, .. } | Edit::Replace { place, .. } | Edit::Delete { place } =>
                *place,
        }
    }

    /// The edit refused, with the item that it would have put in.
    pub(crate) fn refused(self, refusal: Refusal) -> Refused
        ensures item { result.item ≡ put_item self }
        ensures fault { result.fault ≡ whole refusal }
    {
        let item = match self {
            Edit::Insert { item, .. } | Edit::Replace { item, .. } => Some(item),
            Edit::Delete { .. } => None,
        };
        Refused {
            fault: Fault::whole(refusal),
            item,
        }
    }
}
