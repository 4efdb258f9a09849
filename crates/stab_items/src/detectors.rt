//! Detectors one after the other, as items do.
ghost use Rattle.std.specs.Prelude.{◌≡◌, ◌≤◌, true, length, take};
ghost use Rattle.std.specs.List.{list_all};
ghost use Rattle.stab_items.specs.Detectors.{detects};

use crate::item::Item;

/// Detectors, one after the other. Contracts see the numbers k of the `rec[-k]` of each.
#[derive(Clone, Copy)]
pub struct Detectors<'a> {
    items: &'a [Item],
    ghost all: { list_all detects items.now ≡ true },
}

/// How many items are detectors, up to the first that is none.
fn count_at_front(items: &[Item]) -> usize
    ensures within { result ≤ length items.now }
    ensures all { list_all detects (take result items.now) ≡ true }
{
    for (position, item) in items.iter().enumerate() {
        if item.detector().is_none() {
            return position;
        }
    }
    items.len()
}

impl<'a> Detectors<'a> {
    ghost use Rattle.std.specs.Prelude.{◌≡◌, ◌<◌, ◌≤◌, [], length, take, slice_index_or};
    ghost use Rattle.stab_items.specs.StepValues.{lookbacks_of};

    /// The detectors that are before all other items.
    pub fn at_front(items: &'a [Item]) -> Detectors<'a>
        ensures front { result.items.now ≡ take (length (lookbacks_of result)) items.now }
    {
        let (front, _) = items.split_at(count_at_front(items));
        Detectors { items: front }
    }

    /// How many there are.
    pub fn len(self) -> usize
        ensures value { result ≡ length (lookbacks_of self.entry) }
    {
        self.items.len()
    }

    /// The numbers k of the `rec[-k]` of the detector at a position.
    pub fn get(self, position: usize) -> &'a [u32]
        requires within { position < length (lookbacks_of self) }
        ensures value { result.now ≡ slice_index_or (lookbacks_of self.entry) position [] }
    {
        match self.items[position].detector() {
            Some(lookbacks) => lookbacks,
            None => unreachable!(),
        }
    }
}
