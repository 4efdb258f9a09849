//! Going past items of two walks that have the same steps.
use super::{Level, Walk};
use crate::instruction_steps::step_count;
use crate::item::Item;
use crate::same::count_same_items;

impl<'a> Level<'a> {
    ghost use Rattle.std.specs.Prelude.{◌≡◌, ◌<◌, ◌+◌, ◌^◌, length, drop};

    /// The items from the position on.
    fn items_ahead(self) -> &'a [Item]
        ensures value { result.now ≡ drop self.entry.position self.entry.items.now }
        ensures room { self.entry.position + length result.now < 2 ^ 64 }
    {
        if self.position >= self.items.len() {
            return &[];
        }
        let (_, ahead) = self.items.split_at(self.position);
        ahead
    }
}

impl<'a> Walk<'a> {
    ghost use Rattle.std.specs.Prelude.{◌≡◌, ◌≤◌, ◌<◌, ◌+◌, ◌^◌, ◌++◌, [], length, take, drop};
    ghost use Rattle.std.specs.Bool.{OnTrue};
    ghost use Rattle.stab_items.specs.Items.{listed};
    ghost use Rattle.stab_items.specs.Steps.{unroll};
    ghost use Rattle.stab_items.specs.inner.Walks.{kind_steps, walk_left, IsWalk};

    /// Whether no step of the instruction under way is left, so that an item comes next.
    fn is_before_item(&self) -> bool
        ensures given { OnTrue result (drop self.now.within (kind_steps self.now.kind) ≡ []) }
    {
        match self.kind {
            Some(kind) => self.within >= step_count(kind),
            None => true,
        }
    }

    /// Goes past this many items of the innermost block.
    fn pass_items(&mut self, count: usize)
        requires walks { IsWalk self.old }
        requires given { drop self.old.within (kind_steps self.old.kind) ≡ [] }
        requires room { self.old.top.position + count < 2 ^ 64 }
        ensures walks { IsWalk self.new }
        ensures left { walk_left self.old ≡ unroll (listed (take count (drop self.old.top.position self.old.top.items.now))) ++ walk_left self.new }
    {
        self.top.position += count;
    }

    /// Goes past the items that come next in the innermost blocks of two walks, as far as they have the
    /// same steps, and says how many steps each walk has passed. Neither moves if either has given only
    /// some steps of an instruction.
    pub fn pass_same(&mut self, other: &mut Walk) -> usize
        requires walks { IsWalk self.old }
        requires other_walks { IsWalk other.old }
        ensures walks { IsWalk self.new }
        ensures other_walks { IsWalk other.new }
        ensures within { result ≤ length (walk_left self.old) }
        ensures other_within { result ≤ length (walk_left other.old) }
        ensures same { take result (walk_left self.old) ≡ take result (walk_left other.old) }
        ensures left { walk_left self.new ≡ drop result (walk_left self.old) }
        ensures other_left { walk_left other.new ≡ drop result (walk_left other.old) }
    {
        if !self.is_before_item() || !other.is_before_item() {
            return 0;
        }
        let same = count_same_items(self.top.items_ahead(), other.top.items_ahead());
        self.pass_items(same.items);
        other.pass_items(same.items);
        same.steps
    }
}
