ghost use Rattle.std.specs.Prelude.{◌≡◌, ◌+◌, ◌≤◌, ◌<◌, length, take, drop, replicate, slice_index_or};
ghost use Rattle.stab_items.specs.Items.{before, depth, done, listed};
ghost use Rattle.stab_items.specs.Steps.{unroll, most_steps};
ghost use Rattle.stab_items.specs.StepPaths.{paths_from, item_steps_left};
ghost use Rattle.stab_items.specs.inner.Parts.{part_of, IsPart};
ghost use Rattle.stab_items.specs.inner.StepItems.{IsFoundItem};

use super::Circuit;
use super::stretches::StepPosition;
use crate::instruction_steps::step_count;
use crate::item::{Item, Part};
use crate::path::Path;
use std::marker::Model;

/// The item that a step is of, and how many steps from there on are this item's in the same round
/// of the blocks around it.
#[derive(Clone, Copy, Debug, PartialEq, Eq)]
pub struct StepItem {
    pub path: Path,
    pub steps: usize,
}

/// An item in a list, and how many of its steps come before a step of it.
#[derive(Clone, Copy)]
struct FoundItem {
    position: usize,
    within: u32,
}

/// How many steps an item makes, by what a block keeps.
pub(super) fn item_steps(item: &Item) -> u32
    requires few { length (unroll (before item.now done)) ≤ most_steps }
    ensures value { result ≡ length (unroll (before item.now done)) }
{
    match item.part() {
        Part::Tick => 0,
        Part::Operation { kind, .. } => step_count(kind) as u32,
        Part::Block { count, stored, .. } => (count.number() * u64::from(stored.steps)) as u32,
    }
}

/// What the item at a position is.
fn part_at(items: &[Item], position: usize) -> Part<'_>
    requires in_range { position < length items.now }
    ensures value { part_of result ≡ slice_index_or items.now position (part_of result) }
    ensures stored { IsPart result }
{
    items[position].part()
}

/// The item of a step of the items from a position on.
fn find_item(items: &[Item], position: usize, step: u32) -> FoundItem
    requires few { length (unroll (listed items.now)) ≤ most_steps }
    requires in_range { step < length (unroll (listed (drop position items.now))) }
    ensures found { IsFoundItem items.now position step result }
    ensures steps { length (unroll (listed (take result.position items.now))) + result.within ≡ length (unroll (listed (take position items.now))) + step }
{
    let mut found = FoundItem {
        position,
        within: step,
    };
    'items: loop {
        let steps = item_steps(&items[found.position]);
        if found.within < steps {
            return found;
        }
        found.position += 1;
        found.within -= steps;
    }
}

/// The item of a step of an item in a list.
fn item_within(items: &[Item], first: FoundItem) -> StepItem
    requires few { length (unroll (listed items.now)) ≤ most_steps }
    requires shallow { depth (listed items.now) ≤ 16 }
    requires in_range { first.position < length items.now }
    requires within { first.within + length (unroll (listed (drop (first.position + 1) items.now))) < length (unroll (listed (drop first.position items.now))) }
    ensures some { 0 < result.steps }
    ensures steps { result.steps ≡ item_steps_left (listed (drop first.position items.now)) first.within }
    ensures path { take result.steps (drop first.within (paths_from first.position (listed (drop first.position items.now)))) ≡ replicate result.steps result.path }
{
    let mut items = items;
    let mut found = first;
    let mut positions = [0; 17];
    let mut depth = 0;
    'levels: loop {
        positions[depth] = found.position;
        match part_at(items, found.position) {
            // It has no step.
            Part::Tick => unreachable!(),
            Part::Operation { kind, .. } => {
                return StepItem {
                    path: Path::new(&positions[..depth + 1]),
                    steps: step_count(kind) - found.within as usize,
                };
            }
            Part::Block { stored, body, .. } => {
                items = body;
                depth += 1;
                found = find_item(body, 0, found.within % stored.steps);
            }
        }
    }
}

/// Finds the items of steps of a circuit, each from the item of the last one on if it isn't before it. Contracts see the circuit.
#[derive(Drop)]
pub struct StepItems<'a> {
    circuit: &'a Circuit,
    /// The item of the outermost list that was found last, and how many steps come before it.
    position: usize,
    before: u32,
}

impl<'a> Model for StepItems<'a> {
    ghost use Rattle.std.specs.Prelude.{◌≡◌, ◌≤◌, List, length, take};
    ghost use Rattle.stab_items.specs.Items.{OneItem, listed};
    ghost use Rattle.stab_items.specs.Steps.{unroll};

    ghost Value = { List OneItem };

    ghost use Rattle.stab_items.specs.inner.StoredItems.{entries_code};

    ghost coded = { entries_code };

    ghost view = { λ s. s.circuit.now };

    ghost invariant = { λ s. (s.position ≤ length s.circuit.now) × (s.before ≡ length (unroll (listed (take s.position s.circuit.now)))) };
}

impl<'a> StepItems<'a> {
    ghost use Rattle.std.specs.Prelude.{◌≡◌, ◌≤◌, ◌<◌, ◌+◌, None, length, take, drop, replicate};
    ghost use Rattle.stab_items.specs.Items.{listed};
    ghost use Rattle.stab_items.specs.Steps.{unroll, check_of, most_steps};
    ghost use Rattle.stab_items.specs.Views.{circuit_items};
    ghost use Rattle.stab_items.specs.StepPaths.{paths_of, item_steps_left};

    /// Those of a circuit, of which none was found.
    pub fn new(circuit: &'a Circuit) -> StepItems<'a>
        ensures value { result ≡ circuit.entry.now }
    {
        StepItems {
            circuit,
            position: 0,
            before: 0,
        }
    }

    /// A position that is known before a step, and how many steps are between.
    fn position_before(&self, step: u32) -> StepPosition
        requires few { step ≤ most_steps }
        ensures within { result.position ≤ length self.now }
        ensures steps { length (unroll (listed (take result.position self.now))) + result.steps ≡ step }
    {
        if step < self.before {
            return self.circuit.position_before(step);
        }
        StepPosition {
            position: self.position,
            steps: step - self.before,
        }
    }

    /// The item of a step, as `Circuit::item_of_step` gives it.
    #[tactic(auto, using(crate::proofs::SummaryLemmas::few_steps, crate::proofs::StretchLemmas::steps_from_position))]
    pub fn item_of_step(&mut self, step: usize) -> StepItem
        requires checked { check_of (circuit_items self.old) ≡ None }
        requires in_range { step < length (unroll (circuit_items self.old)) }
        ensures circuit { self.new ≡ self.old }
        ensures some { 0 < result.steps }
        ensures steps { result.steps ≡ item_steps_left (circuit_items self.old) step }
        ensures path { take result.steps (drop step (paths_of (circuit_items self.old))) ≡ replicate result.steps result.path }
    {
        let items = self.circuit.items();
        let begin = self.position_before(step as u32);
        let found = find_item(items, begin.position, begin.steps);
        self.position = found.position;
        self.before = step as u32 - found.within;
        item_within(items, found)
    }
}

impl Circuit {
    ghost use Rattle.std.specs.Prelude.{◌≡◌, ◌<◌, None, length, take, drop, replicate};
    ghost use Rattle.stab_items.specs.Steps.{unroll, check_of};
    ghost use Rattle.stab_items.specs.Views.{circuit_items};
    ghost use Rattle.stab_items.specs.StepPaths.{paths_of, item_steps_left};

    /// The item of a step, counted from 0, and how many steps from there on are the item's in the
    /// same round. It takes no memory, and looks at no step.
    ///
    /// Asks that no lookback of the circuit goes too far and that it has no more steps than a
    /// circuit may have.
    #[tactic(auto, using(crate::proofs::SummaryLemmas::few_steps))]
    pub fn item_of_step(&self, step: usize) -> StepItem
        requires checked { check_of (circuit_items self.now) ≡ None }
        requires in_range { step < length (unroll (circuit_items self.now)) }
        ensures some { 0 < result.steps }
        ensures steps { result.steps ≡ item_steps_left (circuit_items self.now) step }
        ensures path { take result.steps (drop step (paths_of (circuit_items self.now))) ≡ replicate result.steps result.path }
    {
        let begin = self.position_before(step as u32);
        let mut items = StepItems {
            circuit: self,
            position: begin.position,
            before: step as u32 - begin.steps,
        };
        items.item_of_step(step)
    }
}
