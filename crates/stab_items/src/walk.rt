ghost use Rattle.std.specs.Prelude.{◌≡◌, ◌<◌, ◌+◌, ◌^◌, slice_get, IfSome};
ghost use Rattle.stab_items.specs.StepValues.{step_shown, shown_step};
ghost use Rattle.stab_items.specs.Steps.{HasDistinctQubits};
ghost use Rattle.stab_items.specs.inner.Walks.{kind_steps};

mod same;
mod skip;

use crate::detectors::Detectors;
use crate::instruction_steps::step_at;
use crate::item::{Item, Part};
use crate::step::Step;
use crate::steps::{Steps, part, steps_from};
use stab_instructions::Kind;
use std::alloc::{AllocError, Global};

/// A position in a list of items, and how many rounds of the list come after this one.
#[derive(Clone, Copy)]
pub struct Level<'a> {
    items: &'a [Item],
    position: usize,
    rounds: u64,
}

impl<'a> Level<'a> {
    ghost use Rattle.stab_items.specs.inner.Walks.{IsItemOf};

    /// The item at the position, unless that is past the list.
    fn item(self) -> Option<&'a Item>
        ensures value { IsItemOf self.entry result }
    {
        self.items.get(self.position)
    }
}

/// A position within nested blocks.
pub struct Walk<'a> {
    // The instruction that is under way, and how many of its steps were given.
    kind: Option<&'a Kind>,
    within: usize,
    // The innermost block. It isn't stored with those around it, so that the common step leaves these alone.
    top: Level<'a>,
    // The outermost list first.
    around: Vec<Level<'a>>,
}

// Written out, so that a proof sees the drop of a value as one call, and not one for each of its parts.
impl Drop for Walk<'_> {
    fn drop(self) {
        let Walk {
            kind: _,
            within: _,
            top: _,
            around: _,
        } = self;
    }
}

impl<'a> Walk<'a> {
    ghost use Rattle.std.specs.Prelude.{◌≡◌, ◌≤◌, ◌<◌, ◌+◌, ◌∷◌, ◌++◌, [], Some, None, length, drop, map, IfOk, IfSome, IfNone};
    ghost use Rattle.stab_items.specs.Items.{depth, listed};
    ghost use Rattle.stab_items.specs.Steps.{unroll, detector, rounds as rounds_of, HasDistinctQubits};
    ghost use Rattle.stab_items.specs.StepValues.{step_shown, lookbacks_of, steps_shown, HaveDistinctQubits};
    ghost use Rattle.stab_items.specs.inner.Walks.{kind_steps, ahead, walk_left, walk_weight, weight_at, IsItemOf, IsWalk, SameKind, Takes, GoesOn, Reaches};

    /// A walk over items from a position on, with room for every level.
    #[tactic(auto, using(crate::proofs::WalkLemmas::begun_at))]
    pub fn new(alloc: Global, items: &'a [Item], position: usize) -> Result<Walk<'a>, AllocError>
        requires shallow { depth (listed items.now) ≤ 16 }
        ensures walks { IfOk result IsWalk }
        ensures left { IfOk result (λ w. walk_left w ≡ unroll (listed (drop position items.now))) }
        ensures none { IfOk result (λ w. w.kind ≡ None) }
    {
        let around = Vec::with_capacity(alloc, 16)?;
        Ok(Walk {
            kind: None,
            within: 0,
            top: Level {
                items,
                position,
                rounds: 0,
            },
            around,
        })
    }

    /// Back to the first of the items that the walk is over, which are these.
    #[tactic(auto, using(crate::proofs::WalkLemmas::begun_left))]
    pub fn restart(&mut self, items: &'a [Item])
        requires shallow { depth (listed items.now) ≤ 16 }
        requires walks { IsWalk self.old }
        ensures walks { IsWalk self.new }
        ensures left { walk_left self.new ≡ unroll (listed items.now) }
    {
        self.kind = None;
        self.within = 0;
        self.top = Level {
            items,
            position: 0,
            rounds: 0,
        };
        self.around.clear();
    }

    /// The next step of the instruction under way, unless it has no more.
    fn step(&mut self) -> Option<Step<'a>>
        requires walks { IsWalk self.old }
        ensures walks { IsWalk self.new }
        ensures some { IfSome result (λ s. walk_left self.old ≡ step_shown s ∷ walk_left self.new) }
        ensures distinct { IfSome result (λ s. HasDistinctQubits (step_shown s)) }
        ensures none { IfNone result ((self.new ≡ self.old) × (drop self.old.within (kind_steps self.old.kind) ≡ [])) }
    {
        let step = current(self.kind, self.within)?;
        self.within += 1;
        Some(step)
    }

    /// Goes past this item, which is at the position in the innermost block.
    fn take(&mut self, item: &'a Item)
        requires walks { IsWalk self.old }
        requires here { IsItemOf self.old.top (Some item) }
        ensures walks { IsWalk self.new }
        ensures same { SameKind self.old self.new }
        ensures taken { Takes self.old self.new item.now }
    {
        self.top.position += 1;
    }

    /// Goes into a block, to the first of one round and this many more.
    fn enter(&mut self, body: &'a [Item], more: u64)
        requires walks { IsWalk self.old }
        requires room { depth (listed body.now) + 1 + length self.old.around.items ≤ 16 }
        ensures walks { IsWalk self.new }
        ensures same { SameKind self.old self.new }
        ensures ahead { ahead self.new ≡ (unroll (listed body.now) ++ rounds_of more (unroll (listed body.now))) ++ ahead self.old }
        ensures weight { walk_weight self.new ≡ weight_at body.now 0 more + walk_weight self.old }
    {
        self.around.push_reserved(self.top);
        self.top = Level {
            items: body,
            position: 0,
            rounds: more,
        };
    }

    /// Goes to the next round of the innermost block, or out of it. False at the end of all.
    fn leave(&mut self) -> bool
        requires walks { IsWalk self.old }
        requires done { length self.old.top.items.now ≤ self.old.top.position }
        ensures walks { IsWalk self.new }
        ensures same { SameKind self.old self.new }
        ensures goes { GoesOn self.old self.new result }
    {
        if self.top.rounds > 0 {
            self.top.rounds -= 1;
            self.top.position = 0;
            return true;
        }
        match self.around.pop() {
            Some(level) => {
                self.top = level;
                true
            }
            None => false,
        }
    }

    /// The item that comes next, after the blocks that are at their end. `None` at the end of all.
    fn reach(&mut self) -> Option<&'a Item>
        requires walks { IsWalk self.old }
        ensures walks { IsWalk self.new }
        ensures same { SameKind self.old self.new }
        ensures reached { Reaches self.old self.new result }
    {
        'levels: loop {
            if let Some(item) = self.top.item() {
                return Some(item);
            }
            if !self.leave() {
                return None;
            }
        }
    }

    /// Begins this item, which is at the position, after an instruction that has no more steps.
    fn begin(&mut self, item: &'a Item)
        requires walks { IsWalk self.old }
        requires given { drop self.old.within (kind_steps self.old.kind) ≡ [] }
        requires here { IsItemOf self.old.top (Some item) }
        ensures walks { IsWalk self.new }
        ensures goes { (walk_left self.new ≡ walk_left self.old) × (walk_weight self.new < walk_weight self.old) }
    {
        self.take(item);
        match item.part() {
            Part::Tick => {}
            Part::Operation { kind, .. } => {
                self.kind = Some(kind);
                self.within = 0;
            }
            Part::Block {
                count,
                stored,
                body,
                ..
            } => {
                // A block without steps is passed whole, however many its rounds.
                if stored.steps > 0 {
                    self.enter(body, count.number() - 1);
                }
            }
        }
    }

    /// The next step, or `None` if none is left, and then for ever.
    pub fn next(&mut self) -> Option<Step<'a>>
        requires walks { IsWalk self.old }
        ensures walks { IsWalk self.new }
        ensures some { IfSome result (λ s. walk_left self.old ≡ step_shown s ∷ walk_left self.new) }
        ensures distinct { IfSome result (λ s. HasDistinctQubits (step_shown s)) }
        ensures none { IfNone result ((walk_left self.old ≡ []) × (walk_left self.new ≡ [])) }
    {
        'walk: loop {
            if let Some(step) = self.step() {
                return Some(step);
            }
            let item = self.reach()?;
            self.begin(item);
        }
    }

    /// The next steps of the instruction under way, up to this many, unless it has no more.
    fn steps(&mut self, most: usize) -> Option<Steps<'a>>
        requires walks { IsWalk self.old }
        requires some { 0 < most }
        ensures walks { IsWalk self.new }
        ensures some { IfSome result (λ s. walk_left self.old ≡ steps_shown s ++ walk_left self.new) }
        ensures within { IfSome result (λ s. (0 < length (steps_shown s)) × (length (steps_shown s) ≤ most)) }
        ensures distinct { IfSome result HaveDistinctQubits }
        ensures none { IfNone result ((self.new ≡ self.old) × (drop self.old.within (kind_steps self.old.kind) ≡ [])) }
    {
        let steps = steps_from(self.kind?, self.within, most)?;
        self.within += steps.len();
        Some(steps)
    }

    /// The detectors that are next in the innermost block, up to this many, unless this item, which is at the position, is none.
    fn detectors(&mut self, item: &'a Item, most: usize) -> Option<Detectors<'a>>
        requires walks { IsWalk self.old }
        requires some { 0 < most }
        requires given { drop self.old.within (kind_steps self.old.kind) ≡ [] }
        ensures walks { IsWalk self.new }
        ensures some { IfSome result (λ d. walk_left self.old ≡ map detector (lookbacks_of d) ++ walk_left self.new) }
        ensures within { IfSome result (λ d. (0 < length (lookbacks_of d)) × (length (lookbacks_of d) ≤ most)) }
        ensures none { IfNone result (self.new ≡ self.old) }
    {
        item.detector()?;
        let ahead = part(self.top.items, self.top.position, most)?;
        let detectors = Detectors::at_front(ahead);
        let count = detectors.len();
        if count == 0 {
            return None;
        }
        self.top.position += count;
        Some(detectors)
    }

    /// The next steps, of one instruction or of detectors, up to this many, or `None` if none is
    /// left, and then for ever.
    pub fn next_steps(&mut self, most: usize) -> Option<Steps<'a>>
        requires walks { IsWalk self.old }
        requires some { 0 < most }
        ensures walks { IsWalk self.new }
        ensures some { IfSome result (λ s. walk_left self.old ≡ steps_shown s ++ walk_left self.new) }
        ensures within { IfSome result (λ s. (0 < length (steps_shown s)) × (length (steps_shown s) ≤ most)) }
        ensures distinct { IfSome result HaveDistinctQubits }
        ensures none { IfNone result ((walk_left self.old ≡ []) × (walk_left self.new ≡ [])) }
    {
        'walk: loop {
            if let Some(steps) = self.steps(most) {
                return Some(steps);
            }
            let item = self.reach()?;
            if let Some(detectors) = self.detectors(item, most) {
                return Some(Steps::Detectors(detectors));
            }
            self.begin(item);
        }
    }
}

/// The next step of an instruction of which this many were given.
fn current(kind: Option<&Kind>, within: usize) -> Option<Step<'_>>
    ensures value { shown_step result ≡ slice_get (kind_steps kind.entry) within }
    ensures distinct { IfSome result (λ s. HasDistinctQubits (step_shown s)) }
    ensures room { IfSome result (λ s. within + 1 < 2 ^ 64) }
{
    match kind {
        Some(kind) => step_at(kind, within),
        None => None,
    }
}
