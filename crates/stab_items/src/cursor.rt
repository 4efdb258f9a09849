use crate::circuit::Circuit;
use crate::item::Item;
use crate::step::Step;
use crate::steps::Steps;
use crate::walk::Walk;
use stab_io::Refusal;
use std::alloc::Global;
use std::marker::Model;

/// The steps of an unrolled circuit from some position on. Contracts see the list of all its steps, and
/// that of the steps that are left.
///
/// It keeps a position within nested blocks, and no list of steps.
pub struct Cursor<'a> {
    items: &'a [Item],
    walk: Walk<'a>,
}

// Written out, so that a proof sees the drop of a value as one call, and not one for each of its parts.
impl Drop for Cursor<'_> {
    fn drop(self) {
        let Cursor { items: _, walk: _ } = self;
    }
}

impl<'a> Model for Cursor<'a> {
    ghost use Rattle.std.specs.Prelude.{◌≤◌};
    ghost use Rattle.stab_items.specs.Items.{listed, depth};
    ghost use Rattle.stab_items.specs.Steps.{unroll};
    ghost use Rattle.stab_items.specs.Cursors.{CursorState};

    ghost Value = { CursorState };

    ghost use Rattle.stab_items.specs.inner.Walks.{walk_left, IsWalk};

    ghost view = { λ c. record { all = unroll (listed c.items.now); left = walk_left c.walk } };

    ghost invariant = { λ c. IsWalk c.walk × (depth (listed c.items.now) ≤ 16) };
}

impl<'a> Cursor<'a> {
    ghost use Rattle.std.specs.Prelude.{◌≡◌, ◌≤◌, ◌<◌, None, [], ◌∷◌, ◌++◌, length, take, drop, All, IfOk, IfErr, IfSome, IfNone};
    ghost use Rattle.stab_io.specs.declared.refusal.Refusal.TheVariants.{OutOfMemory};
    ghost use Rattle.stab_items.specs.Steps.{check_of, unroll, HasDistinctQubits};
    ghost use Rattle.stab_items.specs.Views.{circuit_items};
    ghost use Rattle.stab_items.specs.StepValues.{step_shown, steps_shown, HaveDistinctQubits};

    /// The steps of a circuit from this one on, counted from 0.
    ///
    /// Asks that no lookback of the circuit goes too far and that it has no more steps than a
    /// circuit may have. Refusal `OutOfMemory` alone.
    #[tactic(auto, using(crate::proofs::SummaryLemmas::few_steps, crate::proofs::StretchLemmas::steps_from_position))]
    pub fn at(alloc: Global, circuit: &'a Circuit, step: usize) -> Result<Cursor<'a>, Refusal>
        requires checked { check_of (circuit_items circuit.now) ≡ None }
        requires in_range { step ≤ length (unroll (circuit_items circuit.now)) }
        ensures all { IfOk result (λ c. c.all ≡ unroll (circuit_items circuit.now)) }
        ensures steps { IfOk result (λ c. c.left ≡ drop step (unroll (circuit_items circuit.now))) }
        ensures distinct { IfOk result (λ c. All HasDistinctQubits c.all) }
        ensures err { IfErr result (λ r. r ≡ OutOfMemory) }
    {
        let items = circuit.items();
        let found = circuit.position_before(step as u32);
        let mut walk = Walk::new(alloc, items, found.position)?;
        walk.skip(found.steps);
        Ok(Cursor { items, walk })
    }

    /// The next step, or `None` if none is left, and then for ever. It takes no memory.
    pub fn next(&mut self) -> Option<Step<'a>>
        ensures all { self.new.all ≡ self.old.all }
        ensures some { IfSome result (λ s. self.old.left ≡ step_shown s ∷ self.new.left) }
        ensures distinct { IfSome result (λ s. HasDistinctQubits (step_shown s)) }
        ensures none { IfNone result ((self.old.left ≡ []) × (self.new.left ≡ [])) }
    {
        self.walk.next()
    }

    /// The next steps, of one instruction or of detectors, up to this many, or `None` if none is
    /// left, and then for ever. It takes no memory.
    pub fn next_steps(&mut self, most: usize) -> Option<Steps<'a>>
        requires some { 0 < most }
        ensures all { self.new.all ≡ self.old.all }
        ensures some { IfSome result (λ s. self.old.left ≡ steps_shown s ++ self.new.left) }
        ensures within { IfSome result (λ s. (0 < length (steps_shown s)) × (length (steps_shown s) ≤ most)) }
        ensures distinct { IfSome result HaveDistinctQubits }
        ensures none { IfNone result ((self.old.left ≡ []) × (self.new.left ≡ [])) }
    {
        self.walk.next_steps(most)
    }

    /// Goes past steps that are left of this cursor and of another, in the same order, and says how many.
    /// It may stop before others that are the same, as at the end of a list. It takes no memory.
    pub fn pass_same(&mut self, other: &mut Cursor) -> usize
        ensures all { self.new.all ≡ self.old.all }
        ensures other_all { other.new.all ≡ other.old.all }
        ensures within { result ≤ length self.old.left }
        ensures other_within { result ≤ length other.old.left }
        ensures same { take result self.old.left ≡ take result other.old.left }
        ensures left { self.new.left ≡ drop result self.old.left }
        ensures other_left { other.new.left ≡ drop result other.old.left }
    {
        self.walk.pass_same(&mut other.walk)
    }

    /// Back to the circuit's first step. It takes no memory.
    pub fn restart(&mut self)
        ensures all { self.new.all ≡ self.old.all }
        ensures left { self.new.left ≡ self.old.all }
    {
        self.walk.restart(self.items);
    }
}
