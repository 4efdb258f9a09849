//! Leaving out steps, whole rounds of blocks at once.
ghost use Rattle.std.specs.Prelude.{◌≡◌, ◌≤◌, ◌+◌, ◌*◌};

use super::Walk;
use crate::instruction_steps::step_count;
use crate::item::{Item, Part};
use stab_instructions::Kind;

impl<'a> Walk<'a> {
    ghost use Rattle.std.specs.Prelude.{◌≡◌, ◌≤◌, ◌<◌, ◌+◌, ◌*◌, ◌++◌, None, min, length, drop};
    ghost use Rattle.stab_items.specs.Items.{depth, listed};
    ghost use Rattle.stab_items.specs.Steps.{unroll, steps_of, rounds as rounds_of, most_steps, steps_cap};
    ghost use Rattle.stab_items.specs.inner.Walks.{ahead, walk_left, walk_weight, weight, IsWalk, Passes};

    /// Leaves out steps of an instruction, and says how many are still to be left out.
    fn pass_steps(&mut self, kind: &'a Kind, count: u32) -> u32
        requires walks { IsWalk self.old }
        requires no_kind { self.old.kind ≡ None }
        ensures walks { IsWalk self.new }
        ensures left { drop result (walk_left self.new) ≡ drop count (steps_of kind.now ++ ahead self.old) }
        ensures fewer { result ≤ count }
        ensures no_kind { 0 < result → self.new.kind ≡ None }
        ensures weight { walk_weight self.new ≡ walk_weight self.old }
    {
        let steps = step_count(kind);
        if (count as usize) < steps {
            self.kind = Some(kind);
            self.within = count as usize;
            return 0;
        }
        count - steps as u32
    }

    /// Leaves out steps of a block, whole rounds at once, and says how many are still to be left
    /// out.
    fn pass_rounds(&mut self, rounds: u64, steps: u32, body: &'a [Item], count: u32) -> u32
        requires walks { IsWalk self.old }
        requires no_kind { self.old.kind ≡ None }
        requires room { depth (listed body.now) + 1 + length self.old.around.items ≤ 16 }
        requires stored { steps ≡ min (length (unroll (listed body.now))) steps_cap }
        requires few { count ≤ most_steps }
        ensures walks { IsWalk self.new }
        ensures left { drop result (walk_left self.new) ≡ drop count (rounds_of rounds (unroll (listed body.now)) ++ ahead self.old) }
        ensures fewer { result ≤ count }
        ensures no_kind { self.new.kind ≡ None }
        ensures weight { walk_weight self.new ≤ rounds * (1 + weight (listed body.now)) + walk_weight self.old }
    {
        let (skipped, rest) = jump(count, steps, rounds);
        if skipped < rounds {
            self.enter(body, rounds - skipped - 1);
        }
        rest
    }

    /// Leaves out steps of what comes next, of which this many are to be left out; and says how many
    /// still are, or that the walk is at the end.
    fn pass(&mut self, count: u32) -> Option<u32>
        requires walks { IsWalk self.old }
        requires no_kind { self.old.kind ≡ None }
        requires few { count ≤ most_steps }
        ensures walks { IsWalk self.new }
        ensures passes { Passes count self.old self.new result }
    {
        let item = self.reach()?;
        self.take(item);
        let rest = match item.part() {
            Part::Tick => count,
            Part::Operation { kind, .. } => self.pass_steps(kind, count),
            Part::Block {
                count: rounds,
                stored,
                body,
                ..
            } => self.pass_rounds(rounds.number(), stored.steps, body, count),
        };
        Some(rest)
    }

    /// Leaves out this many steps from the first item on.
    #[tactic(auto, using(crate::proofs::SkipLemmas::skipped, crate::proofs::SkipLemmas::skipped_all))]
    pub fn skip(&mut self, count: u32)
        requires walks { IsWalk self.old }
        requires no_kind { self.old.kind ≡ None }
        requires few { count ≤ most_steps }
        ensures walks { IsWalk self.new }
        ensures left { walk_left self.new ≡ drop count (walk_left self.old) }
    {
        let mut left = count;
        'walk: while left > 0 {
            match self.pass(left) {
                Some(rest) => left = rest,
                None => return,
            }
        }
    }
}

/// How many of this many rounds are within a number of steps, and how many steps are left then.
fn jump(count: u32, steps: u32, rounds: u64) -> (u64, u32)
    ensures within { result.0 ≤ rounds }
    ensures rest { count ≡ result.0 * steps + result.1 }
{
    if steps == 0 {
        return (rounds, count);
    }
    let whole = count / steps;
    if u64::from(whole) < rounds {
        return (u64::from(whole), count % steps);
    }
    let all = rounds as u32;
    (rounds, count - all * steps)
}
