ghost use Rattle.std.specs.Prelude.{◌≡◌, ◌<◌, ◌≤◌, ◌+◌, ◌*◌, ◌++◌, length, OnOk, IfErr};
ghost use Rattle.std.specs.Option.{option_map};
ghost use Rattle.stab_io.specs.declared.refusal.Refusal.TheVariants.{OutOfMemory};
ghost use Rattle.stab_items.specs.Items.{before, done, listed};
ghost use Rattle.stab_items.specs.Steps.{unroll, most_steps};
ghost use Rattle.stab_items.specs.inner.Summaries.{summary_of};
ghost use Rattle.stab_items.specs.inner.Repeats.{first_with_steps, finer, repeat_as, repeat_in, repeats_in};

use super::Circuit;
use super::step_items::item_steps;
use crate::item::{Item, Part};
use crate::summary::Summary;
use stab_io::Refusal;
use std::alloc::Global;

/// Rounds of the same steps, one after the other, by the steps of the unrolled circuit: a block of the
/// outermost list, a block in it that has all of its steps, or rounds that are written out (`stab_run`).
#[derive(Clone, Copy, Debug, PartialEq, Eq)]
pub struct Repeat {
    /// The number of its first step, counted from 0.
    pub first: usize,
    /// How many steps one round has, at least 1.
    pub length: usize,
    /// How many rounds there are, at least 2.
    pub rounds: usize,
    /// How many records before a round its steps may look back to.
    pub window: u32,
}

/// How many rounds the first block of a list has that has a step, and the summary of one of them, if there is such a block.
fn first_block(items: &[Item]) -> Option<(u64, Summary)>
    ensures found { result ≡ option_map (λ b. (b.0, summary_of b.1)) (first_with_steps (listed items.now)) }
{
    for item in items {
        if let Part::Block { count, stored, .. } = item.part() {
            if stored.steps > 0 {
                return Some((count.number(), stored));
            }
        }
    }
    None
}

/// This many rounds of these items, which have this summary and come after this many steps; or, if all their steps are those of
/// one block among them, as many of its rounds.
fn repeat_of(first: usize, rounds: usize, stored: Summary, items: &[Item]) -> Repeat
    requires stored { stored ≡ summary_of (listed items.now) }
    requires some { 0 < length (unroll (listed items.now)) }
    requires few { rounds * length (unroll (listed items.now)) ≤ most_steps }
    requires many { 1 < rounds }
    ensures value { result ≡ repeat_as first (finer rounds (listed items.now)) }
{
    let whole = Repeat {
        first,
        length: stored.steps as usize,
        rounds,
        window: stored.window,
    };
    let Some((count, inner)) = first_block(items) else {
        return whole;
    };
    if count.saturating_mul(u64::from(inner.steps)) != u64::from(stored.steps) {
        return whole;
    }
    Repeat {
        first,
        length: inner.steps as usize,
        rounds: rounds.saturating_mul(count as usize),
        window: inner.window,
    }
}

/// Adds the repeat that an item is, after this many steps, if it is a block with a step
/// and more than one round.
fn add_repeat(repeats: &mut Vec<Repeat>, first: usize, item: &Item) -> Result<(), Refusal>
    requires few { length (unroll (before item.now done)) ≤ most_steps }
    ensures ok { OnOk result (repeats.new.items ≡ repeats.old.items ++ repeat_in first item.now) }
    ensures err { IfErr result (λ r. r ≡ OutOfMemory) }
{
    let Part::Block {
        count,
        stored,
        body,
        ..
    } = item.part()
    else {
        return Ok(());
    };
    let rounds = count.number();
    if stored.steps == 0 || rounds < 2 {
        return Ok(());
    }
    repeats.push(repeat_of(first, rounds as usize, stored, body))?;
    Ok(())
}

/// Adds the repeats that are in a list of items after this many steps.
fn add_repeats(repeats: &mut Vec<Repeat>, mut first: usize, items: &[Item]) -> Result<(), Refusal>
    requires few { first + length (unroll (listed items.now)) ≤ most_steps }
    ensures ok { OnOk result (repeats.new.items ≡ repeats.old.items ++ repeats_in first items.now) }
    ensures err { IfErr result (λ r. r ≡ OutOfMemory) }
{
    'items: for item in items {
        add_repeat(repeats, first, item)?;
        first += item_steps(item) as usize;
    }
    Ok(())
}

impl Circuit {
    ghost use Rattle.std.specs.Prelude.{◌≡◌, None, length, IfOk, IfErr};
    ghost use Rattle.stab_io.specs.declared.refusal.Refusal.TheVariants.{OutOfMemory};
    ghost use Rattle.stab_items.specs.Steps.{unroll, check_of};
    ghost use Rattle.stab_items.specs.Views.{circuit_items};
    ghost use Rattle.stab_items.specs.Repeats.{AreRepeats, repeated_blocks};

    /// The blocks of the outermost list that have a step and more than one round, by their steps, in
    /// order: by the rounds of a block in such a block, if that has all of its steps. It looks at no
    /// step, and at no item if there is no block.
    ///
    /// Refusal `OutOfMemory` alone.
    ///
    /// Asks that no lookback of the circuit goes too far and that it has no more steps than a
    /// circuit may have.
    pub fn repeats(&self, alloc: Global) -> Result<Vec<Repeat>, Refusal>
        requires checked { check_of (circuit_items self.now) ≡ None }
        ensures are { IfOk result (λ rs. AreRepeats 0 (unroll (circuit_items self.now)) rs.items) }
        ensures count { IfOk result (λ rs. length rs.items ≡ repeated_blocks (circuit_items self.now)) }
        ensures err { IfErr result (λ r. r ≡ OutOfMemory) }
    {
        let mut repeats = Vec::new(alloc);
        if self.total.depth == 0 {
            return Ok(repeats);
        }
        add_repeats(&mut repeats, 0, self.items())?;
        Ok(repeats)
    }
}
