ghost use Rattle.std.specs.Prelude.{◌≡◌, ℕ, ◌+◌, ◌*◌, ◌<◌, ◌≤◌, List, IfSome};
ghost use Rattle.stab_items.specs.Steps.{Step};
ghost use Rattle.stab_items.specs.Repeats.{AreRepeats, IsRepeat};

use crate::replay::{Plan, Replay};
use stab_items::Repeat;

/// How many checkpoints the rounds of one period have at most.
const MOST_CHECKPOINTS: usize = 32;

/// At which steps of a block a replay keeps checkpoints, so that those of later rounds can be equal to them.
#[derive(Clone, Copy)]
pub(crate) struct StopSpacing {
    /// How many steps some whole rounds have.
    pub(crate) period: usize,
    /// How many checkpoints are stored on the way through them, at least 1.
    checkpoints: usize,
}

/// Where a replay stops next, at the earliest and at the latest.
#[derive(Clone, Copy)]
pub(crate) struct Stops {
    pub least: usize,
    pub most: usize,
}

/// The block in which a step lies, if there is one among these, which are one after the other.
pub fn block_at(repeats: &[Repeat], step: usize) -> Option<Repeat>
    ensures found { (from : ℕ) (steps : List Step) → AreRepeats from steps repeats.now → IfSome result (IsRepeat steps) }
{
    for repeat in repeats {
        let end = end_of(*repeat);
        if step < end {
            return if repeat.first <= step {
                Some(*repeat)
            } else {
                None
            };
        }
    }
    None
}

/// The step after the last round of a block.
pub fn end_of(block: Repeat) -> usize
    ensures within { result ≤ block.first + block.rounds * block.length }
{
    block
        .rounds
        .saturating_mul(block.length)
        .saturating_add(block.first)
}

/// The fewest checkpoints on the way through whole rounds of this many steps, if each may be no less than some and no more than other
/// steps after the one before it.
fn stop_spacing_of(length: usize, least: usize, most: usize) -> Option<StopSpacing>
    requires some { 0 < length }
    ensures some { IfSome result (λ r. 0 < r.checkpoints) }
{
    for checkpoints in 1..=MOST_CHECKPOINTS {
        let rounds = checkpoints.saturating_mul(most) / length;
        let period = rounds.saturating_mul(length);
        let part = period / checkpoints;
        let last = period.saturating_sub(part.saturating_mul(checkpoints - 1));
        if part >= least && last <= most {
            return Some(StopSpacing {
                period,
                checkpoints,
            });
        }
    }
    None
}

impl Plan {
    ghost use Rattle.std.specs.Prelude.{◌<◌, ◌≤◌, IfSome};

    /// At which steps of a block checkpoints are stored, so that those of later rounds can be equal to them, if its rounds are not
    /// too long for that.
    pub(crate) fn stop_spacing(self, block: Repeat) -> Option<StopSpacing>
        requires stride { 1 ≤ self.stride }
        ensures some { IfSome result (λ r. 0 < r.checkpoints) }
    {
        if block.length == 0 {
            return None;
        }
        let most = self.stride - self.stride / 16;
        stop_spacing_of(block.length, self.spacing(), most)
    }
}

impl<'a> Replay<'a> {
    ghost use Rattle.std.specs.Prelude.{◌≡◌, ◌⊎◌, ◌+◌, ◌<◌, ◌≤◌, Some, IfSome};
    ghost use Rattle.stab_recording.specs.Replays.{spacing_of};

    /// The best step for the next checkpoint of a block: some whole rounds after another one, if there is one that far back.
    fn aim(&self, block: Repeat, stop_spacing: StopSpacing) -> usize
        requires some { 0 < stop_spacing.checkpoints }
    {
        let part = stop_spacing.period / stop_spacing.checkpoints;
        let Some(position) = self.saved.len().checked_sub(stop_spacing.checkpoints) else {
            return self.step.saturating_add(part);
        };
        let checkpoint = &self.saved[position];
        if checkpoint.step < block.first {
            return self.step.saturating_add(part);
        }
        checkpoint.step.saturating_add(stop_spacing.period)
    }

    /// The best step for the next checkpoint, between two stops, if the replay is in a block.
    fn aim_between(
        &self,
        repeats: &[Repeat],
        plan: Plan,
        stop: usize,
        limit: usize,
    ) -> Option<usize>
        requires stride { 1 ≤ plan.stride }
        requires order { stop ≤ limit }
        ensures within { IfSome result (λ aim. (stop ≤ aim) × (aim ≤ limit)) }
    {
        let block = block_at(repeats, self.step)?;
        let stop_spacing = plan.stop_spacing(block)?;
        let aim = self.aim(block, stop_spacing);
        if aim < stop || aim > limit {
            return None;
        }
        Some(aim)
    }

    /// Where a replay that carries out steps stops next, before the step of the old checkpoint that may be met next or at it.
    pub(crate) fn stops(&self, repeats: &[Repeat], plan: Plan, position: Option<usize>) -> Stops
        requires stride { 1 ≤ plan.stride }
        requires within { self.now.step ≤ plan.total }
        requires following { IfSome position (λ p. self.now.step ≤ p) }
        ensures order { self.now.step ≤ result.least }
        ensures further { result.least ≤ result.most }
        ensures within { result.most ≤ plan.total }
        ensures near { result.most ≤ self.now.step + plan.stride }
        ensures before { IfSome position (λ p. result.most ≤ p) }
        ensures far { (self.now.step + spacing_of plan.stride ≤ result.least) ⊎ ((result.least ≡ plan.total) ⊎ (position ≡ Some result.least)) }
    {
        let stop = plan.stop(self.step, position);
        let limit = plan.limit(self.step, stop, position);
        match self.aim_between(repeats, plan, stop, limit) {
            Some(aim) => Stops {
                least: aim,
                most: aim,
            },
            None => Stops {
                least: stop,
                most: limit,
            },
        }
    }
}
