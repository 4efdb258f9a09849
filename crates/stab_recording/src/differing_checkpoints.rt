ghost use Rattle.std.specs.Prelude.{◌≡◌, ◌↔◌, ℕ, ◌-◌, ◌<◌, ◌≤◌, Bool, true, IsTrue, IfSome, IsSomeAnd, length, slice_get};
ghost use Rattle.stab_items.specs.Steps.{most_steps};
ghost use Rattle.stab_run.specs.ProgramStates.{output_of};
ghost use Rattle.stab_recording.specs.Replays.{Misses};
ghost use Rattle.stab_recording.specs.inner.RestFrameStates.{IsBeside, HasOtherCoins};

use crate::checkpoint::{Checkpoint, shifted};
use crate::checkpoint_positions::{block_at, end_of};
use crate::replay::{Plan, Replay};
use stab_frames::between;
use stab_items::Repeat;
use stab_run::Outputs;

/// How many periods of a block have to be left so that folding its rounds takes less time than a frame of many letters over them.
const MANY_PERIODS: usize = 2;

impl Plan {
    ghost use Rattle.std.specs.Prelude.{◌≡◌, ℕ, ◌<◌, ◌≤◌, IfSome, length, slice_get};

    /// The number of the first old checkpoint, from one on, that is before some old step, or not before some new one.
    fn first_from(self, checkpoints: &[Checkpoint], next: usize, begin: usize, end: usize) -> usize
        requires next { next ≤ length checkpoints.now }
        ensures order { next ≤ result }
        ensures within { result ≤ length checkpoints.now }
        ensures among { (number : ℕ) → next ≤ number → number < result → IfSome (slice_get checkpoints.now number) (λ c. begin ≤ c.step) }
    {
        for number in next..checkpoints.len() {
            let checkpoint = &checkpoints[number];
            if checkpoint.step < begin
                || shifted(self.old_end, self.new_end, checkpoint.step) >= end
            {
                return number;
            }
        }
        checkpoints.len()
    }
}

/// Whether two lists of bits are the same.
fn are_same(bits: &[bool], others: &[bool]) -> bool
    ensures value { IsTrue result ↔ (bits.now ≡ others.now) }
{
    bits == others
}

impl<'a> Replay<'a> {
    /// Whether the replay is where the old checkpoint before the next one is, with another number of the next coin or with other
    /// records: then it agrees with the old run at no later checkpoint.
    fn differs(&self, plan: Plan, checkpoints: &[Checkpoint], old: &Outputs, next: usize) -> bool
        ensures following { result ≡ true → 1 ≤ next }
        ensures differs { result ≡ true → IsSomeAnd (slice_get checkpoints.now (next - 1)) (HasOtherCoins plan self.now (output_of old.now)) }
    {
        if next == 0 || next > checkpoints.len() {
            return false;
        }
        let checkpoint = &checkpoints[next - 1];
        if checkpoint.step < plan.old_end
            || shifted(plan.old_end, plan.new_end, checkpoint.step) != self.step
        {
            return false;
        }
        if checkpoint.lengths.free != self.outputs.free.len() {
            return true;
        }
        let records = between(old.records.as_slice(), 0, checkpoint.lengths.records);
        !are_same(records, self.outputs.records.as_slice())
    }

    /// The end of the block of the step, if enough periods of the block are left that folding its rounds may pay.
    fn end_of_many(&self, repeats: &[Repeat], plan: Plan) -> Option<usize>
        requires stride { 1 ≤ plan.stride }
    {
        let block = block_at(repeats, self.step)?;
        let stop_spacing = plan.stop_spacing(block)?;
        let end = end_of(block);
        if end.saturating_sub(self.step) / MANY_PERIODS < stop_spacing.period {
            return None;
        }
        Some(end)
    }

    /// The number of the old checkpoint that may be met next. In a block with many rounds left, those of the block are passed over
    /// once the number of the next coin or the records differ at an old checkpoint, since they then most likely differ up to its
    /// end; so its rounds can be folded as in a new run.
    pub(crate) fn skip_differing(
        &self,
        repeats: &[Repeat],
        plan: Plan,
        checkpoints: &[Checkpoint],
        old: &Outputs,
        next: usize,
    ) -> usize
        requires next { next ≤ length checkpoints.now }
        requires stride { 1 ≤ plan.stride }
        ensures order { next ≤ result }
        ensures within { result ≤ length checkpoints.now }
        ensures missed { (coins : ℕ → Bool) → IsBeside self.now.tableau.qubits coins plan self.now.cursor.all checkpoints.now (output_of old.now) self.now → length self.now.cursor.all ≤ most_steps → (number : ℕ) → next ≤ number → number < result → IfSome (slice_get checkpoints.now number) (Misses self.now.tableau.qubits coins plan self.now.cursor.all old.now.records.items) }
    {
        let Some(end) = self.end_of_many(repeats, plan) else {
            return next;
        };
        if !self.differs(plan, checkpoints, old, next) {
            return next;
        }
        plan.first_from(checkpoints, next, checkpoints[next - 1].step, end)
    }
}
