ghost use Rattle.std.specs.Prelude.{◌≡◌, ◌+◌, ◌≤◌, ◌++◌, ◌∷◌, [], OnOk, IfOk, IfErr, length, OnErr};
ghost use Rattle.stab_io.specs.declared.refusal.Refusal.TheVariants.{OutOfMemory};
ghost use Rattle.stab_recording.specs.Replays.{IsAtStep, checkpoint_of};
ghost use Rattle.stab_recording.specs.FollowedRuns.{Costs};
ghost use Rattle.stab_recording.specs.inner.Progress.{AreRunnable, HasCarriedOut, IsFurther};
ghost use Rattle.stab_recording.specs.inner.RestFrameStates.{with_state};

use crate::checkpoint::Checkpoint;
use crate::replay::{Plan, Replay};
use stab_io::Refusal;
use stab_run::Coins;
use stab_tableau::CompactTableau;
use std::alloc::Global;

/// A checkpoint shares memory with one of this many before it: in error-correcting codes a state comes again within them, or never.
const SHARED_AMONG: usize = 16;

/// How many steps a replay carries out at a time while it looks for a better step for a checkpoint.
const LOOKED_AT: usize = 32;

impl Plan {
    ghost use Rattle.std.specs.Prelude.{◌≡◌, ◌+◌, ◌≤◌, IfSome};

    /// The last step at which a replay that comes from a step may keep its checkpoint for a stop: at or before the next old
    /// checkpoint, and so that a sixteenth of a stride is left for steps that are put in between.
    pub(crate) fn limit(self, from: usize, stop: usize, position: Option<usize>) -> usize
        requires within { stop ≤ self.total }
        requires near { stop ≤ from + self.stride }
        requires before { IfSome position (λ p. stop ≤ p) }
        ensures order { stop ≤ result }
        ensures within { result ≤ self.total }
        ensures near { result ≤ from + self.stride }
        ensures before { IfSome position (λ p. result ≤ p) }
    {
        // A stride with little room beyond its spacing is followed.
        if self.stride / 8 <= LOOKED_AT {
            return stop;
        }
        let most = from
            .saturating_add(self.stride - self.stride / 16)
            .min(self.total);
        match position {
            Some(position) => most.min(position).max(stop),
            None => most.max(stop),
        }
    }
}

impl<'a> Replay<'a> {
    /// How many records and detectors there are so far.
    fn given(&self) -> usize {
        self.outputs
            .records
            .len()
            .wrapping_add(self.outputs.detectors.len())
    }

    /// Carries out the steps up to a stop, and then up to a limit at most, until steps measure or make a detector: there a round of
    /// a code ends, and its state takes little memory and comes again in later rounds.
    ///
    /// Refusal `OutOfMemory` alone.
    pub(crate) fn run_past<C: Coins>(
        &mut self,
        alloc: Global,
        coins: &mut C,
        stop: usize,
        limit: usize,
    ) -> Result<(), Refusal>
        requires begun { IsAtStep self.old.tableau.qubits (C.sequence coins.old) self.old.cursor.all self.old }
        requires runnable { AreRunnable self.old.tableau.qubits self.old.cursor.all }
        requires order { self.old.step ≤ stop }
        requires further { stop ≤ limit }
        requires within { limit ≤ length self.old.cursor.all }
        requires few_applied { self.old.applied ≤ self.old.step }
        ensures further { IsFurther (C.asks coins.old) (C.asks coins.new) self.old self.new }
        ensures same_coins { C.sequence coins.new ≡ C.sequence coins.old }
        ensures carried_out { OnOk result (HasCarriedOut self.old.tableau.qubits (C.sequence coins.old) self.old self.new) }
        ensures reached { OnOk result (stop ≤ self.new.step) }
        ensures most { self.new.step ≤ limit }
        ensures costs { OnOk result (Costs (C.asks coins.old) (C.asks coins.new) self.old self.new) }
        ensures err { IfErr result (λ r. r ≡ OutOfMemory) }
    {
        let mut next = stop;
        self.run_to(alloc, coins, stop.saturating_sub(LOOKED_AT).max(self.step))?;
        loop {
            let given = self.given();
            self.run_to(alloc, coins, next)?;
            if self.given() != given || next >= limit {
                return Ok(());
            }
            next = next.saturating_add(LOOKED_AT).min(limit);
        }
    }

    /// A checkpoint of the state, in little memory: what it can share with the last checkpoints is not stored anew.
    ///
    /// Refusal `OutOfMemory` alone.
    fn compact(&self, alloc: Global) -> Result<CompactTableau, Refusal>
        ensures ok { IfOk result (λ t. t ≡ self.now.tableau) }
        ensures err { IfErr result (λ r. r ≡ OutOfMemory) }
    {
        let mut tableau = self.tableau.compact(alloc)?;
        let first = self.saved.len().saturating_sub(SHARED_AMONG);
        for position in first..self.saved.len() {
            tableau.share(&self.saved[position].tableau);
        }
        Ok(tableau)
    }

    /// Keeps a checkpoint.
    pub(crate) fn save(&mut self, alloc: Global) -> Result<(), Refusal>
        ensures unchanged { self.new ≡ record self.old { saved = self.new.saved } }
        ensures saved { OnOk result (self.new.saved.items ≡ self.old.saved.items ++ checkpoint_of self.old ∷ []) }
        ensures err { IfErr result (λ r. r ≡ OutOfMemory) }
    {
        let checkpoint = Checkpoint {
            step: self.step,
            lengths: self.outputs.lengths(),
            tableau: self.compact(alloc)?,
        };
        self.saved.push(checkpoint)?;
        Ok(())
    }

    /// Writes the state of the last saved checkpoint into the tableau, if the replay went past one by repeating rounds.
    ///
    /// Refusal `OutOfMemory` alone.
    pub(crate) fn catch_up(&mut self, alloc: Global, passed: bool) -> Result<(), Refusal>
        ensures state { OnOk result (self.new ≡ with_state passed self.old) }
        ensures unchanged { OnErr result (self.new ≡ self.old) }
        ensures err { IfErr result (λ r. r ≡ OutOfMemory) }
    {
        if !passed {
            return Ok(());
        }
        if let Some(checkpoint) = self.saved.last() {
            self.tableau = checkpoint.tableau.tableau(alloc, None)?;
        }
        Ok(())
    }
}
