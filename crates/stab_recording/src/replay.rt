ghost use Rattle.std.specs.Prelude.{◌≡◌, ℕ, ◌+◌, ◌-◌, ◌*◌, ◌<◌, ◌≤◌, ◌^◌, None, All, OnOk, IfOk, IfErr, length, drop};
ghost use Rattle.stab_io.specs.declared.refusal.Refusal.TheVariants.{OutOfMemory};
ghost use Rattle.stab_items.specs.Steps.{most_steps};
ghost use Rattle.stab_items.specs.Views.{circuit_items};
ghost use Rattle.stab_items.specs.Repeats.{AreRepeats};
ghost use Rattle.stab_run.specs.Records.{ones};
ghost use Rattle.stab_run.specs.Points.{all_coins_of};
ghost use Rattle.stab_run.specs.ProgramStates.{StepFits, output_of};
ghost use Rattle.stab_recording.specs.Replays.{IsAtStep, IsReplay, Ascending, spacing_of, IsAtStop, IsOnWay, StopsAt};
ghost use Rattle.stab_recording.specs.inner.Arrivals.{IsArrival};
ghost use Rattle.stab_recording.specs.inner.Progress.{HasCarriedOut, IsFurther};
ghost use Rattle.stab_recording.specs.OldRuns.{IsOldRun};
ghost use Rattle.stab_recording.specs.FollowedRuns.{Costs, HasEnded, HasSteps, IsFollowed, IsNew, IsPlanned};

use crate::checkpoint::{Checkpoint, shifted};
use crate::meeting::meets;
use crate::old_run::OldRun;
use crate::recorded_steps::run_recording_pivots;
use stab_frames::PivotRecorder;
use stab_io::Refusal;
use stab_items::{Circuit, Cursor, Repeat};
use stab_pauli::Pauli;
use stab_run::{Coins, Outputs};
use stab_tableau::Tableau;
use std::alloc::Global;

/// A run from some step on, on its way.
#[derive(Drop)]
pub struct Replay<'a> {
    pub tableau: Tableau,
    // A string on the tableau's qubits, for products to be written into.
    pub string: Pauli,
    pub outputs: Outputs,
    /// The pivots of the random outcomes of its steps, from the first step on.
    pub pivots: PivotRecorder,
    pub cursor: Cursor<'a>,
    /// How many steps of the circuit are done.
    pub step: usize,
    /// How many steps were carried out.
    pub applied: u64,
    /// How many steps a frame was propagated over.
    pub by_frame: u64,
    /// The checkpoints stored on the way.
    pub saved: Vec<Checkpoint>,
}

/// How far a replay may go, and what it may meet.
#[derive(Clone, Copy)]
pub struct Plan {
    /// The number of steps of the circuit.
    pub total: usize,
    pub stride: usize,
    /// The end of what was changed, in the old steps and in the new ones.
    pub old_end: usize,
    pub new_end: usize,
    /// The first old checkpoint that may be met.
    pub next: usize,
    /// The old steps look back to no more records than this many.
    pub window: u32,
}

/// How a replay ended.
#[derive(Clone, Copy)]
pub enum End {
    /// After the last step.
    Last,
    /// At the old checkpoint with this number, from which on the old run went on as the new one would.
    Joined(usize),
}

/// What a replay finds at the step where it stops.
enum Arrival {
    /// The old checkpoint that might be met next, and it meets it.
    Met,
    /// The end: it is after the last step.
    After,
    /// Neither, and the old checkpoint with this number may be met next.
    Between(usize),
}

impl Plan {
    ghost use Rattle.std.specs.Prelude.{◌≡◌, ◌+◌, ◌≤◌, ◌<◌, ◌⊎◌, Option, Some, IfSome, slice_get};
    ghost use Rattle.std.specs.Option.{option_map};
    ghost use Rattle.stab_recording.specs.Replays.{step_among_new, spacing_of, next_stop};

    /// Where the old checkpoint with a number is among the new steps, if there is one.
    pub(crate) fn position(self, checkpoints: &[Checkpoint], number: usize) -> Option<usize>
        ensures value { result ≡ option_map (step_among_new self) (slice_get checkpoints.now number) }
    {
        match checkpoints.get(number) {
            Some(checkpoint) => Some(shifted(self.old_end, self.new_end, checkpoint.step)),
            None => None,
        }
    }

    /// How far from each other a replay keeps checkpoints at least.
    pub(crate) fn spacing(self) -> usize
        requires stride { 1 ≤ self.stride }
        ensures value { result ≡ spacing_of self.stride }
        ensures above { 1 ≤ result }
        ensures within { result ≤ self.stride }
    {
        self.stride - self.stride / 4
    }

    /// Where a replay that is at a step stops next, before the step of an old checkpoint or at it.
    pub(crate) fn stop(self, step: usize, position: Option<usize>) -> usize
        requires stride { 1 ≤ self.stride }
        requires within { step ≤ self.total }
        requires following { IfSome position (λ p. step ≤ p) }
        ensures value { result ≡ next_stop self step position }
        ensures order { step ≤ result }
        ensures within { result ≤ self.total }
        ensures near { result ≤ step + self.stride }
        ensures before { IfSome position (λ p. result ≤ p) }
        ensures further { (step < result) ⊎ ((result ≡ self.total) ⊎ (position ≡ Some result)) }
    {
        let further = step.saturating_add(self.spacing()).min(self.total);
        match position {
            Some(position) => {
                if position.saturating_sub(step) <= self.stride {
                    position.min(self.total)
                } else {
                    further
                }
            }
            None => further,
        }
    }
}

impl<'a> Replay<'a> {
    /// Carries out the steps up to one.
    ///
    /// Refusal `OutOfMemory` alone.
    pub(crate) fn run_to<C: Coins>(
        &mut self,
        alloc: Global,
        coins: &mut C,
        stop: usize,
    ) -> Result<(), Refusal>
        requires begun { IsAtStep self.old.tableau.qubits (C.sequence coins.old) self.old.cursor.all self.old }
        requires fits { All (StepFits self.old.tableau.qubits) self.old.cursor.all }
        requires order { self.old.step ≤ stop }
        requires within { stop ≤ length self.old.cursor.all }
        requires few { self.old.applied + length self.old.cursor.all < 2 ^ 63 }
        ensures further { IsFurther (C.asks coins.old) (C.asks coins.new) self.old self.new }
        ensures same_coins { C.sequence coins.new ≡ C.sequence coins.old }
        ensures carried_out { OnOk result (HasCarriedOut self.old.tableau.qubits (C.sequence coins.old) self.old self.new) }
        ensures step { self.new.step ≡ stop }
        ensures costs { OnOk result (Costs (C.asks coins.old) (C.asks coins.new) self.old self.new) }
        ensures err { IfErr result (λ r. r ≡ OutOfMemory) }
    {
        let most = stop - self.step;
        self.step = stop;
        run_recording_pivots(
            alloc,
            &mut self.tableau,
            &mut self.string,
            coins,
            &mut self.outputs,
            &mut self.cursor,
            most,
            &mut self.applied,
            &mut self.pivots,
        )?;
        Ok(())
    }

    /// What the replay comes to at its step, if this old checkpoint may be met next.
    ///
    /// Refusal `OutOfMemory` alone.
    fn arrive(
        &mut self,
        alloc: Global,
        old: &OldRun<'_>,
        plan: Plan,
        next: usize,
        spare: &mut Option<Tableau>,
        determining: &mut usize,
    ) -> Result<Arrival, Refusal>
        requires same_qubits { All (λ c. c.tableau.qubits ≡ self.old.tableau.qubits) old.now.checkpoints.now }
        requires next { next ≤ length old.now.checkpoints.now }
        ensures unchanged { self.new ≡ self.old }
        ensures value { IfOk result (IsArrival self.old.tableau.qubits plan self.old old.now.checkpoints.now old.now.outputs.now.records.items old.now.outputs.now.free.items next) }
        ensures err { IfErr result (λ r. r ≡ OutOfMemory) }
    {
        let placed = plan.position(old.checkpoints, next) == Some(self.step);
        if placed
            && meets(
                alloc,
                &mut self.tableau,
                &self.outputs,
                &old.checkpoints[next],
                old.outputs,
                plan.window,
                spare,
                determining,
            )?
        {
            Ok(Arrival::Met)
        } else if self.step == plan.total {
            Ok(Arrival::After)
        } else {
            Ok(Arrival::Between(next + usize::from(placed)))
        }
    }

    /// Carries out steps up to the next stop. Says which old checkpoint may be met next.
    ///
    /// Refusal `OutOfMemory` alone.
    fn advance<C: Coins>(
        &mut self,
        alloc: Global,
        repeats: &[Repeat],
        old: &OldRun<'_>,
        plan: Plan,
        next: usize,
        coins: &mut C,
    ) -> Result<usize, Refusal>
        requires old { IsOldRun self.old.tableau.qubits (C.sequence coins.old) plan self.old.cursor.all old.now.checkpoints.now (output_of old.now.outputs.now) }
        requires planned { IsPlanned self.old.tableau.qubits plan self.old.cursor.all }
        requires few_applied { (self.old.applied + self.old.by_frame) ≤ self.old.step }
        requires at_step { IsAtStep self.old.tableau.qubits (C.sequence coins.old) self.old.cursor.all self.old }
        requires next { next ≤ length old.now.checkpoints.now }
        requires ascending { Ascending plan self.old.step (drop next old.now.checkpoints.now) }
        ensures same_coins { C.sequence coins.new ≡ C.sequence coins.old }
        ensures further { IsFurther (C.asks coins.old) (C.asks coins.new) self.old self.new }
        ensures way { IfOk result (λ later. (begin : ℕ) → IsOnWay self.old.tableau.qubits (C.sequence coins.old) begin plan self.old.cursor.all old.now.checkpoints.now (old.now.outputs.now.records.items) next self.old → IsAtStop self.old.tableau.qubits (C.sequence coins.old) begin plan self.old.cursor.all old.now.checkpoints.now (old.now.outputs.now.records.items) later self.new) }
        ensures costs { OnOk result (Costs (C.asks coins.old) (C.asks coins.new) self.old self.new) }
        ensures stops { IfOk result (λ later. StopsAt plan old.now.checkpoints.now later self.old.step self.new.step) }
        ensures order { IfOk result (λ later. next ≤ later) }
        ensures err { IfErr result (λ r. r ≡ OutOfMemory) }
    {
        let next = self.skip_differing(repeats, plan, old.checkpoints, old.outputs, next);
        let position = plan.position(old.checkpoints, next);
        let stops = self.stops(repeats, plan, position);
        self.run_past(alloc, coins, stops.least, stops.most)?;
        Ok(next)
    }

    /// Carries out steps until the replay meets an old checkpoint, or no step is left. Keeps checkpoints on the way, and repeats
    /// rounds of blocks whose state comes again.
    pub fn follow<C: Coins>(
        &mut self,
        alloc: Global,
        circuit: &'a Circuit,
        repeats: &[Repeat],
        old: &OldRun<'_>,
        plan: Plan,
        coins: &mut C,
    ) -> Result<End, Refusal>
        requires begun { IsNew (C.sequence coins.old) plan.stride self.old }
        requires planned { IsPlanned self.old.tableau.qubits plan self.old.cursor.all }
        requires circuit { HasSteps (circuit_items circuit.now) self.old.cursor.all }
        requires repeats { AreRepeats 0 self.old.cursor.all repeats.now }
        requires followed { IsFollowed (C.sequence coins.old) plan old.now self.old }
        ensures same_coins { C.sequence coins.new ≡ C.sequence coins.old }
        ensures replay { OnOk result (IsReplay self.old.tableau.qubits (C.sequence coins.old) plan.stride self.old.step self.old.cursor.all self.new) }
        ensures costs { OnOk result (Costs (C.asks coins.old) (C.asks coins.new) self.old self.new) }
        ensures asked { C.asks coins.new ≤ C.asks coins.old + all_coins_of (drop self.old.step self.old.cursor.all) }
        ensures ended { IfOk result (HasEnded (C.sequence coins.old) plan old.now self.old self.new) }
        ensures err { IfErr result (λ r. r ≡ OutOfMemory) }
    {
        let mut next = plan.next;
        // The stabiliser by which the state differed from the last checkpoint, which most likely shows that it differs from the
        // next one too.
        let mut determining = 0;
        // What checkpoints are expanded into, so that memory for it is asked for once at most.
        let mut spare: Option<Tableau> = None;
        'following: loop {
            let reached = self.advance(alloc, repeats, old, plan, next, coins)?;
            match self.arrive(alloc, old, plan, reached, &mut spare, &mut determining)? {
                Arrival::Met => return Ok(End::Joined(reached)),
                Arrival::After => return Ok(End::Last),
                Arrival::Between(later) => next = later,
            }
            self.save(alloc)?;
            let position = plan.position(old.checkpoints, next);
            self.come_again(alloc, circuit, repeats, plan, position, coins)?;
        }
    }
}
