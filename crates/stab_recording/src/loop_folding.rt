//! Loop folding of replays: in a block, a replay whose state is that of one of its own checkpoints, exactly or up to a frame,
//! repeats what it gave since then.

ghost use Rattle.std.specs.Prelude.{◌≡◌, ℕ, ◌+◌, ◌-◌, ◌*◌, ◌<◌, ◌≤◌, Bool, List, false, true, None, IsSomeAnd, IfSome, All, length, take, drop, slice_get, OnOk, IfOk, IfErr};
ghost use Rattle.std.specs.Option.{option_map};
ghost use Rattle.stab_io.specs.declared.refusal.Refusal.TheVariants.{OutOfMemory};
ghost use Rattle.stab_items.specs.Steps.{most_steps};
ghost use Rattle.stab_items.specs.Views.{circuit_items};
ghost use Rattle.stab_items.specs.Repeats.{AreRepeats};
ghost use Rattle.stab_items.specs.declared.circuit.repeats.Repeat.{Repeat};
ghost use Rattle.stab_recording.specs.declared.checkpoint.Checkpoint.{Checkpoint};
ghost use Rattle.stab_run.specs.Records.{ones};
ghost use Rattle.stab_recording.specs.declared.replay.Plan.{Plan};
ghost use Rattle.stab_recording.specs.FollowedRuns.{Costs, HasSteps, IsPlanned};
ghost use Rattle.stab_recording.specs.Replays.{IsOnWay, step_among_new};
ghost use Rattle.stab_recording.specs.inner.FoldedReplays.{IsSegment, MayGoOver, HasRepeated, HasPropagated, with_folded, MayRecur, IsFolding};
ghost use Rattle.stab_recording.specs.inner.Progress.{IsFurther};
ghost use Rattle.stab_recording.specs.inner.RestFrameStates.{with_state, with_cursor};

use crate::checkpoint::Checkpoint;
use crate::checkpoint_positions::{block_at, end_of};
use crate::meeting::are_fixed;
use crate::other_coins::propagate_with_coins;
use crate::propagated_output::{append_propagated, lengths_propagated, repeat_pivots};
use crate::recurrence::Recurrence;
use crate::repeated_output::{part_between, repeat_outputs};
use crate::replay::{Plan, Replay};
use crate::states::propagated_checkpoint;
use stab_frames::{Propagation, between, count_ones};
use stab_io::Refusal;
use stab_items::{Circuit, Cursor, Repeat};
use stab_run::{Coins, Lengths};
use std::alloc::Global;

/// What a replay gave from the checkpoint with a number to the next one.
#[derive(Clone, Copy)]
struct Segment {
    number: usize,
    steps: usize,
    from: Lengths,
    to: Lengths,
}

impl Plan {
    ghost use Rattle.std.specs.Prelude.{◌+◌, ◌*◌, ◌≤◌, IfSome};

    /// Up to which step a replay may repeat rounds: to the end of the block, but not to the step of an old checkpoint, which it
    /// might meet there.
    fn end_in(self, block: Repeat, position: Option<usize>) -> usize
        ensures in_block { result ≤ block.first + block.rounds * block.length }
        ensures before { IfSome position (λ p. result ≤ p) }
    {
        let end = end_of(block);
        match position {
            Some(position) => end.min(position.saturating_sub(1)),
            None => end,
        }
    }
}

impl<'a> Replay<'a> {
    /// What the replay gave from the checkpoint with a number to the next one, if these are a spacing from each other and there is room for it
    /// before an end.
    fn segment(&self, number: usize, spacing: usize, end: usize) -> Option<Segment>
        requires in_range { number + 1 < length self.now.saved.items }
        requires some { 1 ≤ spacing }
        ensures number { IfSome result (λ g. g.number ≡ number) }
        ensures is { IfSome result (IsSegment spacing end self.now) }
    {
        let from = &self.saved[number];
        let to = &self.saved[number + 1];
        let steps = to.step.saturating_sub(from.step);
        if steps < spacing || end.saturating_sub(self.step) < steps {
            return None;
        }
        Some(Segment {
            number,
            steps,
            from: from.lengths,
            to: to.lengths,
        })
    }

    /// Repeats a segment, and keeps a checkpoint at its end. The tableau and the cursor stay as they are.
    ///
    /// Refusal `OutOfMemory` alone.
    fn repeat_once(&mut self, alloc: Global, segment: Segment) -> Result<(), Refusal>
        requires in_range { segment.number + 1 < length self.old.saved.items }
        requires within { self.old.step + segment.steps ≤ most_steps }
        requires few_propagated { self.old.by_frame ≤ self.old.step }
        ensures rest { self.new ≡ record self.old { outputs = self.new.outputs; step = self.new.step; by_frame = self.new.by_frame; saved = self.new.saved } }
        ensures further { self.old.step ≤ self.new.step }
        ensures repeated { OnOk result (IsSomeAnd (slice_get self.old.saved.items (segment.number + 1)) (HasRepeated segment self.old self.new)) }
        ensures err { IfErr result (λ r. r ≡ OutOfMemory) }
    {
        let tableau = self.saved[segment.number + 1].tableau.copy(alloc)?;
        repeat_outputs(alloc, &mut self.outputs, segment.from, segment.to)?;
        self.step += segment.steps;
        self.by_frame += segment.steps as u64;
        self.saved.push(Checkpoint {
            step: self.step,
            lengths: self.outputs.lengths(),
            tableau,
        })?;
        Ok(())
    }

    /// How many coins a frame asks for that is propagated over a segment once more, if that may be done: if the pivots of all its
    /// random outcomes are stored, before which there are this many pivots.
    fn coins_again(&self, segment: Segment, number: usize) -> Option<usize>
        ensures count { IfSome result (λ asked. asked ≡ ones (drop segment.from.free (take segment.to.free self.now.outputs.free.items))) }
        ensures preserved { IfSome result (λ asked. number + asked ≤ length self.now.pivots.strings.strings) }
    {
        let randomness = between(
            self.outputs.free.as_slice(),
            segment.from.free,
            segment.to.free,
        );
        let asked = count_ones(randomness);
        let preserved = self.pivots.strings.len();
        if number > preserved || asked > preserved - number {
            return None;
        }
        Some(asked)
    }

    /// Repeats a segment, flipped by a frame, if its pivots are there, and keeps a checkpoint that the frame changed. Returns the
    /// frame after it. The tableau stays as it is.
    ///
    /// Refusal `OutOfMemory` alone.
    fn frame_once<C: Coins>(
        &mut self,
        alloc: Global,
        segment: Segment,
        propagation: Propagation,
        coins: &mut C,
    ) -> Result<Option<Propagation>, Refusal>
        requires in_range { segment.number + 1 < length self.old.saved.items }
        requires within { self.old.step + segment.steps ≤ most_steps }
        requires few_counted { self.old.applied + self.old.by_frame ≤ self.old.step }
        requires may { MayGoOver self.old.tableau.qubits self.old.cursor.all self.old propagation segment }
        ensures rest { self.new ≡ with_folded self.old self.new }
        ensures further { IsFurther (C.asks coins.old) (C.asks coins.new) self.old self.new }
        ensures same_coins { C.sequence coins.new ≡ C.sequence coins.old }
        ensures costs { OnOk result (Costs (C.asks coins.old) (C.asks coins.new) self.old self.new) }
        ensures by_frame { IfOk result (λ found. IfSome found (λ v. IsSomeAnd (slice_get self.old.saved.items (segment.number + 1)) (HasPropagated (C.sequence coins.old) segment self.old self.new propagation v))) }
        ensures stays { IfOk result (λ found. found ≡ None → self.new ≡ self.old) }
        ensures err { IfErr result (λ r. r ≡ OutOfMemory) }
    {
        let mut propagation = propagation;
        let before = propagation.number();
        let Some(asked) = self.coins_again(segment, before) else {
            return Ok(None);
        };
        let gone = lengths_propagated(&propagation);
        let ahead = self.outputs.free.len() - segment.from.free;
        let outcomes = self.outputs.outcomes.as_slice();
        // All these coins may have been asked for if memory runs out on the way.
        self.step += segment.steps;
        self.applied += asked as u64;
        self.by_frame += (segment.steps - asked) as u64;
        propagate_with_coins(
            &mut propagation,
            &self.pivots.strings,
            self.outputs.free.as_slice(),
            between(outcomes, segment.from.free, segment.to.free),
            coins,
            ahead,
            &mut self.cursor,
            segment.steps,
        )?;
        let checkpoint = &self.saved[segment.number + 1].tableau;
        let tableau = propagated_checkpoint(alloc, checkpoint, propagation.letters())?;
        let part = part_between(alloc, &self.outputs, segment.from, segment.to)?;
        append_propagated(&mut self.outputs, &part, &propagation, gone)?;
        let after = propagation.number();
        repeat_pivots(&mut self.pivots.strings, before, after)?;
        self.saved.push(Checkpoint {
            step: self.step,
            lengths: self.outputs.lengths(),
            tableau,
        })?;
        Ok(Some(propagation))
    }

    /// Repeats what the replay gave from one saved checkpoint to the next, flipped by the frame if there is one, and keeps a
    /// checkpoint, if the two are a spacing from each other and the end is not passed. Returns the recurrence after that. The
    /// tableau stays as it is, and so does the cursor if there is no frame.
    ///
    /// Refusal `OutOfMemory` alone.
    fn give_once<C: Coins>(
        &mut self,
        alloc: Global,
        recurrence: Recurrence,
        spacing: usize,
        end: usize,
        coins: &mut C,
    ) -> Result<Option<Recurrence>, Refusal>
        requires in_range { recurrence.number + 1 < length self.old.saved.items }
        requires some { 1 ≤ spacing }
        requires few { end ≤ most_steps }
        requires few_counted { self.old.applied + self.old.by_frame ≤ self.old.step }
        requires folding { (begin : ℕ) × (p : Plan) × (checkpoints : List Checkpoint) × (old : List Bool) × (next : ℕ) × (block : Repeat) × (passed : Bool) × IsFolding self.old.tableau.qubits (C.sequence coins.old) begin p self.old.cursor.all checkpoints old next block end passed self.old recurrence }
        ensures rest { self.new ≡ with_folded self.old self.new }
        ensures further { IsFurther (C.asks coins.old) (C.asks coins.new) self.old self.new }
        ensures same_coins { C.sequence coins.new ≡ C.sequence coins.old }
        ensures costs { OnOk result (Costs (C.asks coins.old) (C.asks coins.new) self.old self.new) }
        ensures given { IfOk result (λ next. IfSome next (λ e. (self.old.step < self.new.step) × (self.new.step ≤ end) × (e.number + 1 < length self.new.saved.items))) }
        ensures stays { IfOk result (λ next. next ≡ None → self.new ≡ self.old) }
        ensures way { IfOk result (λ next. IfSome next (λ e. (begin : ℕ) (p : Plan) (checkpoints : List Checkpoint) (old : List Bool) (next : ℕ) (block : Repeat) (passed : Bool) → IsFolding self.old.tableau.qubits (C.sequence coins.old) begin p self.old.cursor.all checkpoints old next block end passed self.old recurrence → IsFolding self.old.tableau.qubits (C.sequence coins.old) begin p self.old.cursor.all checkpoints old next block end true self.new e)) }
        ensures err { IfErr result (λ r. r ≡ OutOfMemory) }
    {
        let Recurrence { number, frame } = recurrence;
        let Some(segment) = self.segment(number, spacing, end) else {
            return Ok(None);
        };
        let Some(propagation) = frame else {
            self.repeat_once(alloc, segment)?;
            return Ok(Some(Recurrence {
                number: number + 1,
                frame: None,
            }));
        };
        let by_frame = self.frame_once(alloc, segment, propagation, coins)?;
        let Some(propagation) = by_frame else {
            return Ok(None);
        };
        Ok(Some(Recurrence {
            number: number + 1,
            frame: Some(propagation),
        }))
    }

    /// Repeats what the replay gave since the saved checkpoint at which its state was the same, flipped by the frame if there is
    /// one, as often as fits before an end, and keeps checkpoints. True if it repeated anything. The tableau stays as it is, and so
    /// does the cursor if there is no frame.
    ///
    /// Refusal `OutOfMemory` alone.
    fn give_on<C: Coins>(
        &mut self,
        alloc: Global,
        recurrence: Recurrence,
        spacing: usize,
        end: usize,
        coins: &mut C,
    ) -> Result<bool, Refusal>
        requires in_range { recurrence.number + 1 < length self.old.saved.items }
        requires some { 1 ≤ spacing }
        requires few { end ≤ most_steps }
        requires few_counted { self.old.applied + self.old.by_frame ≤ self.old.step }
        requires folding { (begin : ℕ) × (p : Plan) × (checkpoints : List Checkpoint) × (old : List Bool) × (next : ℕ) × (block : Repeat) × IsFolding self.old.tableau.qubits (C.sequence coins.old) begin p self.old.cursor.all checkpoints old next block end false self.old recurrence }
        ensures rest { self.new ≡ with_folded self.old self.new }
        ensures further { IsFurther (C.asks coins.old) (C.asks coins.new) self.old self.new }
        ensures same_coins { C.sequence coins.new ≡ C.sequence coins.old }
        ensures costs { OnOk result (Costs (C.asks coins.old) (C.asks coins.new) self.old self.new) }
        ensures way { IfOk result (λ passed. (begin : ℕ) (p : Plan) (checkpoints : List Checkpoint) (old : List Bool) (next : ℕ) (block : Repeat) → IsFolding self.old.tableau.qubits (C.sequence coins.old) begin p self.old.cursor.all checkpoints old next block end false self.old recurrence → IsOnWay self.old.tableau.qubits (C.sequence coins.old) begin p self.old.cursor.all checkpoints old next (with_cursor self.old.cursor.all (with_state passed self.new))) }
        ensures err { IfErr result (λ r. r ≡ OutOfMemory) }
    {
        let mut passed = false;
        let mut found = recurrence;
        'giving: loop {
            let Some(later) = self.give_once(alloc, found, spacing, end, coins)? else {
                return Ok(passed);
            };
            passed = true;
            found = later;
        }
    }

    /// Repeats rounds of a block up to an end, if the state is that of a checkpoint that the replay saved there, or differs from it
    /// by a frame, where frames are asked for.
    ///
    /// Refusal `OutOfMemory` alone.
    pub(crate) fn fold<C: Coins>(
        &mut self,
        alloc: Global,
        circuit: &'a Circuit,
        block: Repeat,
        by_frame: bool,
        spacing: usize,
        end: usize,
        coins: &mut C,
    ) -> Result<(), Refusal>
        requires circuit { HasSteps (circuit_items circuit.now) self.old.cursor.all }
        requires some { 1 ≤ spacing }
        requires some_steps { 0 < block.length }
        requires few { end ≤ most_steps }
        requires few_counted { self.old.applied + self.old.by_frame ≤ self.old.step }
        requires may { (begin : ℕ) × (p : Plan) × (checkpoints : List Checkpoint) × (old : List Bool) × (next : ℕ) × MayRecur self.old.tableau.qubits (C.sequence coins.old) begin p self.old.cursor.all checkpoints old next block end self.old }
        ensures further { IsFurther (C.asks coins.old) (C.asks coins.new) self.old self.new }
        ensures same_coins { C.sequence coins.new ≡ C.sequence coins.old }
        ensures costs { OnOk result (Costs (C.asks coins.old) (C.asks coins.new) self.old self.new) }
        ensures way { OnOk result ((begin : ℕ) (p : Plan) (checkpoints : List Checkpoint) (old : List Bool) (next : ℕ) → MayRecur self.old.tableau.qubits (C.sequence coins.old) begin p self.old.cursor.all checkpoints old next block end self.old → IsOnWay self.old.tableau.qubits (C.sequence coins.old) begin p self.old.cursor.all checkpoints old next self.new) }
        ensures err { IfErr result (λ r. r ≡ OutOfMemory) }
    {
        let Some(recurrence) = self.find_recurrence(alloc, block, by_frame)? else {
            return Ok(());
        };
        let passed = self.give_on(alloc, recurrence, spacing, end, coins)?;
        self.catch_up(alloc, passed)?;
        self.cursor = Cursor::at(alloc, circuit, self.step)?;
        Ok(())
    }

    /// Whether a coin decided since the checkpoint before the last one.
    fn has_decided(&self) -> bool {
        let Some(number) = self.saved.len().checked_sub(2) else {
            return false;
        };
        !are_fixed(
            self.outputs.free.as_slice(),
            self.saved[number].lengths.free,
        )
    }

    /// Repeats rounds of the block of the step, if the state is that of a checkpoint saved there: up to the end of the block, and
    /// before the old checkpoint that may be met next. If coins decide there, the state comes again up to a frame alone, and what
    /// is repeated is flipped by it.
    ///
    /// Refusal `OutOfMemory` alone.
    pub(crate) fn come_again<C: Coins>(
        &mut self,
        alloc: Global,
        circuit: &'a Circuit,
        repeats: &[Repeat],
        plan: Plan,
        position: Option<usize>,
        coins: &mut C,
    ) -> Result<(), Refusal>
        requires circuit { HasSteps (circuit_items circuit.now) self.old.cursor.all }
        requires repeats { AreRepeats 0 self.old.cursor.all repeats.now }
        requires planned { IsPlanned self.old.tableau.qubits plan self.old.cursor.all }
        requires within { self.old.step ≤ plan.total }
        requires few_counted { self.old.applied + self.old.by_frame ≤ self.old.step }
        requires on_way { (begin : ℕ) × (checkpoints : List Checkpoint) × (old : List Bool) × (next : ℕ) × IsOnWay self.old.tableau.qubits (C.sequence coins.old) begin plan self.old.cursor.all checkpoints old next self.old × (position ≡ option_map (step_among_new plan) (slice_get checkpoints next)) }
        ensures further { IsFurther (C.asks coins.old) (C.asks coins.new) self.old self.new }
        ensures same_coins { C.sequence coins.new ≡ C.sequence coins.old }
        ensures costs { OnOk result (Costs (C.asks coins.old) (C.asks coins.new) self.old self.new) }
        ensures way { OnOk result ((begin : ℕ) (checkpoints : List Checkpoint) (old : List Bool) (next : ℕ) → IsOnWay self.old.tableau.qubits (C.sequence coins.old) begin plan self.old.cursor.all checkpoints old next self.old → position ≡ option_map (step_among_new plan) (slice_get checkpoints next) → IsOnWay self.old.tableau.qubits (C.sequence coins.old) begin plan self.old.cursor.all checkpoints old next self.new) }
        ensures err { IfErr result (λ r. r ≡ OutOfMemory) }
    {
        let Some(block) = block_at(repeats, self.step) else {
            return Ok(());
        };
        let end = plan.end_in(block, position);
        if end.saturating_sub(self.step) < plan.spacing() {
            return Ok(());
        }
        let by_frame = self.has_decided();
        self.fold(alloc, circuit, block, by_frame, plan.spacing(), end, coins)?;
        Ok(())
    }
}
