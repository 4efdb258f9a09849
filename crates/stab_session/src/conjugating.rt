ghost use Rattle.std.specs.Prelude.{◌≡◌, ℕ, ◌+◌, ◌-◌, ◌*◌, ◌<◌, ◌≤◌, ◌∷◌, None, Some, true, Bool, All, length, take, drop, slice_get, IfSome, IfOk, IfErr, OnOk, OnErr};
ghost use Rattle.stab_io.specs.declared.refusal.Refusal.TheVariants.{OutOfMemory};
ghost use Rattle.stab_items.specs.Steps.{unroll, observables_of, check_within, HasDistinctQubits};
ghost use Rattle.stab_items.specs.Views.{circuit_items};
ghost use Rattle.stab_items.specs.Repeats.{AreRepeats};
ghost use Rattle.stab_run.specs.Records.{ones};
ghost use Rattle.stab_recording.specs.Checkpoints.{checkpoint_steps};
ghost use Rattle.stab_recording.specs.PassedSteps.{MayPropagate};
ghost use Rattle.stab_recording.specs.Spacing.{Near, last_of};
ghost use Rattle.stab_session.specs.declared.past_sites.PauliChange.{PauliChange};
ghost use Rattle.stab_session.specs.FollowedEdits.{AsksWithin, HasFollowed};
ghost use Rattle.stab_session.specs.Recordings.{IsSameRecording, Follows};
ghost use Rattle.stab_session.specs.inner.OldRests.{HasRoomFor};
ghost use Rattle.stab_session.specs.inner.PropagatedRecordings.{AreCounted, StaysNear, IsPastSites, IsConjugating, IsTakenOver, HasConjugated, span_meeting};

use crate::counting::lengths_after;
use crate::flips::{flip_outputs, sum_additions};
use crate::past_sites::{PauliChange, propagate_sites};
use crate::recording::{Followed, Recording};
use crate::rest::{OldRest, end_step};
use stab_frames::Propagation;
use stab_io::Refusal;
use stab_items::{Circuit, Cursor, Repeat, Span};
use stab_recording::{Checkpoint, Meeting, count_before, propagate_rest, shifted};
use stab_run::{Coins, Lengths};
use stab_tableau::Tableau;
use std::alloc::Global;

/// Lists move with these if they stay as long as they are.
const NO_LENGTHS: Lengths = Lengths {
    records: 0,
    free: 0,
    detectors: 0,
    additions: 0,
};

/// A frame that went past the sites of a change, in memory of its own.
#[derive(Drop)]
struct PastSites {
    /// How long the lists are where the frame begins.
    from: Lengths,
    /// The frame, with what it flipped from there on.
    propagation: Propagation,
    /// The checkpoints that are between the sites, conjugated, where they are now.
    checkpoints: Vec<Checkpoint>,
}

/// What a frame makes of a recording, in memory of its own.
#[derive(Drop)]
struct Conjugating {
    /// How long the lists are where the frame begins.
    from: Lengths,
    /// The checkpoints between the sites of the change, conjugated, where they are now.
    passed: Vec<Checkpoint>,
    /// The run after them, with the frame and what it flipped from where it began.
    rest: OldRest,
}

/// How many of some checkpoints are before a step, if this many of the first are.
fn count_within(checkpoints: &[Checkpoint], before: usize, step: usize) -> usize
    requires in_range { before ≤ length checkpoints.now }
    ensures order { before ≤ result }
    ensures within { result ≤ length checkpoints.now }
    ensures among { All (λ c. c.step < step) (take (result - before) (drop before checkpoints.now)) }
    ensures following { IfSome (slice_get checkpoints.now result) (λ c. step ≤ c.step) }
{
    let (_, following) = checkpoints.split_at(before);
    before + count_before(following, step)
}

/// The last of a step and those of checkpoints, if each is at least the one before, and at most a stride
/// after it.
fn last_near(step: usize, checkpoints: &[Checkpoint], stride: usize) -> Option<usize>
    ensures near { IfSome result (λ last. Near stride (step ∷ checkpoint_steps checkpoints.now)) }
    ensures value { IfSome result (λ last. last_of step (checkpoint_steps checkpoints.now) ≡ last) }
{
    let mut last = step;
    for checkpoint in checkpoints {
        if checkpoint.step < last || checkpoint.step - last > stride {
            return None;
        }
        last = checkpoint.step;
    }
    Some(last)
}

/// Whether the checkpoint with a number, once it has moved with a span after which it is, or the last
/// step if there is none, is at most a stride from a step that is not after the span.
fn stays_near(
    step: usize,
    checkpoints: &[Checkpoint],
    number: usize,
    span: Span,
    total: usize,
    stride: usize,
) -> bool
    ensures near { result ≡ true → StaysNear stride span total step (slice_get checkpoints.now number) }
{
    let last = step.saturating_add(stride);
    if step > span.new_end {
        return false;
    }
    match checkpoints.get(number) {
        Some(checkpoint) => {
            span.old_end <= checkpoint.step
                && shifted(span.old_end, span.new_end, checkpoint.step) <= last
        }
        None => total <= last,
    }
}

/// Where a span ends, among the old steps and the new ones.
fn meeting_after(span: Span) -> Meeting
    ensures value { result ≡ span_meeting span }
{
    Meeting {
        old_step: span.old_end,
        new_step: span.new_end,
        old_lengths: NO_LENGTHS,
        new_lengths: NO_LENGTHS,
    }
}

/// A frame passed the steps from one to another, and none was carried out.
fn propagated_between(begin: usize, end: usize) -> Followed
    requires order { begin ≤ end }
    ensures applied { result.applied ≡ 0 }
    ensures tried { result.tried ≡ 0 }
    ensures counted { (result.applied + result.by_frame) + begin ≡ end }
{
    Followed {
        applied: 0,
        by_frame: (end - begin) as u64,
        tried: 0,
    }
}

impl Recording {
    /// Propagates a frame past the sites of a change of Pauli gates within a span, from the checkpoint before it on,
    /// which has the number one less than the one count of checkpoints; those up to the other count are within
    /// the span. `None` if it can't give the run there. The steps that it passes are counted either way.
    ///
    /// Refusal `OutOfMemory` alone.
    fn past_sites(
        &self,
        alloc: Global,
        circuit: &Circuit,
        span: Span,
        before: usize,
        inside: usize,
        change: &PauliChange,
        by_frame: &mut u64,
    ) -> Result<Option<PastSites>, Refusal>
        requires checked { check_within self.now.tableau.qubits (circuit_items circuit.now) ≡ None }
        requires same_length { length change.now.string.letters ≡ self.now.tableau.qubits }
        requires follows { (coins : ℕ → Bool) × (K : ℕ) × Follows self.now.tableau.qubits coins K (unroll (circuit_items circuit.now)) span (Some change.now) self.now }
        requires counted { AreCounted span self.now.checkpoints.items before inside }
        requires none_propagated { by_frame.old ≡ 0 }
        ensures most { by_frame.new ≤ length (unroll (circuit_items circuit.now)) - span.first }
        ensures passed { IfOk result (λ found. IfSome found (λ p. IsPastSites (unroll (circuit_items circuit.now)) span before inside change.now self.now p.from p.propagation p.checkpoints.items)) }
        ensures distinct { OnOk result (All HasDistinctQubits (unroll (circuit_items circuit.now))) }
        ensures err { IfErr result (λ r. r ≡ OutOfMemory) }
    {
        let checkpoint = &self.checkpoints[before - 1];
        let mut cursor = Cursor::at(alloc, circuit, checkpoint.step)?;
        let from = lengths_after(
            &mut cursor,
            span.first - checkpoint.step,
            checkpoint.lengths,
        );
        let free = self.outputs.free.as_slice();
        let mut propagation = Propagation::new(alloc, self.tableau.len(), free, from.free)?;
        let (_, following) = self.checkpoints.as_slice().split_at(before);
        let (within, _) = following.split_at(inside - before);
        let mut passed = Vec::new(alloc);
        let went = propagate_sites(
            alloc,
            within,
            span.first,
            change,
            &self.strings,
            free,
            &mut cursor,
            &mut propagation,
            &mut passed,
            by_frame,
        )?;
        if !went {
            return Ok(None);
        }
        Ok(Some(PastSites {
            from,
            propagation,
            checkpoints: passed,
        }))
    }

    /// Propagates a frame that went past the sites of a change on over the steps after its span, past the
    /// checkpoints from a number on. `None` if it can't give the run after it. Checkpoints are looked at in the
    /// memory of a spare tableau if there is one. The steps that it passes are counted either way.
    ///
    /// Refusal `OutOfMemory` alone.
    fn conjugating(
        &self,
        alloc: Global,
        circuit: &Circuit,
        span: Span,
        inside: usize,
        passed: PastSites,
        spare: &mut Option<Tableau>,
        by_frame: &mut u64,
    ) -> Result<Option<Conjugating>, Refusal>
        requires checked { check_within self.now.tableau.qubits (circuit_items circuit.now) ≡ None }
        requires follows { (coins : ℕ → Bool) × (K : ℕ) × (change : PauliChange) × Follows self.now.tableau.qubits coins K (unroll (circuit_items circuit.now)) span (Some change) self.now }
        requires letters { length passed.propagation.letters ≡ self.now.tableau.qubits }
        requires may { MayPropagate self.now.strings self.now.outputs.free.items 0 (drop span.new_end (unroll (circuit_items circuit.now))) by_frame.old passed.propagation }
        requires inside { inside ≤ length self.now.checkpoints.items }
        requires following { IfSome (slice_get self.now.checkpoints.items inside) (λ c. span.old_end ≤ c.step) }
        ensures most { by_frame.new ≤ by_frame.old + (length (unroll (circuit_items circuit.now)) - span.new_end) }
        ensures conjugating { IfOk result (λ found. IfSome found (IsConjugating (unroll (circuit_items circuit.now)) span inside passed self.now)) }
        ensures err { IfErr result (λ r. r ≡ OutOfMemory) }
    {
        let PastSites {
            from,
            mut propagation,
            checkpoints,
        } = passed;
        let mut cursor = Cursor::at(alloc, circuit, span.new_end)?;
        let (_, following) = self.checkpoints.as_slice().split_at(inside);
        let mut conjugated = Vec::new(alloc);
        let advanced = propagate_rest(
            alloc,
            following,
            span.old_end,
            &self.strings,
            self.outputs.free.as_slice(),
            self.window,
            &mut cursor,
            &mut propagation,
            &mut conjugated,
            spare,
            by_frame,
        )?;
        if !advanced {
            return Ok(None);
        }
        Ok(Some(Conjugating {
            from,
            passed: checkpoints,
            rest: OldRest {
                number: inside,
                meeting: meeting_after(span),
                propagation,
                conjugated,
                room: Vec::with_capacity(alloc, self.checkpoints.len() - inside)?,
            },
        }))
    }

    /// Puts what a frame made of the run in place. It takes no memory.
    fn put(&mut self, conjugating: Conjugating, before: usize, stride: usize)
        requires room { HasRoomFor self.old.tableau.qubits conjugating.rest self.old.checkpoints.items }
        requires count { length conjugating.passed.items + before ≡ conjugating.rest.number }
        ensures put { IsTakenOver self.old before stride conjugating self.new }
    {
        let Conjugating {
            from,
            mut passed,
            rest,
        } = conjugating;
        flip_outputs(&mut self.outputs, from, &rest.propagation);
        sum_additions(&mut self.observables, self.outputs.additions.as_slice());
        passed.reverse();
        self.put_rest(rest, before, &mut passed, stride);
    }

    /// Makes this the run of an edited circuit, whose steps differ within the span by Pauli gates alone,
    /// as a change says, by conjugating it where it lies. `None`, and nothing has changed, where a frame
    /// can't give the new run, or a checkpoint must be stored; the steps that it passed are then counted. Checkpoints are looked at
    /// in the memory of a spare tableau if there is one.
    ///
    /// Refusal `OutOfMemory` alone; then nothing has changed either.
    fn conjugate(
        &mut self,
        alloc: Global,
        circuit: &Circuit,
        span: Span,
        change: &PauliChange,
        stride: usize,
        spare: &mut Option<Tableau>,
        tried: &mut u64,
    ) -> Result<Option<Followed>, Refusal>
        requires checked { check_within self.old.tableau.qubits (circuit_items circuit.now) ≡ None }
        requires same_length { length change.now.string.letters ≡ self.old.tableau.qubits }
        requires follows { (coins : ℕ → Bool) × Follows self.old.tableau.qubits coins stride (unroll (circuit_items circuit.now)) span (Some change.now) self.old }
        requires none_tried { tried.old ≡ 0 }
        ensures tried { OnOk result (tried.new ≤ 2 * (length (unroll (circuit_items circuit.now)) - span.first)) }
        ensures conjugated { IfOk result (λ found. IfSome found (λ f. (coins : ℕ → Bool) → Follows self.old.tableau.qubits coins stride (unroll (circuit_items circuit.now)) span (Some change.now) self.old → HasConjugated self.old.tableau.qubits coins stride (unroll (circuit_items circuit.now)) (observables_of (circuit_items circuit.now)) span self.old f self.new)) }
        ensures none_in_vain { IfOk result (λ found. IfSome found (λ f. f.tried ≡ 0)) }
        ensures distinct { IfOk result (λ found. IfSome found (λ _. All HasDistinctQubits (unroll (circuit_items circuit.now)))) }
        ensures none { IfOk result (λ found. found ≡ None → self.new ≡ self.old) }
        ensures unchanged { OnErr result (self.new ≡ self.old) }
        ensures err { IfErr result (λ r. r ≡ OutOfMemory) }
    {
        if circuit.observables() != self.observables.len() {
            return Ok(None);
        }
        let total = circuit.steps();
        let checkpoints = self.checkpoints.as_slice();
        let before = count_before(checkpoints, span.first + 1);
        let inside = count_within(checkpoints, before, span.old_end);
        let begin = checkpoints[before - 1].step;
        let Some(passed) = self.past_sites(alloc, circuit, span, before, inside, change, tried)?
        else {
            return Ok(None);
        };
        let Some(last) = last_near(begin, passed.checkpoints.as_slice(), stride) else {
            return Ok(None);
        };
        if !stays_near(last, checkpoints, inside, span, total, stride) {
            return Ok(None);
        }
        let Some(conjugating) = self.conjugating(
            alloc, circuit, span, inside, passed, spare, tried,
        )?
        else {
            return Ok(None);
        };
        let end = end_step(
            checkpoints,
            inside + conjugating.rest.conjugated.len(),
            span,
            total,
        );
        let followed = propagated_between(begin, end);
        self.put(conjugating, before, stride);
        Ok(Some(followed))
    }

    /// Makes this the run of an edited circuit, whose steps differ within the span, and says how
    /// many steps were carried out for it, how many others it passed, and how many frames went over in vain. In repeats of its steps
    /// what rounds gave is repeated, if they come again. The run is as before if memory is refused.
    ///
    /// If old and new steps differ by Pauli gates alone, they differ as the given change says. A frame then conjugates
    /// the run in place, and no step is carried out. Else, and if that can't be, steps are carried out anew, in
    /// the memory of a spare tableau if there is one, and one of the two that are then at hand is the next spare.
    pub fn follow<C: Coins>(
        &mut self,
        alloc: Global,
        circuit: &Circuit,
        repeats: &[Repeat],
        span: Span,
        paulis: Option<PauliChange>,
        stride: usize,
        coins: &mut C,
        spare: &mut Option<Tableau>,
    ) -> Result<Followed, Refusal>
        requires checked { check_within self.old.tableau.qubits (circuit_items circuit.now) ≡ None }
        requires repeats { AreRepeats 0 (unroll (circuit_items circuit.now)) repeats.now }
        requires stride { 1 ≤ stride }
        requires follows { Follows self.old.tableau.qubits (C.sequence coins.old) stride (unroll (circuit_items circuit.now)) span paulis self.old }
        requires same_length { IfSome paulis (λ p. length p.string.letters ≡ self.old.tableau.qubits) }
        ensures followed { IfOk result (λ f. HasFollowed self.old.tableau.qubits (C.sequence coins.old) stride (unroll (circuit_items circuit.now)) (observables_of (circuit_items circuit.now)) span (C.asks coins.old) (C.asks coins.new) self.old f self.new) }
        ensures qubits { self.new.tableau.qubits ≡ self.old.tableau.qubits }
        ensures unchanged { OnErr result (IsSameRecording self.new self.old) }
        ensures same_coins { C.sequence coins.new ≡ C.sequence coins.old }
        ensures asked { AsksWithin stride (unroll (circuit_items circuit.now)) span.first (C.asks coins.old) (C.asks coins.new) }
        ensures err { IfErr result (λ r. r ≡ OutOfMemory) }
    {
        let mut tried = 0;
        if let Some(change) = paulis {
            if let Some(followed) = self.conjugate(
                alloc, circuit, span, &change, stride, spare, &mut tried,
            )? {
                return Ok(followed);
            }
        }
        self.replay(alloc, circuit, repeats, span, stride, coins, spare, tried)
    }
}
