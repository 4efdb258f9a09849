ghost use Rattle.std.specs.Prelude.{◌≡◌, ℕ, ◌+◌, ◌-◌, ◌*◌, ◌<◌, ◌≤◌, Bool, [], None, length, take, reverse, slice_get, vec_capacity, IfSome, OnErr, IfOk, IfErr};
ghost use Rattle.stab_io.specs.declared.refusal.Refusal.TheVariants.{OutOfMemory};
ghost use Rattle.stab_gates.specs.Limits.{most_qubits};
ghost use Rattle.stab_items.specs.Steps.{unroll, observables_of, check_of, check_within};
ghost use Rattle.stab_items.specs.Views.{circuit_items};
ghost use Rattle.stab_items.specs.Repeats.{AreRepeats};
ghost use Rattle.stab_run.specs.Records.{ones};
ghost use Rattle.stab_run.specs.ProgramStates.{output_of};
ghost use Rattle.stab_frames.specs.Pivots.{front_stored};
ghost use Rattle.stab_session.specs.FollowedEdits.{AsksWithin, HasFollowed};
ghost use Rattle.stab_session.specs.Recordings.{IsRecording, IsSameRecording, Follows};
ghost use Rattle.stab_session.specs.inner.Prepared.{Begins, HasCheckpoint, IsRest, IsOldRest, HasRoom, IsPrepared, checkpoints_after, IsCommitted};

use crate::rest::OldRest;
use stab_frames::{PivotRecorder, Pivots, Propagation, count_ones};
use stab_io::Refusal;
use stab_items::{Circuit, Cursor, Repeat, Span};
use stab_pauli::Pauli;
use stab_recording::{Checkpoint, End, Meeting, OldRun, Plan, Replay, count_before};
use stab_run::{Coins, Outputs, observables};
use stab_tableau::Tableau;
use std::alloc::{AllocError, Global};

/// A run that is stored: the state after the last step, what the steps gave, checkpoints of the state on
/// the way, the first before the first step, and pivots of its random outcomes. Its steps
/// look back to no more records than its lookback window.
#[derive(Drop)]
pub struct Recording {
    pub tableau: Tableau,
    pub outputs: Outputs,
    pub observables: Vec<bool>,
    pub checkpoints: Vec<Checkpoint>,
    pub strings: Pivots,
    pub window: u32,
}

/// How an edit was followed: how many steps were carried out for it, how many others it passed, and how many frames went over
/// that came to no end.
#[derive(Clone, Copy)]
pub struct Followed {
    pub applied: u64,
    pub by_frame: u64,
    pub tried: u64,
}

/// What a replay leaves, in memory of its own.
#[derive(Drop)]
struct Prepared {
    outputs: Outputs,
    observables: Vec<bool>,
    strings: Pivots,
    window: u32,
    // The checkpoints stored on the way, the last first.
    saved: Vec<Checkpoint>,
    rest: Rest,
}

/// What comes after the steps of a replay.
#[derive(Drop)]
enum Rest {
    /// Nothing: this is the state after the last step.
    Nothing(Tableau),
    /// The old run from a checkpoint on.
    Old(OldRest),
}

impl Recording {
    /// The run of no steps.
    pub fn new(alloc: Global, n: usize) -> Result<Recording, Refusal>
        requires in_range { n ≤ most_qubits }
        ensures preserved { (coins : ℕ → Bool) (K : ℕ) → IfOk result (IsRecording n coins K [] 0) }
        ensures err { IfErr result (λ r. r ≡ OutOfMemory) }
    {
        let tableau = Tableau::new(alloc, n)?;
        let outputs = Outputs::new(alloc);
        let first = Checkpoint {
            step: 0,
            lengths: outputs.lengths(),
            tableau: tableau.compact(alloc)?,
        };
        let checkpoints = vec![in alloc; first]?;
        Ok(Recording {
            tableau,
            outputs,
            observables: Vec::new(alloc),
            checkpoints,
            strings: Pivots::new(alloc, n),
            window: 0,
        })
    }

    /// The pivots of the first steps, which have this randomness.
    ///
    /// Refusal `OutOfMemory` alone.
    fn front_pivots(&self, alloc: Global, free: &[bool]) -> Result<PivotRecorder, Refusal>
        ensures strings { IfOk result (λ pivots. pivots.strings ≡ front_stored (ones free.now) self.now.strings) }
        ensures window { IfOk result (λ pivots. pivots.window ≡ self.now.window) }
        ensures string { IfOk result (λ pivots. length pivots.string.letters ≡ self.now.tableau.qubits) }
        ensures err { IfErr result (λ r. r ≡ OutOfMemory) }
    {
        let string = Pauli::identity(alloc, self.tableau.len())?;
        let strings = self.strings.front(alloc, count_ones(free))?;
        Ok(PivotRecorder {
            strings,
            window: self.window,
            string,
        })
    }

    /// A replay from the checkpoint with a number on, in the memory of a spare tableau if there is one.
    fn resume<'a>(
        &self,
        alloc: Global,
        circuit: &'a Circuit,
        number: usize,
        spare: Option<Tableau>,
    ) -> Result<Replay<'a>, Refusal>
        requires in_range { number < length self.now.checkpoints.items }
        requires checked { check_of (circuit_items circuit.now) ≡ None }
        requires within { IfSome (slice_get self.now.checkpoints.items number) (λ checkpoint. checkpoint.step ≤ length (unroll (circuit_items circuit.now))) }
        ensures begins { IfOk result (λ replay. IfSome (slice_get self.now.checkpoints.items number) (λ checkpoint. Begins (unroll (circuit_items circuit.now)) self.now checkpoint replay)) }
        ensures err { IfErr result (λ r. r ≡ OutOfMemory) }
    {
        let checkpoint = &self.checkpoints[number];
        let string = Pauli::identity(alloc, self.tableau.len())?;
        let tableau = checkpoint.tableau.tableau(alloc, spare)?;
        let outputs = self.outputs.front(alloc, checkpoint.lengths)?;
        let pivots = self.front_pivots(alloc, outputs.free.as_slice())?;
        let cursor = Cursor::at(alloc, circuit, checkpoint.step)?;
        Ok(Replay {
            tableau,
            string,
            outputs,
            pivots,
            cursor,
            step: checkpoint.step,
            applied: 0,
            by_frame: 0,
            saved: Vec::new(alloc),
        })
    }

    /// Makes this the run of an edited circuit, whose steps differ within the span, by carrying out
    /// steps anew, and says how many were, and how many others it passed; a frame went over some in vain before. In repeats of the
    /// circuit's steps what rounds gave is repeated, if they come again. The run is as before if memory is refused.
    ///
    /// The replay goes on in the memory of a spare tableau if there is one, and one of the two
    /// that are then at hand is the next spare.
    pub(crate) fn replay<C: Coins>(
        &mut self,
        alloc: Global,
        circuit: &Circuit,
        repeats: &[Repeat],
        span: Span,
        stride: usize,
        coins: &mut C,
        spare: &mut Option<Tableau>,
        tried: u64,
    ) -> Result<Followed, Refusal>
        requires checked { check_within self.old.tableau.qubits (circuit_items circuit.now) ≡ None }
        requires repeats { AreRepeats 0 (unroll (circuit_items circuit.now)) repeats.now }
        requires stride { 1 ≤ stride }
        requires follows { Follows self.old.tableau.qubits (C.sequence coins.old) stride (unroll (circuit_items circuit.now)) span None self.old }
        requires tried { tried ≤ 2 * (length (unroll (circuit_items circuit.now)) - span.first) }
        ensures followed { IfOk result (λ f. HasFollowed self.old.tableau.qubits (C.sequence coins.old) stride (unroll (circuit_items circuit.now)) (observables_of (circuit_items circuit.now)) span (C.asks coins.old) (C.asks coins.new) self.old f self.new) }
        ensures qubits { self.new.tableau.qubits ≡ self.old.tableau.qubits }
        ensures unchanged { OnErr result (IsSameRecording self.new self.old) }
        ensures same_coins { C.sequence coins.new ≡ C.sequence coins.old }
        ensures asked { AsksWithin stride (unroll (circuit_items circuit.now)) span.first (C.asks coins.old) (C.asks coins.new) }
        ensures err { IfErr result (λ r. r ≡ OutOfMemory) }
    {
        let before = count_before(self.checkpoints.as_slice(), span.first + 1);
        let mut replay = self.resume(alloc, circuit, before - 1, spare.take())?;
        let plan = Plan {
            total: circuit.steps(),
            stride,
            old_end: span.old_end,
            new_end: span.new_end,
            next: count_before(self.checkpoints.as_slice(), span.old_end).max(before),
            window: self.window,
        };
        let old = OldRun {
            checkpoints: self.checkpoints.as_slice(),
            outputs: &self.outputs,
        };
        let end = replay.follow(alloc, circuit, repeats, &old, plan, coins)?;
        let followed = Followed {
            applied: replay.applied,
            by_frame: replay.by_frame,
            tried,
        };
        let prepared = self.prepare(alloc, replay, end, circuit.observables(), spare)?;
        self.commit(prepared, before, stride, spare);
        Ok(followed)
    }

    /// Gathers what the run of the edited circuit is made of, and takes all memory for it.
    fn prepare(
        &mut self,
        alloc: Global,
        replay: Replay,
        end: End,
        count: usize,
        spare: &mut Option<Tableau>,
    ) -> Result<Prepared, Refusal>
        requires in_range { HasCheckpoint self.old.checkpoints.items end }
        requires same_length { replay.pivots.strings.qubits ≡ self.old.strings.qubits }
        ensures unchanged { IsSameRecording self.new self.old }
        ensures prepared { IfOk result (IsPrepared self.old replay.entry count end) }
        ensures room { IfOk result (λ p. HasRoom self.new.tableau.qubits p.rest self.new.checkpoints.items) }
        ensures capacity { IfOk result (λ p. length self.new.checkpoints.items + length p.saved.items ≤ vec_capacity self.new.checkpoints) }
        ensures err { IfErr result (λ r. r ≡ OutOfMemory) }
    {
        let Replay {
            tableau,
            mut outputs,
            pivots,
            mut saved,
            step,
            ..
        } = replay;
        let PivotRecorder {
            mut strings,
            window,
            ..
        } = pivots;
        let rest = self.rest(alloc, tableau, &mut outputs, &mut strings, step, end, spare)?;
        strings.cut();
        let observables = observables(alloc, count, outputs.additions.as_slice())?;
        self.checkpoints.reserve(saved.len())?;
        saved.reverse();
        Ok(Prepared {
            outputs,
            observables,
            strings,
            window,
            saved,
            rest,
        })
    }

    /// What comes after a replay that ended before a step with this tableau, these outputs and
    /// these strings, to which those after it are appended. A tableau that is not needed is the next
    /// spare.
    ///
    /// Refusal `OutOfMemory` alone.
    fn rest(
        &self,
        alloc: Global,
        tableau: Tableau,
        outputs: &mut Outputs,
        strings: &mut Pivots,
        step: usize,
        end: End,
        spare: &mut Option<Tableau>,
    ) -> Result<Rest, Refusal>
        requires in_range { HasCheckpoint self.now.checkpoints.items end }
        requires same_length { strings.old.qubits ≡ self.now.strings.qubits }
        ensures rest { IfOk result (IsRest self.now tableau (output_of outputs.old) strings.old step end (output_of outputs.new) strings.new) }
        ensures room { IfOk result (λ rest. HasRoom self.now.tableau.qubits rest self.now.checkpoints.items) }
        ensures err { IfErr result (λ r. r ≡ OutOfMemory) }
    {
        match end {
            End::Last => Ok(Rest::Nothing(tableau)),
            End::Joined(number) => {
                *spare = Some(tableau);
                self.old_rest(alloc, outputs, strings, step, number)
            }
        }
    }

    /// The run from an old checkpoint on, to come after a replay that ended before a step with these outputs and these strings, to which
    /// those after it are appended.
    ///
    /// Refusal `OutOfMemory` alone.
    fn old_rest(
        &self,
        alloc: Global,
        outputs: &mut Outputs,
        strings: &mut Pivots,
        step: usize,
        number: usize,
    ) -> Result<Rest, Refusal>
        requires in_range { number < length self.now.checkpoints.items }
        requires same_length { strings.old.qubits ≡ self.now.strings.qubits }
        ensures rest { IfOk result (λ rest. IfSome (slice_get self.now.checkpoints.items number) (IsOldRest self.now (output_of outputs.old) strings.old step number (output_of outputs.new) strings.new rest)) }
        ensures room { IfOk result (λ rest. HasRoom self.now.tableau.qubits rest self.now.checkpoints.items) }
        ensures err { IfErr result (λ r. r ≡ OutOfMemory) }
    {
        let checkpoint = &self.checkpoints[number];
        let lengths = outputs.lengths();
        outputs.append_rest(&self.outputs, checkpoint.lengths)?;
        self.append_strings(strings, checkpoint.lengths.free, outputs.free.as_slice())?;
        Ok(Rest::Old(OldRest {
            number,
            meeting: Meeting {
                old_step: checkpoint.step,
                new_step: step,
                old_lengths: checkpoint.lengths,
                new_lengths: lengths,
            },
            propagation: Propagation::new(alloc, self.tableau.len(), &[], 0)?,
            conjugated: Vec::new(alloc),
            room: Vec::with_capacity(alloc, self.checkpoints.len() - number)?,
        }))
    }

    /// Puts what was prepared in place. It takes no memory. A tableau that is replaced is the next
    /// spare.
    fn commit(
        &mut self,
        prepared: Prepared,
        before: usize,
        stride: usize,
        spare: &mut Option<Tableau>,
    )
        requires room { HasRoom self.old.tableau.qubits prepared.rest self.old.checkpoints.items }
        requires capacity { length self.old.checkpoints.items + length prepared.saved.items ≤ vec_capacity self.old.checkpoints }
        requires following { before + length (checkpoints_after prepared.rest self.old.checkpoints.items) ≤ length self.old.checkpoints.items }
        ensures committed { IsCommitted self.old prepared before stride self.new }
    {
        let Prepared {
            outputs,
            observables,
            strings,
            window,
            mut saved,
            rest,
        } = prepared;
        self.outputs = outputs;
        self.observables = observables;
        self.strings = strings;
        self.window = window;
        match rest {
            Rest::Nothing(tableau) => {
                *spare = Some(std::mem::replace(&mut self.tableau, tableau));
                self.save_after(before, &mut saved, stride);
            }
            Rest::Old(rest) => self.put_rest(rest, before, &mut saved, stride),
        }
    }
}
