ghost use Rattle.std.specs.Prelude.{◌≡◌, ◌+◌, ◌≤◌, ◌++◌, length, take, drop, reverse, slice_get, vec_capacity, OnOk, IfErr};
ghost use Rattle.stab_io.specs.declared.refusal.Refusal.TheVariants.{OutOfMemory};
ghost use Rattle.stab_run.specs.Records.{ones};
ghost use Rattle.stab_recording.specs.PivotLists.{IsSpliced};
ghost use Rattle.stab_run.specs.ProgramStates.{output_of};
ghost use Rattle.stab_recording.specs.SavedCheckpoints.{all_saved};
ghost use Rattle.stab_recording.specs.RestFrames.{with_states};
ghost use Rattle.stab_session.specs.inner.OldRests.{HasRoomFor, IsRestPut, conjugated_end};

use crate::recording::Recording;
use stab_frames::{Pivots, Propagation, count_ones};
use stab_io::Refusal;
use stab_items::Span;
use stab_recording::{Checkpoint, Meeting, apply_frame, save_all, shifted, take_moved};
use stab_tableau::CompactTableau;

/// The run from a checkpoint on, which a frame conjugates, and which moves to another step.
#[derive(Drop)]
pub(crate) struct OldRest {
    /// The number of that checkpoint.
    pub number: usize,
    /// Where it is, and where it moves to.
    pub meeting: Meeting,
    /// The frame after the last step.
    pub propagation: Propagation,
    /// The first checkpoints, conjugated.
    pub conjugated: Vec<CompactTableau>,
    // Where checkpoints are while they move.
    pub room: Vec<Checkpoint>,
}

/// Where a checkpoint is among the new steps once it has moved with a span, or the end where there is none.
pub(crate) fn end_step(checkpoints: &[Checkpoint], number: usize, span: Span, total: usize) -> usize
    ensures value { result ≡ conjugated_end span total (slice_get checkpoints.now number) }
{
    match checkpoints.get(number) {
        Some(checkpoint) => shifted(span.old_end, span.new_end, checkpoint.step),
        None => total,
    }
}

/// Replaces the states of checkpoints from a position on. It takes no memory.
fn put_states(checkpoints: &mut Vec<Checkpoint>, from: usize, states: &mut Vec<CompactTableau>)
    requires in_range { from + length states.old.items ≤ length checkpoints.old.items }
    ensures value { checkpoints.new.items ≡ take from checkpoints.old.items ++ with_states states.old.items (drop from checkpoints.old.items) }
    ensures capacity { vec_capacity checkpoints.new ≡ vec_capacity checkpoints.old }
{
    while let Some(state) = states.pop() {
        checkpoints[from + states.len()].tableau = state;
    }
}

impl Recording {
    /// Keeps checkpoints, the last of them first, after this many of those that are stored. It takes no
    /// memory.
    pub(crate) fn save_after(&mut self, before: usize, saved: &mut Vec<Checkpoint>, stride: usize)
        requires room { before + length saved.old.items ≤ vec_capacity self.old.checkpoints }
        ensures tableau { self.new.tableau ≡ self.old.tableau }
        ensures output { output_of self.new.outputs ≡ output_of self.old.outputs }
        ensures observables { self.new.observables.items ≡ self.old.observables.items }
        ensures strings { self.new.strings ≡ self.old.strings }
        ensures window { self.new.window ≡ self.old.window }
        ensures checkpoints { self.new.checkpoints.items ≡ all_saved stride (reverse saved.old.items) (take before self.old.checkpoints.items) }
        ensures shorter { length self.new.checkpoints.items ≤ before + length saved.old.items }
        ensures capacity { vec_capacity self.new.checkpoints ≡ vec_capacity self.old.checkpoints }
    {
        self.checkpoints.truncate(before);
        save_all(&mut self.checkpoints, saved, stride);
    }

    /// Puts the rest of the run in place, after checkpoints, the last of them first, that come after this many of those that are stored. It
    /// takes no memory.
    pub(crate) fn put_rest(
        &mut self,
        rest: OldRest,
        before: usize,
        saved: &mut Vec<Checkpoint>,
        stride: usize,
    )
        requires room { HasRoomFor self.old.tableau.qubits rest self.old.checkpoints.items }
        requires order { before ≤ rest.number }
        requires capacity { before + length saved.old.items + length self.old.checkpoints.items ≤ vec_capacity self.old.checkpoints + rest.number }
        ensures put { IsRestPut self.old rest before stride (reverse saved.old.items) self.new }
    {
        let OldRest {
            number,
            meeting,
            propagation,
            mut conjugated,
            mut room,
        } = rest;
        apply_frame(&mut self.tableau, propagation.letters());
        put_states(&mut self.checkpoints, number, &mut conjugated);
        take_moved(&mut self.checkpoints, number, meeting, &mut room);
        self.save_after(before, saved, stride);
        save_all(&mut self.checkpoints, &mut room, stride);
    }

    /// Appends the pivots of random outcomes from this coin number on to those before, in a run with
    /// this randomness.
    ///
    /// Refusal `OutOfMemory` alone.
    pub(crate) fn append_strings(
        &self,
        strings: &mut Pivots,
        coin: usize,
        free: &[bool],
    ) -> Result<(), Refusal>
        requires same_length { strings.old.qubits ≡ self.now.strings.qubits }
        ensures spliced { OnOk result (IsSpliced strings.old self.now.strings (ones (take coin self.now.outputs.free.items)) (ones free.now) strings.new) }
        ensures err { IfErr result (λ r. r ≡ OutOfMemory) }
    {
        let (before, _) = self
            .outputs
            .free
            .as_slice()
            .split_at(coin.min(self.outputs.free.len()));
        strings.append_rest(&self.strings, count_ones(before))?;
        // If strings were missing, none may be put after those that are there.
        if strings.len() < count_ones(free) {
            strings.close();
        }
        Ok(())
    }
}
