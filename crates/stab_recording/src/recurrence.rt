//! Recurrences: checkpoints of a replay at which its state was what it is now, exactly or up to a frame.

ghost use Rattle.std.specs.Prelude.{◌≡◌, ◌+◌, ◌<◌, IsTrue, IfSome, All, length, IfOk, IfErr};
ghost use Rattle.stab_io.specs.declared.refusal.Refusal.TheVariants.{OutOfMemory};
ghost use Rattle.stab_run.specs.ProgramStates.{output_of};
ghost use Rattle.stab_recording.specs.inner.FoldedReplays.{IsRoundsAfter, IsOfOwn, AreRoundsFound};

use crate::checkpoint::Checkpoint;
use crate::frames_between::frame_between;
use crate::meeting::comes_again;
use crate::replay::Replay;
use stab_frames::Propagation;
use stab_io::Refusal;
use stab_items::Repeat;
use stab_pauli::Pauli;
use std::alloc::Global;

/// How many of its newest checkpoints a replay compares with its state.
const LOOKED_BACK: usize = 64;

/// The number of a checkpoint whose state is that of the replay now, or differs from it by the frame.
#[derive(Drop)]
pub struct Recurrence {
    pub number: usize,
    pub frame: Option<Propagation>,
}

impl<'a> Replay<'a> {
    /// Whether the replay is in a block some whole rounds after a checkpoint.
    fn is_rounds_after(&self, block: Repeat, checkpoint: &Checkpoint) -> bool
        requires some { 0 < block.length }
        ensures value { IsTrue result → IsRoundsAfter block self.now.step checkpoint.now }
    {
        if checkpoint.step < block.first || checkpoint.step >= self.step {
            return false;
        }
        let steps = self.step - checkpoint.step;
        steps / block.length * block.length == steps
    }

    /// Compares the state with a checkpoint of the block that is not the last one: exactly, or up to a frame.
    ///
    /// Refusal `OutOfMemory` alone.
    fn compare(
        &self,
        alloc: Global,
        string: &mut Pauli,
        block: Repeat,
        number: usize,
        by_frame: bool,
    ) -> Result<Option<Recurrence>, Refusal>
        requires some { 0 < block.length }
        requires in_range { number + 1 < length self.now.saved.items }
        requires string { length string.old.letters ≡ self.now.tableau.qubits }
        requires own { All (IsOfOwn self.now.tableau.qubits (output_of self.now.outputs)) self.now.saved.items }
        ensures string { length string.new.letters ≡ length string.old.letters }
        ensures found { IfOk result (λ found. IfSome found (AreRoundsFound block self.now)) }
        ensures err { IfErr result (λ r. r ≡ OutOfMemory) }
    {
        let checkpoint = &self.saved[number];
        if !self.is_rounds_after(block, checkpoint) {
            return Ok(None);
        }
        if !by_frame {
            if comes_again(&self.tableau, &self.outputs, checkpoint, self.pivots.window) {
                return Ok(Some(Recurrence {
                    number,
                    frame: None,
                }));
            }
            return Ok(None);
        }
        let base = checkpoint.lengths.records;
        let found = frame_between(
            alloc,
            &self.tableau,
            string,
            &self.outputs,
            checkpoint,
            &self.outputs,
            base,
            self.pivots.window,
        )?;
        let Some(propagation) = found else {
            return Ok(None);
        };
        Ok(Some(Recurrence {
            number,
            frame: Some(propagation),
        }))
    }

    /// The newest checkpoint of the block, except the last one, whose state is that of the replay now; if there is none and frames
    /// are asked for, the newest whose state differs by a frame.
    ///
    /// Refusal `OutOfMemory` alone.
    pub(crate) fn find_recurrence(
        &self,
        alloc: Global,
        block: Repeat,
        by_frame: bool,
    ) -> Result<Option<Recurrence>, Refusal>
        requires some { 0 < block.length }
        requires own { All (IsOfOwn self.now.tableau.qubits (output_of self.now.outputs)) self.now.saved.items }
        ensures found { IfOk result (λ found. IfSome found (AreRoundsFound block self.now)) }
        ensures err { IfErr result (λ r. r ≡ OutOfMemory) }
    {
        let mut string = Pauli::identity(alloc, self.tableau.len())?;
        let last = self.saved.len().saturating_sub(1);
        let count = last.min(LOOKED_BACK);
        let looks = if by_frame { 2 * count } else { count };
        'looking: for look in 0..looks {
            let number = last - 1 - look % count;
            let by_frame = look >= count;
            if let Some(found) = self.compare(alloc, &mut string, block, number, by_frame)? {
                return Ok(Some(found));
            }
        }
        Ok(None)
    }
}
