ghost use Rattle.std.specs.Prelude.{◌≡◌, ◌+◌, ◌<◌, ◌≤◌, All, IfSome, length, take, drop, map, reverse, slice_get, ◌++◌, vec_capacity};
ghost use Rattle.stab_recording.specs.SavedCheckpoints.{saved, all_saved, moved, moved_lengths, moved_checkpoint};

use stab_run::Lengths;
use stab_tableau::CompactTableau;

/// The state before a step, stored, and how long the lists were there.
pub struct Checkpoint {
    pub step: usize,
    pub lengths: Lengths,
    pub tableau: CompactTableau,
}

// Written out, so that a proof sees the drop of a value as one call, and not one for each of its parts.
impl Drop for Checkpoint {
    fn drop(self) {
        let Checkpoint {
            step: _,
            lengths: _,
            tableau: _,
        } = self;
    }
}

/// Where a replay met a checkpoint of the old run: from there on the steps of the old run follow those of the new one.
#[derive(Clone, Copy)]
pub struct Meeting {
    pub old_step: usize,
    pub new_step: usize,
    pub old_lengths: Lengths,
    pub new_lengths: Lengths,
}

/// A step or a length after another, moved as that one moves.
pub fn shifted(old: usize, new: usize, value: usize) -> usize
    ensures value { result ≡ moved old new value }
{
    new.saturating_add(value.saturating_sub(old))
}

/// Lengths, moved with others.
fn lengths_moved(lengths: Lengths, old: Lengths, new: Lengths) -> Lengths
    ensures value { result ≡ moved_lengths old new lengths }
{
    Lengths {
        records: shifted(old.records, new.records, lengths.records),
        free: shifted(old.free, new.free, lengths.free),
        detectors: shifted(old.detectors, new.detectors, lengths.detectors),
        additions: shifted(old.additions, new.additions, lengths.additions),
    }
}

impl Checkpoint {
    /// The checkpoint moved with the one at a meeting.
    fn moved(self, meeting: Meeting) -> Checkpoint
        ensures value { result ≡ moved_checkpoint meeting self }
    {
        let Checkpoint {
            step,
            lengths,
            tableau,
        } = self;
        Checkpoint {
            step: shifted(meeting.old_step, meeting.new_step, step),
            lengths: lengths_moved(lengths, meeting.old_lengths, meeting.new_lengths),
            tableau,
        }
    }
}

/// How many of the first checkpoints are before a step.
pub fn count_before(checkpoints: &[Checkpoint], step: usize) -> usize
    ensures within { result ≤ length checkpoints.now }
    ensures before { All (λ c. c.step < step) (take result checkpoints.now) }
    ensures following { IfSome (slice_get checkpoints.now result) (λ c. step ≤ c.step) }
{
    let mut count = 0;
    while count < checkpoints.len() && checkpoints[count].step < step {
        count += 1;
    }
    count
}

/// Puts a checkpoint after others, instead of the last if that is no longer needed. It takes no
/// memory.
fn save(checkpoints: &mut Vec<Checkpoint>, checkpoint: Checkpoint, stride: usize)
    requires room { length checkpoints.old.items < vec_capacity checkpoints.old }
    ensures value { checkpoints.new.items ≡ saved stride checkpoint checkpoints.old.items }
    ensures capacity { vec_capacity checkpoints.new ≡ vec_capacity checkpoints.old }
{
    let len = checkpoints.len();
    if len >= 2 && checkpoint.step.saturating_sub(checkpoints[len - 2].step) <= stride {
        checkpoints.truncate(len - 1);
    }
    checkpoints.push_reserved(checkpoint);
}

/// Puts checkpoints after others, the last of them first. It takes no memory.
pub fn save_all(checkpoints: &mut Vec<Checkpoint>, others: &mut Vec<Checkpoint>, stride: usize)
    requires room { length checkpoints.old.items + length others.old.items ≤ vec_capacity checkpoints.old }
    ensures value { checkpoints.new.items ≡ all_saved stride (reverse others.old.items) checkpoints.old.items }
    ensures capacity { vec_capacity checkpoints.new ≡ vec_capacity checkpoints.old }
    ensures shorter { length checkpoints.new.items ≤ length checkpoints.old.items + length others.old.items }
{
    while let Some(checkpoint) = others.pop() {
        save(checkpoints, checkpoint, stride);
    }
}

/// Takes the checkpoints from this position on, the last first, and moves them with the one at a meeting. It
/// takes no memory.
pub fn take_moved(
    checkpoints: &mut Vec<Checkpoint>,
    position: usize,
    meeting: Meeting,
    taken: &mut Vec<Checkpoint>,
)
    requires room { length taken.old.items + length checkpoints.old.items ≤ vec_capacity taken.old + position }
    ensures left { checkpoints.new.items ≡ take position checkpoints.old.items }
    ensures taken { taken.new.items ≡ taken.old.items ++ reverse (map (moved_checkpoint meeting) (drop position checkpoints.old.items)) }
    ensures capacity { vec_capacity checkpoints.new ≡ vec_capacity checkpoints.old }
{
    while checkpoints.len() > position {
        if let Some(checkpoint) = checkpoints.pop() {
            taken.push_reserved(checkpoint.moved(meeting));
        }
    }
}
