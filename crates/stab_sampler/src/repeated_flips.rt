//! What lanes flipped in some rounds, appended again.
ghost use Rattle.std.specs.Prelude.{◌≡◌, ℕ, ◌++◌, drop, OnOk};
ghost use Rattle.stab_run.specs.Points.{joined};
ghost use Rattle.stab_run.specs.RoundLaws.{output_copies};
ghost use Rattle.stab_run.specs.Cuts.{rest_of};
ghost use Rattle.stab_sampler.specs.Lanes.{lane_output};
ghost use Rattle.stab_sampler.specs.LaneCheckpoints.{times};

use crate::lanes::Lanes;
use crate::word::Word;
use stab_run::Lengths;
use std::alloc::AllocError;

/// Appends what a list has from a position on, this many times.
fn append_times<T: Copy>(items: &mut Vec<T>, from: usize, count: usize) -> Result<(), AllocError>
    ensures value { OnOk result (items.new.items ≡ items.old.items ++ times count (drop from items.old.items)) }
{
    let following = items.len();
    if from >= following {
        return Ok(());
    }
    for _ in 0..count {
        items.extend_from_within(from..following)?;
    }
    Ok(())
}

/// Appends what all lanes flipped after some lengths, this many times.
pub fn repeat_flips<W: Word>(
    lanes: &mut Lanes<W>,
    lengths: Lengths,
    count: usize,
) -> Result<(), AllocError>
    ensures frames { lanes.new.frames ≡ lanes.old.frames }
    ensures number { lanes.new.number ≡ lanes.old.number }
    ensures free { OnOk result (lanes.new.free.items ≡ lanes.old.free.items ++ times count (drop lengths.free lanes.old.free.items)) }
    ensures output { OnOk result ((l : ℕ) → lane_output W.at l lanes.new ≡ joined (lane_output W.at l lanes.old) (output_copies count (rest_of lengths (lane_output W.at l lanes.old)))) }
{
    append_times(&mut lanes.records, lengths.records, count)?;
    append_times(&mut lanes.free, lengths.free, count)?;
    append_times(&mut lanes.detectors, lengths.detectors, count)?;
    append_times(&mut lanes.sums, lengths.additions, count)?;
    Ok(())
}
