//! One outcome, on lanes that are propagated over what is recorded of a run. Lanes keep flips instead of bits.
ghost use Rattle.std.specs.Prelude.{◌≡◌, ℕ, ◌+◌, ◌<◌, length, IfOk, OnOk};
ghost use Rattle.stab_sampler.specs.RecordedPivots.{lane_pivots};
ghost use Rattle.stab_sampler.specs.Differences.{lane_difference, MayPropagateLanes, IsMeasuredBy};

use crate::coins::Draw;
use crate::lanes::Lanes;
use crate::word::Word;
use stab_frames::{Pivots, bit_at};
use std::alloc::AllocError;

/// What is recorded of a run's outcomes: by coin number which were random, and a string for each that was, which exchanges it for the
/// other.
#[derive(Clone, Copy)]
pub struct RecordedPivots<'a> {
    pub strings: &'a Pivots,
    pub free: &'a [bool],
}

/// Propagates all lanes over the outcome of the next coin, by the lanes that anticommute with what is measured. Gives which
/// outcomes are flipped: a deterministic one if the lane anticommutes, and a random one as is drawn. If a random outcome is flipped
/// otherwise than the lane's string says, the string is multiplied by its pivot.
pub fn decide<W: Word, D: Draw<W>>(
    recorded_pivots: RecordedPivots,
    draw: &mut D,
    lanes: &mut Lanes<W>,
    anticommuting: W,
) -> Result<W, AllocError>
    requires may { MayPropagateLanes recorded_pivots lanes.old }
    ensures may { OnOk result (MayPropagateLanes recorded_pivots.entry lanes.new) }
    ensures coin { OnOk result (length lanes.new.free.items ≡ length lanes.old.free.items + 1) }
    ensures same_coins { D.sequences draw.new ≡ D.sequences draw.old }
    ensures measures { IfOk result (λ flips. (l : ℕ) → l < W.lanes → IsMeasuredBy (lane_pivots recorded_pivots.entry (D.sequences draw.old l)) (W.at anticommuting l) (W.at flips l) (lane_difference W.at l lanes.old) (lane_difference W.at l lanes.new)) }
{
    let coin = lanes.free.len();
    lanes.free.push(false)?;
    if !bit_at(recorded_pivots.free, coin) {
        return Ok(anticommuting);
    }
    let string = recorded_pivots.strings.string(lanes.number);
    let flips = draw.coins(coin as u64);
    lanes.frames.multiply(string, flips.xor(anticommuting));
    lanes.number += 1;
    Ok(flips)
}
