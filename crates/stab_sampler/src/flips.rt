//! The bits of all lanes, by those of the run with all coins 0 and what each lane flips.
ghost use Rattle.std.specs.Prelude.{◌≡◌, ℕ, ◌<◌, false, length, slice_index_or, slice_set, IfOk};
ghost use Rattle.stab_gates.specs.Letters.{◌⊕◌};
ghost use Rattle.stab_frames.specs.Flips.{flipped};
ghost use Rattle.stab_sampler.specs.Lanes.{lane_bits, lane_output};
ghost use Rattle.stab_sampler.specs.Shots.{IsAsLong, AreFlipped};

use crate::lanes::{Lanes, observables};
use crate::shots::Shots;
use crate::word::Word;
use stab_recording::Shot;
use std::alloc::{AllocError, Global};

/// Flips the bits of all lanes at a position, if the bit of the reference is 1. Else no word is fetched.
fn flip_where<W: Word>(bit: bool, flips: &mut Vec<W>, position: usize)
    requires in_range { position < length flips.old.items }
    ensures size { length flips.new.items ≡ length flips.old.items }
    ensures value { (l : ℕ) → l < W.lanes → lane_bits W.at l flips.new.items ≡ slice_set (lane_bits W.at l flips.old.items) position (slice_index_or (lane_bits W.at l flips.old.items) position false ⊕ bit) }
{
    if bit {
        flips[position] = flips[position].xor(W::all(true));
    }
}

/// Flips the bits of all lanes where those of one shot are 1: what lanes flip gives their bits, and their bits give what they flip.
pub fn flip_bits<W: Word>(bits: &[bool], flips: &mut Vec<W>)
    ensures value { (l : ℕ) → l < W.lanes → length (lane_bits W.at l flips.old.items) ≡ length bits.now → lane_bits W.at l flips.new.items ≡ flipped bits.now (lane_bits W.at l flips.old.items) }
{
    for position in 0..bits.len().min(flips.len()) {
        flip_where(bits[position], flips, position);
    }
}

/// What shots give, by lanes that have gone over all steps and the shot with all coins 0, which has this many observables.
pub fn shots_of<W: Word>(
    alloc: Global,
    shot: &Shot,
    lanes: Lanes<W>,
    count: usize,
) -> Result<Shots<W>, AllocError>
    ensures flipped { IfOk result (λ s. (l : ℕ) → l < W.lanes → IsAsLong count shot.now (lane_output W.at l lanes) → AreFlipped W.at l count shot.now (lane_output W.at l lanes) s) }
{
    let Lanes {
        frames: _,
        mut records,
        mut free,
        mut detectors,
        sums,
        number: _,
    } = lanes;
    let mut observables = observables(alloc, count, sums.as_slice())?;
    flip_bits(shot.records.as_slice(), &mut records);
    flip_bits(shot.detectors.as_slice(), &mut detectors);
    flip_bits(shot.observables.as_slice(), &mut observables);
    free.clear();
    free.extend_from_slice(shot.free.as_slice())?;
    Ok(Shots {
        records,
        free,
        detectors,
        observables,
    })
}
