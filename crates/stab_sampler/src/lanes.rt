ghost use Rattle.std.specs.Prelude.{◌≡◌, ℕ, ◌+◌, ◌<◌, Bool, false, [], length, replicate, IfOk, OnOk};
ghost use Rattle.stab_run.specs.Points.{with_additions};
ghost use Rattle.stab_run.specs.Runs.{added};
ghost use Rattle.stab_run.specs.Records.{looked_up as looked_up_of, parity as parity_of};
ghost use Rattle.stab_sampler.specs.Lanes.{lane_bits, lane_additions};

use crate::frames::{Frames, repeated};
use crate::word::Word;
use std::alloc::{AllocError, Global};

/// Bits that are added to an observable, one for each lane.
#[derive(Clone, Copy)]
pub struct Sum<W> {
    pub observable: u32,
    pub parity: W,
}

/// Shots that go through the same steps, one in each lane: the Pauli string by which each differs
/// from the run that they are propagated over, and what each has flipped so far. Which coins decided is flipped in none.
#[derive(Drop)]
pub struct Lanes<W> {
    pub frames: Frames<W>,
    pub records: Vec<W>,
    pub free: Vec<bool>,
    pub detectors: Vec<W>,
    pub sums: Vec<Sum<W>>,
    /// How many of the coins so far decided, among those of which pivots are recorded.
    pub number: usize,
}

/// The records `rec[-k]`, or 0 if there are fewer than k.
pub fn looked_up<W: Word>(records: &[W], k: u32) -> W
    ensures value { (l : ℕ) → l < W.lanes → W.at result l ≡ looked_up_of (lane_bits W.at l records.now) k }
{
    let back = k as usize;
    if back == 0 || records.len() < back {
        return W::all(false);
    }
    records[records.len() - back]
}

/// The parities of the records that the numbers k of `rec[-k]` name.
pub fn parity<W: Word>(records: &[W], lookbacks: &[u32]) -> W
    ensures value { (l : ℕ) → l < W.lanes → W.at result l ≡ parity_of (lane_bits W.at l records.now) lookbacks.now }
{
    let mut parity = W::all(false);
    for k in lookbacks {
        parity = parity.xor(looked_up(records, *k));
    }
    parity
}

/// Adds bits to an observable, if there is such a one.
fn add<W: Word>(observables: &mut Vec<W>, sum: Sum<W>)
    ensures value { (l : ℕ) → l < W.lanes → lane_bits W.at l observables.new.items ≡ added sum.observable (W.at sum.parity l) (lane_bits W.at l observables.old.items) }
{
    let position = sum.observable as usize;
    if position < observables.len() {
        observables[position] = sum.parity.xor(observables[position]);
    }
}

/// This many observables with all that was added to them, all 0 before.
pub fn observables<W: Word>(
    alloc: Global,
    count: usize,
    sums: &[Sum<W>],
) -> Result<Vec<W>, AllocError>
    ensures value { IfOk result (λ v. (l : ℕ) → l < W.lanes → lane_bits W.at l v.items ≡ with_additions (lane_additions W.at l sums.now) (replicate count false)) }
{
    let mut observables = repeated(alloc, W::all(false), count)?;
    for sum in sums {
        add(&mut observables, *sum);
    }
    Ok(observables)
}

/// Replaces what a list has by the bits of a lane.
pub fn write_lane<W: Word>(words: &[W], lane: usize, bits: &mut Vec<bool>) -> Result<(), AllocError>
    requires in_range { lane < W.lanes }
    ensures value { OnOk result (bits.new.items ≡ lane_bits W.at lane words.now) }
{
    bits.clear();
    for word in words {
        bits.push(word.bit(lane))?;
    }
    Ok(())
}
