//! What is stored of lanes after a round, and whether lanes are as they were then.
ghost use Rattle.std.specs.Prelude.{◌≡◌, ℕ, ◌+◌, ◌<◌, ◌≤◌, false, IsTrue, length, take, slice_index_or, IfOk};
ghost use Rattle.stab_run.specs.Records.{looked_up as looked_up_of};
ghost use Rattle.stab_sampler.specs.Lanes.{lane_bits, lane_letters};
ghost use Rattle.stab_sampler.specs.LaneCheckpoints.{lengths_in, IsAgain};

use crate::lanes::{Lanes, looked_up};
use crate::letters::Letters;
use crate::word::Word;
use stab_run::Lengths;
use std::alloc::{AllocError, Global};

/// What is stored of lanes after a round, for later ones to be compared with.
#[derive(Drop)]
pub struct LaneCheckpoint<W> {
    /// The letters of the frames.
    pub letters: Vec<Letters<W>>,
    /// How much was given.
    pub lengths: Lengths,
    /// How many rounds were done.
    pub done: usize,
}

impl<W: Word> LaneCheckpoint<W> {
    /// That of lanes after this many rounds.
    pub fn of(alloc: Global, lanes: &Lanes<W>, done: usize) -> Result<LaneCheckpoint<W>, AllocError>
        ensures letters { IfOk result (λ m. m.letters.items ≡ lanes.now.frames.letters.items) }
        ensures lengths { IfOk result (λ m. m.lengths ≡ lengths_in lanes.now) }
        ensures done { IfOk result (λ m. m.done ≡ done) }
    {
        Ok(LaneCheckpoint {
            letters: Vec::from_slice(alloc, lanes.frames.letters.as_slice())?,
            lengths: Lengths {
                records: lanes.records.len(),
                free: lanes.free.len(),
                detectors: lanes.detectors.len(),
                additions: lanes.sums.len(),
            },
            done,
        })
    }
}

/// Whether letters are the same as others in all lanes.
fn same_letters<W: Word>(letters: &[Letters<W>], others: &[Letters<W>]) -> bool
    ensures same { IsTrue result → (l : ℕ) → l < W.lanes → lane_letters W.at l letters.now ≡ lane_letters W.at l others.now }
{
    if letters.len() != others.len() {
        return false;
    }
    for qubit in 0..letters.len() {
        if !letters[qubit].is_same(&others[qubit]) {
            return false;
        }
    }
    true
}

/// Whether the newest records are flipped as they were when there were this many.
fn same_records<W: Word>(records: &[W], following: usize, window: u32) -> bool
    ensures same { IsTrue result → (l : ℕ) → l < W.lanes → (k : ℕ) → k ≤ window → looked_up_of (take following (lane_bits W.at l records.now)) k ≡ looked_up_of (lane_bits W.at l records.now) k }
{
    if following > records.len() {
        return false;
    }
    let (earlier, _) = records.split_at(following);
    for k in 0..=window {
        if !looked_up(earlier, k).is_same(&looked_up(records, k)) {
            return false;
        }
    }
    true
}

/// Whether lanes are as they were at a checkpoint, for all that looks this far back.
pub fn comes_again<W: Word>(checkpoint: &LaneCheckpoint<W>, lanes: &Lanes<W>, window: u32) -> bool
    ensures again { IsTrue result → (l : ℕ) → l < W.lanes → IsAgain W.at l window checkpoint.now lanes.now }
{
    same_letters(
        checkpoint.letters.as_slice(),
        lanes.frames.letters.as_slice(),
    ) && same_records(lanes.records.as_slice(), checkpoint.lengths.records, window)
}

/// Whether all of this many outcomes from one on are recorded and deterministic.
pub fn are_deterministic(free: &[bool], from: usize, count: usize) -> bool
    ensures deterministic { IsTrue result → (t : ℕ) → t < count → slice_index_or free.now (from + t) false ≡ false }
{
    if free.len() < from || free.len() - from < count {
        return false;
    }
    for coin in from..from + count {
        if free[coin] {
            return false;
        }
    }
    true
}
