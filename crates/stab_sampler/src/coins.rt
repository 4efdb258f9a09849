//! What is drawn in all lanes, and the coins of shots of a seed.
ghost use Rattle.std.specs.Prelude.{◌≡◌, ◌≢◌, ◌==◌, ℕ, ◌+◌, ◌-◌, ◌/◌, ◌%◌, ◌<◌, ◌^◌, Bool, false, [], slice_index_or};
ghost use Rattle.stab_run.specs.Coins.{seed_coin};
ghost use Rattle.stab_sampler.specs.Words.{word_bit};
ghost use Rattle.stab_sampler.specs.Seeds.{lane_coin, AreCoins, AreCoinsOfParts};

use crate::streams::words_of_shot;
use crate::wide::Wide;
use crate::word::Word;
use std::marker::Model;

/// What is drawn in each lane at a coin number: bits by lane and by number, which no call changes. If the outcome of that
/// number is random, it is flipped in a lane if the bit is 1. Over a run with all coins 0 the bits are the coins of the lanes.
pub trait Draw<W: Word>: Drop {
    // The bit of each lane and number.
    ghost sequences: { Self → ℕ → ℕ → Bool };

    /// The bits with number `t`, counted from 0, of all lanes.
    fn coins(&mut self, t: u64) -> W
        ensures value { (l : ℕ) → l < W.lanes → W.at result l ≡ sequences self.old l t }
        ensures same { sequences self.new ≡ sequences self.old };
}

/// This many shots of a seed, numbered one after another from a first one on. Numbers go on from 2^64 - 1 with 0.
#[derive(Clone, Copy)]
pub(crate) struct SeededShots {
    seed: u64,
    first: u64,
    count: usize,
}

impl SeededShots {
    /// Those that are left after this many.
    fn after(self, skipped: usize) -> SeededShots
        ensures value { (l t : ℕ) → lane_coin result l t ≡ lane_coin self (skipped + l) t }
    {
        SeededShots {
            seed: self.seed,
            first: self.first.wrapping_add(skipped as u64),
            count: self.count.saturating_sub(skipped),
        }
    }
}

/// The coins of shots of a seed, of which 64 * N have a lane each. In lanes without a shot they are 0. Contracts see the shots.
///
/// Coins are made 64 at a time, and the last 64 are stored.
pub struct SeedLanes<const N: usize> {
    shots: SeededShots,
    // The last 64 coins begin at 64 times this number.
    group: Option<u64>,
    // Those of each 64 of the lanes.
    parts: [[u64; 64]; N],
}

// Written out, so that a proof sees the drop of a value as one call, and not one for each of its parts.
impl<const N: usize> Drop for SeedLanes<N> {
    fn drop(self) {
        let SeedLanes {
            shots: _,
            group: _,
            parts: _,
        } = self;
    }
}

impl<const N: usize> Model for SeedLanes<N> {
    ghost use Rattle.std.specs.Option.{ForSome};
    ghost use Rattle.stab_sampler.specs.declared.coins.SeededShots.{SeededShots};
    ghost use Rattle.stab_sampler.specs.Seeds.{AreCoinsOfParts};

    ghost Value = { SeededShots };

    ghost view = { λ c. c.shots };

    ghost invariant = { λ c. ForSome c.group (λ group. AreCoinsOfParts c.shots group N c.parts) };
}

impl<const N: usize> SeedLanes<N> {
    /// The coins of this many shots of a seed from a first one on. Numbers of shots go on from 2^64 - 1 with 0. Of further lanes
    /// none is made.
    pub fn of_seed(seed: u64, first: u64, count: usize) -> SeedLanes<N>
        ensures value { (l t : ℕ) → l < count → lane_coin result l t ≡ seed_coin seed ((first + l) % 2 ^ 64) t }
    {
        SeedLanes {
            shots: SeededShots { seed, first, count },
            group: None,
            parts: [[0; 64]; N],
        }
    }
}

impl<const N: usize> Draw<Wide<N>> for SeedLanes<N> {
    ghost sequences = { lane_coin };

    fn coins(&mut self, t: u64) -> Wide<N> {
        let group = t / 64;
        if self.group != Some(group) {
            write_parts(self.shots, group, &mut self.parts);
            self.group = Some(group);
        }
        Wide {
            words: coins_at(&self.parts, (t % 64) as usize),
        }
    }
}

/// Writes the 64 coins from 64 times the group's number on, of 64 shots for each part.
fn write_parts<const N: usize>(shots: SeededShots, group: u64, parts: &mut [[u64; 64]; N])
    requires small { group < 2 ^ 58 }
    ensures each { AreCoinsOfParts shots group N parts.new }
{
    let mut left = shots;
    for part in 0..N {
        parts[part] = coins_of_part(left, group);
        left = left.after(64);
    }
}

/// The 64 coins from 64 times the group's number on, of 64 shots.
fn coins_of_part(shots: SeededShots, group: u64) -> [u64; 64]
    requires small { group < 2 ^ 58 }
    ensures each { AreCoins shots group 64 result }
{
    let low = coins_of_half(shots, group);
    let high = coins_of_half(shots.after(32), group);
    let mut words = [0; 64];
    for k in 0..64 {
        words[k] = joined(low[k], high[k]);
    }
    words
}

/// The 64 coins from 64 times the group's number on, of 32 shots: words that are as wide as those of a stream are faster to write.
fn coins_of_half(shots: SeededShots, group: u64) -> [u32; 64]
    requires small { group < 2 ^ 58 }
    ensures each { AreCoins shots group 32 result }
{
    let mut half = [0; 64];
    for lane in 0..shots.count.min(32) {
        let shot = shots.first.wrapping_add(lane as u64);
        let blocks = words_of_shot(shots.seed, shot, group);
        put_lane(&mut half, lane, &blocks);
    }
    half
}

/// A word whose bit in a lane is flipped, if it is to be.
fn flip_lane(word: u32, lane: usize, bit: bool) -> u32
    requires in_range { lane < 32 }
    ensures here { word_bit word lane ≡ false → word_bit result lane ≡ bit }
    ensures others { (l : ℕ) → l ≢ lane → word_bit result l ≡ word_bit word l }
{
    word ^ (u32::from(bit) << lane)
}

/// Puts the lowest bits of 64 words, sixteen in each block, into a lane of as many words, whose bits are 0 there.
fn put_lane(words: &mut [u32; 64], lane: usize, blocks: &[[u32; 16]; 4])
    requires in_range { lane < 32 }
    ensures here { (k : ℕ) → k < 64 → word_bit (slice_index_or words.old k 0) lane ≡ false → word_bit (slice_index_or words.new k 0) lane ≡ (slice_index_or (slice_index_or blocks.now (k / 16) []) (k % 16) 0 % 2 == 1) }
    ensures others { (k l : ℕ) → k < 64 → l ≢ lane → word_bit (slice_index_or words.new k 0) l ≡ word_bit (slice_index_or words.old k 0) l }
{
    for block in 0..4 {
        put_block(words, block, lane, &blocks[block]);
    }
}

/// Puts the lowest bits of the sixteen words of a block into a lane of as many words, whose bits are 0 there.
fn put_block(words: &mut [u32; 64], block: usize, lane: usize, given: &[u32; 16])
    requires in_range { lane < 32 }
    requires in_words { block < 4 }
    ensures here { (k : ℕ) → k / 16 ≡ block → word_bit (slice_index_or words.old k 0) lane ≡ false → word_bit (slice_index_or words.new k 0) lane ≡ (slice_index_or given.now (k % 16) 0 % 2 == 1) }
    ensures elsewhere { (k : ℕ) → k / 16 ≢ block → slice_index_or words.new k 0 ≡ slice_index_or words.old k 0 }
    ensures others { (k l : ℕ) → k < 64 → l ≢ lane → word_bit (slice_index_or words.new k 0) l ≡ word_bit (slice_index_or words.old k 0) l }
{
    for k in 0..16 {
        let position = 16 * block + k;
        words[position] = flip_lane(words[position], lane, given[k] % 2 == 1);
    }
}

/// A word of 64 lanes, of the word of the first 32 and that of the others.
fn joined(low: u32, high: u32) -> u64
    ensures low { (l : ℕ) → l < 32 → word_bit result l ≡ word_bit low l }
    ensures high { (l : ℕ) → word_bit result (32 + l) ≡ word_bit high l }
{
    (u64::from(high) << 32) + u64::from(low)
}

/// The coins at a position among the 64 of each part.
fn coins_at<const N: usize>(parts: &[[u64; 64]; N], position: usize) -> [u64; N]
    requires in_range { position < 64 }
    ensures value { (p : ℕ) → p < N → slice_index_or result p 0 ≡ slice_index_or (slice_index_or parts.now p []) position 0 }
{
    let mut words = [0; N];
    for part in 0..N {
        words[part] = parts[part][position];
    }
    words
}
