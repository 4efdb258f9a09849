ghost use Rattle.std.specs.Prelude.{◌≡◌, ℕ, ◌+◌, ◌*◌, ◌<◌, ◌≤◌, false, get_or, length, take, OnOk};
ghost use Rattle.std.specs.Int.{div_ceil};
ghost use Rattle.stab_sampler.specs.Words.{word_bit};
ghost use Rattle.stab_sampler.specs.Lanes.{lane_bits};
ghost use Rattle.stab_sampler.specs.Bytes.{lane_bytes};
ghost use Rattle.stab_results.specs.Formats.{b8_bytes};
ghost use Rattle.stab_sampler.specs.Blocks.{first_exchanged, second_exchanged, row_bytes};

use crate::word::{Word, byte};
use std::alloc::AllocError;

/// Writes the bits of the 64 lanes from 64 * position on, of words of more lanes.
pub fn write_part<W: Word>(words: &[W], position: usize, part: &mut [u64])
    requires in_range { 64 * position + 64 ≤ W.lanes }
    requires as_many { length part.old ≡ length words.now }
    ensures size { length part.new ≡ length part.old }
    ensures value { (l : ℕ) → l < 64 → lane_bits word_bit l part.new ≡ lane_bits W.at (64 * position + l) words.now }
{
    for k in 0..words.len() {
        part[k] = words[k].part(position);
    }
}

/// Writes the byte at a position of each word, counted from the lowest: a bit of each of eight lanes.
pub fn write_bytes(words: &[u64], position: usize, bytes: &mut [u8])
    requires in_range { position < 8 }
    requires as_many { length bytes.old ≡ length words.now }
    ensures value { bytes.new ≡ lane_bytes position words.now }
{
    for i in 0..words.len() {
        bytes[i] = byte(words[i], position);
    }
}

/// Two words that have exchanged bits: the second's at the positions of a mask, and the first's this many positions higher.
fn exchanged(first: u64, second: u64, mask: u64, positions: u32) -> (u64, u64)
    requires in_range { positions < 64 }
    ensures first { result.0 ≡ first_exchanged first second mask positions }
    ensures second { result.1 ≡ second_exchanged first second mask positions }
{
    let differing = ((first >> positions) ^ second) & mask;
    (first ^ (differing << positions), second ^ differing)
}

/// Exchanges bits of the two halves of 64 words, each word with its partner in the other half. Partners are neighbours
/// afterwards, so that after six times each word is where it was.
fn exchange_halves(words: &[u64; 64], after: &mut [u64; 64], mask: u64, positions: u32)
    requires in_range { positions < 64 }
    ensures first { (p : ℕ) → p < 32 → get_or after.new (2 * p) 0 ≡ first_exchanged (get_or words.now p 0) (get_or words.now (p + 32) 0) mask positions }
    ensures second { (p : ℕ) → p < 32 → get_or after.new (2 * p + 1) 0 ≡ second_exchanged (get_or words.now p 0) (get_or words.now (p + 32) 0) mask positions }
{
    for p in 0..32 {
        let (first, second) = exchanged(words[p], words[p + 32], mask, positions);
        after[2 * p] = first;
        after[2 * p + 1] = second;
    }
}

/// At most 64 words, and zeros after them.
fn padded(words: &[u64]) -> [u64; 64]
    requires few { length words.now ≤ 64 }
    ensures value { (k : ℕ) → get_or result k 0 ≡ get_or words.now k 0 }
{
    let mut block = [0; 64];
    block[..words.len()].copy_from_slice(words);
    block
}

/// The bits of lanes of at most 64 words, as a word for each of 64 lanes. After them are zeros.
fn transposed(words: &[u64]) -> [u64; 64]
    requires few { length words.now ≤ 64 }
    ensures value { (l k : ℕ) → l < 64 → k < 64 → word_bit (get_or result l 0) k ≡ get_or (lane_bits word_bit l words.now) k false }
{
    let mut block = padded(words);
    let mut other = [0; 64];
    exchange_halves(&block, &mut other, 0x0000_0000_FFFF_FFFF, 32);
    exchange_halves(&other, &mut block, 0x0000_FFFF_0000_FFFF, 16);
    exchange_halves(&block, &mut other, 0x00FF_00FF_00FF_00FF, 8);
    exchange_halves(&other, &mut block, 0x0F0F_0F0F_0F0F_0F0F, 4);
    exchange_halves(&block, &mut other, 0x3333_3333_3333_3333, 2);
    exchange_halves(&other, &mut block, 0x5555_5555_5555_5555, 1);
    block
}

/// Replaces what a list has by the bits of 64 lanes: for each 64 words, and for the words left, a block with a word for each
/// lane, the first bit the lowest.
pub fn write_blocks(words: &[u64], blocks: &mut Vec<[u64; 64]>) -> Result<(), AllocError>
    ensures room { OnOk result (length words.now ≤ 64 * length blocks.new.items) }
    ensures value { OnOk result ((l : ℕ) → l < 64 → take (div_ceil (length words.now) 8) (row_bytes l blocks.new.items) ≡ b8_bytes (lane_bits word_bit l words.now)) }
{
    blocks.clear();
    for group in words.chunks(64) {
        blocks.push(transposed(group))?;
    }
    Ok(())
}

/// Writes the bytes of a lane of blocks, eight of each block.
pub fn write_row(blocks: &[[u64; 64]], lane: usize, bytes: &mut [u8])
    requires in_range { lane < 64 }
    requires as_long { length bytes.old ≡ 8 * length blocks.now }
    ensures value { bytes.new ≡ row_bytes lane blocks.now }
{
    for i in 0..blocks.len() {
        bytes[8 * i..8 * i + 8].copy_from_slice(&blocks[i][lane].to_le_bytes());
    }
}
