ghost use Rattle.std.specs.Prelude.{◌≡◌, ◌++◌, false, take, drop, slice_index_or, OnOk};
ghost use Rattle.stab_run.specs.Records.{ones};
ghost use Rattle.stab_frames.specs.Flips.{flipped, flipped_additions};

use stab_run::Addition;
use std::alloc::AllocError;

/// A bit of a list, and 0 past its end.
pub fn bit_at(bits: &[bool], position: usize) -> bool
    ensures value { result ≡ slice_index_or bits.now position false }
{
    bits.get(position).copied().unwrap_or(false)
}

/// How many bits are 1.
pub fn count_ones(bits: &[bool]) -> usize
    ensures value { result ≡ ones bits.now }
{
    let mut count = 0;
    for bit in bits {
        count += usize::from(*bit);
    }
    count
}

/// Appends bits, each inverted if its flip is 1. Bits after the last flip are not inverted.
pub fn append_flipped(to: &mut Vec<bool>, bits: &[bool], flips: &[bool]) -> Result<(), AllocError>
    ensures value { OnOk result (to.new.items ≡ to.old.items ++ flipped bits.now flips.now) }
{
    let count = flips.len().min(bits.len());
    for position in 0..count {
        to.push(flips[position] ^ bits[position])?;
    }
    let (_, rest) = bits.split_at(count);
    to.extend_from_slice(rest)?;
    Ok(())
}

/// Appends additions, the bit of each inverted if that of its flip is 1.
pub fn append_flipped_additions(
    to: &mut Vec<Addition>,
    additions: &[Addition],
    flips: &[Addition],
) -> Result<(), AllocError>
    ensures value { OnOk result (to.new.items ≡ to.old.items ++ flipped_additions additions.now flips.now) }
{
    let count = flips.len().min(additions.len());
    for position in 0..count {
        to.push(Addition {
            observable: additions[position].observable,
            bit: flips[position].bit ^ additions[position].bit,
        })?;
    }
    let (_, rest) = additions.split_at(count);
    to.extend_from_slice(rest)?;
    Ok(())
}

/// The elements of a list from one position to another.
pub fn between<T>(items: &[T], from: usize, to: usize) -> &[T]
    ensures value { result.now ≡ drop from (take to items.now) }
{
    let (front, _) = items.split_at(to.min(items.len()));
    let (_, between) = front.split_at(from.min(front.len()));
    between
}
