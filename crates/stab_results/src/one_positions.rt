ghost use Rattle.std.specs.Prelude.{◌≡◌, ◌<◌, ◌≤◌, ◌+◌, ℕ, true, List, [], length, drop};
ghost use Rattle.std.specs.Iterator.{YieldsFirst, item_count};
ghost use Rattle.stab_results.specs.Formats.{one_positions, one_positions_from};

use std::marker::Model;

/// How many bits are looked at together, so that a shot with few 1 bits costs little.
pub(crate) const BLOCK: usize = 64;

/// Whether no bit is 1.
pub(crate) fn are_zeros(bits: &[bool]) -> bool
    ensures zeros { result ≡ true → one_positions bits.now ≡ [] }
{
    let mut any = false;
    for bit in bits {
        any = any | *bit;
    }
    !any
}

/// Whether a whole block of zeros begins at a position, if a block begins there.
fn begins_zeros(bits: &[bool], position: usize) -> bool
    requires in_range { position < length bits.now }
    ensures within { result ≡ true → position + 64 ≤ length bits.now }
    ensures zeros { result ≡ true → one_positions_from (position + 64) (drop (position + 64) bits.now) ≡ one_positions_from position (drop position bits.now) }
{
    if position % BLOCK != 0 || bits.len() - position < BLOCK {
        return false;
    }
    are_zeros(bits.split_at(position).1.split_at(BLOCK).0)
}

/// The positions of the 1 bits of a list, one after another. Contracts see those that are left.
#[derive(Drop)]
pub(crate) struct OnePositions<'a> {
    bits: &'a [bool],
    position: usize,
}

impl<'a> Model for OnePositions<'a> {
    ghost Value = { List ℕ };

    ghost view = { λ s. one_positions_from s.position (drop s.position s.bits.now) };
}

impl<'a> OnePositions<'a> {
    /// The positions of all 1 bits of a list.
    pub(crate) fn new(bits: &'a [bool]) -> OnePositions<'a>
        ensures all { result ≡ one_positions bits.entry.now }
    {
        OnePositions { bits, position: 0 }
    }
}

impl Iterator for OnePositions<'_> {
    type Item = usize;

    ghost next_gives = { YieldsFirst (λ positions. positions) };

    ghost remaining = { item_count (λ positions. positions) };

    fn next(&mut self) -> Option<usize> {
        while self.position < self.bits.len() {
            let position = self.position;
            if begins_zeros(self.bits, position) {
                self.position += BLOCK;
            } else {
                self.position += 1;
                if self.bits[position] {
                    return Some(position);
                }
            }
        }
        None
    }
}
