ghost use Rattle.std.specs.Prelude.{◌≡◌, ◌≤◌, ◌∷◌, [], ◌++◌, length};
ghost use Rattle.std.specs.Fmt.{decimal};
ghost use Rattle.std.specs.List.{flat_map};
ghost use Rattle.stab_results.specs.Formats.{digit, f01_bytes, number, b8_bytes, run_bytes, r8_bytes, hits_bytes, one_positions, detected_entry, entry, dets_bytes, shot_bytes};

use crate::byte_buffer::ByteBuffer;
use crate::format::{Format, Kinds};
use crate::one_positions::{BLOCK, OnePositions, are_zeros};
use stab_io::{Output, Refusal};

/// The character of a bit.
fn digit(bit: bool) -> u8
    ensures value { digit bit ≡ result ∷ [] }
{
    if bit { b'1' } else { b'0' }
}

/// The number with these binary digits, the least significant first.
fn number(bits: &[bool]) -> u8
    requires within { length bits.now ≤ 8 }
    ensures value { result ≡ number bits.now }
{
    let mut value = 0;
    for position in (0..bits.len()).rev() {
        value = 2 * value + u8::from(bits[position]);
    }
    value
}

/// The entry of a 1 bit among this many detectors and then observables, in dets.
fn detected_entry(count: usize, position: usize) -> (&'static [u8], usize)
    ensures value { detected_entry count position ≡ result.0.now ++ decimal result.1 }
{
    if position < count {
        (b" D", position)
    } else {
        (b" L", position - count)
    }
}

/// The entry of a 1 bit in dets: a space with the prefix of its kind, and its number.
fn entry(kinds: Kinds, position: usize) -> (&'static [u8], usize)
    ensures value { entry kinds position ≡ result.0.now ++ decimal result.1 }
{
    match kinds {
        Kinds::Measurements => (b" M", position),
        Kinds::Detectors(count) => detected_entry(count, position),
        Kinds::Whole { records, .. } if position < records => (b" M", position),
        Kinds::Whole { records, detectors } => detected_entry(detectors, position - records),
    }
}

impl ByteBuffer {
    ghost use Rattle.stab_results.specs.inner.ByteBuffer.{Puts};

    /// Puts a shot in a format.
    pub(crate) fn put_shot<O: Output>(
        &mut self,
        out: &mut O,
        format: Format,
        kinds: Kinds,
        bits: &[bool],
    ) -> Result<(), Refusal>
        ensures puts { Puts (O.seen out.old) (O.seen out.new) self.old self.new (shot_bytes format kinds bits.now) result }
    {
        match format {
            Format::F01 => self.put_f01(out, bits),
            Format::B8 => self.put_b8(out, bits),
            Format::R8 => self.put_r8(out, bits),
            Format::Hits => self.put_hits(out, bits),
            Format::Dets => self.put_dets(out, kinds, bits),
        }
    }

    fn put_f01<O: Output>(&mut self, out: &mut O, bits: &[bool]) -> Result<(), Refusal>
        ensures puts { Puts (O.seen out.old) (O.seen out.new) self.old self.new (f01_bytes bits.now) result }
    {
        for block in bits.chunks(BLOCK) {
            self.put_digits(out, block)?;
        }
        self.push(out, b'\n')
    }

    /// Puts the characters of a block's bits, at most as many as a block has.
    fn put_digits<O: Output>(&mut self, out: &mut O, bits: &[bool]) -> Result<(), Refusal>
        requires short { length bits.now ≤ 64 }
        ensures puts { Puts (O.seen out.old) (O.seen out.new) self.old self.new (flat_map digit bits.now) result }
    {
        let mut digits = [b'0'; BLOCK];
        for (position, bit) in bits.iter().enumerate() {
            digits[position] = digit(*bit);
        }
        self.put_bytes(out, digits.split_at(bits.len()).0)
    }

    fn put_b8<O: Output>(&mut self, out: &mut O, bits: &[bool]) -> Result<(), Refusal>
        ensures puts { Puts (O.seen out.old) (O.seen out.new) self.old self.new (b8_bytes bits.now) result }
    {
        for block in bits.chunks(BLOCK) {
            self.put_block(out, block)?;
        }
        Ok(())
    }

    /// Puts the bits of a block, in b8.
    fn put_block<O: Output>(&mut self, out: &mut O, bits: &[bool]) -> Result<(), Refusal>
        ensures puts { Puts (O.seen out.old) (O.seen out.new) self.old self.new (b8_bytes bits.now) result }
    {
        if bits.len() == BLOCK && are_zeros(bits) {
            self.put(out, &[0; BLOCK / 8])
        } else {
            self.put_groups(out, bits)
        }
    }

    fn put_groups<O: Output>(&mut self, out: &mut O, bits: &[bool]) -> Result<(), Refusal>
        ensures puts { Puts (O.seen out.old) (O.seen out.new) self.old self.new (b8_bytes bits.now) result }
    {
        for group in bits.chunks(8) {
            self.push(out, number(group))?;
        }
        Ok(())
    }

    fn put_r8<O: Output>(&mut self, out: &mut O, bits: &[bool]) -> Result<(), Refusal>
        ensures puts { Puts (O.seen out.old) (O.seen out.new) self.old self.new (r8_bytes bits.now) result }
    {
        let mut start = 0;
        for position in OnePositions::new(bits) {
            self.put_run(out, position - start)?;
            start = position + 1;
        }
        self.put_run(out, bits.len() - start)
    }

    /// Puts this many zeros and the 1 after them, in r8.
    fn put_run<O: Output>(&mut self, out: &mut O, zeros: usize) -> Result<(), Refusal>
        ensures puts { Puts (O.seen out.old) (O.seen out.new) self.old self.new (run_bytes zeros) result }
    {
        for _ in 0..zeros / 255 {
            self.push(out, 0xff)?;
        }
        self.push(out, (zeros % 255) as u8)
    }

    fn put_hits<O: Output>(&mut self, out: &mut O, bits: &[bool]) -> Result<(), Refusal>
        ensures puts { Puts (O.seen out.old) (O.seen out.new) self.old self.new (hits_bytes bits.now) result }
    {
        let mut separator: &[u8] = b"";
        for position in OnePositions::new(bits) {
            self.put_item(out, separator, position)?;
            separator = b",";
        }
        self.push(out, b'\n')
    }

    fn put_dets<O: Output>(
        &mut self,
        out: &mut O,
        kinds: Kinds,
        bits: &[bool],
    ) -> Result<(), Refusal>
        ensures puts { Puts (O.seen out.old) (O.seen out.new) self.old self.new (dets_bytes kinds bits.now) result }
    {
        self.put(out, b"shot")?;
        self.put_ones(out, kinds, bits)?;
        self.push(out, b'\n')
    }

    /// Puts the entries of all 1 bits, in dets.
    pub(crate) fn put_ones<O: Output>(
        &mut self,
        out: &mut O,
        kinds: Kinds,
        bits: &[bool],
    ) -> Result<(), Refusal>
        ensures puts { Puts (O.seen out.old) (O.seen out.new) self.old self.new (flat_map (entry kinds) (one_positions bits.now)) result }
    {
        for position in OnePositions::new(bits) {
            self.put_entry(out, kinds, position)?;
        }
        Ok(())
    }

    /// Puts the entries of the 1 bits at some positions, in dets.
    pub(crate) fn put_entries<O: Output>(
        &mut self,
        out: &mut O,
        kinds: Kinds,
        positions: &[u32],
    ) -> Result<(), Refusal>
        ensures puts { Puts (O.seen out.old) (O.seen out.new) self.old self.new (flat_map (entry kinds) positions.now) result }
    {
        for position in positions {
            self.put_entry(out, kinds, *position as usize)?;
        }
        Ok(())
    }

    /// Puts the entry of the 1 bit at a position, in dets.
    fn put_entry<O: Output>(
        &mut self,
        out: &mut O,
        kinds: Kinds,
        position: usize,
    ) -> Result<(), Refusal>
        ensures puts { Puts (O.seen out.old) (O.seen out.new) self.old self.new (entry kinds position) result }
    {
        let (prefix, number) = entry(kinds, position);
        self.put_item(out, prefix, number)
    }

    /// Puts a prefix and a number.
    fn put_item<O: Output>(
        &mut self,
        out: &mut O,
        prefix: &[u8],
        number: usize,
    ) -> Result<(), Refusal>
        ensures puts { Puts (O.seen out.old) (O.seen out.new) self.old self.new (prefix.now ++ decimal number) result }
    {
        self.put(out, prefix)?;
        self.put_decimal(out, number)
    }
}
