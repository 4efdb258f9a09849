ghost use Rattle.std.specs.Prelude.{◌≤◌, [], length};
ghost use Rattle.std.specs.List.{flat_map};
ghost use Rattle.stab_io.specs.Devices.{WritesAll, WritesAllOrFault};
ghost use Rattle.stab_results.specs.Formats.{entry, one_positions, shot_bytes, detector_bits_of};
ghost use Rattle.stab_results.specs.inner.ByteBuffer.{Puts};

use crate::byte_buffer::ByteBuffer;
use crate::format::{Format, Kinds};
use stab_io::{Fault, Output, Refusal};

/// Gathers a shot, and sends it.
fn send_shot<O: Output>(
    out: &mut O,
    format: Format,
    kinds: Kinds,
    bits: &[bool],
) -> Result<(), Refusal>
    ensures puts { Puts (O.seen out.old) (O.seen out.new) [] [] (shot_bytes format kinds bits.now) result }
{
    let mut byte_buffer = ByteBuffer::new();
    byte_buffer.put_shot(out, format, kinds, bits)?;
    byte_buffer.send(out)
}

/// Writes the bits of one shot in a format, and takes no memory.
///
/// With `Kinds::Detectors(count)` the first `count` bits, at most as many as there are, are
/// detectors and the rest are observables, each kind numbered from 0; only `dets` shows the kinds.
/// The formats are those of Stim's result format reference. Several shots are written one after
/// another; in `b8` and `r8` nothing is between them.
///
/// It does not flush. Refusal `WriteFault` alone, without a line: a prefix of the shot's bytes was
/// then written, and nothing more is tried.
pub fn write_shot<O: Output>(
    out: &mut O,
    format: Format,
    kinds: Kinds,
    bits: &[bool],
) -> Result<(), Fault>
    requires within { detector_bits_of kinds ≤ length bits.now }
    ensures writes { WritesAllOrFault (O.seen out.old) (O.seen out.new) (shot_bytes format kinds bits.now) result }
{
    match send_shot(out, format, kinds, bits) {
        Ok(()) => Ok(()),
        Err(refusal) => Err(Fault::whole(refusal)),
    }
}

/// Gathers the entries of some positions, and sends them.
fn send_entries<O: Output>(out: &mut O, kinds: Kinds, positions: &[u32]) -> Result<(), Refusal>
    ensures puts { Puts (O.seen out.old) (O.seen out.new) [] [] (flat_map (entry kinds) positions.now) result }
{
    let mut byte_buffer = ByteBuffer::new();
    byte_buffer.put_entries(out, kinds, positions)?;
    byte_buffer.send(out)
}

/// Writes the entries of the 1 bits at these positions as `dets` has them, each after a space, with
/// no line end, and takes no memory.
///
/// With `Kinds::Detectors(count)` the positions below `count` are detectors and the others are
/// observables, each kind numbered from 0. So `dets` is `shot`, the entries of its 1 bits and a line
/// end.
///
/// It does not flush. Refusal `WriteFault` alone: a prefix of the bytes was then written, and
/// nothing more is tried.
pub fn write_entries<O: Output>(out: &mut O, kinds: Kinds, positions: &[u32]) -> Result<(), Refusal>
    ensures writes { WritesAll (O.seen out.old) (O.seen out.new) (flat_map (entry kinds) positions.now) result }
{
    send_entries(out, kinds, positions)
}

/// Gathers the entries of all 1 bits, and sends them.
fn send_ones<O: Output>(out: &mut O, kinds: Kinds, bits: &[bool]) -> Result<(), Refusal>
    ensures puts { Puts (O.seen out.old) (O.seen out.new) [] [] (flat_map (entry kinds) (one_positions bits.now)) result }
{
    let mut byte_buffer = ByteBuffer::new();
    byte_buffer.put_ones(out, kinds, bits)?;
    byte_buffer.send(out)
}

/// Writes the entries of the 1 bits of a shot as `write_entries` does.
pub fn write_ones<O: Output>(out: &mut O, kinds: Kinds, bits: &[bool]) -> Result<(), Refusal>
    ensures writes { WritesAll (O.seen out.old) (O.seen out.new) (flat_map (entry kinds) (one_positions bits.now)) result }
{
    send_ones(out, kinds, bits)
}
