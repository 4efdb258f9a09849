//! The bits of lanes in the formats `01` and `b8`, for eight or 64 lanes at a time.
ghost use Rattle.std.specs.Prelude.{◌≡◌, ℕ, ◌+◌, ◌*◌, ◌<◌, ◌≤◌, List, length, take};
ghost use Rattle.stab_io.specs.Devices.{WritesAllOrFault};
ghost use Rattle.stab_results.specs.Formats.{f01_bytes, b8_bytes};
ghost use Rattle.stab_sampler.specs.Words.{word_bit};
ghost use Rattle.stab_sampler.specs.Lanes.{lane_bits};
ghost use Rattle.stab_sampler.specs.Blocks.{row_bytes};
ghost use Rattle.stab_report.specs.Texts.{texts_from as of_shots};
ghost use Rattle.stab_report.specs.Endings.{SendsUnflushed};
ghost use Rattle.stab_commands.specs.inner.Packings.{packed_bytes};

use stab_io::{Fault, Output, write_all};
use stab_sampler::{Word, write_blocks, write_bytes, write_part, write_row};
use std::alloc::Global;

/// What the bits of a lane are packed into.
#[derive(Clone, Copy)]
pub(crate) enum Packing {
    /// A line with a character for each bit, as in `01`.
    Line,
    /// A byte for each eight bits, as in `b8`.
    Bytes,
}

/// Writes bytes.
fn send_bytes<O: Output>(out: &mut O, bytes: &[u8]) -> Result<(), Fault>
    ensures writes { WritesAllOrFault (O.seen out.old) (O.seen out.new) bytes.now result }
{
    match write_all(out, bytes) {
        Ok(()) => Ok(()),
        Err(refusal) => Err(Fault::whole(refusal)),
    }
}

/// Writes the line of one of eight lanes over a text. The lanes come as bytes, each with a bit of all eight.
fn write_line(column: &[u8], lane: usize, text: &mut [u8])
    requires in_range { lane < 8 }
    requires as_long { length text.old ≡ length column.now + 1 }
    ensures value { text.new ≡ f01_bytes (lane_bits word_bit lane column.now) }
{
    for k in 0..column.len() {
        text[k] = b'0' + ((column[k] >> lane) & 1);
    }
    text[column.len()] = b'\n';
}

/// Writes the lines of this many of eight lanes, one after another.
fn send_lines<O: Output>(
    alloc: Global,
    out: &mut O,
    column: &[u8],
    lanes: usize,
) -> Result<(), Fault>
    requires in_range { lanes ≤ 8 }
    ensures sends { (first : ℕ) (bytes_of : ℕ → List ℕ) → ((l : ℕ) → l < lanes → f01_bytes (lane_bits word_bit l column.now) ≡ bytes_of (first + l)) → SendsUnflushed (of_shots bytes_of first lanes) (O.seen out.old) (O.seen out.new) result }
{
    let mut text = vec![in alloc; 0; column.len() + 1]?;
    for lane in 0..lanes {
        write_line(column, lane, text.as_mut_slice());
        send_bytes(out, text.as_slice())?;
    }
    Ok(())
}

/// Writes the lines of this many of 64 lanes, one after another, for eight lanes at a time.
fn send_columns<O: Output>(
    alloc: Global,
    out: &mut O,
    words: &[u64],
    lanes: usize,
) -> Result<(), Fault>
    requires in_range { lanes ≤ 64 }
    ensures sends { (first : ℕ) (bytes_of : ℕ → List ℕ) → ((l : ℕ) → l < lanes → f01_bytes (lane_bits word_bit l words.now) ≡ bytes_of (first + l)) → SendsUnflushed (of_shots bytes_of first lanes) (O.seen out.old) (O.seen out.new) result }
{
    let mut column = vec![in alloc; 0; words.len()]?;
    let mut sent = 0;
    while sent < lanes {
        let some = (lanes - sent).min(8);
        write_bytes(words, sent / 8, column.as_mut_slice());
        send_lines(alloc, out, column.as_slice(), some)?;
        sent += some;
    }
    Ok(())
}

/// Writes this many bytes of each of this many lanes of blocks, one lane after another.
fn send_rows<O: Output>(
    alloc: Global,
    out: &mut O,
    blocks: &[[u64; 64]],
    count: usize,
    lanes: usize,
) -> Result<(), Fault>
    requires in_range { lanes ≤ 64 }
    requires within { count ≤ 8 * length blocks.now }
    ensures sends { (first : ℕ) (bytes_of : ℕ → List ℕ) → ((l : ℕ) → l < lanes → take count (row_bytes l blocks.now) ≡ bytes_of (first + l)) → SendsUnflushed (of_shots bytes_of first lanes) (O.seen out.old) (O.seen out.new) result }
{
    let mut bytes = vec![in alloc; 0; 8 * blocks.len()]?;
    for lane in 0..lanes {
        write_row(blocks, lane, bytes.as_mut_slice());
        send_bytes(out, &bytes.as_slice()[..count])?;
    }
    Ok(())
}

/// Writes the bits of this many of 64 lanes, eight to a byte, one lane after another.
fn send_blocks<O: Output>(
    alloc: Global,
    out: &mut O,
    words: &[u64],
    lanes: usize,
) -> Result<(), Fault>
    requires in_range { lanes ≤ 64 }
    ensures sends { (first : ℕ) (bytes_of : ℕ → List ℕ) → ((l : ℕ) → l < lanes → b8_bytes (lane_bits word_bit l words.now) ≡ bytes_of (first + l)) → SendsUnflushed (of_shots bytes_of first lanes) (O.seen out.old) (O.seen out.new) result }
{
    let mut blocks = Vec::with_capacity(alloc, words.len().div_ceil(64))?;
    write_blocks(words, &mut blocks)?;
    let count = words.len().div_ceil(8);
    send_rows(alloc, out, blocks.as_slice(), count, lanes)
}

/// Writes the bits of this many of 64 lanes, one lane after another.
fn send_part<O: Output>(
    alloc: Global,
    out: &mut O,
    packing: Packing,
    words: &[u64],
    lanes: usize,
) -> Result<(), Fault>
    requires in_range { lanes ≤ 64 }
    ensures sends { (first : ℕ) (bytes_of : ℕ → List ℕ) → ((l : ℕ) → l < lanes → packed_bytes packing (lane_bits word_bit l words.now) ≡ bytes_of (first + l)) → SendsUnflushed (of_shots bytes_of first lanes) (O.seen out.old) (O.seen out.new) result }
{
    match packing {
        Packing::Line => send_columns(alloc, out, words, lanes),
        Packing::Bytes => send_blocks(alloc, out, words, lanes),
    }
}

/// Writes the bits of this many of the first 64 lanes, one lane after another.
fn send_first_part<O: Output, W: Word>(
    alloc: Global,
    out: &mut O,
    packing: Packing,
    words: &[W],
    lanes: usize,
) -> Result<(), Fault>
    requires in_range { lanes ≤ W.lanes }
    requires few { lanes ≤ 64 }
    requires some { 0 < lanes }
    ensures sends { (first : ℕ) (bytes_of : ℕ → List ℕ) → ((l : ℕ) → l < lanes → packed_bytes packing (lane_bits W.at l words.now) ≡ bytes_of (first + l)) → SendsUnflushed (of_shots bytes_of first lanes) (O.seen out.old) (O.seen out.new) result }
{
    let mut part = vec![in alloc; 0; words.len()]?;
    write_part(words, 0, part.as_mut_slice());
    send_part(alloc, out, packing, part.as_slice(), lanes)
}

/// Writes the bits of the 64 lanes from 64 * position on, and those of the 64 from 64 * next on, of words of more lanes.
fn write_two_parts<W: Word>(
    words: &[W],
    position: usize,
    next: usize,
    first: &mut [u64],
    second: &mut [u64],
)
    requires in_range { 64 * position + 64 ≤ W.lanes }
    requires next_in_range { 64 * next + 64 ≤ W.lanes }
    requires as_many { length first.old ≡ length words.now }
    requires second_as_many { length second.old ≡ length words.now }
    ensures size { length first.new ≡ length first.old }
    ensures second_size { length second.new ≡ length second.old }
    ensures value { (l : ℕ) → l < 64 → lane_bits word_bit l first.new ≡ lane_bits W.at (64 * position + l) words.now }
    ensures second { (l : ℕ) → l < 64 → lane_bits word_bit l second.new ≡ lane_bits W.at (64 * next + l) words.now }
{
    // A word of many lanes is fetched from far, so that two of its parts are taken at once.
    for k in 0..words.len() {
        first[k] = words[k].part(position);
        second[k] = words[k].part(next);
    }
}

/// Writes the bits of this many of 128 lanes, one lane after another: 64 of one list, and after them those of another.
fn send_two_parts<O: Output>(
    alloc: Global,
    out: &mut O,
    packing: Packing,
    first: &[u64],
    second: &[u64],
    lanes: usize,
) -> Result<(), Fault>
    requires in_range { lanes ≤ 128 }
    ensures sends { (start : ℕ) (bytes_of : ℕ → List ℕ) → ((l : ℕ) → l < 64 → l < lanes → packed_bytes packing (lane_bits word_bit l first.now) ≡ bytes_of (start + l)) → ((l : ℕ) → 64 + l < lanes → packed_bytes packing (lane_bits word_bit l second.now) ≡ bytes_of (start + 64 + l)) → SendsUnflushed (of_shots bytes_of start lanes) (O.seen out.old) (O.seen out.new) result }
{
    let front = lanes.min(64);
    send_part(alloc, out, packing, first, front)?;
    send_part(alloc, out, packing, second, lanes - front)
}

/// Writes the bits of this many lanes, one lane after another, for 128 lanes at a time.
fn send_all_parts<O: Output, W: Word>(
    alloc: Global,
    out: &mut O,
    packing: Packing,
    words: &[W],
    lanes: usize,
) -> Result<(), Fault>
    requires in_range { lanes ≤ W.lanes }
    ensures sends { (first : ℕ) (bytes_of : ℕ → List ℕ) → ((l : ℕ) → l < lanes → packed_bytes packing (lane_bits W.at l words.now) ≡ bytes_of (first + l)) → SendsUnflushed (of_shots bytes_of first lanes) (O.seen out.old) (O.seen out.new) result }
{
    let mut one = vec![in alloc; 0; words.len()]?;
    let mut two = vec![in alloc; 0; words.len()]?;
    let mut sent = 0;
    while sent < lanes {
        let some = (lanes - sent).min(128);
        let position = sent / 64;
        let next = if some > 64 { position + 1 } else { position };
        write_two_parts(
            words,
            position,
            next,
            one.as_mut_slice(),
            two.as_mut_slice(),
        );
        send_two_parts(alloc, out, packing, one.as_slice(), two.as_slice(), some)?;
        sent += some;
    }
    Ok(())
}

/// Writes the bits of this many lanes, one lane after another.
pub(crate) fn send_packed<O: Output, W: Word>(
    alloc: Global,
    out: &mut O,
    packing: Packing,
    words: &[W],
    lanes: usize,
) -> Result<(), Fault>
    requires in_range { lanes ≤ W.lanes }
    ensures sends { (first : ℕ) (bytes_of : ℕ → List ℕ) → ((l : ℕ) → l < lanes → packed_bytes packing (lane_bits W.at l words.now) ≡ bytes_of (first + l)) → SendsUnflushed (of_shots bytes_of first lanes) (O.seen out.old) (O.seen out.new) result }
{
    match lanes {
        0 => Ok(()),
        1..=64 => send_first_part(alloc, out, packing, words, lanes),
        _ => send_all_parts(alloc, out, packing, words, lanes),
    }
}
