//! The bits of this many lanes, written one lane after another.
ghost use Rattle.std.specs.Prelude.{◌≡◌, ℕ, ◌+◌, ◌<◌, ◌≤◌, length};
ghost use Rattle.stab_results.specs.Formats.{detector_bits_of};
ghost use Rattle.stab_run.specs.Runs.{State};
ghost use Rattle.stab_sampler.specs.Words.{word_bit};
ghost use Rattle.stab_sampler.specs.Lanes.{lane_bits};
ghost use Rattle.stab_commands.specs.declared.bits.Shown.{Shown};
ghost use Rattle.stab_report.specs.Texts.{texts_from as of_shots};
ghost use Rattle.stab_commands.specs.Sendings.{IsShown, shown_bytes};
ghost use Rattle.stab_report.specs.Endings.{SendsUnflushed};

use crate::packed::{Packing, send_packed};
use stab_io::{Fault, Output};
use stab_results::{Format, Kinds, write_shot};
use stab_sampler::{Word, write_lane, write_part};
use std::alloc::Global;

/// Writes the bits of this many of 64 lanes, one lane after another, each from a list of its own.
fn write_lanes<O: Output>(
    alloc: Global,
    out: &mut O,
    format: Format,
    kinds: Kinds,
    words: &[u64],
    lanes: usize,
) -> Result<(), Fault>
    requires in_range { lanes ≤ 64 }
    requires within { detector_bits_of kinds ≤ length words.now }
    ensures sends { (first : ℕ) (shown : Shown) (run : ℕ → State) → ((l : ℕ) → l < lanes → IsShown shown (run (first + l)) kinds (lane_bits word_bit l words.now)) → SendsUnflushed (of_shots (λ shot. shown_bytes format shown (run shot)) first lanes) (O.seen out.old) (O.seen out.new) result }
{
    let mut bits = Vec::with_capacity(alloc, words.len())?;
    for lane in 0..lanes {
        write_lane(words, lane, &mut bits)?;
        write_shot(out, format, kinds, bits.as_slice())?;
    }
    Ok(())
}

/// Writes the bits of this many lanes, one lane after another, each from a list of its own. Each 64 lanes are copied out first,
/// since each lane goes over all words.
fn write_parts<O: Output, W: Word>(
    alloc: Global,
    out: &mut O,
    format: Format,
    kinds: Kinds,
    words: &[W],
    lanes: usize,
) -> Result<(), Fault>
    requires in_range { lanes ≤ W.lanes }
    requires within { detector_bits_of kinds ≤ length words.now }
    ensures sends { (first : ℕ) (shown : Shown) (run : ℕ → State) → ((l : ℕ) → l < lanes → IsShown shown (run (first + l)) kinds (lane_bits W.at l words.now)) → SendsUnflushed (of_shots (λ shot. shown_bytes format shown (run shot)) first lanes) (O.seen out.old) (O.seen out.new) result }
{
    let mut part = vec![in alloc; 0; words.len()]?;
    let mut sent = 0;
    while sent < lanes {
        let some = (lanes - sent).min(64);
        write_part(words, sent / 64, part.as_mut_slice());
        write_lanes(alloc, out, format, kinds, part.as_slice(), some)?;
        sent += some;
    }
    Ok(())
}

/// Writes the bits of this many lanes in a format, one lane after another. In `01` they are packed for eight lanes
/// at a time, in `b8` for 64.
pub fn send_lanes<O: Output, W: Word>(
    alloc: Global,
    out: &mut O,
    format: Format,
    kinds: Kinds,
    words: &[W],
    lanes: usize,
) -> Result<(), Fault>
    requires in_range { lanes ≤ W.lanes }
    requires within { detector_bits_of kinds ≤ length words.now }
    ensures sends { (first : ℕ) (shown : Shown) (run : ℕ → State) → ((l : ℕ) → l < lanes → IsShown shown (run (first + l)) kinds (lane_bits W.at l words.now)) → SendsUnflushed (of_shots (λ shot. shown_bytes format shown (run shot)) first lanes) (O.seen out.old) (O.seen out.new) result }
{
    match format {
        Format::F01 => send_packed(alloc, out, Packing::Line, words, lanes),
        Format::B8 => send_packed(alloc, out, Packing::Bytes, words, lanes),
        _ => write_parts(alloc, out, format, kinds, words, lanes),
    }
}
