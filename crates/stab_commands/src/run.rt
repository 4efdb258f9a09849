//! The commands that run a circuit, from its text to the bytes of its shots.
ghost use Rattle.std.specs.Prelude.{◌≡◌, ◌≤◌, None};
ghost use Rattle.stab_items.specs.Steps.{check_of};
ghost use Rattle.stab_items.specs.Views.{circuit_items};
ghost use Rattle.stab_jobs.specs.Limits.{most_shots};
ghost use Rattle.stab_report.specs.Endings.{Sends};
ghost use Rattle.stab_commands.specs.Outputs.{EndsRun, sample_of, detect_of};
ghost use Rattle.stab_commands.specs.Sendings.{shots_of};

use crate::bits::Shown;
use crate::shots::send_shots;
use stab_circuit::{Circuit, read_circuit};
use stab_io::{Fault, Input, Output};
use stab_jobs::{Shots, Source};
use stab_report::finish;
use stab_results::Format;
use std::alloc::Global;

/// Writes what is shown of a circuit's shots, and flushes.
fn send_circuit<O: Output>(
    alloc: Global,
    circuit: &Circuit,
    out: &mut O,
    format: Format,
    shown: Shown,
    shots: Shots,
    source: &Source,
) -> Result<(), Fault>
    requires checked { check_of (circuit_items circuit.now) ≡ None }
    ensures sends { Sends (shots_of format shown shots source.now (circuit_items circuit.now)) (O.seen out.old) (O.seen out.new) result }
{
    send_shots(alloc, circuit, out, format, shown, source, shots)?;
    finish(out)
}

/// Reads a circuit, and sends what is shown of its shots.
fn run_circuit<I: Input, O: Output>(
    alloc: Global,
    input: &mut I,
    out: &mut O,
    format: Format,
    shown: Shown,
    shots: Shots,
    source: &Source,
) -> Result<(), Fault>
    ensures ends { EndsRun (shots_of format shown shots source.now) (I.seen input.old) (I.seen input.new) (O.seen out.old) (O.seen out.new) result }
{
    let circuit = read_circuit(alloc, input)?;
    send_circuit(alloc, &circuit, out, format, shown, shots, source)
}

/// Reads a circuit, runs this many shots of it, at most 1,000,000, and writes the records of each in
/// a format.
///
/// The circuit's text is read whole before anything is written, and the output is flushed once at
/// the end. Shot s has the coins of its own stream under the seed, or the whole list of coins anew.
/// Faults: those of the text, with their lines; 8 and 9 for the whole circuit and 14 for a text of
/// more than 16,777,216 bytes; 15 if the input failed, with nothing written; 16 if the output
/// failed, and 20, both after a prefix of what is to be written.
pub fn run_sample<I: Input, O: Output>(
    alloc: Global,
    input: &mut I,
    out: &mut O,
    format: Format,
    shots: usize,
    source: &Source,
) -> Result<(), Fault>
    requires few { shots ≤ most_shots }
    ensures ends { EndsRun (sample_of format 0 shots source.now) (I.seen input.old) (I.seen input.new) (O.seen out.old) (O.seen out.new) result }
{
    run_sample_shots(alloc, input, out, format, Shots::new(shots), source)
}

/// Does what `run_sample` does, for these shots and no others.
///
/// What is written for some shots and for those that follow them, one after the other, is what is
/// written for all of them, in each format: `laws::joined_parts_are_the_whole`.
pub fn run_sample_shots<I: Input, O: Output>(
    alloc: Global,
    input: &mut I,
    out: &mut O,
    format: Format,
    shots: Shots,
    source: &Source,
) -> Result<(), Fault>
    ensures ends { EndsRun (sample_of format shots.first shots.number source.now) (I.seen input.old) (I.seen input.new) (O.seen out.old) (O.seen out.new) result }
{
    run_circuit(alloc, input, out, format, Shown::Records, shots, source)
}

/// Reads a circuit, runs this many shots of it, at most 1,000,000, and writes the detectors of each
/// in a format and, if `append` says so, the observables after them.
///
/// The bits are raw parities of records: no reference sample is subtracted. Reading, coins and
/// faults are those of `run_sample`.
pub fn run_detect<I: Input, O: Output>(
    alloc: Global,
    input: &mut I,
    out: &mut O,
    format: Format,
    append: bool,
    shots: usize,
    source: &Source,
) -> Result<(), Fault>
    requires few { shots ≤ most_shots }
    ensures ends { EndsRun (detect_of format append 0 shots source.now) (I.seen input.old) (I.seen input.new) (O.seen out.old) (O.seen out.new) result }
{
    run_detect_shots(alloc, input, out, format, append, Shots::new(shots), source)
}

/// Does what `run_detect` does, for these shots and no others, which are joined as those of
/// `run_sample_shots`.
pub fn run_detect_shots<I: Input, O: Output>(
    alloc: Global,
    input: &mut I,
    out: &mut O,
    format: Format,
    append: bool,
    shots: Shots,
    source: &Source,
) -> Result<(), Fault>
    ensures ends { EndsRun (detect_of format append shots.first shots.number source.now) (I.seen input.old) (I.seen input.new) (O.seen out.old) (O.seen out.new) result }
{
    if append {
        let shown = Shown::DetectorsAndObservables;
        run_circuit(alloc, input, out, format, shown, shots, source)
    } else {
        run_circuit(alloc, input, out, format, Shown::Detectors, shots, source)
    }
}
