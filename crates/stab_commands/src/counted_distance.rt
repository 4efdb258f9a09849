//! The command that finds a distance of all errors and how many least sets there are.
ghost use Rattle.std.specs.Prelude.{◌≡◌, ◌++◌, None};
ghost use Rattle.stab_io.specs.Devices.{WritesAll};
ghost use Rattle.stab_items.specs.Steps.{check_of};
ghost use Rattle.stab_items.specs.Views.{circuit_items};
ghost use Rattle.stab_error_model.specs.ErrorTables.{StepsInside};
ghost use Rattle.stab_report.specs.SingleErrorTables.{GoesOnWithItems, fault_of, random_of};
ghost use Rattle.stab_report.specs.MissingObservables.{WarnsOf};
ghost use Rattle.stab_report.specs.Distances.{EndsCounted, HearsDistance, IsCountedText, IsDistanceOf, ReportsDistance, answer_text, count_line, of_all};
ghost use Rattle.stab_commands.specs.inner.Faults.{SendsAtOnce};

use crate::distance::{Distance, count_of, find_distance, write_distance};
use crate::doubts::doubts_of;
use itoa::Buffer;
use stab_circuit::{Circuit, read_circuit};
use stab_io::{Fault, Input, Output, Refusal};
use stab_jobs::DistanceOptions;
use stab_report::{FaultsRefused, finish, report_doubts, report_missing, write_texts};
use stab_search::Progress;
use std::alloc::Global;

/// The same options, for all errors.
fn of_all(options: DistanceOptions) -> DistanceOptions
    ensures value { result ≡ of_all options }
{
    DistanceOptions {
        graphlike: false,
        ..options
    }
}

/// Writes the line of how many least sets there are.
fn write_sets<O: Output>(out: &mut O, count: Option<u64>) -> Result<(), Refusal>
    ensures writes { WritesAll (O.seen out.old) (O.seen out.new) (count_line count) result }
{
    match count {
        None => write_texts(out, &[b"count 18446744073709551616 or more\n"]),
        Some(count) => {
            let mut digits = Buffer::new();
            write_texts(out, &[b"count ", digits.format(count).as_bytes(), b"\n"])
        }
    }
}

/// Writes an answer, and after it how many least sets there are.
fn write_counted<O: Output>(
    out: &mut O,
    circuit: &Circuit,
    options: DistanceOptions,
    found: &Distance,
    count: Option<u64>,
) -> Result<(), Refusal>
    requires checked { check_of (circuit_items circuit.now) ≡ None }
    requires found { IsDistanceOf options (circuit_items circuit.now) found.now.errors found.now.answer }
    requires steps { StepsInside (circuit_items circuit.now) found.now.errors.errors }
    ensures writes { WritesAll (O.seen out.old) (O.seen out.new) (answer_text options (circuit_items circuit.now) found.now.errors found.now.answer ++ count_line count) result }
{
    write_distance(out, circuit, options, found)?;
    write_sets(out, count)
}

/// Writes an answer and how many least sets there are, and flushes.
fn send_counted<O: Output>(
    out: &mut O,
    circuit: &Circuit,
    options: DistanceOptions,
    found: &Distance,
    count: Option<u64>,
) -> Result<(), Fault>
    requires checked { check_of (circuit_items circuit.now) ≡ None }
    requires found { IsDistanceOf options (circuit_items circuit.now) found.now.errors found.now.answer }
    requires steps { StepsInside (circuit_items circuit.now) found.now.errors.errors }
    ensures sends { SendsAtOnce (answer_text options (circuit_items circuit.now) found.now.errors found.now.answer ++ count_line count) (O.seen out.old) (O.seen out.new) result }
{
    write_counted(out, circuit, options, found, count).map_err(Fault::whole)?;
    finish(out)
}

/// Writes the distance of a circuit and how many least sets there are, and flushes; or names a bit that is not deterministic.
fn send_counted_distance<O: Output, P: Progress>(
    alloc: Global,
    circuit: &Circuit,
    out: &mut O,
    options: DistanceOptions,
    progress: &mut P,
) -> Result<(), FaultsRefused>
    requires checked { check_of (circuit_items circuit.now) ≡ None }
    ensures goes_on { GoesOnWithItems (IsCountedText options (circuit_items circuit.now)) options.deterministic_only (circuit_items circuit.now) (random_of result) (O.seen out.old) (O.seen out.new) (fault_of result) }
    ensures reported { HearsDistance (of_all options) (circuit_items circuit.now) (P.heard progress.old) (P.heard progress.new) (fault_of result) }
{
    let asked = of_all(options);
    let found = find_distance(alloc, circuit, asked, progress)?;
    let count = count_of(alloc, circuit, asked, &found)?;
    Ok(send_counted(out, circuit, asked, &found, count)?)
}

/// Reads a circuit, and writes what `run_distance` writes with these options, and after it how many least sets there are: `count N`,
/// with 0 if there is none, or `count 18446744073709551616 or more`. Each set is counted once, by the numbers of its errors.
///
/// The option `graphlike` changes nothing. All is found before the first byte. The time grows with the number of sets of errors
/// that flip different bits. Faults, `progress` and what is reported on `err` are those of `run_distance`.
pub fn run_counted_distance<I: Input, O: Output, E: Output, P: Progress>(
    alloc: Global,
    input: &mut I,
    out: &mut O,
    err: &mut E,
    options: DistanceOptions,
    progress: &mut P,
) -> Result<(), FaultsRefused>
    ensures ends { EndsCounted options (I.seen input.old) (I.seen input.new) (O.seen out.old) (O.seen out.new) (fault_of result) (random_of result) }
    ensures reported { ReportsDistance (of_all options) (I.seen input.old) (I.seen input.new) (P.heard progress.old) (P.heard progress.new) (fault_of result) }
    ensures warns { WarnsOf options.everywhere options.observable (I.seen input.old) (I.seen input.new) (E.seen err.old) (E.seen err.new) (fault_of result) }
{
    let circuit = read_circuit(alloc, input)?;
    let doubts = doubts_of(alloc, &circuit, options.everywhere)?;
    send_counted_distance(alloc, &circuit, out, options, progress)?;
    report_doubts(err, &circuit, doubts.as_slice());
    report_missing(err, options.observable, circuit.observables());
    Ok(())
}
