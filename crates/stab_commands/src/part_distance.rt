//! The command that writes what one part of the search for a distance finds.
ghost use Rattle.std.specs.Prelude.{◌≡◌, ◌<◌, ◌++◌, length, None, All, IfOk, IfErr};
ghost use Rattle.std.specs.Option.{unwrap_or};
ghost use Rattle.stab_io.specs.Devices.{WritesAll};
ghost use Rattle.stab_io.specs.declared.refusal.Refusal.TheVariants.{OutOfMemory};
ghost use Rattle.stab_io.specs.Refusals.{whole};
ghost use Rattle.stab_search.specs.SearchParts.{IsPartAnswer};
ghost use Rattle.stab_items.specs.Steps.{check_of, qubits_of};
ghost use Rattle.stab_items.specs.Views.{circuit_items};
ghost use Rattle.stab_error_model.specs.ErrorTables.{IsErrorTable, StepsInside};
ghost use Rattle.stab_report.specs.SingleErrorTables.{GoesOnWithItems, fault_of, random_of};
ghost use Rattle.stab_report.specs.DoubtLines.{Warns};
ghost use Rattle.stab_report.specs.Distances.{HearsErrors, ReportsErrors, set_text};
ghost use Rattle.stab_report.specs.PartTexts.{EndsPart, IsPartText, first_line, found_text, none_lines, none_of, of_part, part_head, part_text};
ghost use Rattle.stab_commands.specs.inner.Faults.{SendsAtOnce};
ghost use Rattle.stab_commands.specs.inner.Parts.{IsInside};

use crate::distance::{write_none, write_set};
use crate::doubts::doubts_of;
use crate::searched::searched_errors;
use itoa::Buffer;
use stab_circuit::{Circuit, read_circuit};
use stab_error_model::ErrorTable;
use stab_io::{Fault, Input, Output, Refusal, write_all};
use stab_jobs::DistanceOptions;
use stab_report::{FaultsRefused, finish, report_doubts, write_texts};
use stab_search::{Answer, PartAnswer, Progress, SearchPart, least_in_part};
use std::alloc::Global;

/// The same options, for all errors and any observable.
fn of_part(options: DistanceOptions) -> DistanceOptions
    ensures value { result ≡ of_part options }
{
    DistanceOptions {
        graphlike: false,
        observable: None,
        ..options
    }
}

/// Writes which part it is, and the digest of what is searched.
fn write_part_head<O: Output>(out: &mut O, part: SearchPart, digest: u64) -> Result<(), Refusal>
    ensures writes { WritesAll (O.seen out.old) (O.seen out.new) (part_head part digest) result }
{
    let mut number = Buffer::new();
    let mut count = Buffer::new();
    let mut table = Buffer::new();
    let number = number.format(part.number()).as_bytes();
    let count = count.format(part.count()).as_bytes();
    let table = table.format(digest).as_bytes();
    write_texts(
        out,
        &[b"part ", number, b"/", count, b"\ntable ", table, b"\n"],
    )
}

/// Writes the line that a part has no set of one error more than this.
fn write_none_of<O: Output>(out: &mut O, size: usize) -> Result<(), Refusal>
    requires more { size < 18446744073709551615 }
    ensures writes { WritesAll (O.seen out.old) (O.seen out.new) (none_of size) result }
{
    let mut digits = Buffer::new();
    write_texts(
        out,
        &[b"none of ", digits.format(size + 1).as_bytes(), b"\n"],
    )
}

/// Writes a line for each number of errors up to the last of which a part has no set.
fn write_none_lines<O: Output>(out: &mut O, last: usize) -> Result<(), Refusal>
    ensures writes { WritesAll (O.seen out.old) (O.seen out.new) (none_lines last) result }
{
    'sizes: for size in 0..last {
        write_none_of(out, size)?;
    }
    Ok(())
}

/// Writes what is before the set of a part.
fn write_front<O: Output>(out: &mut O, part: SearchPart, found: &PartAnswer) -> Result<(), Refusal>
    ensures writes { WritesAll (O.seen out.old) (O.seen out.new) (part_head part found.now.digest ++ none_lines found.now.last) result }
{
    write_part_head(out, part, found.digest)?;
    write_none_lines(out, found.last)
}

/// Writes the line of the number of the first error of a set.
fn write_first<O: Output>(out: &mut O, first: usize) -> Result<(), Refusal>
    ensures writes { WritesAll (O.seen out.old) (O.seen out.new) (first_line first) result }
{
    let mut digits = Buffer::new();
    write_texts(out, &[b"first ", digits.format(first).as_bytes(), b"\n"])
}

/// Writes a set, after the number of its first error.
fn write_part_set<O: Output>(
    out: &mut O,
    circuit: &Circuit,
    options: DistanceOptions,
    errors: &ErrorTable,
    first: usize,
    numbers: &[usize],
) -> Result<(), Refusal>
    requires checked { check_of (circuit_items circuit.now) ≡ None }
    requires table { IsErrorTable (qubits_of (circuit_items circuit.now)) (circuit_items circuit.now) errors.now }
    requires steps { StepsInside (circuit_items circuit.now) errors.now.errors }
    requires inside { All (λ k. k < length errors.now.errors) numbers.now }
    ensures writes { WritesAll (O.seen out.old) (O.seen out.new) (first_line first ++ set_text options (circuit_items circuit.now) errors.now numbers.now) result }
{
    write_first(out, first)?;
    write_set(out, circuit, options, errors, numbers)
}

/// Writes what a part found.
fn write_found<O: Output>(
    out: &mut O,
    circuit: &Circuit,
    options: DistanceOptions,
    errors: &ErrorTable,
    found: &PartAnswer,
) -> Result<(), Refusal>
    requires checked { check_of (circuit_items circuit.now) ≡ None }
    requires table { IsErrorTable (qubits_of (circuit_items circuit.now)) (circuit_items circuit.now) errors.now }
    requires steps { StepsInside (circuit_items circuit.now) errors.now.errors }
    requires inside { IsInside (length errors.now.errors) found.now.answer }
    ensures writes { WritesAll (O.seen out.old) (O.seen out.new) (found_text options (circuit_items circuit.now) errors.now found.now.first found.now.answer) result }
{
    match &found.answer {
        Answer::Least(numbers) => {
            write_part_set(
                out,
                circuit,
                options,
                errors,
                found.first,
                numbers.as_slice(),
            )
        }
        Answer::NoneWithin => Ok(()),
        Answer::NoneAtAll => write_none(out, None, options),
    }
}

/// Writes the answer of a part.
fn write_part<O: Output>(
    out: &mut O,
    circuit: &Circuit,
    part: SearchPart,
    options: DistanceOptions,
    errors: &ErrorTable,
    found: &PartAnswer,
) -> Result<(), Refusal>
    requires checked { check_of (circuit_items circuit.now) ≡ None }
    requires table { IsErrorTable (qubits_of (circuit_items circuit.now)) (circuit_items circuit.now) errors.now }
    requires steps { StepsInside (circuit_items circuit.now) errors.now.errors }
    requires inside { IsInside (length errors.now.errors) found.now.answer }
    ensures writes { WritesAll (O.seen out.old) (O.seen out.new) (part_text part options (circuit_items circuit.now) errors.now found.now) result }
{
    write_front(out, part, found)?;
    write_found(out, circuit, options, errors, found)?;
    write_all(out, b"end\n")
}

/// Writes the answer of a part, and flushes.
fn send_part<O: Output>(
    out: &mut O,
    circuit: &Circuit,
    part: SearchPart,
    options: DistanceOptions,
    errors: &ErrorTable,
    found: &PartAnswer,
) -> Result<(), Fault>
    requires checked { check_of (circuit_items circuit.now) ≡ None }
    requires table { IsErrorTable (qubits_of (circuit_items circuit.now)) (circuit_items circuit.now) errors.now }
    requires steps { StepsInside (circuit_items circuit.now) errors.now.errors }
    requires inside { IsInside (length errors.now.errors) found.now.answer }
    ensures sends { SendsAtOnce (part_text part options (circuit_items circuit.now) errors.now found.now) (O.seen out.old) (O.seen out.new) result }
{
    write_part(out, circuit, part, options, errors, found).map_err(Fault::whole)?;
    finish(out)
}

/// What one part finds among errors. The only refusal is `OutOfMemory`.
fn found_in(
    alloc: Global,
    errors: &ErrorTable,
    part: SearchPart,
    most: Option<usize>,
) -> Result<PartAnswer, Fault>
    ensures answer { IfOk result (IsPartAnswer part errors.now.table (unwrap_or most (length errors.now.table.rows))) }
    ensures err { IfErr result (λ f. f ≡ whole OutOfMemory) }
{
    let table = errors.table();
    match least_in_part(alloc, table, part, most.unwrap_or(table.len())) {
        Ok(found) => Ok(found),
        Err(refusal) => Err(Fault::whole(refusal)),
    }
}

/// Writes what a part finds in a circuit, and flushes; or names a bit that is not deterministic.
fn send_part_distance<O: Output, P: Progress>(
    alloc: Global,
    circuit: &Circuit,
    out: &mut O,
    part: SearchPart,
    options: DistanceOptions,
    progress: &mut P,
) -> Result<(), FaultsRefused>
    requires checked { check_of (circuit_items circuit.now) ≡ None }
    ensures goes_on { GoesOnWithItems (IsPartText part options (circuit_items circuit.now)) options.deterministic_only (circuit_items circuit.now) (random_of result) (O.seen out.old) (O.seen out.new) (fault_of result) }
    ensures reported { HearsErrors (of_part options) (circuit_items circuit.now) (P.heard progress.old) (P.heard progress.new) }
{
    let asked = of_part(options);
    let errors = searched_errors(alloc, circuit, asked)?;
    progress.begins(errors.len());
    let found = found_in(alloc, &errors, part, asked.most)?;
    Ok(send_part(out, circuit, part, asked, &errors, &found)?)
}

/// Reads a circuit, and writes what one part of the search of `run_distance` finds with these options: which part it is and a digest of
/// what is searched, `none of W` for each number of errors of which it has no set, and then its set with the number of its first error, or
/// that no set at all is unseen. The last line is `end`. Of all parts, what one run writes is known (`stab_search::laws`).
///
/// All is found before the first byte. The options `graphlike`, `observable` and `progress` change nothing: `progress` hears of the number
/// of errors alone. Faults are those of `run_distance`. Unless errors are `everywhere`, marks that may be meant in another way are
/// reported on `err` after a call without a fault.
pub fn run_part_distance<I: Input, O: Output, E: Output, P: Progress>(
    alloc: Global,
    input: &mut I,
    out: &mut O,
    err: &mut E,
    part: SearchPart,
    options: DistanceOptions,
    progress: &mut P,
) -> Result<(), FaultsRefused>
    ensures ends { EndsPart part options (I.seen input.old) (I.seen input.new) (O.seen out.old) (O.seen out.new) (fault_of result) (random_of result) }
    ensures reported { ReportsErrors (of_part options) (I.seen input.old) (I.seen input.new) (P.heard progress.old) (P.heard progress.new) (fault_of result) }
    ensures warns { Warns options.everywhere (I.seen input.old) (I.seen input.new) (E.seen err.old) (E.seen err.new) (fault_of result) }
{
    let circuit = read_circuit(alloc, input)?;
    let doubts = doubts_of(alloc, &circuit, options.everywhere)?;
    send_part_distance(alloc, &circuit, out, part, options, progress)?;
    report_doubts(err, &circuit, doubts.as_slice());
    Ok(())
}
