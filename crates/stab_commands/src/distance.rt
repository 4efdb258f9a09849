//! The command that finds the least number of errors that flip an observable and no detector.
ghost use Rattle.std.specs.Prelude.{◌≡◌, ℕ, ◌<◌, ◌++◌, length, codes, false, All, None, IfOk, IfErr};
ghost use Rattle.stab_io.specs.Devices.{WritesAll};
ghost use Rattle.stab_io.specs.declared.refusal.Refusal.TheVariants.{OutOfMemory};
ghost use Rattle.stab_items.specs.Items.{Items};
ghost use Rattle.stab_io.specs.Refusals.{whole};
ghost use Rattle.stab_items.specs.Steps.{check_of, qubits_of};
ghost use Rattle.stab_items.specs.Views.{circuit_items};
ghost use Rattle.stab_error_model.specs.ErrorTables.{IsErrorTable, StepsInside};
ghost use Rattle.stab_error_model.specs.Unseen.{IsDistance, IsSetCount, ReportsUnseen};
ghost use Rattle.stab_report.specs.SingleErrorTables.{GoesOnWithItems, fault_of, random_of};
ghost use Rattle.stab_report.specs.MissingObservables.{WarnsOf};
ghost use Rattle.stab_report.specs.Distances.{EndsDistance, HearsDistance, IsDistanceOf, IsDistanceText, IsRefusedFor, ReportsDistance, answer_text, distance_line, if_graphlike, line_end, none_line, of_errors, set_text, up_to};
ghost use Rattle.stab_commands.specs.inner.Faults.{SendsAtOnce};

use crate::deterministic::kinds_of;
use crate::doubts::doubts_of;
use crate::searched::searched_errors;
use itoa::Buffer;
use stab_circuit::{Circuit, read_circuit};
use stab_error_model::{ErrorTable, count_distance, distance, graphlike_distance};
use stab_io::{Fault, Input, Output, Refusal};
use stab_jobs::DistanceOptions;
use stab_report::{
    FaultsRefused, finish, report_doubts, report_missing, write_errors, write_texts,
};
use stab_search::{Answer, Progress};
use std::alloc::Global;

/// The errors of a circuit, and what a search found among them.
pub struct Distance {
    errors: ErrorTable,
    answer: Answer,
}

// Written out, so that a proof sees the drop of a value as one call, and not one for each of its parts.
impl Drop for Distance {
    fn drop(self) {
        let Distance {
            errors: _,
            answer: _,
        } = self;
    }
}

/// Searches the errors of a circuit as the options ask for.
pub(crate) fn search<P: Progress>(
    alloc: Global,
    errors: &ErrorTable,
    options: DistanceOptions,
    progress: &mut P,
) -> Result<Answer, Refusal>
    ensures distance { IfOk result (λ a. (n : ℕ) (items : Items) → IsErrorTable n items errors.now → IsDistance options.graphlike options.observable n items errors.now.errors options.most a) }
    ensures err { IfErr result (λ r. r ≡ OutOfMemory) }
    ensures reported { (n : ℕ) (items : Items) → IsErrorTable n items errors.now → ReportsUnseen options.graphlike options.observable n items errors.now.errors options.most (P.heard progress.old) (P.heard progress.new) result }
{
    let observable = options.observable;
    if options.graphlike {
        graphlike_distance(alloc, errors, observable, options.most, progress)
    } else {
        distance(alloc, errors, observable, options.most, progress)
    }
}

/// The least number of a circuit's errors that flip an observable, or the one that is asked for, and no detector.
///
/// Refused with `NotDeterministic`, and the first detector or observable that is not the same for all
/// random bits, if there is such a one and `deterministic_only` doesn't leave it out; else with `OutOfMemory` alone.
pub fn find_distance<P: Progress>(
    alloc: Global,
    circuit: &Circuit,
    options: DistanceOptions,
    progress: &mut P,
) -> Result<Distance, FaultsRefused>
    requires checked { check_of (circuit_items circuit.now) ≡ None }
    ensures found { IfOk result (λ d. IsDistanceOf options (circuit_items circuit.now) d.errors d.answer) }
    ensures steps { IfOk result (λ d. StepsInside (circuit_items circuit.now) d.errors.errors) }
    ensures refused { IfErr result (λ r. IsRefusedFor options.deterministic_only (circuit_items circuit.now) r.random r.fault) }
    ensures reported { HearsDistance options (circuit_items circuit.now) (P.heard progress.old) (P.heard progress.new) (fault_of result) }
{
    let errors = searched_errors(alloc, circuit, options)?;
    match search(alloc, &errors, options, progress) {
        Ok(answer) => Ok(Distance { errors, answer }),
        Err(refusal) => Err(FaultsRefused::from(Fault::whole(refusal))),
    }
}

/// How many least sets there are, of which one was found among all errors. The only refusal is `OutOfMemory`.
pub(crate) fn count_of(
    alloc: Global,
    circuit: &Circuit,
    options: DistanceOptions,
    found: &Distance,
) -> Result<Option<u64>, Fault>
    requires all { options.graphlike ≡ false }
    requires found { IsDistanceOf options (circuit_items circuit.now) found.now.errors found.now.answer }
    ensures count { IfOk result (IsSetCount options.observable (qubits_of (circuit_items circuit.now)) (circuit_items circuit.now) found.now.errors.errors options.most) }
    ensures err { IfErr result (λ f. f ≡ whole OutOfMemory) }
{
    match count_distance(alloc, &found.errors, options.observable, &found.answer) {
        Ok(count) => Ok(count),
        Err(refusal) => Err(Fault::whole(refusal)),
    }
}

/// Of which errors a distance is.
fn of_errors(graphlike: bool, everywhere: bool) -> &'static [u8]
    ensures value { result.now ≡ of_errors graphlike everywhere }
{
    if graphlike {
        b" of graph-like errors"
    } else if everywhere {
        b" of all errors everywhere"
    } else {
        b" of all marked errors"
    }
}

/// Of which errors there is no set, if not of all.
fn if_graphlike(graphlike: bool) -> &'static [u8]
    ensures value { result.now ≡ if_graphlike graphlike }
{
    if graphlike {
        of_errors(true, true)
    } else {
        b""
    }
}

/// Writes the end of a first line: of which errors, and for which observable, if one was asked for.
fn write_end<O: Output>(
    out: &mut O,
    errors: &[u8],
    observable: Option<usize>,
) -> Result<(), Refusal>
    ensures writes { WritesAll (O.seen out.old) (O.seen out.new) (line_end errors.now observable) result }
{
    match observable {
        None => write_texts(out, &[errors, b"\n"]),
        Some(number) => {
            let mut digits = Buffer::new();
            let number = digits.format(number).as_bytes();
            write_texts(out, &[errors, b" for L", number, b"\n"])
        }
    }
}

/// Writes the line of this number of errors.
fn write_count<O: Output>(
    out: &mut O,
    count: usize,
    options: DistanceOptions,
) -> Result<(), Refusal>
    ensures writes { WritesAll (O.seen out.old) (O.seen out.new) (distance_line count options.graphlike options.everywhere options.observable) result }
{
    let mut digits = Buffer::new();
    write_texts(out, &[b"distance ", digits.format(count).as_bytes()])?;
    let errors = of_errors(options.graphlike, options.everywhere);
    write_end(out, errors, options.observable)
}

/// Writes that there is no set, of at most this many errors if a number is given.
fn write_none_within<O: Output>(out: &mut O, most: Option<usize>) -> Result<(), Refusal>
    ensures writes { WritesAll (O.seen out.old) (O.seen out.new) (codes "none" ++ up_to most) result }
{
    match most {
        None => write_texts(out, &[b"none"]),
        Some(most) => {
            let mut digits = Buffer::new();
            let most = digits.format(most).as_bytes();
            write_texts(out, &[b"none", b" up to ", most])
        }
    }
}

/// Writes the line that says so.
pub(crate) fn write_none<O: Output>(
    out: &mut O,
    most: Option<usize>,
    options: DistanceOptions,
) -> Result<(), Refusal>
    ensures writes { WritesAll (O.seen out.old) (O.seen out.new) (none_line most options.graphlike options.observable) result }
{
    write_none_within(out, most)?;
    write_end(out, if_graphlike(options.graphlike), options.observable)
}

/// Writes a set of errors: how many they are, and a line for each.
pub(crate) fn write_set<O: Output>(
    out: &mut O,
    circuit: &Circuit,
    options: DistanceOptions,
    errors: &ErrorTable,
    numbers: &[usize],
) -> Result<(), Refusal>
    requires checked { check_of (circuit_items circuit.now) ≡ None }
    requires table { IsErrorTable (qubits_of (circuit_items circuit.now)) (circuit_items circuit.now) errors.now }
    requires steps { StepsInside (circuit_items circuit.now) errors.now.errors }
    requires inside { All (λ k. k < length errors.now.errors) numbers.now }
    ensures writes { WritesAll (O.seen out.old) (O.seen out.new) (set_text options (circuit_items circuit.now) errors.now numbers.now) result }
{
    let kinds = kinds_of(circuit, errors.deterministic().len());
    write_count(out, numbers.len(), options)?;
    write_errors(out, circuit, kinds, errors, numbers)
}

/// Writes an answer: `distance W of all marked errors` and a line for each of the errors, such as
/// `1207 3/0/2 X17*Z4 D24 L0`, or `none`, or `none up to W`.
pub(crate) fn write_answer<O: Output>(
    out: &mut O,
    circuit: &Circuit,
    options: DistanceOptions,
    errors: &ErrorTable,
    answer: &Answer,
) -> Result<(), Refusal>
    requires checked { check_of (circuit_items circuit.now) ≡ None }
    requires found { IsDistanceOf options (circuit_items circuit.now) errors.now answer.now }
    requires steps { StepsInside (circuit_items circuit.now) errors.now.errors }
    ensures writes { WritesAll (O.seen out.old) (O.seen out.new) (answer_text options (circuit_items circuit.now) errors.now answer.now) result }
{
    match answer {
        Answer::Least(numbers) => write_set(out, circuit, options, errors, numbers.as_slice()),
        Answer::NoneWithin => write_none(out, options.most, options),
        Answer::NoneAtAll => write_none(out, None, options),
    }
}

/// Writes what was found: `distance W of all marked errors` and a line for each of the errors, such as
/// `1207 3/0/2 X17*Z4 D24 L0`, or `none`, or `none up to W`.
///
/// Refusal `WriteFault` after a prefix of the lines.
pub fn write_distance<O: Output>(
    out: &mut O,
    circuit: &Circuit,
    options: DistanceOptions,
    found: &Distance,
) -> Result<(), Refusal>
    requires checked { check_of (circuit_items circuit.now) ≡ None }
    requires found { IsDistanceOf options (circuit_items circuit.now) found.now.errors found.now.answer }
    requires steps { StepsInside (circuit_items circuit.now) found.now.errors.errors }
    ensures writes { WritesAll (O.seen out.old) (O.seen out.new) (answer_text options (circuit_items circuit.now) found.now.errors found.now.answer) result }
{
    write_answer(out, circuit, options, &found.errors, &found.answer)
}

/// Writes an answer, and flushes.
fn send_answer<O: Output>(
    out: &mut O,
    circuit: &Circuit,
    options: DistanceOptions,
    found: &Distance,
) -> Result<(), Fault>
    requires checked { check_of (circuit_items circuit.now) ≡ None }
    requires found { IsDistanceOf options (circuit_items circuit.now) found.now.errors found.now.answer }
    requires steps { StepsInside (circuit_items circuit.now) found.now.errors.errors }
    ensures sends { SendsAtOnce (answer_text options (circuit_items circuit.now) found.now.errors found.now.answer) (O.seen out.old) (O.seen out.new) result }
{
    write_distance(out, circuit, options, found).map_err(Fault::whole)?;
    finish(out)
}

/// Writes the distance of a circuit, and flushes; or names a bit that is not deterministic.
fn send_distance<O: Output, P: Progress>(
    alloc: Global,
    circuit: &Circuit,
    out: &mut O,
    options: DistanceOptions,
    progress: &mut P,
) -> Result<(), FaultsRefused>
    requires checked { check_of (circuit_items circuit.now) ≡ None }
    ensures goes_on { GoesOnWithItems (IsDistanceText options (circuit_items circuit.now)) options.deterministic_only (circuit_items circuit.now) (random_of result) (O.seen out.old) (O.seen out.new) (fault_of result) }
    ensures reported { HearsDistance options (circuit_items circuit.now) (P.heard progress.old) (P.heard progress.new) (fault_of result) }
{
    let found = find_distance(alloc, circuit, options, progress)?;
    Ok(send_answer(out, circuit, options, &found)?)
}

/// Reads a circuit, and writes a least set of its errors that are unseen together: with all of them put in,
/// a run has each detector as it is without them, and some observable different, for all random bits, on as many
/// qubits as the circuit names. No set of fewer of these errors is unseen.
///
/// The errors are those that the circuit marks by the gate `I`: X, Y and Z at each target, or those that
/// its tag leaves (`X`, `Y`, `Z`, `XZ`), or with the tag `pairs` all products of two letters on each two
/// targets. With `everywhere` they are those letters after each gate and reset and before what is
/// measured, all products after a gate on two qubits, and each record wrong by itself. Letters
/// `XAndZ` leave out Y, and products that have both kinds. With `graphlike`, the X and the Z of its letters
/// replace an error that flips more than two detectors, and only errors are taken that flip at most two. With an
/// `observable`, it is this one that is different.
///
/// The first line is `distance W of all marked errors`, or `of all errors everywhere`, or `of graph-like errors`. Then each of the W errors
/// has a line, such as `1207 3/0/2 X17*Z4 D24 L0`: the number of steps in front of it, the path of its item, its
/// letters and qubits, or `M17` for a wrong record, and what it flips. If no set is unseen, there is one line,
/// `none`; with `most`, if none of at most `most` errors is, `none up to W`. Both end in ` of graph-like errors`
/// with `graphlike`, and each first line in ` for L0` with the observable 0.
///
/// If a detector or observable is not the same for all random bits, refusal `NotDeterministic`, before anything
/// is written or searched, names the first; `deterministic_only` leaves out such ones. Reading, the flush and the
/// other faults are those of `run_faults`. `progress` hears of the number of errors, and then of each number of
/// them that no unseen set has.
///
/// After a call without a fault, marks that may be meant in another way are reported on `err` unless errors are `everywhere`, and so is an
/// `observable` that the circuit lacks.
pub fn run_distance<I: Input, O: Output, E: Output, P: Progress>(
    alloc: Global,
    input: &mut I,
    out: &mut O,
    err: &mut E,
    options: DistanceOptions,
    progress: &mut P,
) -> Result<(), FaultsRefused>
    ensures ends { EndsDistance options (I.seen input.old) (I.seen input.new) (O.seen out.old) (O.seen out.new) (fault_of result) (random_of result) }
    ensures reported { ReportsDistance options (I.seen input.old) (I.seen input.new) (P.heard progress.old) (P.heard progress.new) (fault_of result) }
    ensures warns { WarnsOf options.everywhere options.observable (I.seen input.old) (I.seen input.new) (E.seen err.old) (E.seen err.new) (fault_of result) }
{
    let circuit = read_circuit(alloc, input)?;
    let doubts = doubts_of(alloc, &circuit, options.everywhere)?;
    send_distance(alloc, &circuit, out, options, progress)?;
    report_doubts(err, &circuit, doubts.as_slice());
    report_missing(err, options.observable, circuit.observables());
    Ok(())
}
