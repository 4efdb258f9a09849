//! The command that writes what each error flips and leaves: those that a circuit marks, or errors everywhere.
ghost use Rattle.std.specs.Prelude.{◌≡◌, ◌<◌, ◌≤◌, ◌∷◌, None, drop, length, map, nat_lt, IfOk, IfErr};
ghost use Rattle.std.specs.List.{filter, flat_map};
ghost use Rattle.stab_io.specs.Devices.{WritesAll, WritesAllOrFault};
ghost use Rattle.stab_io.specs.declared.refusal.Refusal.TheVariants.{OutOfMemory};
ghost use Rattle.stab_items.specs.Steps.{check_of, qubits_of, unroll};
ghost use Rattle.stab_items.specs.Views.{circuit_items};
ghost use Rattle.stab_regions.specs.Effects.{effect_of_single_error};
ghost use Rattle.stab_regions.specs.SingleErrors.{single_errors_of};
ghost use Rattle.stab_report.specs.Endings.{Sends, SendsUnflushed};
ghost use Rattle.stab_report.specs.PlacedSingleErrors.{single_error_placed};
ghost use Rattle.stab_script.specs.EachTexts.{line_of_each};
ghost use Rattle.stab_script.specs.Endings.{EndsPropagateEach, SendsErrors};
ghost use Rattle.stab_script.specs.inner.ErrorNumbers.{letters_numbered, numbered_text};

use crate::lines::{kinds_of_all, path_of, write_left};
use stab_circuit::{Circuit, read_circuit};
use stab_io::{Fault, Input, Output, Refusal, write_all};
use stab_pauli::Letter;
use stab_regions::{EffectTable, single_error_effects};
use stab_report::{PlacedSingleError, finish, placed_single_errors, write_single_error};
use stab_results::write_entries;
use stab_ways::PlacedLetter;
use stab_ways::laws::strings_flip_runs;
use std::alloc::{AllocError, Global};

/// Writes the line of an error, by the numbers of what it flips and the string that it leaves.
fn write_error<O: Output>(
    out: &mut O,
    circuit: &Circuit,
    single_error: PlacedSingleError,
    flipped: &[u32],
    left: &[PlacedLetter],
) -> Result<(), Refusal>
    requires checked { check_of (circuit_items circuit.now) ≡ None }
    ensures writes { WritesAll (O.seen out.old) (O.seen out.new) (numbered_text (circuit_items circuit.now) (single_error_placed single_error) flipped.now left.now) result }
{
    let path = path_of(circuit, single_error.step);
    write_single_error(
        out,
        single_error.before,
        &path,
        single_error.letter,
        single_error.qubit,
    )?;
    write_entries(out, kinds_of_all(circuit), flipped)?;
    write_all(out, b" ")?;
    write_left(out, left)
}

/// How many of some numbers are below one.
fn count_below(numbers: &[u32], first: usize) -> usize
    ensures value { result ≡ length (filter (λ k. nat_lt k first) numbers.now) }
{
    numbers
        .iter()
        .filter(|number| (**number as usize) < first)
        .count()
}

/// The first letter of those whose parts have these numbers, and how many parts it has.
fn first_letter(numbers: &[u32], first: usize) -> (PlacedLetter, usize)
    requires some { 0 < length numbers.now }
    ensures some { 0 < result.1 }
    ensures within { result.1 ≤ length numbers.now }
    ensures value { letters_numbered first numbers.now ≡ result.0 ∷ letters_numbered first (drop result.1 numbers.now) }
{
    let number = numbers[0] as usize;
    let part = number.saturating_sub(first);
    let qubit = part / 2;
    if part % 2 == 1 {
        let letter = Letter::Z;
        return (PlacedLetter { letter, qubit }, 1);
    }
    if numbers.len() > 1 && numbers[1] as usize == number + 1 {
        let letter = Letter::Y;
        return (PlacedLetter { letter, qubit }, 2);
    }
    let letter = Letter::X;
    (PlacedLetter { letter, qubit }, 1)
}

/// The letters whose parts have these numbers.
fn letters_of(alloc: Global, numbers: &[u32], first: usize) -> Result<Vec<PlacedLetter>, AllocError>
    ensures value { IfOk result (λ v. v.items ≡ letters_numbered first numbers.now) }
{
    let mut letters = Vec::new(alloc);
    let mut k = 0;
    'numbers: while k < numbers.len() {
        let (letter, parts) = first_letter(&numbers[k..], first);
        letters.push(letter)?;
        k += parts;
    }
    Ok(letters)
}

/// Writes the same line as `write_error`, and answers with a fault.
fn put_error<O: Output>(
    out: &mut O,
    circuit: &Circuit,
    single_error: PlacedSingleError,
    flipped: &[u32],
    left: &[PlacedLetter],
) -> Result<(), Fault>
    requires checked { check_of (circuit_items circuit.now) ≡ None }
    ensures writes { WritesAllOrFault (O.seen out.old) (O.seen out.new) (numbered_text (circuit_items circuit.now) (single_error_placed single_error) flipped.now left.now) result }
{
    match write_error(out, circuit, single_error, flipped, left) {
        Ok(()) => Ok(()),
        Err(refusal) => Err(Fault::whole(refusal)),
    }
}

/// Finds the line of an error, and writes it.
fn send_error<O: Output>(
    alloc: Global,
    circuit: &Circuit,
    out: &mut O,
    single_error: PlacedSingleError,
    row: &[u32],
) -> Result<(), Fault>
    requires checked { check_of (circuit_items circuit.now) ≡ None }
    requires row { row.now ≡ effect_of_single_error (qubits_of (circuit_items circuit.now)) (circuit_items circuit.now) (single_error_placed single_error) }
    ensures sends { SendsUnflushed (line_of_each (circuit_items circuit.now) (single_error_placed single_error)) (O.seen out.old) (O.seen out.new) result }
{
    // This shows a proof that the qubits of each pair differ.
    let _ = circuit.items();
    let recorded = circuit.records() + circuit.detectors();
    let Some(first) = recorded.checked_add(circuit.observables()) else {
        return Err(Fault::whole(Refusal::OutOfMemory));
    };
    let (flipped, parts) = row.split_at(count_below(row, first));
    match letters_of(alloc, parts, first) {
        Ok(left) => put_error(out, circuit, single_error, flipped, left.as_slice()),
        Err(_) => Err(Fault::whole(Refusal::OutOfMemory)),
    }
}

/// Writes the lines of errors.
fn send_errors<O: Output>(
    alloc: Global,
    circuit: &Circuit,
    out: &mut O,
    single_errors: &[PlacedSingleError],
    effects: &EffectTable,
) -> Result<(), Fault>
    requires checked { check_of (circuit_items circuit.now) ≡ None }
    requires rows { effects.now ≡ map (λ f. effect_of_single_error (qubits_of (circuit_items circuit.now)) (circuit_items circuit.now) (single_error_placed f)) single_errors.now }
    ensures sends { SendsUnflushed (flat_map (λ f. line_of_each (circuit_items circuit.now) (single_error_placed f)) single_errors.now) (O.seen out.old) (O.seen out.new) result }
{
    'single_errors: for k in 0..single_errors.len() {
        send_error(alloc, circuit, out, single_errors[k], effects.row(k))?;
    }
    Ok(())
}

/// Writes the lines of errors, and flushes.
fn send_all<O: Output>(
    alloc: Global,
    circuit: &Circuit,
    out: &mut O,
    single_errors: &[PlacedSingleError],
    effects: &EffectTable,
) -> Result<(), Fault>
    requires checked { check_of (circuit_items circuit.now) ≡ None }
    requires rows { effects.now ≡ map (λ f. effect_of_single_error (qubits_of (circuit_items circuit.now)) (circuit_items circuit.now) (single_error_placed f)) single_errors.now }
    ensures sends { Sends (flat_map (λ f. line_of_each (circuit_items circuit.now) (single_error_placed f)) single_errors.now) (O.seen out.old) (O.seen out.new) result }
{
    send_errors(alloc, circuit, out, single_errors, effects)?;
    finish(out)
}

/// The errors that are asked for, and what each flips and leaves.
#[derive(Drop)]
struct Errors {
    single_errors: Vec<PlacedSingleError>,
    effects: EffectTable,
}

/// Finds them.
fn errors_of(alloc: Global, circuit: &Circuit, everywhere: bool) -> Result<Errors, Refusal>
    requires checked { check_of (circuit_items circuit.now) ≡ None }
    ensures single_errors { IfOk result (λ e. map single_error_placed e.single_errors.items ≡ single_errors_of everywhere (unroll (circuit_items circuit.now))) }
    ensures effects { IfOk result (λ e. e.effects ≡ map (λ f. effect_of_single_error (qubits_of (circuit_items circuit.now)) (circuit_items circuit.now) (single_error_placed f)) e.single_errors.items) }
    ensures err { IfErr result (λ r. r ≡ OutOfMemory) }
{
    let single_errors = placed_single_errors(alloc, circuit, everywhere)?;
    let effects = single_error_effects(alloc, circuit, circuit.qubits(), everywhere)?;
    Ok(Errors {
        single_errors,
        effects,
    })
}

/// Finds what each error flips and leaves, writes their lines, and flushes.
fn send_each<O: Output>(
    alloc: Global,
    circuit: &Circuit,
    out: &mut O,
    everywhere: bool,
) -> Result<(), Fault>
    requires checked { check_of (circuit_items circuit.now) ≡ None }
    ensures sends { SendsErrors everywhere (circuit_items circuit.now) (O.seen out.old) (O.seen out.new) result }
{
    strings_flip_runs();
    // This shows a proof that the qubits of each pair differ.
    let _ = circuit.items();
    match errors_of(alloc, circuit, everywhere) {
        Ok(errors) => send_all(
            alloc,
            circuit,
            out,
            errors.single_errors.as_slice(),
            &errors.effects,
        ),
        Err(refusal) => Err(Fault::whole(refusal)),
    }
}

/// Reads a circuit, and writes for each error that it marks, or for errors `everywhere`, what it flips and leaves: a Pauli X or Z at a
/// site, as `run_faults` takes them and in that order, each with a line: how many steps are in front of it, the path of its item, its letter and
/// qubit, the records, detectors and observables that it flips, and the string at the end, as `1207 3/0/2 X17 M3 D24 L0 left X3*Z4`.
///
/// Each is what `run_propagate` writes of that letter there. Memory may be refused after some lines. Reading, the flush and the other
/// faults are those of `run_sample`.
pub fn run_propagate_each<I: Input, O: Output>(
    alloc: Global,
    input: &mut I,
    out: &mut O,
    everywhere: bool,
) -> Result<(), Fault>
    ensures ends { EndsPropagateEach everywhere (I.seen input.old) (I.seen input.new) (O.seen out.old) (O.seen out.new) result }
{
    let circuit = read_circuit(alloc, input)?;
    send_each(alloc, &circuit, out, everywhere)
}
