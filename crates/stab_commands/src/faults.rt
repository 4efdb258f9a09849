//! The command that says which detectors and observables each fault flips.
ghost use Rattle.std.specs.Prelude.{◌≡◌, ◌<◌, ℕ, false, true, None, length, slice_index_or, IfOk, IfErr, IfSome, IfNone};
ghost use Rattle.stab_io.specs.declared.refusal.Refusal.TheVariants.{OutOfMemory};
ghost use Rattle.stab_io.specs.Refusals.{whole};
ghost use Rattle.stab_items.specs.Steps.{check_of, qubits_of, unroll, is_detector, detectors_of};
ghost use Rattle.stab_items.specs.StepValues.{step_shown};
ghost use Rattle.stab_items.specs.Views.{circuit_items};
ghost use Rattle.stab_regions.specs.SingleErrors.{AreDeterministic, IsSingleErrorTable, IsDeterministic, bits_in};
ghost use Rattle.stab_report.specs.Deterministic.{kinds_of};
ghost use Rattle.stab_report.specs.declared.random.Bit.TheVariants.{Detector, Observable};
ghost use Rattle.stab_jobs.specs.declared.job.FaultLayout.TheVariants.{Lines, Shots};
ghost use Rattle.stab_report.specs.SingleErrorTables.{EndsFaults, GoesOnWithItems, IsFirstDecider, IsFirstRandom, IsTableText, fault_of, table_text, random_of};
ghost use Rattle.stab_report.specs.DoubtLines.{Warns};
ghost use Rattle.stab_report.specs.ItemPaths.{adds_to, bit_of, path_of_bit, steps_before_bit};
ghost use Rattle.stab_commands.specs.inner.Faults.{PassesStep, SendsAtOnce};

use crate::coin_rows::placed_coin;
use crate::coin_runs::CoinRuns;
use crate::deciders::deciders;
use crate::deterministic::kinds_of;
use crate::doubts::doubts_of;
use stab_circuit::{Circuit, Cursor, Path, Step, read_circuit};
use stab_io::{Fault, Input, Output, Refusal};
use stab_jobs::FaultLayout;
use stab_regions::{SingleErrorTable, single_errors};
use stab_report::{
    Bit, Decider, FaultsRefused, Random, finish, report_doubts, write_lines, write_shots,
};
use stab_results::{Format, Kinds};
use std::alloc::Global;

/// The number of the first bit that is 0.
fn first_zero(bits: &[bool]) -> Option<usize>
    ensures some { IfSome result (λ k. (k < length bits.now) × (slice_index_or bits.now k false ≡ false) × ((i : ℕ) → i < k → slice_index_or bits.now i false ≡ true)) }
    ensures none { IfNone result ((i : ℕ) → i < length bits.now → slice_index_or bits.now i false ≡ true) }
{
    for number in 0..bits.len() {
        if !bits[number] {
            return Some(number);
        }
    }
    None
}

/// The bit of a number, if there are this many detectors.
pub(crate) fn bit_of(detectors: usize, number: usize) -> Bit
    ensures value { result ≡ bit_of detectors number }
{
    if number < detectors {
        Bit::Detector(number)
    } else {
        Bit::Observable(number - detectors)
    }
}

/// Whether a step is a detector.
fn is_detector(step: Step) -> bool
    ensures value { result ≡ is_detector (step_shown step.entry) }
{
    match step {
        Step::Detector(_) => true,
        _ => false,
    }
}

/// Whether a step adds to an observable.
fn adds_to(number: usize, step: Step) -> bool
    ensures value { result ≡ adds_to number (step_shown step.entry) }
{
    match step {
        Step::Observable(added, _) => added as usize == number,
        _ => false,
    }
}

/// What a detector is called among the steps after one, or none if that one is it.
fn detector_after(number: usize, step: Step) -> Option<Bit>
    ensures passes { PassesStep (Detector number) (step_shown step.entry) result }
{
    if !is_detector(step) {
        Some(Bit::Detector(number))
    } else if number > 0 {
        Some(Bit::Detector(number - 1))
    } else {
        None
    }
}

/// What an observable is called among the steps after one, or none if that one adds to it.
fn observable_after(number: usize, step: Step) -> Option<Bit>
    ensures passes { PassesStep (Observable number) (step_shown step.entry) result }
{
    if adds_to(number, step) {
        None
    } else {
        Some(Bit::Observable(number))
    }
}

/// What a bit is called among the steps after one, or none if that one makes it.
fn bit_after(bit: Bit, step: Step) -> Option<Bit>
    ensures passes { PassesStep bit (step_shown step.entry) result }
{
    match bit {
        Bit::Detector(number) => detector_after(number, step),
        Bit::Observable(number) => observable_after(number, step),
    }
}

/// The number of the first step that makes a bit, or of all steps if there is none.
fn first_step(alloc: Global, circuit: &Circuit, bit: Bit) -> Result<usize, Refusal>
    requires checked { check_of (circuit_items circuit.now) ≡ None }
    ensures value { IfOk result (λ t. t ≡ length (steps_before_bit bit (unroll (circuit_items circuit.now)))) }
    ensures err { IfErr result (λ r. r ≡ OutOfMemory) }
{
    let mut cursor = Cursor::at(alloc, circuit, 0)?;
    let mut sought = bit;
    let mut number = 0;
    'steps: while let Some(step) = cursor.next() {
        match bit_after(sought, step) {
            Some(rest) => sought = rest,
            None => return Ok(number),
        }
        number += 1;
    }
    Ok(number)
}

/// The path of the first item of a bit.
pub(crate) fn path_of_bit(alloc: Global, circuit: &Circuit, bit: Bit) -> Result<Path, Refusal>
    requires checked { check_of (circuit_items circuit.now) ≡ None }
    requires in_range { length (steps_before_bit bit (unroll (circuit_items circuit.now))) < length (unroll (circuit_items circuit.now)) }
    ensures value { IfOk result (λ p. path_of_bit (circuit_items circuit.now) bit ≡ p) }
    ensures err { IfErr result (λ r. r ≡ OutOfMemory) }
{
    let step = first_step(alloc, circuit, bit)?;
    Ok(circuit.item_of_step(step).path)
}

/// The first coin that decides the bit of a number that is not deterministic, or why it was not found.
fn find_decider(alloc: Global, circuit: &Circuit, number: usize) -> Result<Decider, Fault>
    requires checked { check_of (circuit_items circuit.now) ≡ None }
    requires in_range { number < bits_in (circuit_items circuit.now) }
    requires not_deterministic { IsDeterministic (qubits_of (circuit_items circuit.now)) (circuit_items circuit.now) number → ⊥ }
    ensures value { IfOk result (λ d. IsFirstDecider (circuit_items circuit.now) number d) }
    ensures err { IfErr result (λ f. f ≡ whole OutOfMemory) }
{
    let runs = CoinRuns::of(alloc, circuit, circuit.qubits())?;
    let lists = deciders(alloc, circuit, &runs)?;
    let positions = lists[number].as_slice();
    let coin = placed_coin(circuit, &runs, positions[0]);
    Ok(coin.decider())
}

/// The first coin that decides the bit of a number that is not deterministic.
fn first_decider(alloc: Global, circuit: &Circuit, number: usize) -> Result<Decider, Refusal>
    requires checked { check_of (circuit_items circuit.now) ≡ None }
    requires in_range { number < bits_in (circuit_items circuit.now) }
    requires not_deterministic { IsDeterministic (qubits_of (circuit_items circuit.now)) (circuit_items circuit.now) number → ⊥ }
    ensures value { IfOk result (λ d. IsFirstDecider (circuit_items circuit.now) number d) }
    ensures err { IfErr result (λ r. r ≡ OutOfMemory) }
{
    match find_decider(alloc, circuit, number) {
        Ok(decider) => Ok(decider),
        Err(fault) => Err(fault.refusal),
    }
}

/// The bit of a number that is not deterministic, with the path of its first item and the first coin that decides it.
fn random_at(
    alloc: Global,
    circuit: &Circuit,
    detectors: usize,
    number: usize,
) -> Result<Random, Refusal>
    requires checked { check_of (circuit_items circuit.now) ≡ None }
    requires detectors { detectors ≡ detectors_of (unroll (circuit_items circuit.now)) }
    requires in_range { number < bits_in (circuit_items circuit.now) }
    requires not_deterministic { IsDeterministic (qubits_of (circuit_items circuit.now)) (circuit_items circuit.now) number → ⊥ }
    ensures bit { IfOk result (λ u. u.bit ≡ bit_of (detectors_of (unroll (circuit_items circuit.now))) number) }
    ensures path { IfOk result (λ u. path_of_bit (circuit_items circuit.now) u.bit ≡ u.path) }
    ensures decider { IfOk result (λ u. IsFirstDecider (circuit_items circuit.now) number u.decider) }
    ensures err { IfErr result (λ r. r ≡ OutOfMemory) }
{
    let bit = bit_of(detectors, number);
    let path = path_of_bit(alloc, circuit, bit)?;
    let decider = first_decider(alloc, circuit, number)?;
    Ok(Random { bit, path, decider })
}

/// The first of a circuit's bits that is not deterministic.
fn first_random(
    alloc: Global,
    circuit: &Circuit,
    deterministic: &[bool],
) -> Result<Option<Random>, Refusal>
    requires checked { check_of (circuit_items circuit.now) ≡ None }
    requires deterministic { AreDeterministic (qubits_of (circuit_items circuit.now)) (circuit_items circuit.now) deterministic.now }
    ensures some { IfOk result (λ found. IfSome found (λ u. IsFirstRandom (circuit_items circuit.now) u)) }
    ensures none { IfOk result (λ found. IfNone found ((i : ℕ) → i < bits_in (circuit_items circuit.now) → IsDeterministic (qubits_of (circuit_items circuit.now)) (circuit_items circuit.now) i)) }
    ensures err { IfErr result (λ r. r ≡ OutOfMemory) }
{
    match first_zero(deterministic) {
        Some(number) => {
            let detectors = deterministic.len() - circuit.observables();
            let random = random_at(alloc, circuit, detectors, number)?;
            Ok(Some(random))
        }
        None => Ok(None),
    }
}

/// Sends a table as lines, and flushes.
fn send_lines<O: Output>(
    alloc: Global,
    circuit: &Circuit,
    out: &mut O,
    kinds: Kinds,
    table: &SingleErrorTable,
    everywhere: bool,
) -> Result<(), Fault>
    requires checked { check_of (circuit_items circuit.now) ≡ None }
    requires kinds { kinds ≡ kinds_of (circuit_items circuit.now) }
    requires table { IsSingleErrorTable (qubits_of (circuit_items circuit.now)) everywhere (circuit_items circuit.now) table.now.deterministic table.now.rows }
    ensures sends { SendsAtOnce (table_text Lines everywhere (circuit_items circuit.now) table.now.rows) (O.seen out.old) (O.seen out.new) result }
{
    let cursor = Cursor::at(alloc, circuit, 0).map_err(Fault::whole)?;
    write_lines(out, circuit, cursor, kinds, table, everywhere).map_err(Fault::whole)?;
    finish(out)
}

/// Sends a table as shots, and flushes.
fn send_shots<O: Output>(
    alloc: Global,
    circuit: &Circuit,
    out: &mut O,
    format: Format,
    kinds: Kinds,
    table: &SingleErrorTable,
    everywhere: bool,
) -> Result<(), Fault>
    requires kinds { kinds ≡ kinds_of (circuit_items circuit.now) }
    requires table { IsSingleErrorTable (qubits_of (circuit_items circuit.now)) everywhere (circuit_items circuit.now) table.now.deterministic table.now.rows }
    ensures sends { SendsAtOnce (table_text (Shots format) everywhere (circuit_items circuit.now) table.now.rows) (O.seen out.old) (O.seen out.new) result }
{
    let mut bits = vec![in alloc; false; table.deterministic().len()]?;
    write_shots(out, format, kinds, bits.as_mut_slice(), table)?;
    finish(out)
}

/// Sends a table of single errors in a layout, and flushes.
fn send_table<O: Output>(
    alloc: Global,
    circuit: &Circuit,
    out: &mut O,
    layout: FaultLayout,
    everywhere: bool,
    table: &SingleErrorTable,
) -> Result<(), Fault>
    requires checked { check_of (circuit_items circuit.now) ≡ None }
    requires table { IsSingleErrorTable (qubits_of (circuit_items circuit.now)) everywhere (circuit_items circuit.now) table.now.deterministic table.now.rows }
    ensures sends { SendsAtOnce (table_text layout everywhere (circuit_items circuit.now) table.now.rows) (O.seen out.old) (O.seen out.new) result }
{
    let kinds = kinds_of(circuit, table.deterministic().len());
    match layout {
        FaultLayout::Lines => send_lines(alloc, circuit, out, kinds, table, everywhere),
        FaultLayout::Shots(format) => {
            send_shots(alloc, circuit, out, format, kinds, table, everywhere)
        }
    }
}

/// The bit that a circuit is refused for, if any: the first that is not deterministic, unless such bits are left out.
pub(crate) fn refused_for(
    alloc: Global,
    circuit: &Circuit,
    deterministic: &[bool],
    deterministic_only: bool,
) -> Result<Option<Random>, Refusal>
    requires checked { check_of (circuit_items circuit.now) ≡ None }
    requires deterministic { AreDeterministic (qubits_of (circuit_items circuit.now)) (circuit_items circuit.now) deterministic.now }
    ensures some { IfOk result (λ found. IfSome found (λ u. (deterministic_only ≡ false) × IsFirstRandom (circuit_items circuit.now) u)) }
    ensures none { IfOk result (λ found. IfNone found (deterministic_only ≡ false → (i : ℕ) → i < bits_in (circuit_items circuit.now) → IsDeterministic (qubits_of (circuit_items circuit.now)) (circuit_items circuit.now) i)) }
    ensures err { IfErr result (λ r. r ≡ OutOfMemory) }
{
    if deterministic_only {
        Ok(None)
    } else {
        first_random(alloc, circuit, deterministic)
    }
}

/// Writes the table of a circuit's single errors, and flushes; or names a bit that is not deterministic.
fn send_faults<O: Output>(
    alloc: Global,
    circuit: &Circuit,
    out: &mut O,
    layout: FaultLayout,
    everywhere: bool,
    deterministic_only: bool,
) -> Result<(), FaultsRefused>
    requires checked { check_of (circuit_items circuit.now) ≡ None }
    ensures goes_on { GoesOnWithItems (IsTableText layout everywhere deterministic_only (circuit_items circuit.now)) deterministic_only (circuit_items circuit.now) (random_of result) (O.seen out.old) (O.seen out.new) (fault_of result) }
{
    let table = single_errors(alloc, circuit, circuit.qubits(), everywhere)?;
    match refused_for(alloc, circuit, table.deterministic(), deterministic_only) {
        Ok(None) => Ok(send_table(alloc, circuit, out, layout, everywhere, &table)?),
        Ok(Some(random)) => Err(FaultsRefused {
            fault: Fault::whole(Refusal::NotDeterministic),
            random: Some(random),
        }),
        Err(refusal) => Err(FaultsRefused::from(Fault::whole(refusal))),
    }
}

/// Reads a circuit, and writes which of its detectors and observables each single error flips: a
/// Pauli X or Z that is put in between two steps. It flips a bit if the run without it gives the other
/// bit, for all random bits. Runs are on as many qubits as the circuit names.
///
/// The single errors are those at the targets of the gate `I`; or, `everywhere`, those after each target of
/// each gate and reset, and in front of each measured qubit and after it. They come in the order of
/// the steps, and X before Z. With `FaultLayout::Lines` each has a line, such as `1207 3/0/2 X17 D24 L0`: how
/// many steps are in front of it, the path of its item, its letter and qubit, and what it flips. With
/// `FaultLayout::Shots` each has a shot, of all detectors and then all observables. Single errors that go wrong
/// in one run, in whatever order they are listed, flip what an odd number of their lines or shots name.
///
/// If one of these is not the same for all coins, it has no such bit: refusal `NotDeterministic`,
/// before anything is written, names the first, and the first coin that decides it. If `deterministic_only` asks
/// for it, such ones are left out: no single error flips them. Reading, the flush and the other faults are
/// those of `run_sample`, except that 20 comes before the first byte.
///
/// Unless they are `everywhere`, marks that may be meant in another way are reported on `err` after a call without a fault.
pub fn run_faults<I: Input, O: Output, E: Output>(
    alloc: Global,
    input: &mut I,
    out: &mut O,
    err: &mut E,
    layout: FaultLayout,
    everywhere: bool,
    deterministic_only: bool,
) -> Result<(), FaultsRefused>
    ensures ends { EndsFaults layout everywhere deterministic_only (I.seen input.old) (I.seen input.new) (O.seen out.old) (O.seen out.new) (fault_of result) (random_of result) }
    ensures warns { Warns everywhere (I.seen input.old) (I.seen input.new) (E.seen err.old) (E.seen err.new) (fault_of result) }
{
    let circuit = read_circuit(alloc, input)?;
    let doubts = doubts_of(alloc, &circuit, everywhere)?;
    send_faults(alloc, &circuit, out, layout, everywhere, deterministic_only)?;
    report_doubts(err, &circuit, doubts.as_slice());
    Ok(())
}
