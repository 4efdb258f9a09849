//! Why detectors and observables are not the same for all random bits: the lines that name the coins which decide each.
ghost use Rattle.std.specs.Prelude.{◌≡◌, ℕ, ◌<◌, ◌++◌, true, None, codes, decimal, length, All};
ghost use Rattle.std.specs.List.{flat_map};
ghost use Rattle.stab_io.specs.Devices.{WritesAll, WritesAllOrFault};
ghost use Rattle.stab_items.specs.Paths.{path_text};
ghost use Rattle.stab_items.specs.Steps.{check_of, qubits_of};
ghost use Rattle.stab_items.specs.Views.{circuit_items};
ghost use Rattle.stab_regions.specs.SingleErrors.{bits_in, numbers_where};
ghost use Rattle.stab_commands.specs.CoinRuns.{AreCoinRuns};
ghost use Rattle.stab_report.specs.Coins.{IsCoinTable, table_of};
ghost use Rattle.stab_report.specs.Endings.{Sends, SendsUnflushed};
ghost use Rattle.stab_report.specs.Reasons.{EndsExplain, bit_name, coordinates_at, decider_text, has_bit, number_of_bit, reason_text, reasons_text};
ghost use Rattle.stab_commands.specs.inner.CoinRows.{coin_at, decides};
ghost use Rattle.stab_search.specs.inner.Indexes.{rows_listed};

use crate::coin_rows::placed_coin;
use crate::coin_runs::CoinRuns;
use crate::deciders::deciders;
use crate::faults::{bit_of, path_of_bit};
use itoa::Buffer;
use stab_circuit::{Circuit, Path, read_circuit};
use stab_io::{Fault, Input, Output, Refusal, write_all};
use stab_items::{write_item_coordinates, write_path};
use stab_report::{Bit, finish, write_decider, write_texts};
use std::alloc::Global;

/// Writes the coins at positions among those that decide, each with the path of the item that takes it.
fn write_deciders<O: Output>(
    out: &mut O,
    circuit: &Circuit,
    runs: &CoinRuns,
    positions: &[usize],
) -> Result<(), Refusal>
    requires checked { check_of (circuit_items circuit.now) ≡ None }
    requires runs { AreCoinRuns (qubits_of (circuit_items circuit.now)) (circuit_items circuit.now) runs.now }
    requires in_range { All (λ k. k < length runs.now.numbers.items) positions.now }
    ensures writes { WritesAll (O.seen out.old) (O.seen out.new) (flat_map (λ k. decider_text (circuit_items circuit.now) (coin_at (circuit_items circuit.now) k)) positions.now) result }
{
    for position in positions {
        let coin = placed_coin(circuit, runs, *position);
        write_decider(out, &coin.decider())?;
    }
    Ok(())
}

/// The letter that names a kind of bits, and the number of a bit.
fn bit_name(bit: Bit) -> (&'static [u8], usize)
    ensures value { bit_name bit ≡ result.0.now ++ decimal result.1 }
{
    match bit {
        Bit::Detector(number) => (b"D", number),
        Bit::Observable(number) => (b"L", number),
    }
}

/// Writes a bit's name and a path.
fn write_bit<O: Output>(out: &mut O, bit: Bit, path: &Path) -> Result<(), Refusal>
    ensures writes { WritesAll (O.seen out.old) (O.seen out.new) (bit_name bit ++ (codes " " ++ path_text path.now)) result }
{
    let (name, number) = bit_name(bit);
    let mut digits = Buffer::new();
    write_texts(out, &[name, digits.format(number).as_bytes(), b" "])?;
    write_path(out, path)
}

/// Writes the coordinates of the detector at a path after a space, as its line is printed; nothing if there are none.
fn write_coordinates<O: Output>(out: &mut O, circuit: &Circuit, path: &Path) -> Result<(), Refusal>
    ensures writes { WritesAll (O.seen out.old) (O.seen out.new) (coordinates_at (circuit_items circuit.now) path.now) result }
{
    match circuit.item(*path) {
        Ok(item) => write_item_coordinates(out, item),
        // The path is that of an item.
        Err(_) => Ok(()),
    }
}

/// Writes the front of a bit's line: its name, and the path and the coordinates of its first item.
fn write_front<O: Output>(
    out: &mut O,
    circuit: &Circuit,
    bit: Bit,
    path: &Path,
) -> Result<(), Refusal>
    ensures writes { WritesAll (O.seen out.old) (O.seen out.new) ((bit_name bit ++ (codes " " ++ path_text path.now)) ++ coordinates_at (circuit_items circuit.now) path.now) result }
{
    write_bit(out, bit, path)?;
    write_coordinates(out, circuit, path)
}

/// Writes a bit's line, by the path of its first item and the positions of the coins that decide it.
fn write_line<O: Output>(
    out: &mut O,
    circuit: &Circuit,
    runs: &CoinRuns,
    bit: Bit,
    path: &Path,
    positions: &[usize],
) -> Result<(), Refusal>
    requires checked { check_of (circuit_items circuit.now) ≡ None }
    requires runs { AreCoinRuns (qubits_of (circuit_items circuit.now)) (circuit_items circuit.now) runs.now }
    requires in_range { All (λ k. k < length runs.now.numbers.items) positions.now }
    ensures writes { WritesAll (O.seen out.old) (O.seen out.new) (((bit_name bit ++ (codes " " ++ path_text path.now)) ++ coordinates_at (circuit_items circuit.now) path.now) ++ (flat_map (λ k. decider_text (circuit_items circuit.now) (coin_at (circuit_items circuit.now) k)) positions.now ++ codes "\n")) result }
{
    write_front(out, circuit, bit, path)?;
    write_deciders(out, circuit, runs, positions)?;
    write_all(out, b"\n")
}

/// Writes the same line, and answers with a fault.
fn send_line<O: Output>(
    out: &mut O,
    circuit: &Circuit,
    runs: &CoinRuns,
    bit: Bit,
    path: &Path,
    positions: &[usize],
) -> Result<(), Fault>
    requires checked { check_of (circuit_items circuit.now) ≡ None }
    requires runs { AreCoinRuns (qubits_of (circuit_items circuit.now)) (circuit_items circuit.now) runs.now }
    requires in_range { All (λ k. k < length runs.now.numbers.items) positions.now }
    ensures writes { WritesAllOrFault (O.seen out.old) (O.seen out.new) (((bit_name bit ++ (codes " " ++ path_text path.now)) ++ coordinates_at (circuit_items circuit.now) path.now) ++ (flat_map (λ k. decider_text (circuit_items circuit.now) (coin_at (circuit_items circuit.now) k)) positions.now ++ codes "\n")) result }
{
    match write_line(out, circuit, runs, bit, path, positions) {
        Ok(()) => Ok(()),
        Err(refusal) => Err(Fault::whole(refusal)),
    }
}

/// Writes the line of the bit of a number, by the positions of the coins that decide it; nothing if there are none.
fn write_reason<O: Output>(
    alloc: Global,
    out: &mut O,
    circuit: &Circuit,
    runs: &CoinRuns,
    number: usize,
    positions: &[usize],
) -> Result<(), Fault>
    requires checked { check_of (circuit_items circuit.now) ≡ None }
    requires runs { AreCoinRuns (qubits_of (circuit_items circuit.now)) (circuit_items circuit.now) runs.now }
    requires in_range { number < bits_in (circuit_items circuit.now) }
    requires are { numbers_where (decides (circuit_items circuit.now) number) 0 (length runs.now.numbers.items) ≡ positions.now }
    ensures sends { SendsUnflushed (reason_text (circuit_items circuit.now) (table_of (qubits_of (circuit_items circuit.now)) (circuit_items circuit.now)) number) (O.seen out.old) (O.seen out.new) result }
{
    if positions.is_empty() {
        return Ok(());
    }
    let bit = bit_of(circuit.detectors(), number);
    match path_of_bit(alloc, circuit, bit) {
        Ok(path) => send_line(out, circuit, runs, bit, &path, positions),
        Err(refusal) => Err(Fault::whole(refusal)),
    }
}

/// Whether a circuit has a detector or observable.
pub fn has_bit(circuit: &Circuit, bit: Bit) -> bool
    requires checked { check_of (circuit_items circuit.now) ≡ None }
    ensures value { result ≡ has_bit (circuit_items circuit.now) bit }
{
    match bit {
        Bit::Detector(number) => number < circuit.detectors(),
        Bit::Observable(number) => number < circuit.observables(),
    }
}

/// The number of a bit that a circuit has among all its detectors and then all observables, which are this many.
fn bit_number(circuit: &Circuit, bit: Bit, bits: usize) -> usize
    requires has { has_bit (circuit_items circuit.now) bit ≡ true }
    requires all { bits ≡ bits_in (circuit_items circuit.now) }
    ensures value { result ≡ number_of_bit (circuit_items circuit.now) bit }
    ensures in_range { result < bits_in (circuit_items circuit.now) }
{
    match bit {
        Bit::Detector(number) => number,
        Bit::Observable(number) => bits - circuit.observables() + number,
    }
}

/// Writes the line of a bit, as `run_explain` does, without a flush.
///
/// Faults: `WriteFault` if the output failed, and `OutOfMemory`, both after a prefix of the line.
pub fn write_why<O: Output>(
    alloc: Global,
    circuit: &Circuit,
    out: &mut O,
    bit: Bit,
) -> Result<(), Fault>
    requires checked { check_of (circuit_items circuit.now) ≡ None }
    requires has { has_bit (circuit_items circuit.now) bit ≡ true }
    ensures sends { SendsUnflushed (reason_text (circuit_items circuit.now) (table_of (qubits_of (circuit_items circuit.now)) (circuit_items circuit.now)) (number_of_bit (circuit_items circuit.now) bit)) (O.seen out.old) (O.seen out.new) result }
{
    let runs = CoinRuns::of(alloc, circuit, circuit.qubits())?;
    let lists = deciders(alloc, circuit, &runs)?;
    let number = bit_number(circuit, bit, lists.len());
    let positions = lists[number].as_slice();
    write_reason(alloc, out, circuit, &runs, number, positions)
}

/// Writes the line of each detector and then each observable that is not the same for all random bits.
fn write_reasons<O: Output>(
    alloc: Global,
    out: &mut O,
    circuit: &Circuit,
    runs: &CoinRuns,
    lists: &[Vec<usize>],
) -> Result<(), Fault>
    requires checked { check_of (circuit_items circuit.now) ≡ None }
    requires runs { AreCoinRuns (qubits_of (circuit_items circuit.now)) (circuit_items circuit.now) runs.now }
    requires size { length lists.now ≡ bits_in (circuit_items circuit.now) }
    requires are { (i : ℕ) → i < bits_in (circuit_items circuit.now) → rows_listed lists.now i ≡ numbers_where (decides (circuit_items circuit.now) i) 0 (length runs.now.numbers.items) }
    ensures sends { SendsUnflushed (reasons_text (circuit_items circuit.now) (table_of (qubits_of (circuit_items circuit.now)) (circuit_items circuit.now))) (O.seen out.old) (O.seen out.new) result }
{
    for number in 0..lists.len() {
        let positions = lists[number].as_slice();
        write_reason(alloc, out, circuit, runs, number, positions)?;
    }
    Ok(())
}

/// Finds which coins decide each bit, writes the lines, and flushes.
fn send_reasons<O: Output>(alloc: Global, circuit: &Circuit, out: &mut O) -> Result<(), Fault>
    requires checked { check_of (circuit_items circuit.now) ≡ None }
    ensures table { IsCoinTable (qubits_of (circuit_items circuit.now)) (circuit_items circuit.now) (table_of (qubits_of (circuit_items circuit.now)) (circuit_items circuit.now)) }
    ensures sends { Sends (reasons_text (circuit_items circuit.now) (table_of (qubits_of (circuit_items circuit.now)) (circuit_items circuit.now))) (O.seen out.old) (O.seen out.new) result }
{
    // No step names a qubit twice, so there is such a table.
    let _ = circuit.items();
    let runs = CoinRuns::of(alloc, circuit, circuit.qubits())?;
    let lists = deciders(alloc, circuit, &runs)?;
    write_reasons(alloc, out, circuit, &runs, lists.as_slice())?;
    finish(out)
}

/// Reads a circuit, and writes of each detector and then each observable that is not the same for all coins a line such as `D37 69
/// (1, 3, 2) c12@12 c40@66/3`: its name, the path of its `DETECTOR` or of the first `OBSERVABLE_INCLUDE` of its number, the
/// coordinates of that `DETECTOR` if it has any, without those of `SHIFT_COORDS`, and the coins that decide it, ascending, each with
/// the path of the item that takes it. A bit is the same for all coins exactly if none decides it: `laws::deterministic_has_no_decider`.
///
/// Reading, the flush and the faults are those of `run_sample`.
pub fn run_explain<I: Input, O: Output>(
    alloc: Global,
    input: &mut I,
    out: &mut O,
) -> Result<(), Fault>
    ensures ends { EndsExplain (I.seen input.old) (I.seen input.new) (O.seen out.old) (O.seen out.new) result }
{
    let circuit = read_circuit(alloc, input)?;
    send_reasons(alloc, &circuit, out)
}
