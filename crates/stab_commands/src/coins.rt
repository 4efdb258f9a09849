//! The command that writes which bits of a circuit's runs each coin decides.
ghost use Rattle.std.specs.Prelude.{◌≡◌, ◌+◌, ◌<◌, ◌≤◌, None, length};
ghost use Rattle.stab_items.specs.Steps.{check_of, qubits_of};
ghost use Rattle.stab_items.specs.Views.{circuit_items};
ghost use Rattle.stab_commands.specs.CoinRuns.{AreCoinRuns};
ghost use Rattle.stab_report.specs.Coins.{IsCoinTable, table_of};
ghost use Rattle.stab_report.specs.CoinTables.{EndsCoins, coins_text};
ghost use Rattle.stab_report.specs.Endings.{Sends, SendsUnflushed};
ghost use Rattle.stab_report.specs.Texts.{texts_from};
ghost use Rattle.stab_commands.specs.inner.CoinRows.{text_at};

use crate::coin_rows::write_parts;
use crate::coin_runs::CoinRuns;
use stab_circuit::{Circuit, read_circuit};
use stab_io::{Fault, Input, Output};
use stab_jobs::FaultLayout;
use stab_report::finish;
use stab_sampler::{Shots, UnitWord, Wide};
use std::alloc::Global;

/// Writes what is written of this many coins, at most as many as there are lanes, from a position on. What they flip replaces
/// what the lists had.
fn send_batch<O: Output, W: UnitWord>(
    alloc: Global,
    circuit: &Circuit,
    out: &mut O,
    layout: FaultLayout,
    runs: &CoinRuns,
    first: usize,
    coins: usize,
    lists: &mut Shots<W>,
) -> Result<(), Fault>
    requires checked { check_of (circuit_items circuit.now) ≡ None }
    requires runs { AreCoinRuns (qubits_of (circuit_items circuit.now)) (circuit_items circuit.now) runs.now }
    requires few { coins ≤ W.lanes }
    requires some { 0 < coins }
    requires in_range { first + coins ≤ length runs.now.numbers.items }
    ensures sends { SendsUnflushed (texts_from (text_at layout (circuit_items circuit.now)) first coins) (O.seen out.old) (O.seen out.new) result }
{
    runs.flips(alloc, circuit, circuit.qubits(), first, lists)?;
    lists.records.extend_from_slice(lists.detectors.as_slice())?;
    lists
        .records
        .extend_from_slice(lists.observables.as_slice())?;
    let words = lists.records.as_slice();
    write_parts(alloc, out, circuit, layout, runs, first, words, coins)
}

/// Writes what is written of all coins that decide, by batches of this many lanes.
fn send_batches<O: Output, W: UnitWord>(
    alloc: Global,
    circuit: &Circuit,
    out: &mut O,
    layout: FaultLayout,
    runs: &CoinRuns,
    lanes: usize,
) -> Result<(), Fault>
    requires checked { check_of (circuit_items circuit.now) ≡ None }
    requires runs { AreCoinRuns (qubits_of (circuit_items circuit.now)) (circuit_items circuit.now) runs.now }
    requires some { 0 < lanes }
    requires few { lanes ≤ W.lanes }
    ensures sends { SendsUnflushed (texts_from (text_at layout (circuit_items circuit.now)) 0 (length runs.now.numbers.items)) (O.seen out.old) (O.seen out.new) result }
{
    let coins = runs.numbers().len();
    let mut lists: Shots<W> = Shots::with_room(alloc, circuit.records())?;
    let mut sent = 0;
    while sent < coins {
        let batch = (coins - sent).min(lanes);
        send_batch(alloc, circuit, out, layout, runs, sent, batch, &mut lists)?;
        sent += batch;
    }
    Ok(())
}

/// Writes what is written of all coins that decide, in words of as many lanes as they go in at once.
fn send_wide<O: Output>(
    alloc: Global,
    circuit: &Circuit,
    out: &mut O,
    layout: FaultLayout,
    runs: &CoinRuns,
) -> Result<(), Fault>
    requires checked { check_of (circuit_items circuit.now) ≡ None }
    requires runs { AreCoinRuns (qubits_of (circuit_items circuit.now)) (circuit_items circuit.now) runs.now }
    ensures sends { SendsUnflushed (texts_from (text_at layout (circuit_items circuit.now)) 0 (length runs.now.numbers.items)) (O.seen out.old) (O.seen out.new) result }
{
    let lanes = runs.lanes();
    if lanes <= 64 {
        send_batches::<O, u64>(alloc, circuit, out, layout, runs, lanes)
    } else if lanes <= 256 {
        send_batches::<O, Wide<4>>(alloc, circuit, out, layout, runs, lanes)
    } else {
        send_batches::<O, Wide<16>>(alloc, circuit, out, layout, runs, lanes)
    }
}

/// Writes the table of a circuit's coins in a layout, without a flush.
///
/// Faults: `WriteFault` if the output failed, and `OutOfMemory`, both after a prefix of the table.
pub fn write_coins<O: Output>(
    alloc: Global,
    circuit: &Circuit,
    out: &mut O,
    layout: FaultLayout,
) -> Result<(), Fault>
    requires checked { check_of (circuit_items circuit.now) ≡ None }
    ensures table { IsCoinTable (qubits_of (circuit_items circuit.now)) (circuit_items circuit.now) (table_of (qubits_of (circuit_items circuit.now)) (circuit_items circuit.now)) }
    ensures sends { SendsUnflushed (coins_text layout (circuit_items circuit.now) (table_of (qubits_of (circuit_items circuit.now)) (circuit_items circuit.now))) (O.seen out.old) (O.seen out.new) result }
{
    // No step names a qubit twice, so there is such a table.
    let _ = circuit.items();
    let runs = CoinRuns::of(alloc, circuit, circuit.qubits())?;
    send_wide(alloc, circuit, out, layout, &runs)
}

/// Writes the table of a circuit's coins in a layout, and flushes.
fn send_coins<O: Output>(
    alloc: Global,
    circuit: &Circuit,
    out: &mut O,
    layout: FaultLayout,
) -> Result<(), Fault>
    requires checked { check_of (circuit_items circuit.now) ≡ None }
    ensures table { IsCoinTable (qubits_of (circuit_items circuit.now)) (circuit_items circuit.now) (table_of (qubits_of (circuit_items circuit.now)) (circuit_items circuit.now)) }
    ensures sends { Sends (coins_text layout (circuit_items circuit.now) (table_of (qubits_of (circuit_items circuit.now)) (circuit_items circuit.now))) (O.seen out.old) (O.seen out.new) result }
{
    write_coins(alloc, circuit, out, layout)?;
    finish(out)
}

/// Reads a circuit, and writes for each coin that decides an outcome, in order, which bits of a run it flips: those in which a run
/// with this coin flipped differs from the run without, for all values of the other coins, on as many qubits as the circuit names.
///
/// With `FaultLayout::Lines` each has a line, such as `17 3/0 c12 M4 M9 D2 L0`: how many steps are in front of the one that takes
/// the coin, the path of its item, the number of the coin, and the records, detectors and observables that it flips. With
/// `FaultLayout::Shots` each has a shot, of all records, then all detectors, then all observables. The bits of any run are those
/// of the run with all coins 0, of which those that an odd number of its coins' lines or shots name are flipped.
///
/// Reading, the flush and the faults are those of `run_sample`.
pub fn run_coins<I: Input, O: Output>(
    alloc: Global,
    input: &mut I,
    out: &mut O,
    layout: FaultLayout,
) -> Result<(), Fault>
    ensures ends { EndsCoins layout (I.seen input.old) (I.seen input.new) (O.seen out.old) (O.seen out.new) result }
{
    let circuit = read_circuit(alloc, input)?;
    send_coins(alloc, &circuit, out, layout)
}
