//! The shots of a circuit, written one after another.
//!
//! All shots of a list of coins are the same run, which is made once; so is a shot of a seed that is alone. More shots of a seed are
//! run by batches of lanes, all propagated over one run by its pivots. If these take too much memory, each batch has a run made for it,
//! which is recorded in parts.
ghost use Rattle.std.specs.Prelude.{◌≡◌, ℕ, ◌+◌, ◌*◌, ◌<◌, ◌≤◌, None, IfSome};
ghost use Rattle.stab_items.specs.Items.{Items};
ghost use Rattle.stab_items.specs.Steps.{check_of, qubits_of};
ghost use Rattle.stab_items.specs.Views.{circuit_items};
ghost use Rattle.stab_run.specs.Runs.{State, run_of};
ghost use Rattle.stab_run.specs.Coins.{list_coin, seed_coin};
ghost use Rattle.stab_sampler.specs.References.{IsReference};
ghost use Rattle.stab_jobs.specs.Limits.{shots_of_seed};
ghost use Rattle.stab_report.specs.Texts.{texts_from as of_shots};
ghost use Rattle.stab_commands.specs.Sendings.{shots_of, shown_bytes};
ghost use Rattle.stab_report.specs.Endings.{SendsUnflushed};

use crate::bits::{Shown, write_shown};
use crate::lanes::send_lanes;
use crate::widths::shots_at_once;
use stab_circuit::Circuit;
use stab_io::{Fault, Output};
use stab_jobs::{Shots, Source};
use stab_recording::run_once;
use stab_results::{Format, Kinds};
use stab_run::{Coins, ListCoins, SeedCoins};
use stab_sampler::{Draw, Reference, SeedLanes, Shots as LaneShots, Wide, Word, run_lanes};
use std::alloc::Global;

/// Runs a circuit once, and writes what is shown of it this many times.
fn send_copies<O: Output, C: Coins>(
    alloc: Global,
    circuit: &Circuit,
    out: &mut O,
    format: Format,
    shown: Shown,
    coins: &mut C,
    copies: usize,
) -> Result<(), Fault>
    requires checked { check_of (circuit_items circuit.now) ≡ None }
    ensures sends { (first : ℕ) → SendsUnflushed (of_shots (λ shot. shown_bytes format shown (run_of (qubits_of (circuit_items circuit.now)) (C.sequence coins.old) (circuit_items circuit.now))) first copies) (O.seen out.old) (O.seen out.new) result }
{
    let shot = run_once(alloc, circuit, circuit.qubits(), coins)?;
    write_shown(out, format, shown, shot, copies)
}

/// Runs this many shots, at most as many as there are lanes, with the coins of the lanes, and writes what is shown of each. What
/// the shots give replaces what the lists had.
fn send_batch<O: Output, W: Word, C: Draw<W>>(
    alloc: Global,
    circuit: &Circuit,
    reference: Option<&Reference>,
    out: &mut O,
    format: Format,
    shown: Shown,
    coins: &mut C,
    lists: &mut LaneShots<W>,
    shots: usize,
) -> Result<(), Fault>
    requires checked { check_of (circuit_items circuit.now) ≡ None }
    requires reference { IfSome reference (λ r. IsReference (qubits_of (circuit_items circuit.now)) (circuit_items circuit.now) r.now) }
    requires few { shots ≤ W.lanes }
    ensures sends { (first : ℕ) (run : ℕ → State) → ((l : ℕ) → l < shots → run (first + l) ≡ run_of (qubits_of (circuit_items circuit.now)) (C.sequences coins.old l) (circuit_items circuit.now)) → SendsUnflushed (of_shots (λ shot. shown_bytes format shown (run shot)) first shots) (O.seen out.old) (O.seen out.new) result }
{
    run_lanes(alloc, circuit, circuit.qubits(), reference, coins, lists)?;
    let kinds = Kinds::Detectors(lists.detectors.len());
    match shown {
        Shown::Records => {
            let words = lists.records.as_slice();
            send_lanes(alloc, out, format, Kinds::Measurements, words, shots)
        }
        Shown::Detectors => {
            let words = lists.detectors.as_slice();
            send_lanes(alloc, out, format, kinds, words, shots)
        }
        Shown::DetectorsAndObservables => {
            lists
                .detectors
                .extend_from_slice(lists.observables.as_slice())?;
            let words = lists.detectors.as_slice();
            send_lanes(alloc, out, format, kinds, words, shots)
        }
    }
}

/// Runs this many shots of a seed from a first one on, by batches of this many lanes, and writes what is shown of each.
fn send_batches<O: Output, const N: usize>(
    alloc: Global,
    circuit: &Circuit,
    reference: Option<&Reference>,
    out: &mut O,
    format: Format,
    shown: Shown,
    seed: u64,
    first: u64,
    shots: usize,
    lanes: usize,
) -> Result<(), Fault>
    requires checked { check_of (circuit_items circuit.now) ≡ None }
    requires reference { IfSome reference (λ r. IsReference (qubits_of (circuit_items circuit.now)) (circuit_items circuit.now) r.now) }
    requires some { 0 < lanes }
    requires few { lanes ≤ 64 * N }
    requires narrow { N ≤ 16 }
    requires in_range { first + shots ≤ shots_of_seed }
    ensures sends { SendsUnflushed (of_shots (λ shot. shown_bytes format shown (run_of (qubits_of (circuit_items circuit.now)) (seed_coin seed shot) (circuit_items circuit.now))) first shots) (O.seen out.old) (O.seen out.new) result }
{
    let mut lists: LaneShots<Wide<N>> = LaneShots::with_room(alloc, circuit.records())?;
    let mut sent = 0;
    while sent < shots {
        let batch = (shots - sent).min(lanes);
        let mut coins = SeedLanes::<N>::of_seed(seed, first + sent as u64, batch);
        send_batch(
            alloc, circuit, reference, out, format, shown, &mut coins, &mut lists, batch,
        )?;
        sent += batch;
    }
    Ok(())
}

/// Runs this many shots of a seed from a first one on, by batches of this many lanes, at most 1,024, and writes what is shown of
/// each.
fn send_wide<O: Output>(
    alloc: Global,
    circuit: &Circuit,
    reference: Option<&Reference>,
    out: &mut O,
    format: Format,
    shown: Shown,
    seed: u64,
    first: u64,
    shots: usize,
    lanes: usize,
) -> Result<(), Fault>
    requires checked { check_of (circuit_items circuit.now) ≡ None }
    requires reference { IfSome reference (λ r. IsReference (qubits_of (circuit_items circuit.now)) (circuit_items circuit.now) r.now) }
    requires some { 0 < lanes }
    requires few { lanes ≤ 1024 }
    requires in_range { first + shots ≤ shots_of_seed }
    ensures sends { SendsUnflushed (of_shots (λ shot. shown_bytes format shown (run_of (qubits_of (circuit_items circuit.now)) (seed_coin seed shot) (circuit_items circuit.now))) first shots) (O.seen out.old) (O.seen out.new) result }
{
    if lanes <= 64 {
        send_batches::<O, 1>(
            alloc, circuit, reference, out, format, shown, seed, first, shots, lanes,
        )
    } else if lanes <= 256 {
        send_batches::<O, 4>(
            alloc, circuit, reference, out, format, shown, seed, first, shots, lanes,
        )
    } else if lanes <= 512 {
        send_batches::<O, 8>(
            alloc, circuit, reference, out, format, shown, seed, first, shots, lanes,
        )
    } else {
        send_batches::<O, 16>(
            alloc, circuit, reference, out, format, shown, seed, first, shots, lanes,
        )
    }
}

/// Runs this many shots of a seed from a first one on, in this many lanes at once, and writes what is shown of each. Shots that fill
/// no batch go in no more lanes than they need.
fn send_in_lanes<O: Output>(
    alloc: Global,
    circuit: &Circuit,
    out: &mut O,
    format: Format,
    shown: Shown,
    seed: u64,
    first: u64,
    shots: usize,
    lanes: usize,
) -> Result<(), Fault>
    requires checked { check_of (circuit_items circuit.now) ≡ None }
    requires some { 0 < shots }
    requires some_lanes { 0 < lanes }
    requires few { lanes ≤ 1024 }
    requires in_range { first + shots ≤ shots_of_seed }
    ensures sends { SendsUnflushed (of_shots (λ shot. shown_bytes format shown (run_of (qubits_of (circuit_items circuit.now)) (seed_coin seed shot) (circuit_items circuit.now))) first shots) (O.seen out.old) (O.seen out.new) result }
{
    let lanes = lanes.min(shots);
    let full = shots - shots % lanes;
    let found = Reference::of(alloc, circuit, circuit.qubits())?;
    let reference = found.as_ref();
    send_wide(
        alloc, circuit, reference, out, format, shown, seed, first, full, lanes,
    )?;
    if full == shots {
        return Ok(());
    }
    let next = first + full as u64;
    let rest = shots - full;
    send_wide(
        alloc, circuit, reference, out, format, shown, seed, next, rest, rest,
    )
}

/// Runs this many shots of a seed from a first one on, and writes what is shown of each: one by itself, more in lanes.
fn send_seeded<O: Output>(
    alloc: Global,
    circuit: &Circuit,
    out: &mut O,
    format: Format,
    shown: Shown,
    seed: u64,
    first: u64,
    shots: usize,
) -> Result<(), Fault>
    requires checked { check_of (circuit_items circuit.now) ≡ None }
    requires in_range { first + shots ≤ shots_of_seed }
    ensures sends { SendsUnflushed (of_shots (λ shot. shown_bytes format shown (run_of (qubits_of (circuit_items circuit.now)) (seed_coin seed shot) (circuit_items circuit.now))) first shots) (O.seen out.old) (O.seen out.new) result }
{
    if shots == 0 {
        return Ok(());
    }
    if shots == 1 {
        let mut coins = SeedCoins::new(seed, first);
        return send_copies(alloc, circuit, out, format, shown, &mut coins, 1);
    }
    let lanes = shots_at_once(circuit, shots);
    send_in_lanes(
        alloc, circuit, out, format, shown, seed, first, shots, lanes,
    )
}

/// Runs these shots of a circuit that nothing refuses, and writes what is shown of each, without a flush.
///
/// Shot s has the coins of its own stream under the seed, or the whole list of coins anew. Faults: `WriteFault`
/// if the output failed, and `OutOfMemory`, both after a prefix of what is to be written.
pub fn send_shots<O: Output>(
    alloc: Global,
    circuit: &Circuit,
    out: &mut O,
    format: Format,
    shown: Shown,
    source: &Source,
    shots: Shots,
) -> Result<(), Fault>
    requires checked { check_of (circuit_items circuit.now) ≡ None }
    ensures sends { SendsUnflushed (shots_of format shown shots source.now (circuit_items circuit.now)) (O.seen out.old) (O.seen out.new) result }
{
    let first = shots.first();
    let number = shots.number();
    match source {
        Source::Seed(seed) => {
            send_seeded(alloc, circuit, out, format, shown, *seed, first, number)
        }
        Source::List(list) => {
            let mut coins = ListCoins::new(list.as_slice());
            send_copies(alloc, circuit, out, format, shown, &mut coins, number)
        }
    }
}
