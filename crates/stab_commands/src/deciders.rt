//! The coins that decide each detector and observable, by their positions among those that decide any outcome.
ghost use Rattle.std.specs.Prelude.{◌≡◌, ℕ, ◌+◌, ◌-◌, ◌<◌, ◌≤◌, ◌++◌, None, length, IfOk, IfErr, OnOk};
ghost use Rattle.stab_io.specs.Refusals.{whole};
ghost use Rattle.stab_io.specs.declared.refusal.Refusal.TheVariants.{OutOfMemory};
ghost use Rattle.stab_items.specs.Steps.{check_of, qubits_of};
ghost use Rattle.stab_items.specs.Views.{circuit_items};
ghost use Rattle.stab_regions.specs.SingleErrors.{bits_in, numbers_where};
ghost use Rattle.stab_sampler.specs.Words.{word_bit};
ghost use Rattle.stab_commands.specs.CoinRuns.{AreCoinRuns};
ghost use Rattle.stab_search.specs.inner.Indexes.{rows_listed};
ghost use Rattle.stab_commands.specs.inner.CoinRows.{decides};
ghost use Rattle.stab_commands.specs.inner.Deciders.{ones_at, ones_of};

use crate::coin_runs::CoinRuns;
use stab_circuit::Circuit;
use stab_io::Fault;
use stab_sampler::{Shots, UnitWord, Wide, Word};
use std::alloc::{AllocError, Global};

/// Puts after others `first` plus the number of each lane in which a word is 1, as far as it is below `end`.
fn push_ones(
    positions: &mut Vec<usize>,
    word: u64,
    first: usize,
    end: usize,
) -> Result<(), AllocError>
    requires some { first ≤ end }
    requires in_range { end ≤ first + 64 }
    ensures value { OnOk result (positions.new.items ≡ positions.old.items ++ ones_of word_bit word first end) }
{
    if word == 0 {
        return Ok(());
    }
    for position in first..end {
        if word.bit(position - first) {
            positions.push(position)?;
        }
    }
    Ok(())
}

/// Puts such numbers after others, of a word of any number of lanes.
fn push_parts<W: Word>(
    positions: &mut Vec<usize>,
    word: W,
    first: usize,
    end: usize,
) -> Result<(), AllocError>
    requires some { first ≤ end }
    requires in_range { end ≤ first + W.lanes }
    ensures value { OnOk result (positions.new.items ≡ positions.old.items ++ ones_of W.at word first end) }
{
    let mut pushed = 0;
    while pushed < end - first {
        let some = (end - first - pushed).min(64);
        let begin = first + pushed;
        push_ones(positions, word.part(pushed / 64), begin, begin + some)?;
        pushed += some;
    }
    Ok(())
}

/// Puts such numbers of each word after those of a list of its own.
fn push_all<W: Word>(
    lists: &mut Vec<Vec<usize>>,
    words: &[W],
    first: usize,
    end: usize,
) -> Result<(), AllocError>
    requires some { first ≤ end }
    requires in_range { end ≤ first + W.lanes }
    requires as_many { length lists.old.items ≡ length words.now }
    ensures size { OnOk result (length lists.new.items ≡ length words.now) }
    ensures value { OnOk result ((i : ℕ) → i < length words.now → rows_listed lists.new.items i ≡ rows_listed lists.old.items i ++ ones_at W.at words.now i first end) }
{
    for bit in 0..words.len() {
        push_parts(&mut lists[bit], words[bit], first, end)?;
    }
    Ok(())
}

/// Puts this many empty lists after others.
fn add_lists(alloc: Global, lists: &mut Vec<Vec<usize>>, count: usize) -> Result<(), AllocError>
    ensures size { OnOk result (length lists.new.items ≡ length lists.old.items + count) }
    ensures value { OnOk result ((i : ℕ) → rows_listed lists.new.items i ≡ rows_listed lists.old.items i) }
{
    for number in 0..count {
        lists.push(Vec::new(alloc))?;
    }
    Ok(())
}

/// Lists the coins at the positions from `first` on, at most as many as there are lanes, at each bit that they flip.
fn list_batch<W: UnitWord>(
    alloc: Global,
    circuit: &Circuit,
    runs: &CoinRuns,
    lanes: &mut Shots<W>,
    lists: &mut Vec<Vec<usize>>,
    first: usize,
    end: usize,
) -> Result<(), Fault>
    requires checked { check_of (circuit_items circuit.now) ≡ None }
    requires runs { AreCoinRuns (qubits_of (circuit_items circuit.now)) (circuit_items circuit.now) runs.now }
    requires some { first < end }
    requires few { end ≤ first + W.lanes }
    requires in_range { end ≤ length runs.now.numbers.items }
    requires as_many { length lists.old.items ≡ bits_in (circuit_items circuit.now) }
    ensures size { OnOk result (length lists.new.items ≡ bits_in (circuit_items circuit.now)) }
    ensures value { OnOk result ((i : ℕ) → i < bits_in (circuit_items circuit.now) → rows_listed lists.new.items i ≡ rows_listed lists.old.items i ++ numbers_where (decides (circuit_items circuit.now) i) first (end - first)) }
    ensures err { IfErr result (λ f. f ≡ whole OutOfMemory) }
{
    runs.flips(alloc, circuit, circuit.qubits(), first, lanes)?;
    lanes
        .detectors
        .extend_from_slice(lanes.observables.as_slice())?;
    push_all(lists, lanes.detectors.as_slice(), first, end)?;
    Ok(())
}

/// For each bit the positions of the coins that flip it, by batches of this many lanes.
fn list_batches<W: UnitWord>(
    alloc: Global,
    circuit: &Circuit,
    runs: &CoinRuns,
    lanes: usize,
) -> Result<Vec<Vec<usize>>, Fault>
    requires checked { check_of (circuit_items circuit.now) ≡ None }
    requires runs { AreCoinRuns (qubits_of (circuit_items circuit.now)) (circuit_items circuit.now) runs.now }
    requires some { 0 < lanes }
    requires few { lanes ≤ W.lanes }
    ensures size { IfOk result (λ v. length v.items ≡ bits_in (circuit_items circuit.now)) }
    ensures value { IfOk result (λ v. (i : ℕ) → i < bits_in (circuit_items circuit.now) → rows_listed v.items i ≡ numbers_where (decides (circuit_items circuit.now) i) 0 (length runs.now.numbers.items)) }
    ensures err { IfErr result (λ f. f ≡ whole OutOfMemory) }
{
    let coins = runs.numbers().len();
    let mut lists = Vec::new(alloc);
    add_lists(alloc, &mut lists, circuit.detectors())?;
    add_lists(alloc, &mut lists, circuit.observables())?;
    let mut flips: Shots<W> = Shots::with_room(alloc, circuit.records())?;
    let mut first = 0;
    while first < coins {
        let end = first + (coins - first).min(lanes);
        list_batch(alloc, circuit, runs, &mut flips, &mut lists, first, end)?;
        first = end;
    }
    Ok(lists)
}

/// For each detector and then each observable the positions of the coins that flip it, ascending.
pub(crate) fn deciders(
    alloc: Global,
    circuit: &Circuit,
    runs: &CoinRuns,
) -> Result<Vec<Vec<usize>>, Fault>
    requires checked { check_of (circuit_items circuit.now) ≡ None }
    requires runs { AreCoinRuns (qubits_of (circuit_items circuit.now)) (circuit_items circuit.now) runs.now }
    ensures size { IfOk result (λ v. length v.items ≡ bits_in (circuit_items circuit.now)) }
    ensures value { IfOk result (λ v. (i : ℕ) → i < bits_in (circuit_items circuit.now) → rows_listed v.items i ≡ numbers_where (decides (circuit_items circuit.now) i) 0 (length runs.now.numbers.items)) }
    ensures err { IfErr result (λ f. f ≡ whole OutOfMemory) }
{
    let lanes = runs.lanes();
    if lanes <= 64 {
        list_batches::<u64>(alloc, circuit, runs, lanes)
    } else if lanes <= 256 {
        list_batches::<Wide<4>>(alloc, circuit, runs, lanes)
    } else {
        list_batches::<Wide<16>>(alloc, circuit, runs, lanes)
    }
}
