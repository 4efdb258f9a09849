//! The rows of a table of coins: where each coin decides, and what it flips.
ghost use Rattle.std.specs.Prelude.{◌≡◌, ℕ, ◌+◌, ◌*◌, ◌<◌, ◌≤◌, ◌++◌, ◌∷◌, [], List, Bool, All, None, codes, false, length, replicate, if◌then◌else◌, IfErr, OnOk};
ghost use Rattle.std.specs.List.{flat_map};
ghost use Rattle.stab_io.specs.Devices.{WritesAll, WritesAllOrFault};
ghost use Rattle.stab_io.specs.declared.refusal.Refusal.TheVariants.{OutOfMemory};
ghost use Rattle.stab_io.specs.Refusals.{whole};
ghost use Rattle.stab_items.specs.Steps.{check_of, qubits_of, unroll};
ghost use Rattle.stab_items.specs.Views.{circuit_items};
ghost use Rattle.stab_results.specs.Formats.{detector_bits_of, entry, one_positions};
ghost use Rattle.stab_sampler.specs.Lanes.{lane_bits};
ghost use Rattle.stab_sampler.specs.Words.{word_bit};
ghost use Rattle.stab_report.specs.ItemPaths.{step_of_coin, path_of_coin};
ghost use Rattle.stab_commands.specs.CoinRuns.{AreCoinRuns};
ghost use Rattle.stab_report.specs.CoinTables.{coin_line, coin_entry, whole_kinds};
ghost use Rattle.stab_report.specs.Endings.{SendsUnflushed};
ghost use Rattle.stab_report.specs.Texts.{row_head, texts_from};
ghost use Rattle.stab_commands.specs.inner.CoinRows.{HaveFlips, coin_at, positions_in, text_at};

use crate::coin_runs::CoinRuns;
use stab_circuit::{Circuit, Path};
use stab_io::{Fault, Output, Refusal, write_all};
use stab_jobs::FaultLayout;
use stab_report::{Decider, write_head, write_row};
use stab_results::{Kinds, write_entries};
use stab_sampler::Word;
use std::alloc::{AllocError, Global};

/// The kinds of all bits of a circuit's runs: its records, then its detectors, then its observables.
fn whole_kinds(circuit: &Circuit) -> Kinds
    requires checked { check_of (circuit_items circuit.now) ≡ None }
    ensures value { result ≡ whole_kinds (circuit_items circuit.now) }
{
    Kinds::Whole {
        records: circuit.records(),
        detectors: circuit.detectors(),
    }
}

/// A coin that decides, and where it does.
#[derive(Clone, Copy)]
pub(crate) struct NumberedCoin {
    /// Its number.
    pub coin: usize,
    /// How many steps are in front of the one that takes it.
    pub step: usize,
    /// The path of the item of that step.
    pub path: Path,
}

impl NumberedCoin {
    ghost use Rattle.std.specs.Prelude.{◌≡◌};

    /// The coin, with the path of the item that takes it.
    pub fn decider(&self) -> Decider
        ensures coin { result.coin ≡ self.now.coin }
        ensures path { result.path ≡ self.now.path }
    {
        Decider {
            coin: self.coin,
            path: self.path,
        }
    }
}

/// The coin at a position among those that decide.
pub(crate) fn placed_coin(circuit: &Circuit, runs: &CoinRuns, position: usize) -> NumberedCoin
    requires checked { check_of (circuit_items circuit.now) ≡ None }
    requires runs { AreCoinRuns (qubits_of (circuit_items circuit.now)) (circuit_items circuit.now) runs.now }
    requires in_range { position < length runs.now.numbers.items }
    ensures coin { result.coin ≡ coin_at (circuit_items circuit.now) position }
    ensures step { result.step ≡ step_of_coin (unroll (circuit_items circuit.now)) (coin_at (circuit_items circuit.now) position) }
    ensures path { result.path ≡ path_of_coin (circuit_items circuit.now) (coin_at (circuit_items circuit.now) position) }
{
    let coin = runs.numbers()[position] as usize;
    let step = runs.steps()[position];
    let path = circuit.item_of_step(step).path;
    NumberedCoin { coin, step, path }
}

/// A word of 64 lanes, and its position among others.
#[derive(Clone, Copy)]
struct NumberedWord {
    position: u32,
    word: u64,
}

/// The greatest position that a `u32` numbers.
const LAST_POSITION: usize = 4_294_967_295;

/// Puts a word and its position after others, if it is not 0.
///
/// Fault `OutOfMemory`, also if the position fits no `u32`: no circuit has as many bits.
fn push_word(found: &mut Vec<NumberedWord>, position: usize, word: u64) -> Result<(), Fault>
    ensures value { OnOk result ((l : ℕ) → positions_in l found.new.items ≡ positions_in l found.old.items ++ (if word_bit word l then position ∷ [] else [])) }
    ensures err { IfErr result (λ f. f ≡ whole OutOfMemory) }
{
    if word == 0 {
        return Ok(());
    }
    if position > LAST_POSITION {
        return Err(Fault::whole(Refusal::OutOfMemory));
    }
    let position = position as u32;
    found.push(NumberedWord { position, word })?;
    Ok(())
}

/// Replaces what a list has by the words that are not 0, of the 64 lanes from 64 * `part` on.
fn find_words<W: Word>(words: &[W], part: usize, found: &mut Vec<NumberedWord>) -> Result<(), Fault>
    requires in_range { 64 * part + 64 ≤ W.lanes }
    ensures ones { OnOk result ((l : ℕ) → l < 64 → positions_in l found.new.items ≡ one_positions (lane_bits W.at (64 * part + l) words.now)) }
    ensures err { IfErr result (λ f. f ≡ whole OutOfMemory) }
{
    found.clear();
    for position in 0..words.len() {
        push_word(found, position, words[position].part(part))?;
    }
    Ok(())
}

/// Replaces what a list has by the positions of the words that are 1 in a lane.
fn write_positions(
    found: &[NumberedWord],
    lane: usize,
    positions: &mut Vec<u32>,
) -> Result<(), AllocError>
    requires in_range { lane < 64 }
    ensures value { OnOk result (positions.new.items ≡ positions_in lane found.now) }
{
    positions.clear();
    for word in found {
        if word.word.bit(lane) {
            positions.push(word.position)?;
        }
    }
    Ok(())
}

/// Writes a coin's line, by the positions of the bits that it flips.
fn write_line<O: Output>(
    out: &mut O,
    kinds: Kinds,
    coin: &NumberedCoin,
    positions: &[u32],
) -> Result<(), Refusal>
    ensures writes { WritesAll (O.seen out.old) (O.seen out.new) (row_head coin.now.step coin.now.path (codes "c") coin.now.coin ++ (flat_map (entry kinds) positions.now ++ codes "\n")) result }
{
    write_head(out, coin.step, &coin.path, b"c", coin.coin)?;
    write_entries(out, kinds, positions)?;
    write_all(out, b"\n")
}

/// Writes the line of the coin at a position, by the positions of the bits that it flips.
fn write_coin_line<O: Output>(
    out: &mut O,
    circuit: &Circuit,
    runs: &CoinRuns,
    position: usize,
    positions: &[u32],
) -> Result<(), Fault>
    requires checked { check_of (circuit_items circuit.now) ≡ None }
    requires runs { AreCoinRuns (qubits_of (circuit_items circuit.now)) (circuit_items circuit.now) runs.now }
    requires in_range { position < length runs.now.numbers.items }
    ensures writes { (flips : List Bool) → one_positions flips ≡ positions.now → WritesAllOrFault (O.seen out.old) (O.seen out.new) (coin_line (circuit_items circuit.now) (coin_at (circuit_items circuit.now) position) flips) result }
{
    let coin = placed_coin(circuit, runs, position);
    let kinds = whole_kinds(circuit);
    match write_line(out, kinds, &coin, positions) {
        Ok(()) => Ok(()),
        Err(refusal) => Err(Fault::whole(refusal)),
    }
}

/// Writes what is written of the coin at a position, by the positions of the bits that it flips, and by as many bits that are 0.
fn write_coin<O: Output>(
    out: &mut O,
    circuit: &Circuit,
    layout: FaultLayout,
    runs: &CoinRuns,
    position: usize,
    positions: &[u32],
    bits: &mut [bool],
) -> Result<(), Fault>
    requires checked { check_of (circuit_items circuit.now) ≡ None }
    requires runs { AreCoinRuns (qubits_of (circuit_items circuit.now)) (circuit_items circuit.now) runs.now }
    requires in_range { position < length runs.now.numbers.items }
    requires below { All (λ k. k < length bits.old) positions.now }
    requires zero { bits.old ≡ replicate (length bits.old) false }
    requires within { detector_bits_of (whole_kinds (circuit_items circuit.now)) ≤ length bits.old }
    ensures writes { (flips : List Bool) → length flips ≡ length bits.old → one_positions flips ≡ positions.now → WritesAllOrFault (O.seen out.old) (O.seen out.new) (coin_entry layout (circuit_items circuit.now) (coin_at (circuit_items circuit.now) position) flips) result }
    ensures same { OnOk result (bits.new ≡ bits.old) }
{
    match layout {
        FaultLayout::Lines => write_coin_line(out, circuit, runs, position, positions),
        FaultLayout::Shots(format) => write_row(out, format, whole_kinds(circuit), bits, positions),
    }
}

/// Writes what is written of the coins of this many of the 64 lanes from 64 * `part` on, which are those from a position on.
fn write_lanes<O: Output, W: Word>(
    alloc: Global,
    out: &mut O,
    circuit: &Circuit,
    layout: FaultLayout,
    runs: &CoinRuns,
    first: usize,
    words: &[W],
    part: usize,
    lanes: usize,
    bits: &mut [bool],
) -> Result<(), Fault>
    requires runs { AreCoinRuns (qubits_of (circuit_items circuit.now)) (circuit_items circuit.now) runs.now }
    requires part { 64 * part + 64 ≤ W.lanes }
    requires in_range { lanes ≤ 64 }
    requires some { first + lanes ≤ length runs.now.numbers.items }
    requires zero { bits.old ≡ replicate (length words.now) false }
    requires within { detector_bits_of (whole_kinds (circuit_items circuit.now)) ≤ length words.now }
    ensures sends { HaveFlips (λ w k. W.at w (64 * part + k)) (circuit_items circuit.now) first lanes words.now → SendsUnflushed (texts_from (text_at layout (circuit_items circuit.now)) first lanes) (O.seen out.old) (O.seen out.new) result }
    ensures same { OnOk result (bits.new ≡ bits.old) }
{
    let mut found = Vec::new(alloc);
    let mut positions = Vec::new(alloc);
    find_words(words, part, &mut found)?;
    for lane in 0..lanes {
        write_positions(found.as_slice(), lane, &mut positions)?;
        let at = first + lane;
        write_coin(out, circuit, layout, runs, at, positions.as_slice(), bits)?;
    }
    Ok(())
}

/// Writes what is written of the coins of this many lanes, which are those from a position on, 64 lanes at a time.
pub(crate) fn write_parts<O: Output, W: Word>(
    alloc: Global,
    out: &mut O,
    circuit: &Circuit,
    layout: FaultLayout,
    runs: &CoinRuns,
    first: usize,
    words: &[W],
    lanes: usize,
) -> Result<(), Fault>
    requires runs { AreCoinRuns (qubits_of (circuit_items circuit.now)) (circuit_items circuit.now) runs.now }
    requires in_range { lanes ≤ W.lanes }
    requires some { first + lanes ≤ length runs.now.numbers.items }
    requires within { detector_bits_of (whole_kinds (circuit_items circuit.now)) ≤ length words.now }
    ensures sends { HaveFlips W.at (circuit_items circuit.now) first lanes words.now → SendsUnflushed (texts_from (text_at layout (circuit_items circuit.now)) first lanes) (O.seen out.old) (O.seen out.new) result }
{
    let mut bits = vec![in alloc; false; words.len()]?;
    let mut sent = 0;
    while sent < lanes {
        let some = (lanes - sent).min(64);
        let begin = first + sent;
        let zeros = bits.as_mut_slice();
        let part = sent / 64;
        write_lanes(
            alloc, out, circuit, layout, runs, begin, words, part, some, zeros,
        )?;
        sent += some;
    }
    Ok(())
}
