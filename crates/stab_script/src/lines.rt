//! The way of a string as lines.
ghost use Rattle.std.specs.Prelude.{◌≡◌, ◌++◌, None, map, IfOk};
ghost use Rattle.std.specs.List.{flat_map};
ghost use Rattle.stab_io.specs.Devices.{WritesAll};
ghost use Rattle.stab_items.specs.Steps.{check_of};
ghost use Rattle.stab_items.specs.Views.{circuit_items};
ghost use Rattle.stab_report.specs.CoinTables.{whole_kinds as kinds_of_all};
ghost use Rattle.stab_report.specs.ItemPaths.{path_at};
ghost use Rattle.stab_ways.specs.Ways.{turn_shown};
ghost use Rattle.stab_script.specs.WayTexts.{bits_flipped as flipped_of, factor_in_way, flips_line, left_line, placed_text, string_text, turn_line};

use itoa::Buffer;
use stab_circuit::{Circuit, Path};
use stab_frames::Propagation;
use stab_io::{Output, Refusal, write_all};
use stab_items::StepItems;
use stab_report::{write_texts, write_where};
use stab_results::{Kinds, write_ones};
use stab_run::observables;
use stab_ways::{PlacedLetter, Turn};
use std::alloc::{AllocError, Global};

/// Writes a letter on a qubit.
fn write_placed<O: Output>(out: &mut O, placed: PlacedLetter) -> Result<(), Refusal>
    ensures writes { WritesAll (O.seen out.old) (O.seen out.new) (placed_text placed) result }
{
    let mut digits = Buffer::new();
    let qubit = digits.format(placed.qubit).as_bytes();
    write_texts(out, &[&[placed.letter.symbol()], qubit])
}

/// Writes letters after others.
fn write_factors<O: Output>(out: &mut O, letters: &[PlacedLetter]) -> Result<(), Refusal>
    ensures writes { WritesAll (O.seen out.old) (O.seen out.new) (flat_map factor_in_way letters.now) result }
{
    for placed in letters {
        write_all(out, b"*")?;
        write_placed(out, *placed)?;
    }
    Ok(())
}

/// Writes a string as a product of its letters, or 1 if it has none.
fn write_string<O: Output>(out: &mut O, letters: &[PlacedLetter]) -> Result<(), Refusal>
    ensures writes { WritesAll (O.seen out.old) (O.seen out.new) (string_text letters.now) result }
{
    if letters.is_empty() {
        return write_all(out, b"1");
    }
    write_placed(out, letters[0])?;
    write_factors(out, &letters[1..])
}

/// The path of the item of a step.
pub(crate) fn path_of(circuit: &Circuit, step: usize) -> Path
    requires checked { check_of (circuit_items circuit.now) ≡ None }
    ensures value { result ≡ path_at (circuit_items circuit.now) step }
{
    if step < circuit.steps() {
        circuit.item_of_step(step).path
    } else {
        Path::new(&[0])
    }
}

/// The path of the item of a step, which is looked for from the last one on.
fn next_path(circuit: &Circuit, items: &mut StepItems, step: usize) -> Path
    requires checked { check_of (circuit_items circuit.now) ≡ None }
    requires of_circuit { items.old ≡ circuit.now }
    ensures items { items.new ≡ items.old }
    ensures value { result ≡ path_at (circuit_items circuit.now) step }
{
    if step < circuit.steps() {
        items.item_of_step(step).path
    } else {
        Path::new(&[0])
    }
}

/// Writes the line of an item after which a string is another one.
fn write_turn<O: Output>(
    out: &mut O,
    circuit: &Circuit,
    items: &mut StepItems,
    turn: &Turn,
) -> Result<(), Refusal>
    requires checked { check_of (circuit_items circuit.now) ≡ None }
    requires of_circuit { items.old ≡ circuit.now }
    ensures items { items.new ≡ items.old }
    ensures writes { WritesAll (O.seen out.old) (O.seen out.new) (turn_line (circuit_items circuit.now) (turn_shown turn.now)) result }
{
    let path = next_path(circuit, items, turn.after.saturating_sub(1));
    write_where(out, turn.after, &path)?;
    write_string(out, turn.string.as_slice())?;
    write_all(out, b"\n")
}

/// Writes the lines of the items after which a string is another one.
fn write_turns<O: Output>(out: &mut O, circuit: &Circuit, turns: &[Turn]) -> Result<(), Refusal>
    requires checked { check_of (circuit_items circuit.now) ≡ None }
    ensures writes { WritesAll (O.seen out.old) (O.seen out.new) (flat_map (turn_line (circuit_items circuit.now)) (map turn_shown turns.now)) result }
{
    let mut items = StepItems::new(circuit);
    'turns: for turn in turns {
        write_turn(out, circuit, &mut items, turn)?;
    }
    Ok(())
}

/// A bit for each record, detector and observable of a circuit: 1 if a frame has flipped it.
pub(crate) fn bits_flipped(
    alloc: Global,
    circuit: &Circuit,
    end: &Propagation,
) -> Result<Vec<bool>, AllocError>
    ensures value { IfOk result (λ v. v.items ≡ flipped_of (circuit_items circuit.now) end.now.flips) }
{
    let mut bits = Vec::from_slice(alloc, end.records())?;
    bits.extend_from_slice(end.detectors())?;
    let observables = observables(alloc, circuit.observables(), end.additions())?;
    bits.extend_from_slice(observables.as_slice())?;
    Ok(bits)
}

/// The kinds of all bits of a circuit's runs: its records, then its detectors, then its observables.
pub(crate) fn kinds_of_all(circuit: &Circuit) -> Kinds
    requires checked { check_of (circuit_items circuit.now) ≡ None }
    ensures value { result ≡ kinds_of_all (circuit_items circuit.now) }
{
    Kinds::Whole {
        records: circuit.records(),
        detectors: circuit.detectors(),
    }
}

/// Writes the line of the bits that are flipped.
fn write_flips<O: Output>(out: &mut O, kinds: Kinds, bits: &[bool]) -> Result<(), Refusal>
    ensures writes { WritesAll (O.seen out.old) (O.seen out.new) (flips_line kinds bits.now) result }
{
    write_all(out, b"flips")?;
    write_ones(out, kinds, bits)?;
    write_all(out, b"\n")
}

/// Writes the line of the string at the end.
pub(crate) fn write_left<O: Output>(out: &mut O, letters: &[PlacedLetter]) -> Result<(), Refusal>
    ensures writes { WritesAll (O.seen out.old) (O.seen out.new) (left_line letters.now) result }
{
    write_all(out, b"left ")?;
    write_string(out, letters)?;
    write_all(out, b"\n")
}

/// Writes the lines of a way: those of its turns, then the bits that are flipped, and the string at the end.
pub(crate) fn write_way<O: Output>(
    out: &mut O,
    circuit: &Circuit,
    turns: &[Turn],
    bits: &[bool],
    left: &[PlacedLetter],
) -> Result<(), Refusal>
    requires checked { check_of (circuit_items circuit.now) ≡ None }
    ensures writes { WritesAll (O.seen out.old) (O.seen out.new) (flat_map (turn_line (circuit_items circuit.now)) (map turn_shown turns.now) ++ (flips_line (kinds_of_all (circuit_items circuit.now)) bits.now ++ left_line left.now)) result }
{
    write_turns(out, circuit, turns)?;
    write_flips(out, kinds_of_all(circuit), bits)?;
    write_left(out, left)
}
