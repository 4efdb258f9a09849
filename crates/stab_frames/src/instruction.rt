//! Steps of one instruction, or detectors, on the way of a frame.

ghost use Rattle.std.specs.Prelude.{◌≡◌, ◌+◌, ◌^◌, ◌<◌, ◌≤◌, ◌∷◌, [], All, length, map, take, OnOk, IfOk};
ghost use Rattle.std.specs.List.{list_any};
ghost use Rattle.stab_items.specs.Steps.{one, controlled_step, measured, detector};
ghost use Rattle.stab_items.specs.StepValues.{lookbacks_of, steps_shown, HaveDistinctQubits};
ghost use Rattle.stab_run.specs.Points.{all_coins_of};
ghost use Rattle.stab_run.specs.ProgramStates.{StepFits};
ghost use Rattle.stab_frames.specs.Propagations.{IsPlaced};
ghost use Rattle.stab_frames.specs.inner.Draws.{AsksRandom};
ghost use Rattle.stab_frames.specs.inner.Propagates.{GoesOver, GoesWithoutCoins, IsMissing};
ghost use Rattle.stab_frames.specs.inner.Touches.{PairFits, touches_pair, touches_target};

use crate::draw::Draw;
use crate::propagate_step::{
    Known, propagate_collapse, propagate_controlled, propagate_detector, propagate_gate,
    propagate_pair, propagate_step,
};
use crate::propagation::Propagation;
use stab_instructions::{Axis, ControlledPair, MeasureTarget, Measurement, Qubit};
use stab_items::{Detectors, Steps, controlled_gate};
use stab_pauli::Letter;
use stab_run::Coins;
use stab_tableau::Gate;
use std::alloc::AllocError;

// A frame touches few of the steps on its way: this many steps are looked at at once.
const PART: usize = 32;

// Fewer pairs or measurements than this are passed faster one by one.
const FEW: usize = 4;

/// Propagates a frame over steps to a run with these coins, and says over how many it
/// did: it stops at a step whose string is missing. All steps are counted, also those after it.
pub fn propagate_instruction<D: Draw, C: Coins>(
    propagation: &mut Propagation,
    known: Known<D>,
    coins: &mut C,
    steps: Steps,
    by_frame: &mut u64,
) -> Result<usize, AllocError>
    requires same_length { known.strings.now.qubits ≡ length propagation.old.letters }
    requires fits { All (StepFits (length propagation.old.letters)) (steps_shown steps) }
    requires distinct { HaveDistinctQubits steps }
    requires placed { IsPlaced known.free.now propagation.old }
    requires few { D.ahead known.draw.now + (propagation.old.coin + length (steps_shown steps)) < 2 ^ 63 }
    requires few_propagated { by_frame.old + length (steps_shown steps) < 2 ^ 63 }
    ensures counted { by_frame.new ≡ by_frame.old + length (steps_shown steps.entry) }
    ensures length { length propagation.new.letters ≡ length propagation.old.letters }
    ensures same_coins { C.sequence coins.new ≡ C.sequence coins.old }
    ensures asks { AsksRandom known.entry.free.now propagation.old.coin (propagation.old.coin + all_coins_of (steps_shown steps.entry)) (C.asks coins.old) (C.asks coins.new) }
    ensures within { IfOk result (λ count. count ≤ length (steps_shown steps.entry)) }
    ensures goes { IfOk result (λ count. GoesOver (length propagation.old.letters) known.entry.strings.now.strings known.entry.free.now (D.changes known.entry.draw.now (C.sequence coins.old)) (take count (steps_shown steps.entry)) propagation.old propagation.new) }
    ensures missing { IfOk result (λ count. count < length (steps_shown steps.entry) → IsMissing known.entry.strings.now.strings known.entry.free.now (propagation.old.coin + all_coins_of (steps_shown steps.entry))) }
{
    match steps {
        Steps::Gates(gate, qubits) => {
            propagate_gates(propagation, gate, qubits, by_frame);
            Ok(qubits.len())
        }
        Steps::Pairs(axis, pairs) => {
            propagate_pairs(propagation, axis, pairs, by_frame);
            Ok(pairs.len())
        }
        Steps::Measurements(measurement, targets) => {
            propagate_measurements(propagation, known, coins, measurement, targets, by_frame)
        }
        Steps::Detectors(detectors) => {
            propagate_detectors(propagation, detectors, by_frame)?;
            Ok(detectors.len())
        }
        Steps::Single(step) => {
            let went = propagate_step(propagation, known, coins, step, by_frame)?;
            Ok(usize::from(went))
        }
    }
}

/// Propagates a frame over a gate on each of some qubits, and counts them.
fn propagate_gates(propagation: &mut Propagation, gate: Gate, qubits: &[Qubit], by_frame: &mut u64)
    requires fits { All (StepFits (length propagation.old.letters)) (map (one gate) qubits.now) }
    requires few { by_frame.old + length qubits.now < 2 ^ 63 }
    ensures counted { by_frame.new ≡ by_frame.old + length qubits.now }
    ensures length { length propagation.new.letters ≡ length propagation.old.letters }
    ensures goes { GoesWithoutCoins (length propagation.old.letters) (map (one gate) qubits.now) propagation.old propagation.new }
{
    *by_frame += qubits.len() as u64;
    for qubit in qubits {
        propagate_gate(propagation, gate, qubit.number());
    }
}

/// Propagates a frame over a pair of a controlled gate.
fn propagate_controlled_pair(propagation: &mut Propagation, axis: Axis, pair: ControlledPair)
    requires fits { StepFits (length propagation.old.letters) (controlled_step axis pair) }
    ensures length { length propagation.new.letters ≡ length propagation.old.letters }
    ensures goes { GoesWithoutCoins (length propagation.old.letters) (controlled_step axis pair ∷ []) propagation.old propagation.new }
{
    match pair {
        ControlledPair::Qubits(pair) => {
            let first = pair.first().number();
            propagate_pair(
                propagation,
                controlled_gate(axis),
                first,
                pair.second().number(),
            );
        }
        ControlledPair::Record(qubit, lookback) => {
            propagate_controlled(
                propagation,
                axis.letter(),
                lookback.number(),
                qubit.number(),
            );
        }
    }
}

/// Whether the frame has a letter other than I at a qubit of the pair, or a record controls it.
fn touches(letters: &[Letter], pair: ControlledPair) -> bool
    requires fits { PairFits (length letters.now) pair }
    ensures value { result ≡ touches_pair letters.now pair }
{
    match pair {
        ControlledPair::Qubits(pair) => {
            let first = letters[pair.first().number()];
            let second = letters[pair.second().number()];
            (first != Letter::I) | (second != Letter::I)
        }
        ControlledPair::Record(_, _) => true,
    }
}

// Looks at all pairs, also after one that is touched, so that it has no branch on the letters.
fn touches_some(letters: &[Letter], pairs: &[ControlledPair]) -> bool
    requires fits { All (PairFits (length letters.now)) pairs.now }
    ensures value { result ≡ list_any (touches_pair letters.now) pairs.now }
{
    let mut found = false;
    for pair in pairs {
        found |= touches(letters, *pair);
    }
    found
}

/// Propagates a frame over pairs of a controlled gate, one after another.
fn propagate_each_pair(propagation: &mut Propagation, axis: Axis, pairs: &[ControlledPair])
    requires fits { All (StepFits (length propagation.old.letters)) (map (controlled_step axis) pairs.now) }
    ensures length { length propagation.new.letters ≡ length propagation.old.letters }
    ensures goes { GoesWithoutCoins (length propagation.old.letters) (map (controlled_step axis) pairs.now) propagation.old propagation.new }
{
    for pair in pairs {
        propagate_controlled_pair(propagation, axis, *pair);
    }
}

/// Propagates a frame over pairs of a controlled gate, past all of them if it touches none.
fn propagate_few_pairs(propagation: &mut Propagation, axis: Axis, pairs: &[ControlledPair])
    requires fits { All (StepFits (length propagation.old.letters)) (map (controlled_step axis) pairs.now) }
    ensures length { length propagation.new.letters ≡ length propagation.old.letters }
    ensures goes { GoesWithoutCoins (length propagation.old.letters) (map (controlled_step axis) pairs.now) propagation.old propagation.new }
{
    if !touches_some(propagation.letters(), pairs) {
        return;
    }
    propagate_each_pair(propagation, axis, pairs);
}

/// Propagates a frame over pairs of a controlled gate, and counts them.
fn propagate_pairs(
    propagation: &mut Propagation,
    axis: Axis,
    pairs: &[ControlledPair],
    by_frame: &mut u64,
)
    requires fits { All (StepFits (length propagation.old.letters)) (map (controlled_step axis) pairs.now) }
    requires few { by_frame.old + length pairs.now < 2 ^ 63 }
    ensures counted { by_frame.new ≡ by_frame.old + length pairs.now }
    ensures length { length propagation.new.letters ≡ length propagation.old.letters }
    ensures goes { GoesWithoutCoins (length propagation.old.letters) (map (controlled_step axis) pairs.now) propagation.old propagation.new }
{
    *by_frame += pairs.len() as u64;
    if pairs.len() < FEW {
        propagate_each_pair(propagation, axis, pairs);
        return;
    }
    let mut done = 0;
    while done < pairs.len() {
        let count = PART.min(pairs.len() - done);
        propagate_few_pairs(propagation, axis, pairs.split_at(done).1.split_at(count).0);
        done += count;
    }
}

/// Looks at all targets, also after one at which the frame anticommutes with the letter.
fn anticommutes_some(letters: &[Letter], letter: Letter, targets: &[MeasureTarget]) -> bool
    requires fits { All (λ t. t.qubit < length letters.now) targets.now }
    ensures value { result ≡ list_any (touches_target letters.now letter) targets.now }
{
    let mut found = false;
    for target in targets {
        found |= letters[target.qubit.number()].anticommutes(letter);
    }
    found
}

/// Propagates a frame over measurements of targets, one after another, and says over how many it did.
fn propagate_each_measurement<D: Draw, C: Coins>(
    propagation: &mut Propagation,
    known: Known<D>,
    coins: &mut C,
    measurement: Measurement,
    targets: &[MeasureTarget],
) -> Result<usize, AllocError>
    requires same_length { known.strings.now.qubits ≡ length propagation.old.letters }
    requires fits { All (StepFits (length propagation.old.letters)) (map (measured measurement) targets.now) }
    requires placed { IsPlaced known.free.now propagation.old }
    requires few { D.ahead known.draw.now + (propagation.old.coin + length targets.now) < 2 ^ 63 }
    ensures length { length propagation.new.letters ≡ length propagation.old.letters }
    ensures same_coins { C.sequence coins.new ≡ C.sequence coins.old }
    ensures asks { AsksRandom known.entry.free.now propagation.old.coin (propagation.old.coin + length targets.now) (C.asks coins.old) (C.asks coins.new) }
    ensures within { IfOk result (λ count. count ≤ length targets.now) }
    ensures goes { IfOk result (λ count. GoesOver (length propagation.old.letters) known.entry.strings.now.strings known.entry.free.now (D.changes known.entry.draw.now (C.sequence coins.old)) (take count (map (measured measurement) targets.now)) propagation.old propagation.new) }
    ensures missing { IfOk result (λ count. count < length targets.now → IsMissing known.entry.strings.now.strings known.entry.free.now (propagation.old.coin + length targets.now)) }
{
    let letter = measurement.axis.letter();
    let resets = measurement.resets;
    let mut count = 0;
    for target in targets {
        let qubit = target.qubit.number();
        if !propagate_collapse(propagation, known, coins, letter, qubit, true, resets)? {
            return Ok(count);
        }
        count += 1;
    }
    Ok(count)
}

/// Propagates a frame over measurements of targets, past all of them if it commutes with each and no coin differs.
fn propagate_few_measurements<D: Draw, C: Coins>(
    propagation: &mut Propagation,
    known: Known<D>,
    coins: &mut C,
    measurement: Measurement,
    targets: &[MeasureTarget],
) -> Result<usize, AllocError>
    requires same_length { known.strings.now.qubits ≡ length propagation.old.letters }
    requires fits { All (StepFits (length propagation.old.letters)) (map (measured measurement) targets.now) }
    requires placed { IsPlaced known.free.now propagation.old }
    requires few { D.ahead known.draw.now + (propagation.old.coin + length targets.now) < 2 ^ 63 }
    ensures length { length propagation.new.letters ≡ length propagation.old.letters }
    ensures same_coins { C.sequence coins.new ≡ C.sequence coins.old }
    ensures asks { AsksRandom known.entry.free.now propagation.old.coin (propagation.old.coin + length targets.now) (C.asks coins.old) (C.asks coins.new) }
    ensures within { IfOk result (λ count. count ≤ length targets.now) }
    ensures goes { IfOk result (λ count. GoesOver (length propagation.old.letters) known.entry.strings.now.strings known.entry.free.now (D.changes known.entry.draw.now (C.sequence coins.old)) (take count (map (measured measurement) targets.now)) propagation.old propagation.new) }
    ensures missing { IfOk result (λ count. count < length targets.now → IsMissing known.entry.strings.now.strings known.entry.free.now (propagation.old.coin + length targets.now)) }
{
    let letter = measurement.axis.letter();
    if !known.draw.is_still() || anticommutes_some(propagation.letters(), letter, targets) {
        return propagate_each_measurement(propagation, known, coins, measurement, targets);
    }
    propagation.skip_still(known.free, targets.len())?;
    Ok(targets.len())
}

/// Propagates a frame over a measurement of each of some targets, and says over how many it did. All are counted.
fn propagate_measurements<D: Draw, C: Coins>(
    propagation: &mut Propagation,
    known: Known<D>,
    coins: &mut C,
    measurement: Measurement,
    targets: &[MeasureTarget],
    by_frame: &mut u64,
) -> Result<usize, AllocError>
    requires same_length { known.strings.now.qubits ≡ length propagation.old.letters }
    requires fits { All (StepFits (length propagation.old.letters)) (map (measured measurement) targets.now) }
    requires placed { IsPlaced known.free.now propagation.old }
    requires few { D.ahead known.draw.now + (propagation.old.coin + length targets.now) < 2 ^ 63 }
    requires few_propagated { by_frame.old + length targets.now < 2 ^ 63 }
    ensures counted { by_frame.new ≡ by_frame.old + length targets.now }
    ensures length { length propagation.new.letters ≡ length propagation.old.letters }
    ensures same_coins { C.sequence coins.new ≡ C.sequence coins.old }
    ensures asks { AsksRandom known.entry.free.now propagation.old.coin (propagation.old.coin + length targets.now) (C.asks coins.old) (C.asks coins.new) }
    ensures within { IfOk result (λ count. count ≤ length targets.now) }
    ensures goes { IfOk result (λ count. GoesOver (length propagation.old.letters) known.entry.strings.now.strings known.entry.free.now (D.changes known.entry.draw.now (C.sequence coins.old)) (take count (map (measured measurement) targets.now)) propagation.old propagation.new) }
    ensures missing { IfOk result (λ count. count < length targets.now → IsMissing known.entry.strings.now.strings known.entry.free.now (propagation.old.coin + length targets.now)) }
{
    *by_frame += targets.len() as u64;
    if targets.len() < FEW {
        return propagate_each_measurement(propagation, known, coins, measurement, targets);
    }
    let mut done = 0;
    while done < targets.len() {
        let count = PART.min(targets.len() - done);
        let part = targets.split_at(done).1.split_at(count).0;
        let went = propagate_few_measurements(propagation, known, coins, measurement, part)?;
        done += went;
        if went < count {
            return Ok(done);
        }
    }
    Ok(done)
}

/// Propagates a frame over detectors, and counts them.
fn propagate_detectors(
    propagation: &mut Propagation,
    detectors: Detectors,
    by_frame: &mut u64,
) -> Result<(), AllocError>
    requires few { by_frame.old + length (lookbacks_of detectors) < 2 ^ 63 }
    ensures counted { by_frame.new ≡ by_frame.old + length (lookbacks_of detectors.entry) }
    ensures length { length propagation.new.letters ≡ length propagation.old.letters }
    ensures goes { OnOk result (GoesWithoutCoins (length propagation.old.letters) (map detector (lookbacks_of detectors.entry)) propagation.old propagation.new) }
{
    *by_frame += detectors.len() as u64;
    for position in 0..detectors.len() {
        propagate_detector(propagation, detectors.get(position))?;
    }
    Ok(())
}
