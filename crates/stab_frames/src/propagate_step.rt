//! One step on the way of a frame.

ghost use Rattle.std.specs.Prelude.{◌≡◌, ◌+◌, ◌^◌, ◌<◌, Bool, false, ◌&&◌, [], ◌∷◌, All, length, IfSome, IfNone, IfOk, OnOk};
ghost use Rattle.stab_pauli.specs.Paulis.{single};
ghost use Rattle.stab_tableau.specs.Gates.{image as image_of, image_pair};
ghost use Rattle.stab_run.specs.Records.{looked_up as looked_up_of, parity as parity_of};
ghost use Rattle.stab_run.specs.Runs.{flip_of};
ghost use Rattle.stab_run.specs.Points.{nothing, joined, coins_of};
ghost use Rattle.stab_frames.specs.Frames.{plus, times_where};
ghost use Rattle.stab_frames.specs.FrameSteps.{one_flipped};
ghost use Rattle.stab_instructions.specs.Products.{names_twice};
ghost use Rattle.stab_items.specs.Steps.{Step, collapse, product, HasDistinctQubits};
ghost use Rattle.stab_items.specs.StepValues.{step_shown};
ghost use Rattle.stab_run.specs.ProgramStates.{StepFits};
ghost use Rattle.stab_frames.specs.Propagations.{IsPlaced};
ghost use Rattle.stab_frames.specs.inner.Draws.{AsksRandom};
ghost use Rattle.stab_frames.specs.inner.Propagates.{factors_anticommute, IsPropagated, IsMissing, Goes};

use crate::bits::bit_at;
use crate::draw::Draw;
use crate::letters::{first_image, image, second_image};
use crate::pivots::Pivots;
use crate::propagation::Propagation;
use stab_instructions::Factor;
use stab_items::Step;
use stab_pauli::Letter;
use stab_run::{Addition, Coins, flip, looked_up, parity};
use stab_tableau::{Gate, PairGate};
use std::alloc::AllocError;

/// What is known of the run that a frame comes from, and which coins of the run that it goes to differ.
#[derive(Clone, Copy)]
pub struct Known<'a, D> {
    pub strings: &'a Pivots,
    pub free: &'a [bool],
    pub draw: &'a D,
}

/// Propagates a frame over a step to a run with these coins, and says whether it did:
/// not if the string of a random outcome is missing, and then the frame is as before. The step is counted either way.
pub fn propagate_step<D: Draw, C: Coins>(
    propagation: &mut Propagation,
    known: Known<D>,
    coins: &mut C,
    step: Step,
    by_frame: &mut u64,
) -> Result<bool, AllocError>
    requires same_length { known.strings.now.qubits ≡ length propagation.old.letters }
    requires fits { StepFits (length propagation.old.letters) (step_shown step) }
    requires distinct { HasDistinctQubits (step_shown step) }
    requires placed { IsPlaced known.free.now propagation.old }
    requires few { D.ahead known.draw.now + propagation.old.coin < 2 ^ 63 }
    requires few_propagated { by_frame.old < 2 ^ 63 }
    ensures counted { by_frame.new ≡ by_frame.old + 1 }
    ensures length { length propagation.new.letters ≡ length propagation.old.letters }
    ensures same_coins { C.sequence coins.new ≡ C.sequence coins.old }
    ensures asks { AsksRandom known.entry.free.now propagation.old.coin (propagation.old.coin + coins_of (step_shown step.entry)) (C.asks coins.old) (C.asks coins.new) }
    ensures goes { IfOk result (Goes (length propagation.old.letters) known.entry.strings.now.strings known.entry.free.now (D.changes known.entry.draw.now (C.sequence coins.old)) (step_shown step.entry) propagation.old propagation.new) }
{
    *by_frame += 1;
    match step {
        Step::One(gate, qubit) => propagate_gate(propagation, gate, qubit),
        Step::Two(gate, first, second) => propagate_pair(propagation, gate, first, second),
        Step::Controlled(letter, k, qubit) => propagate_controlled(propagation, letter, k, qubit),
        Step::Collapse {
            letter,
            qubit,
            recorded,
            inverted: _,
            reset,
        } => return propagate_collapse(propagation, known, coins, letter, qubit, recorded, reset),
        Step::Product {
            factors,
            inverted: _,
        } => {
            return propagate_product(propagation, known, coins, factors);
        }
        Step::Detector(lookbacks) => propagate_detector(propagation, lookbacks)?,
        Step::Observable(observable, lookbacks) => propagate_observable(
            propagation,
            observable,
            lookbacks,
        )?,
    }
    Ok(true)
}

/// Propagates a frame over a gate on a qubit.
pub fn propagate_gate(propagation: &mut Propagation, gate: Gate, qubit: usize)
    requires in_range { qubit < length propagation.old.letters }
    ensures value { propagation.new ≡ record propagation.old { letters = (image_of gate qubit (plus propagation.old.letters)).letters } }
    ensures length { length propagation.new.letters ≡ length propagation.old.letters }
{
    let old = propagation.letter(qubit);
    // Most letters of a frame are I.
    if old == Letter::I {
        return;
    }
    propagation.set(qubit, image(gate, old));
}

/// Propagates a frame over a gate on two qubits.
pub fn propagate_pair(propagation: &mut Propagation, gate: PairGate, first: usize, second: usize)
    requires first_in_range { first < length propagation.old.letters }
    requires second_in_range { second < length propagation.old.letters }
    ensures value { propagation.new ≡ record propagation.old { letters = (image_pair gate first second (plus propagation.old.letters)).letters } }
    ensures length { length propagation.new.letters ≡ length propagation.old.letters }
{
    let old = propagation.letter(first);
    let other = propagation.letter(second);
    if old == Letter::I && other == Letter::I {
        return;
    }
    propagation.set(first, first_image(gate, old, other));
    propagation.set(second, second_image(gate, old, other));
}

/// Propagates a frame over a letter that a record controls.
pub fn propagate_controlled(propagation: &mut Propagation, letter: Letter, k: u32, qubit: usize)
    requires in_range { qubit < length propagation.old.letters }
    ensures value { propagation.new ≡ record propagation.old { letters = times_where (looked_up_of propagation.old.flips.records k) (single (length propagation.old.letters) qubit letter).letters propagation.old.letters } }
    ensures length { length propagation.new.letters ≡ length propagation.old.letters }
{
    let flipped = looked_up(propagation.records(), k);
    multiply_if(propagation, flipped, letter, qubit);
}

/// Multiplies a letter on at a qubit, if the bit is 1.
fn multiply_if(propagation: &mut Propagation, bit: bool, letter: Letter, qubit: usize)
    requires in_range { qubit < length propagation.old.letters }
    ensures value { propagation.new ≡ record propagation.old { letters = times_where bit (single (length propagation.old.letters) qubit letter).letters propagation.old.letters } }
    ensures length { length propagation.new.letters ≡ length propagation.old.letters }
{
    if bit {
        propagation.multiply_letter(letter, qubit);
    }
}

/// Propagates a frame past the next coin, which is of something with which it anticommutes or
/// not, and says whether the outcome is flipped, or `None` if the string is missing.
#[inline(always)]
fn propagate_outcome<D: Draw, C: Coins>(
    propagation: &mut Propagation,
    known: Known<D>,
    coins: &mut C,
    anticommuting: bool,
) -> Option<bool>
    requires same_length { known.strings.now.qubits ≡ length propagation.old.letters }
    requires placed { IsPlaced known.free.now propagation.old }
    requires few { D.ahead known.draw.now + propagation.old.coin < 2 ^ 63 }
    ensures length { length propagation.new.letters ≡ length propagation.old.letters }
    ensures same_coins { C.sequence coins.new ≡ C.sequence coins.old }
    ensures asks { AsksRandom known.entry.free.now propagation.old.coin (propagation.old.coin + 1) (C.asks coins.old) (C.asks coins.new) }
    ensures passed { IfSome result (λ flipped. IsPropagated known.entry.strings.now.strings known.entry.free.now (D.changes known.entry.draw.now (C.sequence coins.old)) anticommuting flipped propagation.old propagation.new) }
    ensures unchanged { IfNone result (propagation.new ≡ propagation.old) }
    ensures missing { IfNone result (IsMissing known.entry.strings.now.strings known.entry.free.now (propagation.old.coin + 1)) }
{
    let coin = propagation.coin();
    if !bit_at(known.free, coin) {
        propagation.skip_coin(false);
        return Some(anticommuting);
    }
    let change = known.draw.change(coins, coin);
    if change == anticommuting {
        propagation.skip_coin(true);
        return Some(change);
    }
    let number = propagation.number();
    if number >= known.strings.len() {
        return None;
    }
    propagation.skip_coin(true);
    propagation.multiply(known.strings.string(number));
    Some(change)
}

/// Flips an outcome and its record, if there is one, or not.
fn flip_measured(
    propagation: &mut Propagation,
    recorded: bool,
    flipped: bool,
) -> Result<(), AllocError>
    ensures value { OnOk result (propagation.new ≡ record propagation.old { flips = joined propagation.old.flips (one_flipped recorded flipped) }) }
    ensures letters { propagation.new.letters ≡ propagation.old.letters }
{
    propagation.flip_outcome(flipped)?;
    if recorded {
        propagation.flip_record(flipped)?;
    }
    Ok(())
}

/// Propagates a frame over a measurement of a letter.
pub fn propagate_collapse<D: Draw, C: Coins>(
    propagation: &mut Propagation,
    known: Known<D>,
    coins: &mut C,
    letter: Letter,
    qubit: usize,
    recorded: bool,
    resets: bool,
) -> Result<bool, AllocError>
    requires same_length { known.strings.now.qubits ≡ length propagation.old.letters }
    requires in_range { qubit < length propagation.old.letters }
    requires placed { IsPlaced known.free.now propagation.old }
    requires few { D.ahead known.draw.now + propagation.old.coin < 2 ^ 63 }
    ensures length { length propagation.new.letters ≡ length propagation.old.letters }
    ensures same_coins { C.sequence coins.new ≡ C.sequence coins.old }
    ensures asks { AsksRandom known.entry.free.now propagation.old.coin (propagation.old.coin + 1) (C.asks coins.old) (C.asks coins.new) }
    ensures goes { IfOk result (λ gone. (inverted : Bool) → Goes (length propagation.old.letters) known.entry.strings.now.strings known.entry.free.now (D.changes known.entry.draw.now (C.sequence coins.old)) (collapse letter qubit recorded inverted resets) propagation.old propagation.new gone) }
{
    let anticommuting = propagation.letter(qubit).anticommutes(letter);
    match propagate_outcome(propagation, known, coins, anticommuting) {
        Some(flipped) => {
            multiply_if(propagation, resets & flipped, flip(letter), qubit);
            flip_measured(propagation, recorded, flipped)?;
            Ok(true)
        }
        None => Ok(false),
    }
}

/// Whether letters anticommute with a product.
fn anticommutes(letters: &[Letter], factors: &[Factor]) -> bool
    requires in_range { All (λ f. f.qubit < length letters.now) factors.now }
    ensures value { result ≡ factors_anticommute letters.now factors.now }
{
    let mut anticommuting = false;
    for factor in factors {
        anticommuting ^= letters[factor.qubit.number()].anticommutes(factor.letter.letter());
    }
    anticommuting
}

/// Propagates a frame over a measurement of a product.
fn propagate_product<D: Draw, C: Coins>(
    propagation: &mut Propagation,
    known: Known<D>,
    coins: &mut C,
    factors: &[Factor],
) -> Result<bool, AllocError>
    requires same_length { known.strings.now.qubits ≡ length propagation.old.letters }
    requires in_range { All (λ f. f.qubit < length propagation.old.letters) factors.now }
    requires distinct { names_twice factors.now ≡ false }
    requires placed { IsPlaced known.free.now propagation.old }
    requires few { D.ahead known.draw.now + propagation.old.coin < 2 ^ 63 }
    ensures length { length propagation.new.letters ≡ length propagation.old.letters }
    ensures same_coins { C.sequence coins.new ≡ C.sequence coins.old }
    ensures asks { AsksRandom known.entry.free.now propagation.old.coin (propagation.old.coin + 1) (C.asks coins.old) (C.asks coins.new) }
    ensures goes { IfOk result (λ gone. (inverted : Bool) → Goes (length propagation.old.letters) known.entry.strings.now.strings known.entry.free.now (D.changes known.entry.draw.now (C.sequence coins.old)) (product factors.now inverted) propagation.old propagation.new gone) }
{
    let anticommuting = anticommutes(propagation.letters(), factors);
    match propagate_outcome(propagation, known, coins, anticommuting) {
        Some(flipped) => {
            flip_measured(propagation, true, flipped)?;
            Ok(true)
        }
        None => Ok(false),
    }
}

/// Propagates a frame over a detector.
pub fn propagate_detector(
    propagation: &mut Propagation,
    lookbacks: &[u32],
) -> Result<(), AllocError>
    ensures value { OnOk result (propagation.new ≡ record propagation.old { flips = joined propagation.old.flips (record nothing { detectors = parity_of propagation.old.flips.records lookbacks.now ∷ [] }) }) }
    ensures letters { propagation.new.letters ≡ propagation.old.letters }
{
    let flip = parity(propagation.records(), lookbacks);
    propagation.flip_detector(flip)
}

/// Propagates a frame over an addition to an observable.
fn propagate_observable(
    propagation: &mut Propagation,
    observable: u32,
    lookbacks: &[u32],
) -> Result<(), AllocError>
    ensures value { OnOk result (propagation.new ≡ record propagation.old { flips = joined propagation.old.flips (record nothing { additions = record { observable = observable; bit = parity_of propagation.old.flips.records lookbacks.now } ∷ [] }) }) }
    ensures letters { propagation.new.letters ≡ propagation.old.letters }
{
    let bit = parity(propagation.records(), lookbacks);
    propagation.flip_addition(Addition { observable, bit })
}
