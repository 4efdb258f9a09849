//! One step on a tableau, and what is done with what it measured.

ghost use Rattle.std.specs.Prelude.{◌≡◌, ◌+◌, ◌<◌, ◌≤◌, ◌^◌, ◌∷◌, [], ◌++◌, length, OnOk, ◌&&◌};
ghost use Rattle.stab_gates.specs.Letters.{◌⊕◌};
ghost use Rattle.stab_pauli.specs.Paulis.{Signed};
ghost use Rattle.stab_tableau.specs.Tableaus.{stabilises};
ghost use Rattle.stab_items.specs.StepValues.{step_shown};
ghost use Rattle.stab_run.specs.Records.{ones};
ghost use Rattle.stab_run.specs.Runs.{when, gate_of, flip_of};
ghost use Rattle.stab_run.specs.Points.{coins_of};
ghost use Rattle.stab_run.specs.ProgramStates.{StepFits, IsRun, program_state, output_of, applied_by};

use crate::coins::Coins;
use crate::measure::{measure, measure_string, write_product};
use crate::records::{Addition, Outputs, looked_up, parity};
use stab_items::Step;
use stab_pauli::{Letter, Pauli};
use stab_tableau::{Collapse, Gate, Tableau};
use std::alloc::AllocError;

/// The gate that a letter is.
pub fn as_gate(letter: Letter) -> Gate
    ensures value { result ≡ gate_of letter }
{
    match letter {
        Letter::I => Gate::I,
        Letter::X => Gate::X,
        Letter::Y => Gate::Y,
        Letter::Z => Gate::Z,
    }
}

/// A letter that exchanges the two outcomes of a letter, with which it anticommutes.
pub fn flip(letter: Letter) -> Letter
    ensures value { result ≡ flip_of letter }
{
    match letter {
        Letter::I | Letter::Y | Letter::Z => Letter::X,
        Letter::X => Letter::Z,
    }
}

/// Applies a letter to a qubit, if the bit is 1.
pub fn apply_where(tableau: &mut Tableau, bit: bool, letter: Letter, qubit: usize)
    requires in_range { qubit < tableau.old.qubits }
    ensures qubits { tableau.new.qubits ≡ tableau.old.qubits }
    ensures members { (p : Signed) → length p.letters ≡ tableau.old.qubits → stabilises tableau.new p ≡ applied_by bit letter qubit (stabilises tableau.old) p }
{
    if bit {
        tableau.apply(as_gate(letter), qubit);
    }
}

/// Flips a qubit that was measured by a letter, if that resets an outcome 1.
pub fn reset_if(tableau: &mut Tableau, letter: Letter, qubit: usize, resets: bool, outcome: bool)
    requires in_range { qubit < tableau.old.qubits }
    ensures qubits { tableau.new.qubits ≡ tableau.old.qubits }
    ensures members { (p : Signed) → length p.letters ≡ tableau.old.qubits → stabilises tableau.new p ≡ applied_by (resets && outcome) (flip_of letter) qubit (stabilises tableau.old) p }
{
    if resets {
        apply_where(tableau, outcome, flip(letter), qubit);
    }
}

/// Appends a bit, if there is one.
fn push_when(bits: &mut Vec<bool>, test: bool, bit: bool) -> Result<(), AllocError>
    ensures value { OnOk result (bits.new.items ≡ bits.old.items ++ when test bit) }
{
    if test {
        bits.push(bit)?;
    }
    Ok(())
}

/// Gathers what was measured: whether a coin decided it, the outcome, and a record, if there is one.
pub fn gather(
    outputs: &mut Outputs,
    measured: Collapse,
    recorded: bool,
    inverted: bool,
) -> Result<(), AllocError>
    ensures value { OnOk result (output_of outputs.new ≡ record (output_of outputs.old) { records = outputs.old.records.items ++ when recorded (inverted ⊕ measured.outcome); free = outputs.old.free.items ++ measured.free ∷ []; outcomes = outputs.old.outcomes.items ++ measured.outcome ∷ [] }) }
{
    outputs.free.push(measured.free)?;
    outputs.outcomes.push(measured.outcome)?;
    push_when(&mut outputs.records, recorded, inverted ^ measured.outcome)
}

/// Carries out one step on a tableau, gathers what it gives, and counts it. The string is for
/// products to be written into.
pub fn apply_step<C: Coins>(
    tableau: &mut Tableau,
    string: &mut Pauli,
    coins: &mut C,
    outputs: &mut Outputs,
    step: Step,
    applied: &mut u64,
) -> Result<(), AllocError>
    requires same_length { length string.old.letters ≡ tableau.old.qubits }
    requires fits { StepFits tableau.old.qubits (step_shown step) }
    requires few { applied.old < 2 ^ 63 }
    ensures counted { applied.new ≡ applied.old + 1 }
    ensures qubits { tableau.new.qubits ≡ tableau.old.qubits }
    ensures string { length string.new.letters ≡ length string.old.letters }
    ensures same_coins { C.sequence coins.new ≡ C.sequence coins.old }
    ensures asks { C.asks coins.new ≤ C.asks coins.old + coins_of (step_shown step.entry) }
    ensures asks_random { OnOk result (C.asks coins.new + ones outputs.old.free.items ≤ C.asks coins.old + ones outputs.new.free.items) }
    ensures run { OnOk result (IsRun tableau.old.qubits (C.sequence coins.old) (step_shown step.entry ∷ []) (program_state tableau.old (output_of outputs.old)) (program_state tableau.new (output_of outputs.new))) }
{
    *applied += 1;
    let coin = outputs.free.len() as u64;
    match step {
        Step::One(gate, qubit) => tableau.apply(gate, qubit),
        Step::Two(gate, first, second) => tableau.apply_pair(gate, first, second),
        Step::Controlled(letter, k, qubit) => {
            let bit = looked_up(outputs.records.as_slice(), k);
            apply_where(tableau, bit, letter, qubit);
        }
        Step::Collapse {
            letter,
            qubit,
            recorded,
            inverted,
            reset,
        } => {
            let measured = measure(tableau, coins, coin, letter, qubit);
            reset_if(tableau, letter, qubit, reset, measured.outcome);
            gather(outputs, measured, recorded, inverted)?;
        }
        Step::Product { factors, inverted } => {
            write_product(string, factors);
            let measured = measure_string(tableau, coins, coin, string);
            gather(outputs, measured, true, inverted)?;
        }
        Step::Detector(lookbacks) => {
            let bit = parity(outputs.records.as_slice(), lookbacks);
            outputs.detectors.push(bit)?;
        }
        Step::Observable(observable, lookbacks) => {
            let bit = parity(outputs.records.as_slice(), lookbacks);
            outputs.additions.push(Addition { observable, bit })?;
        }
    }
    Ok(())
}
