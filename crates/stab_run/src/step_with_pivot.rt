//! One step on a tableau, with its pivot.

ghost use Rattle.std.specs.Prelude.{◌≡◌, ◌+◌, ◌<◌, ◌≤◌, ◌^◌, length, IfOk, OnOk};
ghost use Rattle.stab_items.specs.StepValues.{step_shown};
ghost use Rattle.stab_run.specs.Records.{ones};
ghost use Rattle.stab_run.specs.Points.{coins_of};
ghost use Rattle.stab_run.specs.ProgramStates.{StepFits, IsRunWithPivot, program_state, output_of};

use crate::coins::Coins;
use crate::measure::{measure_string_with_pivot, measure_with_pivot, write_product};
use crate::records::Outputs;
use crate::step::{apply_step, gather, reset_if};
use stab_items::Step;
use stab_pauli::Pauli;
use stab_tableau::Tableau;
use std::alloc::AllocError;

/// Carries out one step as `apply_step` does, and says whether a coin decided its outcome; if so, another string gets
/// the letters of a stabiliser of the state before it that exchanges its outcomes.
pub fn apply_step_with_pivot<C: Coins>(
    tableau: &mut Tableau,
    string: &mut Pauli,
    pivot: &mut Pauli,
    coins: &mut C,
    outputs: &mut Outputs,
    step: Step,
    applied: &mut u64,
) -> Result<bool, AllocError>
    requires same_length { length string.old.letters ≡ tableau.old.qubits }
    requires pivot_length { length pivot.old.letters ≡ tableau.old.qubits }
    requires fits { StepFits tableau.old.qubits (step_shown step) }
    requires few { applied.old < 2 ^ 63 }
    ensures counted { applied.new ≡ applied.old + 1 }
    ensures qubits { tableau.new.qubits ≡ tableau.old.qubits }
    ensures string { length string.new.letters ≡ length string.old.letters }
    ensures same_coins { C.sequence coins.new ≡ C.sequence coins.old }
    ensures asks { C.asks coins.new ≤ C.asks coins.old + coins_of (step_shown step.entry) }
    ensures asks_random { OnOk result (C.asks coins.new + ones outputs.old.free.items ≤ C.asks coins.old + ones outputs.new.free.items) }
    ensures pivot_length { length pivot.new.letters ≡ length pivot.old.letters }
    ensures run { IfOk result (λ free. IsRunWithPivot tableau.old.qubits (C.sequence coins.old) (step_shown step.entry) (program_state tableau.old (output_of outputs.old)) (program_state tableau.new (output_of outputs.new)) free pivot.new.letters) }
{
    let coin = outputs.free.len() as u64;
    match step {
        Step::Collapse {
            letter,
            qubit,
            recorded,
            inverted,
            reset,
        } => {
            *applied += 1;
            let measured = measure_with_pivot(tableau, pivot, coins, coin, letter, qubit);
            reset_if(tableau, letter, qubit, reset, measured.outcome);
            gather(outputs, measured, recorded, inverted)?;
            Ok(measured.free)
        }
        Step::Product { factors, inverted } => {
            *applied += 1;
            write_product(string, factors);
            let measured = measure_string_with_pivot(tableau, pivot, coins, coin, string);
            gather(outputs, measured, true, inverted)?;
            Ok(measured.free)
        }
        Step::One(..)
        | Step::Two(..)
        | Step::Controlled(..)
        | Step::Detector(_)
        | Step::Observable(..) => {
            apply_step(tableau, string, coins, outputs, step, applied)?;
            Ok(false)
        }
    }
}
