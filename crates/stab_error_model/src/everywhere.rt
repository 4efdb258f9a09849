//! The errors at each step of a circuit.
ghost use Rattle.std.specs.Prelude.{◌≡◌, ◌≤◌, ◌+◌, ◌*◌, ◌^◌, ◌<◌, ◌∷◌, ◌++◌, [], None, true, ℕ, map, length, OnOk, IfOk, IfErr, IfSome, All};
ghost use Rattle.stab_io.specs.declared.refusal.Refusal.TheVariants.{OutOfMemory};
ghost use Rattle.stab_items.specs.StepValues.{step_shown};
ghost use Rattle.stab_items.specs.Views.{circuit_items};
ghost use Rattle.stab_items.specs.Steps.{check_of, most_steps, makes, unroll};
ghost use Rattle.stab_run.specs.Runs.{flip_of};
ghost use Rattle.stab_regions.specs.SingleErrors.{following, single_error_on, single_errors_of, single_errors_on};
ghost use Rattle.stab_error_model.specs.Errors.{each_product, errors_at, errors_from, wrong_product, wrong_record};
ghost use Rattle.stab_error_model.specs.Placed.{error_shown, single_errors_shown, single_error_of_letter};
ghost use Rattle.stab_error_model.specs.inner.ErrorLists.{AddsErrors, ErrorStands, HasFrom, Stands};
ghost use Rattle.stab_error_model.specs.inner.Everywhere.{back_of, reset_errors, measured_errors, factor_errors, factor_single_errors, step_single_errors};

use crate::error_lists::{add_error, add_letters, add_products};
use crate::letters::letters_asked;
use crate::placed::{Error, ErrorSite, PlacedLetter};
use stab_circuit::{Circuit, Cursor, Step};
use stab_gates::Letter;
use stab_instructions::Factor;
use stab_io::Refusal;
use stab_jobs::ErrorLetters;
use stab_run::flip;
use std::alloc::{AllocError, Global};

/// The letter that takes a flip of a qubit back after its measurement, unless the qubit is reset.
fn taken_back(flip: Letter, following: ErrorSite, resets: bool) -> Option<PlacedLetter>
    ensures value { single_errors_shown result ≡ back_of resets (single_error_of_letter following flip) }
    ensures site { IfSome result (λ f. f.site ≡ following) }
{
    if resets {
        None
    } else {
        Some(following.with(flip))
    }
}

/// Adds the letters after a measurement, if it resets.
fn add_reset(
    errors: &mut Vec<Error>,
    letters: &[Letter],
    following: ErrorSite,
    resets: bool,
) -> Result<(), AllocError>
    ensures adds { OnOk result (AddsErrors (Stands following) (reset_errors letters.now (single_error_of_letter following) resets) errors.old.items errors.new.items) }
{
    if resets {
        add_letters(errors, letters, following)?;
    }
    Ok(())
}

/// Adds the record of this number by itself, of a letter that is measured between two sites.
fn add_record(
    errors: &mut Vec<Error>,
    letter: Letter,
    front: ErrorSite,
    following: ErrorSite,
    resets: bool,
    number: usize,
) -> Result<(), AllocError>
    ensures adds { OnOk result (AddsErrors (λ single_errors. Stands front single_errors × Stands following single_errors) (wrong_record number (single_error_of_letter front (flip_of letter)) (back_of resets (single_error_of_letter following (flip_of letter))) ∷ []) errors.old.items errors.new.items) }
{
    let flip = flip(letter);
    let error = Error::Record {
        number,
        flip: front.with(flip),
        back: taken_back(flip, following, resets),
    };
    add_error(errors, error)?;
    Ok(())
}

/// Adds the errors at a measurement of a letter between two sites, which makes the record of this number.
fn add_measured(
    errors: &mut Vec<Error>,
    letters: &[Letter],
    letter: Letter,
    front: ErrorSite,
    following: ErrorSite,
    resets: bool,
    number: usize,
) -> Result<(), AllocError>
    ensures adds { OnOk result (AddsErrors (λ single_errors. Stands front single_errors × Stands following single_errors) (measured_errors letters.now letter (single_error_of_letter front) (single_error_of_letter following) resets number) errors.old.items errors.new.items) }
{
    add_letters(errors, letters, front)?;
    add_record(errors, letter, front, following, resets, number)?;
    add_reset(errors, letters, following, resets)?;
    Ok(())
}

/// Adds the letters in front of each factor of a product, of which the first has this row.
fn add_factors(
    errors: &mut Vec<Error>,
    letters: &[Letter],
    factors: &[Factor],
    step: usize,
    row: usize,
) -> Result<(), AllocError>
    requires rows { row + length (factor_single_errors step factors.now) < 2 ^ 64 }
    ensures adds { OnOk result (AddsErrors (HasFrom row (factor_single_errors step factors.now)) (factor_errors letters.now step factors.now) errors.old.items errors.new.items) }
{
    'factors: for k in 0..factors.len() {
        let front = ErrorSite::in_front(factors[k].qubit.number(), step, row + 4 * k);
        add_letters(errors, letters, front)?;
    }
    Ok(())
}

/// Adds the record of a product by itself, by its first factor, which has this row.
fn add_product_record(
    errors: &mut Vec<Error>,
    factors: &[Factor],
    step: usize,
    row: usize,
    number: usize,
) -> Result<(), AllocError>
    requires few { step ≤ most_steps }
    requires rows { row + length (factor_single_errors step factors.now) < 2 ^ 64 }
    ensures adds { OnOk result (AddsErrors (HasFrom row (factor_single_errors step factors.now)) (wrong_product step number factors.now) errors.old.items errors.new.items) }
{
    if factors.is_empty() {
        return Ok(());
    }
    let factor = factors[0];
    let qubit = factor.qubit.number();
    let front = ErrorSite::in_front(qubit, step, row);
    let following = ErrorSite::following(qubit, step, row + 2);
    add_record(
        errors,
        factor.letter.letter(),
        front,
        following,
        false,
        number,
    )?;
    Ok(())
}

/// Adds the errors at a product, whose first factor has this row.
fn add_product(
    errors: &mut Vec<Error>,
    letters: &[Letter],
    factors: &[Factor],
    step: usize,
    row: usize,
    number: usize,
) -> Result<(), AllocError>
    requires few { step ≤ most_steps }
    requires rows { row + length (factor_single_errors step factors.now) < 2 ^ 64 }
    ensures adds { OnOk result (AddsErrors (HasFrom row (factor_single_errors step factors.now)) (factor_errors letters.now step factors.now ++ wrong_product step number factors.now) errors.old.items errors.new.items) }
{
    add_factors(errors, letters, factors, step, row)?;
    add_product_record(errors, factors, step, row, number)?;
    Ok(())
}

/// Adds the products after a gate on two qubits, of which the first has this row.
fn add_after_two(
    errors: &mut Vec<Error>,
    letters: ErrorLetters,
    first: usize,
    second: usize,
    step: usize,
    row: usize,
) -> Result<(), AllocError>
    requires few { step ≤ most_steps }
    requires rows { row + 2 < 2 ^ 64 }
    ensures adds { OnOk result (AddsErrors (HasFrom row (single_errors_on step (following first) ++ single_errors_on step (following second))) (each_product letters (single_error_on step (following first)) (single_error_on step (following second))) errors.old.items errors.new.items) }
{
    let one = ErrorSite::following(first, step, row);
    let other = ErrorSite::following(second, step, row + 2);
    add_products(errors, letters, one, other)?;
    Ok(())
}

/// Adds the errors at a step of this number, with this many records before it, whose first single error has this row.
fn add_step(
    errors: &mut Vec<Error>,
    letters: ErrorLetters,
    step: Step,
    number: usize,
    records: usize,
    row: usize,
) -> Result<(), AllocError>
    requires few { number ≤ most_steps }
    requires rows { row + length (step_single_errors number (step_shown step)) < 2 ^ 64 }
    ensures adds { OnOk result (AddsErrors (HasFrom row (step_single_errors number (step_shown step.entry))) (errors_at letters number records (step_shown step.entry)) errors.old.items errors.new.items) }
{
    let asked = letters_asked(letters);
    match step {
        Step::One(_, qubit) => {
            add_letters(errors, asked, ErrorSite::following(qubit, number, row))?;
            Ok(())
        }
        Step::Controlled(_, _, qubit) => {
            add_letters(errors, asked, ErrorSite::following(qubit, number, row))?;
            Ok(())
        }
        Step::Two(_, first, second) => {
            add_after_two(errors, letters, first, second, number, row)?;
            Ok(())
        }
        Step::Collapse {
            letter,
            qubit,
            recorded,
            reset,
            ..
        } => {
            if recorded {
                let front = ErrorSite::in_front(qubit, number, row);
                let following = ErrorSite::following(qubit, number, row + 2);
                add_measured(errors, asked, letter, front, following, reset, records)?;
                Ok(())
            } else {
                add_letters(errors, asked, ErrorSite::following(qubit, number, row))?;
                Ok(())
            }
        }
        Step::Product { factors, .. } => {
            add_product(errors, asked, factors, number, row, records)?;
            Ok(())
        }
        Step::Detector(_) | Step::Observable(_, _) => Ok(()),
    }
}

/// How many single errors there are at a step.
fn single_errors_at(step: Step) -> usize
    ensures value { (t : ℕ) → result ≡ length (step_single_errors t (step_shown step.entry)) }
{
    match step {
        Step::One(_, _) | Step::Controlled(_, _, _) => 2,
        Step::Two(_, _, _) => 4,
        Step::Collapse { recorded: true, .. } => 4,
        Step::Collapse { .. } => 2,
        Step::Product { factors, .. } => 4 * factors.len(),
        Step::Detector(_) | Step::Observable(_, _) => 0,
    }
}

/// How many records a step makes.
fn records_made(step: Step) -> usize
    ensures value { result ≡ makes (step_shown step.entry) }
{
    match step {
        Step::Collapse { recorded: true, .. } | Step::Product { .. } => 1,
        _ => 0,
    }
}

/// The errors of a circuit everywhere, of which this many single errors are in the table.
pub(crate) fn errors_everywhere(
    alloc: Global,
    circuit: &Circuit,
    letters: ErrorLetters,
    single_errors: usize,
) -> Result<Vec<Error>, Refusal>
    requires checked { check_of (circuit_items circuit.now) ≡ None }
    requires single_errors { single_errors ≡ length (single_errors_of true (unroll (circuit_items circuit.now))) }
    ensures errors { IfOk result (λ v. map error_shown v.items ≡ errors_from letters 0 0 (unroll (circuit_items circuit.now))) }
    ensures stand { IfOk result (λ v. All (ErrorStands (single_errors_of true (unroll (circuit_items circuit.now)))) v.items) }
    ensures err { IfErr result (λ r. r ≡ OutOfMemory) }
{
    let mut errors = Vec::new(alloc);
    let mut cursor = Cursor::at(alloc, circuit, 0)?;
    let mut number = 0;
    let mut records = 0;
    let mut row = 0;
    'steps: while let Some(step) = cursor.next() {
        add_step(&mut errors, letters, step, number, records, row)?;
        number += 1;
        records += records_made(step);
        row += single_errors_at(step);
    }
    Ok(errors)
}
