//! The errors that a circuit marks.
ghost use Rattle.std.specs.Prelude.{◌≡◌, ◌≤◌, ◌<◌, ◌+◌, ◌*◌, ◌^◌, None, false, All, length, map, OnOk, IfOk, IfErr};
ghost use Rattle.std.specs.List.{flat_map};
ghost use Rattle.stab_io.specs.declared.refusal.Refusal.TheVariants.{OutOfMemory};
ghost use Rattle.stab_items.specs.Steps.{check_of, most_steps, unroll};
ghost use Rattle.stab_items.specs.Views.{circuit_items};
ghost use Rattle.stab_regions.specs.SingleErrors.{single_errors_of};
ghost use Rattle.stab_error_model.specs.Errors.{each_target, each_two_targets, errors_marked, instructions, marks_from};
ghost use Rattle.stab_error_model.specs.Placed.{error_shown};
ghost use Rattle.stab_error_model.specs.inner.ErrorLists.{AddsErrors, ErrorStands, HasFrom};
ghost use Rattle.stab_error_model.specs.inner.Marked.{marks_shown, target_single_errors, marked_single_errors};

use crate::error_lists::{add_letters, add_products};
use crate::letters::letters_asked;
use crate::marks::{Marks, mark_items};
use crate::placed::{Error, ErrorSite};
use crate::tags::{is_pairs, letters_left};
use stab_circuit::Circuit;
use stab_gates::Letter;
use stab_instructions::Qubit;
use stab_io::Refusal;
use stab_jobs::ErrorLetters;
use std::alloc::{AllocError, Global};

/// Adds letters at each of some targets, the first of which is at this step and has this row.
fn add_targets(
    errors: &mut Vec<Error>,
    letters: &[Letter],
    qubits: &[Qubit],
    step: usize,
    row: usize,
) -> Result<(), AllocError>
    requires few { step + length qubits.now ≤ most_steps }
    requires few_rows { row + 2 * length qubits.now < 2 ^ 64 }
    ensures adds { OnOk result (AddsErrors (HasFrom row (target_single_errors step qubits.now)) (each_target letters.now step qubits.now) errors.old.items errors.new.items) }
{
    'targets: for k in 0..qubits.len() {
        let site = ErrorSite::in_front(qubits[k].number(), step + k, row + 2 * k);
        add_letters(errors, letters, site)?;
    }
    Ok(())
}

/// Adds the products on each two targets, the first of which is at this step and has this row.
fn add_pairs(
    errors: &mut Vec<Error>,
    letters: ErrorLetters,
    qubits: &[Qubit],
    step: usize,
    row: usize,
) -> Result<(), AllocError>
    requires few { step + length qubits.now ≤ most_steps }
    requires few_rows { row + 2 * length qubits.now < 2 ^ 64 }
    ensures adds { OnOk result (AddsErrors (HasFrom row (target_single_errors step qubits.now)) (each_two_targets letters step qubits.now) errors.old.items errors.new.items) }
{
    let mut k = 0;
    'pairs: while k < qubits.len() {
        let first = ErrorSite::in_front(qubits[k].number(), step + k, row + 2 * k);
        if k + 1 == qubits.len() {
            add_letters(errors, letters_asked(letters), first)?;
            return Ok(());
        }
        let second = ErrorSite::in_front(qubits[k + 1].number(), step + k + 1, row + 2 * k + 2);
        add_products(errors, letters, first, second)?;
        k += 2;
    }
    Ok(())
}

/// Adds the errors that an instruction marks, of which the first target has this row.
fn add_marked(
    errors: &mut Vec<Error>,
    letters: ErrorLetters,
    marks: Marks,
    row: usize,
) -> Result<(), AllocError>
    requires few { marks.step + length marks.qubits.now ≤ most_steps }
    requires few_rows { row + 2 * length marks.qubits.now < 2 ^ 64 }
    ensures adds { OnOk result (AddsErrors (HasFrom row (marked_single_errors (marks_shown marks.entry))) (errors_marked letters (marks_shown marks.entry)) errors.old.items errors.new.items) }
{
    if is_pairs(marks.tag) {
        add_pairs(errors, letters, marks.qubits, marks.step, row)
    } else {
        let left = letters_left(letters, marks.tag);
        add_targets(errors, left, marks.qubits, marks.step, row)
    }
}

/// The errors that a circuit marks, of which this many single errors are in the table.
pub(crate) fn errors_marked(
    alloc: Global,
    circuit: &Circuit,
    letters: ErrorLetters,
    single_errors: usize,
) -> Result<Vec<Error>, Refusal>
    requires checked { check_of (circuit_items circuit.now) ≡ None }
    requires single_errors { single_errors ≡ length (single_errors_of false (unroll (circuit_items circuit.now))) }
    ensures errors { IfOk result (λ v. map error_shown v.items ≡ flat_map (errors_marked letters) (marks_from 0 (instructions (circuit_items circuit.now)))) }
    ensures stand { IfOk result (λ v. All (ErrorStands (single_errors_of false (unroll (circuit_items circuit.now)))) v.items) }
    ensures err { IfErr result (λ r. r ≡ OutOfMemory) }
{
    let mut all = Vec::new(alloc);
    mark_items(&mut all, circuit.items(), 0)?;
    let mut errors = Vec::new(alloc);
    let mut row = 0;
    'marks: for k in 0..all.len() {
        add_marked(&mut errors, letters, all[k], row)?;
        row += 2 * all[k].qubits.len();
    }
    Ok(errors)
}
