//! The errors of a circuit, and which bits each of them flips.
ghost use Rattle.std.specs.Prelude.{◌≡◌, ◌≤◌, List, ◌∷◌, [], ◌++◌, map, None, All, length, IfOk, IfErr, OnOk};
ghost use Rattle.stab_io.specs.Refusals.{Refuses};
ghost use Rattle.stab_io.specs.declared.refusal.Refusal.TheVariants.{OutOfMemory};
ghost use Rattle.stab_gates.specs.Limits.{most_qubits};
ghost use Rattle.stab_items.specs.Steps.{check_of, check_within, detectors_of, unroll};
ghost use Rattle.stab_items.specs.Views.{circuit_items};
ghost use Rattle.stab_run.specs.ProgramStates.{StepFits};
ghost use Rattle.stab_regions.specs.SingleErrors.{IsSingleErrorTable, single_errors_of};
ghost use Rattle.stab_error_model.specs.Errors.{errors_of};
ghost use Rattle.stab_error_model.specs.Parts.{AreSearched};
ghost use Rattle.stab_error_model.specs.ErrorTables.{IsErrorTable, StepsInside};
ghost use Rattle.stab_error_model.specs.declared.placed.Error.{Error as ErrorValue};
ghost use Rattle.stab_error_model.specs.Placed.{error_shown};
ghost use Rattle.stab_error_model.specs.inner.ErrorLists.{ErrorStands};
ghost use Rattle.stab_error_model.specs.inner.ErrorRows.{AreErrorRows, RowsAscend};
ghost use Rattle.stab_error_model.specs.inner.RowParts.{AreSearchedByRows};

use crate::everywhere::errors_everywhere;
use crate::marked::errors_marked;
use crate::parts::split_errors;
use crate::placed::Error;
use crate::rows::error_row;
use stab_circuit::Circuit;
use stab_io::{Fault, Refusal};
use stab_jobs::ErrorLetters;
use stab_regions::single_error_laws::{
    deterministic_parities, single_errors_add, single_errors_flip_parities,
};
use stab_regions::{SingleErrorTable, single_errors};
use stab_search::Table;
use std::alloc::Global;
use std::marker::Model;

/// The errors of a circuit, and which of its deterministic detectors and observables each of them flips.
pub struct ErrorTable {
    deterministic: Vec<bool>,
    errors: Vec<Error>,
    table: Table,
}

// Written out, so that a proof sees the drop of a value as one call, and not one for each of its parts.
impl Drop for ErrorTable {
    fn drop(self) {
        let ErrorTable {
            deterministic: _,
            errors: _,
            table: _,
        } = self;
    }
}

impl Model for ErrorTable {
    ghost use Rattle.std.specs.Prelude.{map};
    ghost use Rattle.stab_error_model.specs.ErrorTables.{ErrorTableState};
    ghost use Rattle.stab_error_model.specs.Placed.{error_shown};

    ghost Value = { ErrorTableState };

    ghost view = { λ t. record { deterministic = t.deterministic.items; errors = map error_shown t.errors.items; table = t.table } };
}

impl ErrorTable {
    ghost use Rattle.std.specs.Prelude.{◌≡◌, ◌<◌, length, slice_index_or};
    ghost use Rattle.stab_error_model.specs.Placed.{error_shown};

    /// For each detector and then each observable, whether its bit is the same for all random bits.
    pub fn deterministic(&self) -> &[bool]
        ensures value { result.now ≡ self.now.deterministic }
    {
        self.deterministic.as_slice()
    }

    /// The number of errors.
    pub fn len(&self) -> usize
        ensures value { result ≡ length self.now.errors }
    {
        self.errors.len()
    }

    /// An error, of those numbered from 0.
    pub fn error(&self, number: usize) -> Error
        requires in_range { number < length self.now.errors }
        ensures value { error_shown result ≡ slice_index_or self.now.errors number (error_shown result) }
    {
        self.errors[number]
    }

    /// What each error flips, by the numbers of detectors and then of observables.
    pub fn table(&self) -> &Table
        ensures value { result.now ≡ self.now.table }
    {
        &self.table
    }
}

/// The errors of a circuit: everywhere, or those that it marks. The table has this number of single errors.
fn errors_asked(
    alloc: Global,
    circuit: &Circuit,
    everywhere: bool,
    letters: ErrorLetters,
    single_errors: usize,
) -> Result<Vec<Error>, Refusal>
    requires checked { check_of (circuit_items circuit.now) ≡ None }
    requires single_errors { single_errors ≡ length (single_errors_of everywhere (unroll (circuit_items circuit.now))) }
    ensures errors { IfOk result (λ v. map error_shown v.items ≡ errors_of everywhere letters (circuit_items circuit.now)) }
    ensures stand { IfOk result (λ v. All (ErrorStands (single_errors_of everywhere (unroll (circuit_items circuit.now)))) v.items) }
    ensures err { IfErr result (λ r. r ≡ OutOfMemory) }
{
    if everywhere {
        errors_everywhere(alloc, circuit, letters, single_errors)
    } else {
        errors_marked(alloc, circuit, letters, single_errors)
    }
}

/// The errors that are searched: these themselves, or split if graph-like errors are asked for.
fn searched_errors(
    alloc: Global,
    single_errors: &SingleErrorTable,
    whole: Vec<Error>,
    detectors: usize,
    graphlike: bool,
) -> Result<Vec<Error>, Refusal>
    requires ascend { RowsAscend single_errors.now.rows }
    ensures searched { IfOk result (λ v. AreSearchedByRows graphlike single_errors.now.rows detectors whole.items v.items) }
    ensures err { IfErr result (λ r. r ≡ OutOfMemory) }
{
    if !graphlike {
        return Ok(whole);
    }
    let split = split_errors(alloc, single_errors, whole.as_slice(), detectors)?;
    Ok(split)
}

/// Adds the row of an error.
fn add_row(
    alloc: Global,
    single_errors: &SingleErrorTable,
    error: Error,
    table: &mut Table,
) -> Result<(), Refusal>
    requires ascend { RowsAscend single_errors.now.rows }
    ensures rows { OnOk result ((errors : List ErrorValue) → AreErrorRows single_errors.now.rows errors table.old.rows → AreErrorRows single_errors.now.rows (errors ++ error ∷ []) table.new.rows) }
    ensures detectors { table.new.detectors ≡ table.old.detectors }
    ensures err { IfErr result (λ r. r ≡ OutOfMemory) }
{
    let row = error_row(alloc, single_errors, error)?;
    table.push(row.as_slice())?;
    Ok(())
}

/// What each of some errors flips.
fn rows_of(
    alloc: Global,
    single_errors: &SingleErrorTable,
    errors: &[Error],
    detectors: usize,
) -> Result<Table, Refusal>
    requires ascend { RowsAscend single_errors.now.rows }
    ensures rows { IfOk result (λ t. AreErrorRows single_errors.now.rows errors.now t.rows) }
    ensures detectors { IfOk result (λ t. t.detectors ≡ detectors) }
    ensures err { IfErr result (λ r. r ≡ OutOfMemory) }
{
    let mut table = Table::new(alloc, detectors);
    'errors: for error in errors {
        add_row(alloc, single_errors, *error, &mut table)?;
    }
    Ok(table)
}

/// A copy of bits.
fn copied(alloc: Global, bits: &[bool]) -> Result<Vec<bool>, Refusal>
    ensures value { IfOk result (λ v. v.items ≡ bits.now) }
    ensures err { IfErr result (λ r. r ≡ OutOfMemory) }
{
    let mut all = Vec::with_capacity(alloc, bits.len())?;
    all.extend_from_slice(bits)?;
    Ok(all)
}

/// The steps of a circuit that was checked fit on n qubits. It does nothing: its contract is the law.
fn steps_fit(circuit: &Circuit, n: usize)
    requires checked { check_within n (circuit_items circuit.now) ≡ None }
    ensures fits { All (StepFits n) (unroll (circuit_items circuit.now)) }
{
    circuit.items();
}

/// The table of the errors of a circuit with this table of single errors.
fn table_of(
    alloc: Global,
    circuit: &Circuit,
    n: usize,
    everywhere: bool,
    letters: ErrorLetters,
    graphlike: bool,
    single_errors: &SingleErrorTable,
) -> Result<ErrorTable, Refusal>
    requires checked { check_within n (circuit_items circuit.now) ≡ None }
    requires table { IsSingleErrorTable n everywhere (circuit_items circuit.now) single_errors.now.deterministic single_errors.now.rows }
    ensures errors { IfOk result (λ t. AreSearched graphlike n (circuit_items circuit.now) (errors_of everywhere letters (circuit_items circuit.now)) t.errors) }
    ensures table { IfOk result (IsErrorTable n (circuit_items circuit.now)) }
    ensures steps { IfOk result (λ t. StepsInside (circuit_items circuit.now) t.errors) }
    ensures err { IfErr result (λ r. r ≡ OutOfMemory) }
{
    let whole = errors_asked(alloc, circuit, everywhere, letters, single_errors.len())?;
    let deterministic = copied(alloc, single_errors.deterministic())?;
    let detectors = deterministic.len() - circuit.observables();
    let errors = searched_errors(alloc, single_errors, whole, detectors, graphlike)?;
    let table = rows_of(alloc, single_errors, errors.as_slice(), detectors)?;
    steps_fit(circuit, n);
    deterministic_parities();
    single_errors_flip_parities();
    single_errors_add();
    Ok(ErrorTable {
        deterministic,
        errors,
        table,
    })
}

/// The table of the errors of a circuit on n qubits, at most 1,024: those that it marks by the gate `I`, or
/// those of noise everywhere. If graph-like errors are asked for, the X and the Z of its letters replace an error that flips more
/// than two detectors.
///
/// Refused as `Circuit::check` refuses, else `OutOfMemory`, always with line 0.
pub fn errors(
    alloc: Global,
    circuit: &Circuit,
    n: usize,
    everywhere: bool,
    letters: ErrorLetters,
    graphlike: bool,
) -> Result<ErrorTable, Fault>
    requires in_range { n ≤ most_qubits }
    ensures errors { IfOk result (λ t. AreSearched graphlike n (circuit_items circuit.now) (errors_of everywhere letters (circuit_items circuit.now)) t.errors) }
    ensures table { IfOk result (IsErrorTable n (circuit_items circuit.now)) }
    ensures steps { IfOk result (λ t. StepsInside (circuit_items circuit.now) t.errors) }
    ensures refused { Refuses result (check_within n (circuit_items circuit.now)) }
{
    circuit.check(n)?;
    let single_errors = single_errors(alloc, circuit, n, everywhere)?;
    table_of(
        alloc,
        circuit,
        n,
        everywhere,
        letters,
        graphlike,
        &single_errors,
    )
    .map_err(Fault::whole)
}
