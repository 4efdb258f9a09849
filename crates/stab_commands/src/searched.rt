//! The errors that a distance is searched among, and the command that writes them.
ghost use Rattle.std.specs.Prelude.{◌≡◌, None, IfOk, IfErr};
ghost use Rattle.stab_items.specs.Steps.{check_of, qubits_of};
ghost use Rattle.stab_items.specs.Views.{circuit_items};
ghost use Rattle.stab_error_model.specs.ErrorTables.{IsErrorTable, StepsInside};
ghost use Rattle.stab_report.specs.SingleErrorTables.{GoesOnWithItems, fault_of, random_of};
ghost use Rattle.stab_report.specs.DoubtLines.{Warns};
ghost use Rattle.stab_report.specs.Distances.{AreErrorsOf, EndsSearched, HearsErrors, IsErrorsText, IsRefusedFor, IsSearchedText, ReportsErrors, error_lines};
ghost use Rattle.stab_report.specs.Endings.{SendsFound};
ghost use Rattle.stab_search.specs.Made.{IsCountable, clauses_of};
ghost use Rattle.stab_search.specs.Problems.{Clauses, problem_text};
ghost use Rattle.stab_search.specs.Questions.{Asks};
ghost use Rattle.stab_commands.specs.inner.Faults.{SendsAtOnce};

use crate::deterministic::kinds_of;
use crate::doubts::doubts_of;
use crate::faults::refused_for;
use stab_circuit::{Circuit, read_circuit};
use stab_error_model::{ErrorTable, errors};
use stab_io::{Fault, Input, Output, Refusal};
use stab_jobs::{DistanceOptions, SearchedLayout};
use stab_report::{FaultsRefused, finish, report_doubts, write_all_errors};
use stab_search::{Problem, Progress, write_problem};
use std::alloc::Global;

/// The errors of a circuit that are searched as the options ask for, and what each flips.
///
/// Refused with `NotDeterministic`, and the first detector or observable that is not the same for all
/// random bits, if there is such a one and `deterministic_only` doesn't leave it out; else with `OutOfMemory` alone.
pub(crate) fn searched_errors(
    alloc: Global,
    circuit: &Circuit,
    options: DistanceOptions,
) -> Result<ErrorTable, FaultsRefused>
    requires checked { check_of (circuit_items circuit.now) ≡ None }
    ensures found { IfOk result (AreErrorsOf options (circuit_items circuit.now)) }
    ensures steps { IfOk result (λ t. StepsInside (circuit_items circuit.now) t.errors) }
    ensures refused { IfErr result (λ r. IsRefusedFor options.deterministic_only (circuit_items circuit.now) r.random r.fault) }
{
    let n = circuit.qubits();
    let errors = errors(
        alloc,
        circuit,
        n,
        options.everywhere,
        options.letters,
        options.graphlike,
    )?;
    match refused_for(
        alloc,
        circuit,
        errors.deterministic(),
        options.deterministic_only,
    ) {
        Ok(None) => Ok(errors),
        Ok(Some(random)) => Err(FaultsRefused {
            fault: Fault::whole(Refusal::NotDeterministic),
            random: Some(random),
        }),
        Err(refusal) => Err(FaultsRefused::from(Fault::whole(refusal))),
    }
}

/// Writes errors and what they flip, a line each, and flushes.
fn send_errors<O: Output>(out: &mut O, circuit: &Circuit, errors: &ErrorTable) -> Result<(), Fault>
    requires checked { check_of (circuit_items circuit.now) ≡ None }
    requires table { IsErrorTable (qubits_of (circuit_items circuit.now)) (circuit_items circuit.now) errors.now }
    requires steps { StepsInside (circuit_items circuit.now) errors.now.errors }
    ensures sends { SendsAtOnce (error_lines (circuit_items circuit.now) errors.now) (O.seen out.old) (O.seen out.new) result }
{
    let kinds = kinds_of(circuit, errors.deterministic().len());
    write_all_errors(out, circuit, kinds, errors).map_err(Fault::whole)?;
    finish(out)
}

/// Writes a problem, and flushes.
fn send_problem<O: Output>(out: &mut O, problem: &Problem) -> Result<(), Fault>
    requires countable { IsCountable problem.now }
    ensures sends { SendsAtOnce (problem_text (clauses_of problem.now)) (O.seen out.old) (O.seen out.new) result }
{
    write_problem(out, problem).map_err(Fault::whole)?;
    finish(out)
}

/// Writes the problem of errors, and flushes. Memory may be refused before the first byte.
fn send_problem_of<O: Output>(alloc: Global, out: &mut O, errors: &ErrorTable) -> Result<(), Fault>
    ensures sends { SendsFound (λ bytes. (p : Clauses) × Asks errors.now.table p × (bytes ≡ problem_text p)) (O.seen out.old) (O.seen out.new) result }
{
    match Problem::of(alloc, errors.table()) {
        Ok(problem) => send_problem(out, &problem),
        Err(refusal) => Err(Fault::whole(refusal)),
    }
}

/// Writes errors as the layout says, and flushes.
fn send_layout<O: Output>(
    alloc: Global,
    circuit: &Circuit,
    out: &mut O,
    layout: SearchedLayout,
    errors: &ErrorTable,
) -> Result<(), Fault>
    requires checked { check_of (circuit_items circuit.now) ≡ None }
    requires table { IsErrorTable (qubits_of (circuit_items circuit.now)) (circuit_items circuit.now) errors.now }
    requires steps { StepsInside (circuit_items circuit.now) errors.now.errors }
    ensures sends { SendsFound (IsErrorsText layout (circuit_items circuit.now) errors.now) (O.seen out.old) (O.seen out.new) result }
{
    match layout {
        SearchedLayout::Table => send_errors(out, circuit, errors),
        SearchedLayout::Wcnf => send_problem_of(alloc, out, errors),
    }
}

/// Writes the errors of a circuit, and flushes; or names a bit that is not deterministic.
fn send_searched_errors<O: Output, P: Progress>(
    alloc: Global,
    circuit: &Circuit,
    out: &mut O,
    layout: SearchedLayout,
    options: DistanceOptions,
    progress: &mut P,
) -> Result<(), FaultsRefused>
    requires checked { check_of (circuit_items circuit.now) ≡ None }
    ensures goes_on { GoesOnWithItems (IsSearchedText layout options (circuit_items circuit.now)) options.deterministic_only (circuit_items circuit.now) (random_of result) (O.seen out.old) (O.seen out.new) (fault_of result) }
    ensures reported { HearsErrors options (circuit_items circuit.now) (P.heard progress.old) (P.heard progress.new) }
{
    let errors = searched_errors(alloc, circuit, options)?;
    progress.begins(errors.len());
    Ok(send_layout(alloc, circuit, out, layout, &errors)?)
}

/// Reads a circuit, and writes the errors that `run_distance` searches with these options. As a table they have a line each in its form,
/// such as `1207 3/0/2 X17*Z4 D24 L0`, and the errors of a set flip together what an odd number of their lines name. As a problem in the
/// format `p wcnf` they are its first variables, in order, and a solution that breaks W clauses of weight 1 is a least set of W errors.
///
/// The options `observable`, `most` and `progress` change nothing: `progress` hears of the number of errors alone. Faults are those of
/// `run_distance`. Unless errors are `everywhere`, marks that may be meant in another way are reported on `err` after a call without a fault.
pub fn run_searched_errors<I: Input, O: Output, E: Output, P: Progress>(
    alloc: Global,
    input: &mut I,
    out: &mut O,
    err: &mut E,
    layout: SearchedLayout,
    options: DistanceOptions,
    progress: &mut P,
) -> Result<(), FaultsRefused>
    ensures ends { EndsSearched layout options (I.seen input.old) (I.seen input.new) (O.seen out.old) (O.seen out.new) (fault_of result) (random_of result) }
    ensures reported { ReportsErrors options (I.seen input.old) (I.seen input.new) (P.heard progress.old) (P.heard progress.new) (fault_of result) }
    ensures warns { Warns options.everywhere (I.seen input.old) (I.seen input.new) (E.seen err.old) (E.seen err.new) (fault_of result) }
{
    let circuit = read_circuit(alloc, input)?;
    let doubts = doubts_of(alloc, &circuit, options.everywhere)?;
    send_searched_errors(alloc, &circuit, out, layout, options, progress)?;
    report_doubts(err, &circuit, doubts.as_slice());
    Ok(())
}
