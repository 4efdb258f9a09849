//! The command that finds the distance of each observable in turn.
ghost use Rattle.std.specs.Prelude.{◌≡◌, None, length, IfOk, IfErr};
ghost use Rattle.stab_io.specs.Devices.{WritesAll};
ghost use Rattle.stab_io.specs.declared.refusal.Refusal.TheVariants.{OutOfMemory};
ghost use Rattle.stab_io.specs.Refusals.{whole};
ghost use Rattle.stab_items.specs.Items.{Items};
ghost use Rattle.stab_items.specs.Steps.{check_of};
ghost use Rattle.stab_items.specs.Views.{circuit_items};
ghost use Rattle.stab_error_model.specs.ErrorTables.{StepsInside};
ghost use Rattle.stab_report.specs.SingleErrorTables.{GoesOnWithItems, fault_of, random_of};
ghost use Rattle.stab_report.specs.DoubtLines.{Warns};
ghost use Rattle.stab_report.specs.Distances.{AreDistanceAnswers, AreErrorsOf, EndsEach, HearsErrors, IsDistanceOf, IsEachText, ReportsErrors, answer_texts, for_observable};
ghost use Rattle.stab_commands.specs.inner.Faults.{SendsAtOnce};

use crate::distance::{search, write_answer};
use crate::doubts::doubts_of;
use crate::searched::searched_errors;
use stab_circuit::{Circuit, read_circuit};
use stab_error_model::ErrorTable;
use stab_io::{Fault, Input, Output, Refusal};
use stab_jobs::DistanceOptions;
use stab_report::{FaultsRefused, finish, report_doubts};
use stab_search::{Answer, Progress, Unwatched};
use std::alloc::Global;

/// The same options, for one observable.
fn for_observable(options: DistanceOptions, number: usize) -> DistanceOptions
    ensures value { result ≡ for_observable options number }
{
    DistanceOptions {
        observable: Some(number),
        ..options
    }
}

/// The answer about one observable. The only refusal is `OutOfMemory`.
fn answer_of(
    alloc: Global,
    errors: &ErrorTable,
    number: usize,
    options: DistanceOptions,
) -> Result<Answer, Fault>
    ensures found { IfOk result (λ a. (items : Items) → AreErrorsOf options items errors.now → IsDistanceOf (for_observable options number) items errors.now a) }
    ensures err { IfErr result (λ f. f ≡ whole OutOfMemory) }
{
    let mut progress = Unwatched;
    match search(
        alloc,
        errors,
        for_observable(options, number),
        &mut progress,
    ) {
        Ok(answer) => Ok(answer),
        Err(refusal) => Err(Fault::whole(refusal)),
    }
}

/// The answers about this many observables, from the first on. The only refusal is `OutOfMemory`.
fn answers_of(
    alloc: Global,
    errors: &ErrorTable,
    count: usize,
    options: DistanceOptions,
) -> Result<Vec<Answer>, Fault>
    ensures found { IfOk result (λ v. (items : Items) → AreErrorsOf options items errors.now → AreDistanceAnswers options items errors.now 0 v.items) }
    ensures each { IfOk result (λ v. length v.items ≡ count) }
    ensures err { IfErr result (λ f. f ≡ whole OutOfMemory) }
{
    let mut answers = Vec::new(alloc);
    'observables: for number in 0..count {
        let answer = answer_of(alloc, errors, number, options)?;
        answers.push(answer)?;
    }
    Ok(answers)
}

/// Writes answers about observables, from the first on.
fn write_answers<O: Output>(
    out: &mut O,
    circuit: &Circuit,
    errors: &ErrorTable,
    answers: &[Answer],
    options: DistanceOptions,
) -> Result<(), Refusal>
    requires checked { check_of (circuit_items circuit.now) ≡ None }
    requires found { AreDistanceAnswers options (circuit_items circuit.now) errors.now 0 answers.now }
    requires steps { StepsInside (circuit_items circuit.now) errors.now.errors }
    ensures writes { WritesAll (O.seen out.old) (O.seen out.new) (answer_texts options (circuit_items circuit.now) errors.now 0 answers.now) result }
{
    'answers: for (number, answer) in answers.iter().enumerate() {
        let asked = for_observable(options, number);
        write_answer(out, circuit, asked, errors, answer)?;
    }
    Ok(())
}

/// Writes answers about observables, from the first on, and flushes.
fn send_answers<O: Output>(
    out: &mut O,
    circuit: &Circuit,
    errors: &ErrorTable,
    answers: &[Answer],
    options: DistanceOptions,
) -> Result<(), Fault>
    requires checked { check_of (circuit_items circuit.now) ≡ None }
    requires found { AreDistanceAnswers options (circuit_items circuit.now) errors.now 0 answers.now }
    requires steps { StepsInside (circuit_items circuit.now) errors.now.errors }
    ensures sends { SendsAtOnce (answer_texts options (circuit_items circuit.now) errors.now 0 answers.now) (O.seen out.old) (O.seen out.new) result }
{
    write_answers(out, circuit, errors, answers, options).map_err(Fault::whole)?;
    finish(out)
}

/// Writes the distance of each observable of a circuit in turn, and flushes; or names a bit that is not deterministic.
fn send_each_distance<O: Output, P: Progress>(
    alloc: Global,
    circuit: &Circuit,
    out: &mut O,
    options: DistanceOptions,
    progress: &mut P,
) -> Result<(), FaultsRefused>
    requires checked { check_of (circuit_items circuit.now) ≡ None }
    ensures goes_on { GoesOnWithItems (IsEachText options (circuit_items circuit.now)) options.deterministic_only (circuit_items circuit.now) (random_of result) (O.seen out.old) (O.seen out.new) (fault_of result) }
    ensures reported { HearsErrors options (circuit_items circuit.now) (P.heard progress.old) (P.heard progress.new) }
{
    let errors = searched_errors(alloc, circuit, options)?;
    progress.begins(errors.len());
    let answers = answers_of(alloc, &errors, circuit.observables(), options)?;
    Ok(send_answers(out, circuit, &errors, answers.as_slice(), options)?)
}

/// Reads a circuit, and writes for each of its observables in turn what `run_distance` writes with these options and this
/// `observable`. The errors are made once. A circuit without observables has nothing written.
///
/// All answers are found before the first byte. The options `observable` and `progress` change nothing: `progress` hears of
/// the number of errors alone. Faults are those of `run_distance`. Unless errors are `everywhere`, marks that may be meant in
/// another way are reported on `err` after a call without a fault.
pub fn run_each_distance<I: Input, O: Output, E: Output, P: Progress>(
    alloc: Global,
    input: &mut I,
    out: &mut O,
    err: &mut E,
    options: DistanceOptions,
    progress: &mut P,
) -> Result<(), FaultsRefused>
    ensures ends { EndsEach options (I.seen input.old) (I.seen input.new) (O.seen out.old) (O.seen out.new) (fault_of result) (random_of result) }
    ensures reported { ReportsErrors options (I.seen input.old) (I.seen input.new) (P.heard progress.old) (P.heard progress.new) (fault_of result) }
    ensures warns { Warns options.everywhere (I.seen input.old) (I.seen input.new) (E.seen err.old) (E.seen err.new) (fault_of result) }
{
    let circuit = read_circuit(alloc, input)?;
    let doubts = doubts_of(alloc, &circuit, options.everywhere)?;
    send_each_distance(alloc, &circuit, out, options, progress)?;
    report_doubts(err, &circuit, doubts.as_slice());
    Ok(())
}
