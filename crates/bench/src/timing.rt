ghost use Rattle.std.specs.Prelude.{◌≡◌, ◌<◌, ◌≤◌, IfOk};
ghost use Rattle.stab_gates.specs.Limits.{most_qubits};

use super::columns::print_row;
use super::failure::Failure;
use super::work::{self, TimedWork, Work};
use super::{clock, state};
use stab_pauli::{Letter, Refusal};
use stab_tableau::{Gate, PairGate, Tableau};
use std::alloc::Global;
use std::num::nearest_usize_to_f64;
use std::time::CpuClock;

/// The best of this many rounds counts, since other programs disturb the rest.
const ROUNDS: u32 = 9;

/// Prints a table of the times of all works on n qubits.
pub fn print_table<R: CpuClock + AllocGlobal + Print>(rt: &R, n: usize) -> Result<(), Failure>
    requires several { 1 < n }
    requires in_range { n ≤ most_qubits }
{
    println!(rt; "n = {n}: nanoseconds a call")?;
    for timed in work::ALL {
        let time = nanoseconds(rt, n, *timed)?;
        print_row(rt, &[(time, 11, 1)], timed.name)?;
    }
    Ok(())
}

/// How many nanoseconds of processor time a call of a work takes on n qubits, by the best of several
/// rounds.
fn nanoseconds<R: CpuClock + AllocGlobal>(
    rt: &R,
    n: usize,
    timed: TimedWork,
) -> Result<f64, Failure>
    requires several { 1 < n }
    requires in_range { n ≤ most_qubits }
{
    let mut least = f64::INFINITY;
    for _ in 0..ROUNDS {
        least = least.min(time_of_round(rt, n, timed)?);
    }
    Ok(least * 1e9 / nearest_usize_to_f64(passes(timed, n)) / nearest_usize_to_f64(n))
}

/// How many passes over the qubits a round has.
fn passes(timed: TimedWork, n: usize) -> usize
    requires above_zero { 0 < n }
{
    (timed.calls / n).max(1)
}

/// The seconds of a round, from the state that its work starts from.
fn time_of_round<R: CpuClock + AllocGlobal>(
    rt: &R,
    n: usize,
    timed: TimedWork,
) -> Result<f64, Failure>
    requires several { 1 < n }
    requires in_range { n ≤ most_qubits }
{
    let mut tableau = start_of(rt.alloc(), n, timed.from_zeros)?;
    time_of_passes(rt, &mut tableau, passes(timed, n), timed.work)
}

/// The state of n qubits that a work starts from.
fn start_of(alloc: Global, n: usize, from_zeros: bool) -> Result<Tableau, Refusal>
    requires in_range { n ≤ most_qubits }
    ensures qubits { IfOk result (λ t. t.qubits ≡ n) }
{
    if from_zeros {
        Tableau::new(alloc, n)
    } else {
        state::scrambled(alloc, n)
    }
}

/// The seconds of the passes of a round.
fn time_of_passes<R: CpuClock>(
    rt: &R,
    tableau: &mut Tableau,
    passes: usize,
    work: Work,
) -> Result<f64, Failure>
    requires several { 1 < tableau.old.qubits }
{
    let start = clock::now(rt);
    for _ in 0..passes {
        perform_on_all(tableau, work);
    }
    clock::since(rt, start)
}

/// Does a piece of work once on each of the qubits.
fn perform_on_all(tableau: &mut Tableau, work: Work)
    requires several { 1 < tableau.old.qubits }
    ensures qubits { tableau.new.qubits ≡ tableau.old.qubits }
{
    for qubit in 0..tableau.len() {
        perform(tableau, work, qubit);
    }
}

/// Does a work once on a qubit.
fn perform(tableau: &mut Tableau, work: Work, qubit: usize)
    requires several { 1 < tableau.old.qubits }
    requires in_range { qubit < tableau.old.qubits }
    ensures qubits { tableau.new.qubits ≡ tableau.old.qubits }
{
    match work {
        Work::Cx => {
            let other = state::after(qubit, 1, tableau.len());
            tableau.apply_pair(PairGate::Cx, qubit, other);
        }
        Work::Measure => measure(tableau, qubit),
        Work::RandomDistinct => {
            tableau.apply(Gate::H, qubit);
            measure(tableau, qubit);
        }
    }
}

/// Measures Z on a qubit.
fn measure(tableau: &mut Tableau, qubit: usize)
    requires in_range { qubit < tableau.old.qubits }
    ensures qubits { tableau.new.qubits ≡ tableau.old.qubits }
{
    let _ = tableau.collapse_letter(Letter::Z, qubit, true);
}
