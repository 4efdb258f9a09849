ghost use Rattle.std.specs.Prelude.{◌≡◌, ◌≤◌, None, IfOk, IfErr};
ghost use Rattle.stab_io.specs.Refusals.{Refuses};
ghost use Rattle.stab_io.specs.declared.refusal.Refusal.TheVariants.{OutOfMemory};
ghost use Rattle.stab_gates.specs.Limits.{most_qubits};
ghost use Rattle.stab_items.specs.Steps.{Step, check_within};
ghost use Rattle.stab_items.specs.Views.{circuit_items};
ghost use Rattle.stab_regions.specs.SingleErrors.{AreDeterministic, IsSingleErrorTable, RowsAdd, sites_at};
ghost use Rattle.stab_regions.specs.inner.Sites.{sites_asked};

use crate::single_error_laws::{
    deterministic_parities, single_errors_add, single_errors_flip_parities,
};
use crate::single_error_rows::SingleErrorRows;
use crate::sites::Asked;
use crate::sweep::{Sweep, sweep_back};
use crate::walk::Numbered;
use stab_io::{Fault, Refusal};
use stab_items::Circuit;
use std::alloc::Global;
use std::marker::Model;

/// Which detectors and observables are deterministic, and which of these each single error flips.
///
/// Contracts see a bit for each detector and then each observable, and for each single error, in the order
/// of `specs/SingleErrors.antt`, the numbers of the deterministic ones that it flips, ascending: detectors are
/// numbered from 0, and observables after them.
pub struct SingleErrorTable {
    deterministic: Vec<bool>,
    // The last single error's row first.
    rows: SingleErrorRows,
}

// Written out, so that a proof sees the drop of a value as one call, and not one for each of its parts.
impl Drop for SingleErrorTable {
    fn drop(self) {
        let SingleErrorTable {
            deterministic: _,
            rows: _,
        } = self;
    }
}

impl Model for SingleErrorTable {
    ghost use Rattle.std.specs.Prelude.{reverse};
    ghost use Rattle.stab_regions.specs.SingleErrorTables.{SingleErrorTableState};

    ghost Value = { SingleErrorTableState };

    ghost view = { λ t. record { deterministic = t.deterministic.items; rows = reverse t.rows } };
}

impl SingleErrorTable {
    ghost use Rattle.std.specs.Prelude.{◌≡◌, ◌<◌, [], length, slice_index_or};

    /// For each detector and then each observable, whether its bit is the same for all random bits.
    pub fn deterministic(&self) -> &[bool]
        ensures value { result.now ≡ self.now.deterministic }
    {
        self.deterministic.as_slice()
    }

    /// How many single errors there are.
    pub fn len(&self) -> usize
        ensures value { result ≡ length self.now.rows }
    {
        self.rows.len()
    }

    /// The numbers of the deterministic detectors and observables that a single error flips, ascending. Single errors are
    /// numbered from 0.
    pub fn row(&self, single_error: usize) -> &[u32]
        requires in_range { single_error < length self.now.rows }
        ensures value { result.now ≡ slice_index_or self.now.rows single_error [] }
    {
        self.rows.row(self.rows.len() - 1 - single_error)
    }
}

/// For each detector of a circuit on n qubits, at most 1,024, and then each observable, whether its
/// bit is the same for all random bits.
///
/// Refused as `Circuit::check` refuses, else `OutOfMemory`, always with line 0.
pub fn deterministic(alloc: Global, circuit: &Circuit, n: usize) -> Result<Vec<bool>, Fault>
    requires in_range { n ≤ most_qubits }
    ensures deterministic { IfOk result (λ s. AreDeterministic n (circuit_items circuit.now) s.items) }
    ensures refused { Refuses result (check_within n (circuit_items circuit.now)) }
{
    circuit.check(n)?;
    deterministic_of_checked(alloc, circuit, n).map_err(Fault::whole)
}

/// The table of the single errors of a circuit on n qubits, at most 1,024: a letter X or Z between two steps,
/// at each site that the circuit marks by a gate I, or everywhere, on each qubit of a step, in front
/// of it if it makes a record, and after it.
///
/// Single errors that go wrong in one run, in whatever order they are listed, flip together the deterministic bits that
/// an odd number of their rows name.
///
/// Refused as `Circuit::check` refuses, else `OutOfMemory`, always with line 0.
pub fn single_errors(
    alloc: Global,
    circuit: &Circuit,
    n: usize,
    everywhere: bool,
) -> Result<SingleErrorTable, Fault>
    requires in_range { n ≤ most_qubits }
    ensures table { IfOk result (λ t. IsSingleErrorTable n everywhere (circuit_items circuit.now) t.deterministic t.rows) }
    ensures adds { IfOk result (λ t. RowsAdd n everywhere (circuit_items circuit.now) t.rows) }
    ensures refused { Refuses result (check_within n (circuit_items circuit.now)) }
{
    circuit.check(n)?;
    single_errors_of_checked(alloc, circuit, n, everywhere).map_err(Fault::whole)
}

/// Which bits of a circuit that was checked are deterministic.
fn deterministic_of_checked(
    alloc: Global,
    circuit: &Circuit,
    n: usize,
) -> Result<Vec<bool>, Refusal>
    requires checked { check_within n (circuit_items circuit.now) ≡ None }
    ensures deterministic { IfOk result (λ s. AreDeterministic n (circuit_items circuit.now) s.items) }
    ensures err { IfErr result (λ r. r ≡ OutOfMemory) }
{
    let Sweep { walk, .. } = sweep_back(alloc, circuit, n, Numbered::Parities, Asked::Nowhere)?;
    deterministic_parities();
    Ok(walk.deterministic())
}

/// Where single errors are asked for.
pub(crate) fn asked_for(everywhere: bool) -> Asked
    ensures value { (x : Step) → sites_asked result x ≡ sites_at everywhere x }
{
    if everywhere {
        Asked::Everywhere
    } else {
        Asked::Marked
    }
}

/// The single error table of a circuit that was checked.
fn single_errors_of_checked(
    alloc: Global,
    circuit: &Circuit,
    n: usize,
    everywhere: bool,
) -> Result<SingleErrorTable, Refusal>
    requires checked { check_within n (circuit_items circuit.now) ≡ None }
    ensures table { IfOk result (λ t. IsSingleErrorTable n everywhere (circuit_items circuit.now) t.deterministic t.rows) }
    ensures adds { IfOk result (λ t. RowsAdd n everywhere (circuit_items circuit.now) t.rows) }
    ensures err { IfErr result (λ r. r ≡ OutOfMemory) }
{
    let asked = asked_for(everywhere);
    let Sweep { walk, mut rows, .. } = sweep_back(alloc, circuit, n, Numbered::Parities, asked)?;
    deterministic_parities();
    single_errors_flip_parities();
    single_errors_add();
    let deterministic = walk.deterministic();
    rows.keep(deterministic.as_slice());
    Ok(SingleErrorTable {
        deterministic,
        rows,
    })
}
