ghost use Rattle.std.specs.Prelude.{◌≡◌, ◌≤◌, None, map, IfOk, IfErr};
ghost use Rattle.stab_io.specs.declared.refusal.Refusal.TheVariants.{OutOfMemory};
ghost use Rattle.stab_gates.specs.Limits.{most_qubits};
ghost use Rattle.stab_items.specs.Steps.{check_within, unroll};
ghost use Rattle.stab_items.specs.Views.{circuit_items};
ghost use Rattle.stab_regions.specs.Effects.{effect_of_single_error};
ghost use Rattle.stab_regions.specs.SingleErrors.{single_errors_of};

use crate::single_error_rows::SingleErrorRows;
use crate::single_error_table::asked_for;
use crate::sweep::{Sweep, sweep_back};
use crate::walk::Numbered;
use stab_io::Refusal;
use stab_items::Circuit;
use std::alloc::Global;
use std::marker::Model;

/// What each single error of a circuit flips and leaves. Contracts see for each, in the order of `specs/SingleErrors.antt`, the numbers of what it
/// flips, ascending: records, then detectors, then observables, and then the parts of the letters that are left at the end, X and then
/// Z on each qubit.
pub struct EffectTable {
    // The last single error's row first.
    rows: SingleErrorRows,
}

// Written out, so that a proof sees the drop of a value as one call, and not one for each of its parts.
impl Drop for EffectTable {
    fn drop(self) {
        let EffectTable { rows: _ } = self;
    }
}

impl Model for EffectTable {
    ghost use Rattle.std.specs.Prelude.{ℕ, List, reverse};

    ghost Value = { List (List ℕ) };

    ghost view = { λ t. reverse t.rows };
}

impl EffectTable {
    ghost use Rattle.std.specs.Prelude.{◌≡◌, ◌<◌, [], length, slice_index_or};

    /// The numbers of a single error. Single errors are numbered from 0.
    pub fn row(&self, single_error: usize) -> &[u32]
        requires in_range { single_error < length self.now }
        ensures value { result.now ≡ slice_index_or self.now single_error [] }
    {
        self.rows.row(self.rows.len() - 1 - single_error)
    }
}

/// What each single error of a circuit that was checked on n qubits, at most 1,024, flips and leaves: X and Z at each site that it marks by a
/// gate I, or everywhere.
///
/// Refusal `OutOfMemory` alone.
pub fn single_error_effects(
    alloc: Global,
    circuit: &Circuit,
    n: usize,
    everywhere: bool,
) -> Result<EffectTable, Refusal>
    requires in_range { n ≤ most_qubits }
    requires checked { check_within n (circuit_items circuit.now) ≡ None }
    ensures rows { IfOk result (λ t. t ≡ map (effect_of_single_error n (circuit_items circuit.now)) (single_errors_of everywhere (unroll (circuit_items circuit.now)))) }
    ensures err { IfErr result (λ r. r ≡ OutOfMemory) }
{
    let asked = asked_for(everywhere);
    let Sweep { rows, .. } = sweep_back(alloc, circuit, n, Numbered::Effects, asked)?;
    Ok(EffectTable { rows })
}
