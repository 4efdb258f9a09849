//! The single errors that are asked for of a circuit, in the order of its steps.
ghost use Rattle.std.specs.Prelude.{◌≡◌, ◌≤◌, ◌++◌, ◌∷◌, [], None, map, IfOk, IfErr, OnOk};
ghost use Rattle.std.specs.List.{flat_map};
ghost use Rattle.stab_io.specs.declared.refusal.Refusal.TheVariants.{OutOfMemory};
ghost use Rattle.stab_items.specs.Steps.{check_of, most_steps, unroll};
ghost use Rattle.stab_items.specs.StepValues.{step_shown};
ghost use Rattle.stab_items.specs.Views.{circuit_items};
ghost use Rattle.stab_regions.specs.SingleErrors.{single_error_on, single_errors_of, single_errors_on, sites_at};
ghost use Rattle.stab_report.specs.PlacedSingleErrors.{single_error_placed};
ghost use Rattle.stab_report.specs.inner.SingleErrorSites.{site_shown};

use crate::single_error_sites::{Site, site_at};
use stab_circuit::{Circuit, Cursor, Step};
use stab_io::Refusal;
use stab_pauli::Letter;
use std::alloc::{AllocError, Global};

/// A single error: a letter on a qubit between two steps.
#[derive(Clone, Copy)]
pub struct PlacedSingleError {
    pub letter: Letter,
    pub qubit: usize,
    /// How many steps are in front of it.
    pub before: usize,
    /// The number of the step that it is at.
    pub step: usize,
}

/// The single error of a letter at a site of step number `step`.
fn single_error_at(step: usize, site: Site, letter: Letter) -> PlacedSingleError
    requires few { step ≤ most_steps }
    ensures value { single_error_placed result ≡ single_error_on step (site_shown site) letter }
{
    let before = if site.following { step + 1 } else { step };
    PlacedSingleError {
        letter,
        qubit: site.qubit,
        before,
        step,
    }
}

/// Puts the single errors of X and of Z at a site of step number `step` after others.
fn push_site(
    single_errors: &mut Vec<PlacedSingleError>,
    step: usize,
    site: Site,
) -> Result<(), AllocError>
    requires few { step ≤ most_steps }
    ensures single_errors { OnOk result (map single_error_placed single_errors.new.items ≡ map single_error_placed single_errors.old.items ++ single_errors_on step (site_shown site)) }
{
    single_errors.push(single_error_at(step, site, Letter::X))?;
    single_errors.push(single_error_at(step, site, Letter::Z))?;
    Ok(())
}

/// Puts the single errors at a step, of this number, after others.
fn push_step(
    single_errors: &mut Vec<PlacedSingleError>,
    everywhere: bool,
    step: Step,
    number: usize,
) -> Result<(), AllocError>
    requires few { number ≤ most_steps }
    ensures single_errors { OnOk result (map single_error_placed single_errors.new.items ≡ map single_error_placed single_errors.old.items ++ flat_map (single_errors_on number) (sites_at everywhere (step_shown step.entry))) }
{
    let mut position = 0;
    'positions: while let Some(site) = site_at(step, everywhere, position) {
        push_site(single_errors, number, site)?;
        // Faults are numbered by a usize, so the sum below is not too great.
        let _ = single_errors.len();
        position += 1;
    }
    Ok(())
}

/// The single errors of a circuit, as `single_errors` of `stab_regions` takes them: X and then Z at each site that is marked, or everywhere.
///
/// Refusal `OutOfMemory` alone.
pub fn placed_single_errors(
    alloc: Global,
    circuit: &Circuit,
    everywhere: bool,
) -> Result<Vec<PlacedSingleError>, Refusal>
    requires checked { check_of (circuit_items circuit.now) ≡ None }
    ensures value { IfOk result (λ v. map single_error_placed v.items ≡ single_errors_of everywhere (unroll (circuit_items circuit.now))) }
    ensures err { IfErr result (λ r. r ≡ OutOfMemory) }
{
    let mut single_errors = Vec::new(alloc);
    let mut cursor = Cursor::at(alloc, circuit, 0)?;
    let mut number = 0;
    'steps: while let Some(step) = cursor.next() {
        push_step(&mut single_errors, everywhere, step, number)?;
        number += 1;
    }
    Ok(single_errors)
}
