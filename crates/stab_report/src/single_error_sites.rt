//! The sites for single errors at a step of a circuit, one by one.
ghost use Rattle.std.specs.Prelude.{◌≡◌, true, false, slice_get, [], ◌∷◌, None, if◌then◌else◌};
ghost use Rattle.std.specs.List.{flat_map};
ghost use Rattle.stab_items.specs.Steps.{one};
ghost use Rattle.stab_items.specs.StepValues.{step_shown};
ghost use Rattle.stab_regions.specs.SingleErrors.{all_at, following, in_front, marked_at, sites_at};
ghost use Rattle.stab_report.specs.inner.SingleErrorSites.{factor_sites, site_found, site_shown};

use stab_circuit::Step;
use stab_instructions::Factor;
use stab_tableau::Gate;

/// A site for single errors: a qubit, in front of a step or after it.
#[derive(Clone, Copy)]
pub(crate) struct Site {
    pub qubit: usize,
    pub following: bool,
}

/// A qubit in front of a step.
fn in_front(qubit: usize) -> Site
    ensures value { site_shown result ≡ in_front qubit }
{
    Site {
        qubit,
        following: false,
    }
}

/// A qubit after a step.
fn following(qubit: usize) -> Site
    ensures value { site_shown result ≡ following qubit }
{
    Site {
        qubit,
        following: true,
    }
}

/// The site of this number, if there is one.
fn one_site(site: Site, number: usize) -> Option<Site>
    ensures value { site_found result ≡ slice_get (site_shown site ∷ []) number }
{
    if number == 0 { Some(site) } else { None }
}

/// The site of this number, if there are two.
fn two_sites(first: Site, second: Site, number: usize) -> Option<Site>
    ensures value { site_found result ≡ slice_get (site_shown first ∷ site_shown second ∷ []) number }
{
    match number {
        0 => Some(first),
        1 => Some(second),
        _ => None,
    }
}

/// The site of this number in front of the factors of a product and after them.
fn factor_site(factors: &[Factor], number: usize) -> Option<Site>
    ensures value { site_found result ≡ slice_get (flat_map factor_sites factors.now) number }
{
    let factor = number / 2;
    if factor >= factors.len() {
        return None;
    }
    let qubit = factors[factor].qubit.number();
    two_sites(in_front(qubit), following(qubit), number % 2)
}

/// The site of this number that a gate marks.
fn gate_site(gate: Gate, qubit: usize, number: usize) -> Option<Site>
    ensures value { site_found result ≡ slice_get (marked_at (one gate qubit)) number }
{
    match gate {
        Gate::I => one_site(in_front(qubit), number),
        _ => None,
    }
}

/// The site of this number that a step marks.
fn marked_site(step: Step, number: usize) -> Option<Site>
    ensures value { site_found result ≡ slice_get (marked_at (step_shown step.entry)) number }
{
    match step {
        Step::One(gate, qubit) => gate_site(gate, qubit, number),
        _ => None,
    }
}

/// The site of this number at a measurement or a reset of a letter.
fn collapse_site(qubit: usize, recorded: bool, number: usize) -> Option<Site>
    ensures value { site_found result ≡ slice_get (if recorded then in_front qubit ∷ following qubit ∷ [] else following qubit ∷ []) number }
{
    if recorded {
        two_sites(in_front(qubit), following(qubit), number)
    } else {
        one_site(following(qubit), number)
    }
}

/// The site of this number among all at a step.
fn any_site(step: Step, number: usize) -> Option<Site>
    ensures value { site_found result ≡ slice_get (all_at (step_shown step.entry)) number }
{
    match step {
        Step::One(_, qubit) => one_site(following(qubit), number),
        Step::Two(_, first, second) => two_sites(following(first), following(second), number),
        Step::Controlled(_, _, qubit) => one_site(following(qubit), number),
        Step::Collapse {
            qubit,
            recorded,
            ..
        } => collapse_site(qubit, recorded, number),
        Step::Product { factors, .. } => factor_site(factors, number),
        Step::Detector(_) => None,
        Step::Observable(_, _) => None,
    }
}

/// The site of this number, counted from 0, if single errors are asked for at a step: everywhere, or
/// where it marks them.
pub(crate) fn site_at(step: Step, everywhere: bool, number: usize) -> Option<Site>
    ensures value { site_found result ≡ slice_get (sites_at everywhere (step_shown step.entry)) number }
{
    if everywhere {
        any_site(step, number)
    } else {
        marked_site(step, number)
    }
}
