ghost use Rattle.std.specs.Prelude.{◌≡◌, ◌<◌, length, slice_index};
ghost use Rattle.stab_items.specs.StepValues.{step_shown};
ghost use Rattle.stab_regions.specs.inner.Sites.{sides_asked, marks, all_sides as all_sides_of, step_qubits};

use stab_items::Step;
use stab_tableau::Gate;

/// Where single errors are asked for.
#[derive(Clone, Copy)]
pub(crate) enum Asked {
    Nowhere,
    /// At each target of the gate that does nothing.
    Marked,
    Everywhere,
}

/// On which sides of a step single errors are asked for, on each of its qubits.
#[derive(Clone, Copy)]
pub(crate) struct Sides {
    pub front: bool,
    pub following: bool,
}

/// The sides of a step where single errors are asked for.
pub fn sides_at(asked: Asked, step: Step) -> Sides
    ensures value { result ≡ sides_asked asked (step_shown step.entry) }
{
    match asked {
        Asked::Nowhere => Sides {
            front: false,
            following: false,
        },
        Asked::Marked => Sides {
            front: is_marked(step),
            following: false,
        },
        Asked::Everywhere => all_sides(step),
    }
}

/// Whether a step is the gate that does nothing.
fn is_marked(step: Step) -> bool
    ensures value { result ≡ marks (step_shown step.entry) }
{
    match step {
        Step::One(Gate::I, _) => true,
        _ => false,
    }
}

/// All sides of a step that single errors may be on.
fn all_sides(step: Step) -> Sides
    ensures value { result ≡ all_sides_of (step_shown step.entry) }
{
    let (front, following) = match step {
        Step::One(_, _) | Step::Two(_, _, _) | Step::Controlled(_, _, _) => (false, true),
        Step::Collapse { recorded, .. } => (recorded, true),
        Step::Product { .. } => (true, true),
        Step::Detector(_) | Step::Observable(_, _) => (false, false),
    };
    Sides { front, following }
}

/// How many qubits a step is on.
pub fn qubits_in(step: Step) -> usize
    ensures value { result ≡ length (step_qubits (step_shown step.entry)) }
{
    match step {
        Step::One(_, _) | Step::Controlled(_, _, _) | Step::Collapse { .. } => 1,
        Step::Two(_, _, _) => 2,
        Step::Product { factors, .. } => factors.len(),
        Step::Detector(_) | Step::Observable(_, _) => 0,
    }
}

/// One of a step's qubits.
pub fn qubit_in(step: Step, k: usize) -> usize
    requires in_range { k < length (step_qubits (step_shown step)) }
    ensures value { result ≡ slice_index (step_qubits (step_shown step.entry)) k }
{
    match step {
        Step::One(_, qubit) | Step::Controlled(_, _, qubit) | Step::Collapse { qubit, .. } => qubit,
        Step::Two(_, first, second) => { if k == 0 { first } else { second } }
        Step::Product { factors, .. } => factors[k].qubit.number(),
        Step::Detector(_) | Step::Observable(_, _) => 0,
    }
}
