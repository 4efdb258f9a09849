//! Instructions that stand for the same steps, and how many of them two lists of items begin with.
ghost use Rattle.std.specs.Prelude.{◌≡◌, ◌≤◌, ◌+◌, ◌∷◌, [], true, false, length, map, take, IfSome};
ghost use Rattle.std.specs.Bool.{OnTrue};
ghost use Rattle.stab_gates.specs.declared.gate.PairGate.TheVariants as gate;
ghost use Rattle.stab_instructions.specs.Axes.{letter_of};
ghost use Rattle.stab_items.specs.Items.{listed, before, done};
ghost use Rattle.stab_items.specs.Steps.{one, two, collapse, observable, detector, measured as measured_of, measured_product, controlled_step, steps_of, unroll};

use crate::instruction_steps::step_count;
use crate::item::{Item, Part};
use stab_gates::Gate;
use stab_instructions::{
    Axis, ControlledPair, DetectorTargets, Kind, MeasureTarget, Measurement, Pair, Product, Qubit,
};

/// Whether an instruction is this gate on these qubits.
fn is_gate(gate: Gate, qubits: &[Qubit], kind: &Kind) -> bool
    ensures same { OnTrue result (map (one gate) qubits.now ≡ steps_of kind.now) }
{
    match kind {
        Kind::Gate(other, others) => {
            let same_gate = gate == *other;
            let same_list = qubits == others.as_slice();
            same_gate && same_list
        }
        _ => false,
    }
}

/// Whether an instruction is this controlled gate on these pairs.
fn is_controlled(axis: Axis, pairs: &[ControlledPair], kind: &Kind) -> bool
    ensures same { OnTrue result (map (controlled_step axis) pairs.now ≡ steps_of kind.now) }
{
    match kind {
        Kind::Controlled(other, others) => {
            let same_axis = axis == *other;
            let same_list = pairs == others.as_slice();
            same_axis && same_list
        }
        _ => false,
    }
}

/// Whether an instruction is the swap of these pairs.
fn is_swap(pairs: &[Pair], kind: &Kind) -> bool
    ensures same { OnTrue result (map (λ pair. two gate.Swap pair.0 pair.1) pairs.now ≡ steps_of kind.now) }
{
    match kind {
        Kind::Swap(others) => pairs == others.as_slice(),
        _ => false,
    }
}

/// Whether an instruction is this measurement of these targets.
fn is_measurement(measurement: Measurement, targets: &[MeasureTarget], kind: &Kind) -> bool
    ensures same { OnTrue result (map (measured_of measurement) targets.now ≡ steps_of kind.now) }
{
    match kind {
        Kind::Measure(other, others) => {
            let same_measurement = measurement == *other;
            let same_list = targets == others.as_slice();
            same_measurement && same_list
        }
        _ => false,
    }
}

/// Whether an instruction is the reset of these qubits in this axis.
fn is_reset(axis: Axis, qubits: &[Qubit], kind: &Kind) -> bool
    ensures same { OnTrue result (map (λ q. collapse (letter_of axis) q false false true) qubits.now ≡ steps_of kind.now) }
{
    match kind {
        Kind::Reset(other, others) => {
            let same_axis = axis == *other;
            let same_list = qubits == others.as_slice();
            same_axis && same_list
        }
        _ => false,
    }
}

/// Whether products are the same as others, factor by factor.
fn are_products(products: &[Product], others: &[Product]) -> bool
    ensures same { OnTrue result (products.now ≡ others.now) }
{
    if products.len() != others.len() {
        return false;
    }
    for (position, product) in products.iter().enumerate() {
        let same = product.as_slice() == others[position].as_slice();
        if !same {
            return false;
        }
    }
    true
}

/// Whether an instruction is the measurement of these products.
fn measures_products(products: &[Product], kind: &Kind) -> bool
    ensures same { OnTrue result (map measured_product products.now ≡ steps_of kind.now) }
{
    match kind {
        Kind::MeasureProducts(others) => are_products(products, others.as_slice()),
        _ => false,
    }
}

/// Whether an instruction is the detector of the same numbers k of `rec[-k]`.
fn is_detector(targets: &DetectorTargets, kind: &Kind) -> bool
    ensures same { OnTrue result (detector targets.now.1 ∷ [] ≡ steps_of kind.now) }
{
    match kind {
        Kind::Detector(others) => targets.has_same_records(others),
        _ => false,
    }
}

/// Whether an instruction adds to this observable the records of these numbers k of `rec[-k]`.
fn is_observable(number: u32, lookbacks: &[u32], kind: &Kind) -> bool
    ensures same { OnTrue result (observable number lookbacks.now ∷ [] ≡ steps_of kind.now) }
{
    match kind {
        Kind::ObservableInclude(other, others) => {
            let same_number = number == other.number();
            let same_list = lookbacks == others.as_slice();
            same_number && same_list
        }
        _ => false,
    }
}

/// Whether an instruction has no steps.
fn has_no_steps(kind: &Kind) -> bool
    ensures same { OnTrue result ([] ≡ steps_of kind.now) }
{
    matches!(
        kind,
        Kind::Tick | Kind::QubitCoords(_) | Kind::ShiftCoords(_)
    )
}

/// Whether two instructions stand for the same steps. Of those of different kinds it says so
/// only if they have no steps.
pub(crate) fn same_steps(kind: &Kind, other: &Kind) -> bool
    ensures same { OnTrue result (steps_of kind.now ≡ steps_of other.now) }
{
    match kind {
        Kind::Gate(gate, qubits) => is_gate(*gate, qubits.as_slice(), other),
        Kind::Controlled(axis, pairs) => is_controlled(*axis, pairs.as_slice(), other),
        Kind::Swap(pairs) => is_swap(pairs.as_slice(), other),
        Kind::Measure(measurement, targets) => {
            is_measurement(*measurement, targets.as_slice(), other)
        }
        Kind::Reset(axis, qubits) => is_reset(*axis, qubits.as_slice(), other),
        Kind::MeasureProducts(products) => measures_products(products.as_slice(), other),
        Kind::Detector(targets) => is_detector(targets, other),
        Kind::ObservableInclude(observable, records) => {
            is_observable(observable.number(), records.as_slice(), other)
        }
        Kind::Tick | Kind::QubitCoords(_) | Kind::ShiftCoords(_) => has_no_steps(other),
    }
}

/// This many steps and those of an item, if it and another are instructions with the same steps.
/// `None` too if a `usize` can't say how many.
fn with_same(steps: usize, item: &Item, other: &Item) -> Option<usize>
    ensures same { IfSome result (λ n. unroll (before item.now done) ≡ unroll (before other.now done)) }
    ensures count { IfSome result (λ n. n ≡ steps + length (unroll (before item.now done))) }
{
    match (item.part(), other.part()) {
        (Part::Operation { kind, .. }, Part::Operation { kind: again, .. }) => {
            if same_steps(kind, again) {
                steps.checked_add(step_count(kind))
            } else {
                None
            }
        }
        _ => None,
    }
}

/// Items at the front of two lists that have the same steps.
#[derive(Clone, Copy)]
pub(crate) struct SameItems {
    /// How many items these are in each list.
    pub(crate) items: usize,
    /// How many steps they have.
    pub(crate) steps: usize,
}

/// How many of the first items of two lists are instructions with the same steps, one by one.
pub(crate) fn count_same_items(items: &[Item], others: &[Item]) -> SameItems
    ensures within { result.items ≤ length items.now }
    ensures within_others { result.items ≤ length others.now }
    ensures same { unroll (listed (take result.items items.now)) ≡ unroll (listed (take result.items others.now)) }
    ensures steps { result.steps ≡ length (unroll (listed (take result.items items.now))) }
{
    let most = items.len().min(others.len());
    let mut steps = 0;
    for position in 0..most {
        match with_same(steps, &items[position], &others[position]) {
            Some(more) => steps = more,
            None => return SameItems {
                items: position,
                steps,
            },
        }
    }
    SameItems { items: most, steps }
}
