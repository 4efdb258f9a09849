ghost use Rattle.std.specs.Prelude.{◌≡◌, ◌<◌, ◌+◌, ◌^◌, [], ◌∷◌, true, false, length, map, slice_get, IfSome};
ghost use Rattle.stab_gates.specs.declared.gate.PairGate.TheVariants as gate;
ghost use Rattle.stab_instructions.specs.Axes.{letter_of};
ghost use Rattle.stab_items.specs.Steps.{one, two, collapse, measured as measured_of, is_inverted as is_inverted_of, measured_product as measured_product_step, controlled_gate as controlled_gate_of, controlled_step, steps_of, HasDistinctQubits};
ghost use Rattle.stab_items.specs.StepValues.{step_shown, shown_step};

use crate::step::Step;
use stab_gates::{Gate, PairGate};
use stab_instructions::{
    Axis, ControlledPair, Factor, Kind, MeasureTarget, Measurement, Pair, Product, Qubit,
};

/// The step of a measured target.
pub fn measured_step(measurement: Measurement, target: MeasureTarget) -> Step<'static>
    ensures value { step_shown result ≡ measured_of measurement target }
{
    Step::Collapse {
        letter: measurement.axis.letter(),
        qubit: target.qubit.number(),
        recorded: true,
        inverted: target.inverted,
        reset: measurement.resets,
    }
}

/// Whether the record of a product is inverted.
fn is_inverted(factors: &[Factor]) -> bool
    ensures value { result ≡ is_inverted_of factors.now }
{
    let mut inverted = false;
    for factor in factors {
        inverted ^= factor.inverted;
    }
    inverted
}

/// The step of a measured product.
fn measured_product(product: &Product) -> Step
    ensures value { step_shown result ≡ measured_product_step product.now }
    ensures distinct { HasDistinctQubits (step_shown result) }
{
    let factors = product.as_slice();
    Step::Product {
        factors,
        inverted: is_inverted(factors),
    }
}

/// The gate that applies X, Y or Z under the control of a qubit.
pub fn controlled_gate(axis: Axis) -> PairGate
    ensures value { result ≡ controlled_gate_of axis }
{
    match axis {
        Axis::X => PairGate::Cx,
        Axis::Y => PairGate::Cy,
        Axis::Z => PairGate::Cz,
    }
}

/// The step of a pair of a controlled gate.
fn controlled(axis: Axis, pair: &ControlledPair) -> Step<'static>
    ensures value { step_shown result ≡ controlled_step axis pair.now }
    ensures distinct { HasDistinctQubits (step_shown result) }
{
    match pair {
        ControlledPair::Qubits(pair) => {
            let first = pair.first().number();
            Step::Two(controlled_gate(axis), first, pair.second().number())
        }
        ControlledPair::Record(qubit, lookback) => {
            Step::Controlled(axis.letter(), lookback.number(), qubit.number())
        }
    }
}

fn gate_at(gate: Gate, qubits: &[Qubit], position: usize) -> Option<Step<'static>>
    ensures value { shown_step result ≡ slice_get (map (one gate) qubits.now) position }
    ensures distinct { IfSome result (λ s. HasDistinctQubits (step_shown s)) }
    ensures room { IfSome result (λ s. position + 1 < 2 ^ 64) }
{
    match qubits.get(position) {
        Some(qubit) => Some(Step::One(gate, qubit.number())),
        None => None,
    }
}

fn controlled_at(axis: Axis, pairs: &[ControlledPair], position: usize) -> Option<Step<'static>>
    ensures value { shown_step result ≡ slice_get (map (controlled_step axis) pairs.now) position }
    ensures distinct { IfSome result (λ s. HasDistinctQubits (step_shown s)) }
    ensures room { IfSome result (λ s. position + 1 < 2 ^ 64) }
{
    match pairs.get(position) {
        Some(pair) => Some(controlled(axis, pair)),
        None => None,
    }
}

fn swap_at(pairs: &[Pair], position: usize) -> Option<Step<'static>>
    ensures value { shown_step result ≡ slice_get (map (λ pair. two gate.Swap pair.0 pair.1) pairs.now) position }
    ensures distinct { IfSome result (λ s. HasDistinctQubits (step_shown s)) }
    ensures room { IfSome result (λ s. position + 1 < 2 ^ 64) }
{
    match pairs.get(position) {
        Some(pair) => {
            let first = pair.first().number();
            Some(Step::Two(PairGate::Swap, first, pair.second().number()))
        }
        None => None,
    }
}

fn measurement_at(
    measurement: Measurement,
    targets: &[MeasureTarget],
    position: usize,
) -> Option<Step<'static>>
    ensures value { shown_step result ≡ slice_get (map (measured_of measurement) targets.now) position }
    ensures distinct { IfSome result (λ s. HasDistinctQubits (step_shown s)) }
    ensures room { IfSome result (λ s. position + 1 < 2 ^ 64) }
{
    match targets.get(position) {
        Some(target) => Some(measured_step(measurement, *target)),
        None => None,
    }
}

fn reset_at(axis: Axis, qubits: &[Qubit], position: usize) -> Option<Step<'static>>
    ensures value { shown_step result ≡ slice_get (map (λ q. collapse (letter_of axis) q false false true) qubits.now) position }
    ensures distinct { IfSome result (λ s. HasDistinctQubits (step_shown s)) }
    ensures room { IfSome result (λ s. position + 1 < 2 ^ 64) }
{
    match qubits.get(position) {
        Some(qubit) => Some(Step::Collapse {
            letter: axis.letter(),
            qubit: qubit.number(),
            recorded: false,
            inverted: false,
            reset: true,
        }),
        None => None,
    }
}

fn product_at(products: &[Product], position: usize) -> Option<Step<'_>>
    ensures value { shown_step result ≡ slice_get (map measured_product_step products.now) position }
    ensures distinct { IfSome result (λ s. HasDistinctQubits (step_shown s)) }
    ensures room { IfSome result (λ s. position + 1 < 2 ^ 64) }
{
    match products.get(position) {
        Some(product) => Some(measured_product(product)),
        None => None,
    }
}

/// The only step of an instruction, at the first position.
fn only_at(step: Step<'_>, position: usize) -> Option<Step<'_>>
    requires distinct { HasDistinctQubits (step_shown step) }
    ensures value { shown_step result ≡ slice_get (step_shown step.entry ∷ []) position }
    ensures distinct { IfSome result (λ s. HasDistinctQubits (step_shown s)) }
    ensures room { IfSome result (λ s. position + 1 < 2 ^ 64) }
{
    if position == 0 { Some(step) } else { None }
}

/// The step of an instruction at a position among its steps.
pub fn step_at(kind: &Kind, position: usize) -> Option<Step<'_>>
    ensures value { shown_step result ≡ slice_get (steps_of kind.now) position }
    ensures distinct { IfSome result (λ s. HasDistinctQubits (step_shown s)) }
    ensures room { IfSome result (λ s. position + 1 < 2 ^ 64) }
{
    match kind {
        Kind::Gate(gate, qubits) => gate_at(*gate, qubits.as_slice(), position),
        Kind::Controlled(axis, pairs) => controlled_at(*axis, pairs.as_slice(), position),
        Kind::Swap(pairs) => swap_at(pairs.as_slice(), position),
        Kind::Measure(measurement, targets) => {
            measurement_at(*measurement, targets.as_slice(), position)
        }
        Kind::Reset(axis, qubits) => reset_at(*axis, qubits.as_slice(), position),
        Kind::MeasureProducts(products) => product_at(products.as_slice(), position),
        Kind::Detector(located) => { only_at(Step::Detector(located.records()), position) },
        Kind::ObservableInclude(observable, records) => {
            let number = observable.number();
            only_at(Step::Observable(number, records.as_slice()), position)
        }
        Kind::Tick | Kind::QubitCoords(_) | Kind::ShiftCoords(_) => None,
    }
}

/// How many steps an instruction has.
pub fn step_count(kind: &Kind) -> usize
    ensures value { result ≡ length (steps_of kind.now) }
{
    match kind {
        Kind::Gate(_, qubits) | Kind::Reset(_, qubits) => qubits.as_slice().len(),
        Kind::Controlled(_, pairs) => pairs.as_slice().len(),
        Kind::Swap(pairs) => pairs.as_slice().len(),
        Kind::Measure(_, targets) => targets.as_slice().len(),
        Kind::MeasureProducts(products) => products.as_slice().len(),
        Kind::Detector(_) | Kind::ObservableInclude(_, _) => 1,
        Kind::Tick | Kind::QubitCoords(_) | Kind::ShiftCoords(_) => 0,
    }
}
