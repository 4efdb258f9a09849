ghost use Rattle.std.specs.Prelude.{◌≡◌, ◌≤◌, ◌<◌, ◌+◌, ◌++◌, ◌^◌, [], length, take, drop, IfSome, IfNone};
ghost use Rattle.stab_items.specs.Steps.{steps_of};
ghost use Rattle.stab_items.specs.StepValues.{steps_shown, HaveDistinctQubits};

use crate::detectors::Detectors;
use crate::instruction_steps::step_at;
use crate::step::Step;
use stab_gates::Gate;
use stab_instructions::{Axis, ControlledPair, Kind, MeasureTarget, Measurement, Qubit};

/// Steps of one instruction, or of detectors, one after the other, at least one.
#[derive(Clone, Copy)]
pub enum Steps<'a> {
    /// A gate on each of these qubits.
    Gates(Gate, &'a [Qubit]),
    /// X, Y or Z under the control of a qubit or of a record, for each of these pairs.
    Pairs(Axis, &'a [ControlledPair]),
    /// A measurement of each of these targets.
    Measurements(Measurement, &'a [MeasureTarget]),
    /// Detectors, each an instruction of its own.
    Detectors(Detectors<'a>),
    /// One step.
    Single(Step<'a>),
}

impl<'a> Steps<'a> {
    ghost use Rattle.std.specs.Prelude.{◌≡◌, length};
    ghost use Rattle.stab_items.specs.StepValues.{steps_shown};

    /// How many there are.
    pub fn len(self) -> usize
        ensures value { result ≡ length (steps_shown self.entry) }
    {
        match self {
            Steps::Gates(_, qubits) => qubits.len(),
            Steps::Pairs(_, pairs) => pairs.len(),
            Steps::Measurements(_, targets) => targets.len(),
            Steps::Detectors(detectors) => detectors.len(),
            Steps::Single(_) => 1,
        }
    }
}

/// The elements of a list from a position on, up to this many, or `None` if there are none.
pub fn part<T>(list: &[T], position: usize, most: usize) -> Option<&[T]>
    requires some { 0 < most }
    ensures value { IfSome result (λ p. p.now ≡ take most (drop position list.now)) }
    ensures some { IfSome result (λ p. (0 < length p.now) × (length p.now ≤ most) × (position + length p.now < 2 ^ 64)) }
    ensures none { IfNone result (length list.now ≤ position) }
{
    if position >= list.len() {
        return None;
    }
    let (_, rest) = list.split_at(position);
    let (part, _) = rest.split_at(most.min(rest.len()));
    Some(part)
}

/// The steps of an instruction from a position among them on, up to this many, or `None` if it has no
/// more.
pub fn steps_from(kind: &Kind, position: usize, most: usize) -> Option<Steps<'_>>
    requires some { 0 < most }
    ensures some { IfSome result (λ s. drop position (steps_of kind.now) ≡ steps_shown s ++ drop (position + length (steps_shown s)) (steps_of kind.now)) }
    ensures within { IfSome result (λ s. (0 < length (steps_shown s)) × (length (steps_shown s) ≤ most) × (position + length (steps_shown s) < 2 ^ 64)) }
    ensures distinct { IfSome result HaveDistinctQubits }
    ensures none { IfNone result (drop position (steps_of kind.now) ≡ []) }
{
    match kind {
        Kind::Gate(gate, qubits) => {
            let part = part(qubits.as_slice(), position, most)?;
            Some(Steps::Gates(*gate, part))
        }
        Kind::Controlled(axis, pairs) => {
            let part = part(pairs.as_slice(), position, most)?;
            Some(Steps::Pairs(*axis, part))
        }
        Kind::Measure(measurement, targets) => {
            let part = part(targets.as_slice(), position, most)?;
            Some(Steps::Measurements(*measurement, part))
        }
        Kind::Swap(_)
        | Kind::Reset(_, _)
        | Kind::MeasureProducts(_)
        | Kind::Detector(_)
        | Kind::ObservableInclude(_, _)
        | Kind::Tick
        | Kind::QubitCoords(_)
        | Kind::ShiftCoords(_) => {
            let step = step_at(kind, position)?;
            Some(Steps::Single(step))
        }
    }
}
