ghost use Rattle.std.specs.Prelude.{◌≡◌, IfOk};

use crate::axis::Axis;
use crate::control::ControlledPair;
use crate::coordinates::Coordinates;
use crate::detector::DetectorTargets;
use crate::located::Located;
use crate::product::{Product, copied_products};
use crate::range::{Count, Lookbacks, MeasureTarget, ObservableNumber, Pair, Qubit};
use crate::sequence::Sequence;
use stab_gates::Gate;
use std::alloc::{AllocError, Global};

/// Which measurement: of which letter, and whether it resets the qubit.
#[derive(Clone, Copy, Debug, PartialEq, Eq)]
pub struct Measurement {
    pub axis: Axis,
    pub resets: bool,
}

/// What an operation does.
pub enum Kind {
    Gate(Gate, Sequence<Qubit>),
    /// X, Y or Z under a control: CX, CY and CZ.
    Controlled(Axis, Sequence<ControlledPair>),
    Swap(Sequence<Pair>),
    Measure(Measurement, Sequence<MeasureTarget>),
    Reset(Axis, Sequence<Qubit>),
    MeasureProducts(Sequence<Product>),
    Detector(DetectorTargets),
    ObservableInclude(ObservableNumber, Lookbacks),
    Tick,
    QubitCoords(Located<Sequence<Qubit>>),
    ShiftCoords(Coordinates),
}

// Long circuits are lists of instructions: what one does is stored without memory of its own if it is short.
const _: () = prove!(size_of::<Kind>() <= 56);

// Written out, so that a proof sees the drop of a value as one call, and not one for each of its parts.
impl Drop for Kind {
    fn drop(self) {
        match self {
            Kind::Gate(_gate, _qubits) => {}
            Kind::Controlled(_axis, _pairs) => {}
            Kind::Swap(_pairs) => {}
            Kind::Measure(_measurement, _targets) => {}
            Kind::Reset(_axis, _qubits) => {}
            Kind::MeasureProducts(_products) => {}
            Kind::Detector(_targets) => {}
            Kind::ObservableInclude(_number, _lookbacks) => {}
            Kind::Tick => {}
            Kind::QubitCoords(_located) => {}
            Kind::ShiftCoords(_coordinates) => {}
        }
    }
}

impl Kind {
    /// A copy.
    pub fn copy(&self, alloc: Global) -> Result<Kind, AllocError>
        ensures ok { IfOk result (λ k. k ≡ self.now) }
    {
        match self {
            Kind::Gate(gate, qubits) => Ok(Kind::Gate(*gate, qubits.copy(alloc)?)),
            Kind::Controlled(axis, pairs) => Ok(Kind::Controlled(*axis, pairs.copy(alloc)?)),
            Kind::Swap(pairs) => Ok(Kind::Swap(pairs.copy(alloc)?)),
            Kind::Measure(measurement, targets) => {
                Ok(Kind::Measure(*measurement, targets.copy(alloc)?))
            }
            Kind::Reset(axis, qubits) => Ok(Kind::Reset(*axis, qubits.copy(alloc)?)),
            Kind::MeasureProducts(products) => {
                Ok(Kind::MeasureProducts(copied_products(alloc, products)?))
            }
            Kind::Detector(targets) => Ok(Kind::Detector(targets.copy(alloc)?)),
            Kind::ObservableInclude(number, lookbacks) => {
                Ok(Kind::ObservableInclude(*number, lookbacks.copy(alloc)?))
            }
            Kind::Tick => Ok(Kind::Tick),
            Kind::QubitCoords(located) => Ok(Kind::QubitCoords(located.copy(alloc)?)),
            Kind::ShiftCoords(coordinates) => Ok(Kind::ShiftCoords(coordinates.copy(alloc)?)),
        }
    }
}

/// One instruction.
#[derive(Drop)]
pub struct Operation {
    pub kind: Kind,
    pub tag: Sequence<u8>,
}

impl Operation {
    /// A copy.
    pub fn copy(&self, alloc: Global) -> Result<Operation, AllocError>
        ensures ok { IfOk result (λ o. o ≡ self.now) }
    {
        let kind = self.kind.copy(alloc)?;
        let tag = self.tag.copy(alloc)?;
        Ok(Operation { kind, tag })
    }
}

/// What the content of a line means.
#[derive(Drop)]
pub enum Line {
    Blank,
    Close,
    Open { count: Count, tag: Sequence<u8> },
    Operation(Operation),
}
