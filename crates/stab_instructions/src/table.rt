//! The names of all instructions: they are nowhere else in the source.
//!
//! A row is what an instruction is, the name that is printed, and after `or` its other names. `name`
//! makes tests of these rows, and `print` the names that it writes: a test of each name as a constant
//! is faster than a walk over a `static` array. `docs/use/circuit-text.md` has the same rows in the same order.

/// The gates on one qubit.
macro_rules! gates {
    ($rows:ident, $of:expr) => {
        $rows!($of;
            [Gate::I] b"I";
            [Gate::X] b"X";
            [Gate::Y] b"Y";
            [Gate::Z] b"Z";
            [Gate::H] b"H" or b"H_XZ";
            [Gate::S] b"S" or b"SQRT_Z";
            [Gate::SDag] b"S_DAG" or b"SQRT_Z_DAG";
            [Gate::CXyz] b"C_XYZ";
            [Gate::CZyx] b"C_ZYX";
            [Gate::SqrtX] b"SQRT_X";
            [Gate::SqrtXDag] b"SQRT_X_DAG";
            [Gate::SqrtY] b"SQRT_Y";
            [Gate::SqrtYDag] b"SQRT_Y_DAG";
        )
    };
}

/// The gates X, Y and Z under a control.
macro_rules! controlled_gates {
    ($rows:ident, $of:expr) => {
        $rows!($of;
            [Axis::X] b"CX" or b"CNOT" or b"ZCX";
            [Axis::Y] b"CY" or b"ZCY";
            [Axis::Z] b"CZ" or b"ZCZ";
        )
    };
}

/// The measurements of one qubit, by the letter and whether they reset.
macro_rules! measurements {
    ($rows:ident, $of:expr) => {
        $rows!($of;
            [(Axis::Z, false)] b"M" or b"MZ";
            [(Axis::X, false)] b"MX";
            [(Axis::Y, false)] b"MY";
            [(Axis::Z, true)] b"MR" or b"MRZ";
            [(Axis::X, true)] b"MRX";
            [(Axis::Y, true)] b"MRY";
        )
    };
}

/// All other instructions.
macro_rules! others {
    ($rows:ident, $of:expr) => {
        $rows!($of;
            [Instruction::Swap] b"SWAP";
            [Instruction::Reset(Axis::Z)] b"R" or b"RZ";
            [Instruction::Reset(Axis::X)] b"RX";
            [Instruction::Reset(Axis::Y)] b"RY";
            [Instruction::MeasureProducts] b"MPP";
            [Instruction::Detector] b"DETECTOR";
            [Instruction::ObservableInclude] b"OBSERVABLE_INCLUDE";
            [Instruction::Tick] b"TICK";
            [Instruction::QubitCoords] b"QUBIT_COORDS";
            [Instruction::ShiftCoords] b"SHIFT_COORDS";
        )
    };
}

pub(crate) use controlled_gates;
pub(crate) use gates;
pub(crate) use measurements;
pub(crate) use others;
