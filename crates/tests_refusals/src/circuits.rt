//! Reading circuits and items, and putting an item into a circuit or splitting a round off a block.
use crate::change::{Change, Kind};
use crate::item_slot::{ItemSlot, item_of, put_back, show_item, take_item};
use crate::one_drop::OneDrop;
use crate::sheet::{circuit_of, show_circuit};
use crate::stop::Stop;
use crate::trial::Trial;
use stab_circuit::Circuit;
use stab_pauli::MemoryOutput;
use std::alloc::Global;

/// A circuit with nested blocks, whose lists are full, so that an insertion asks for memory.
pub const NESTED: &[u8] = b"H 0
CX 0 1
REPEAT 2 {
    MX 0
    REPEAT 3 {
        MPP X0*Z1 !Y2
        CX rec[-1] 2 0 1
        MR 2 1
        DETECTOR(1, 2) rec[-1] rec[-3]
    }
    S_DAG[tag] 0
    M !1
}
OBSERVABLE_INCLUDE(1) rec[-1]
";

/// A circuit with a Pauli gate at position 1, whose flips go on to the end.
pub const WITH_PAULI: &[u8] = b"H 0
X 2
M 2 0 2 1 2
M 2 2
DETECTOR rec[-1] rec[-3]
OBSERVABLE_INCLUDE(1) rec[-1]
";

/// An item that is a block.
const BLOCK: &[u8] = b"REPEAT 5 {\nCY 1 2\nREPEAT 2 {\nMY 0 !1\n}\n}";

/// The round that is split off. In the outer block of `NESTED` it is the last one, in the inner one
/// it is in the middle.
pub const ROUND: u64 = 1;

/// The calls.
pub const CALLS: &[(&str, Change)] = &[
    ("read_circuit", Change(Kind::Read, b"", &[], b"")),
    ("read_item", Change(Kind::ReadItem, b"", &[], b"")),
    ("Circuit::insert", Change(Kind::Insert, NESTED, &[1], BLOCK)),
    (
        "Circuit::insert",
        Change(Kind::Insert, NESTED, &[2, 1, 4], BLOCK),
    ),
    ("Circuit::split", Change(Kind::Split, NESTED, &[2], b"")),
    ("Circuit::split", Change(Kind::Split, NESTED, &[2, 1], b"")),
];

/// A call of a circuit, with the circuit, and with the item while it is not put in.
#[derive(Drop)]
pub struct CircuitCall {
    change: Change,
    circuit: OneDrop<Circuit>,
    item: ItemSlot,
}

impl CircuitCall {
    /// Puts the item into the circuit.
    fn insert(&mut self) -> Result<(), Stop> {
        let item = take_item(&mut self.item)?;
        match self.circuit.0.insert(self.change.path(), item) {
            Ok(()) => Ok(()),
            Err(refused) => Err(put_back(&mut self.item, refused)),
        }
    }
}

impl Trial for CircuitCall {
    type Call = Change;

    fn new(alloc: Global, change: Change) -> Result<CircuitCall, Stop> {
        Ok(CircuitCall {
            change,
            circuit: circuit_of(alloc, change.1)?,
            item: item_of(alloc, change.3)?,
        })
    }

    fn call(&mut self, alloc: Global) -> Result<(), Stop> {
        match self.change.0 {
            Kind::Read => self.circuit = circuit_of(alloc, NESTED)?,
            Kind::ReadItem => self.item = item_of(alloc, BLOCK)?,
            Kind::Split => self.circuit.0.split(self.change.path(), ROUND)?,
            _ => self.insert()?,
        }
        Ok(())
    }

    fn show(&mut self, _alloc: Global, out: &mut MemoryOutput) -> Result<(), Stop> {
        show_circuit(out, &self.circuit.0)?;
        show_item(out, &self.item)
    }
}
