//! Edits, splits and reduced rows of a session.
use crate::change::{Change, Kind};
use crate::circuits::{NESTED, ROUND, WITH_PAULI};
use crate::item_slot::{ItemSlot, item_of, put_back, show_item, take_item};
use crate::one_drop::OneDrop;
use crate::sessions::{session_of, show_session};
use crate::sheet::{circuit_of, show_strings};
use crate::stop::Stop;
use crate::trial::{Ending, ROOM, Trial, compare, print_ending};
use stab_circuit::{Circuit, write_circuit};
use stab_pauli::{MemoryOutput, Pauli};
use stab_session::{Edit, SeedCoins, Session};
use std::alloc::Global;
use std::io;

/// The call that gives reduced rows.
pub const ROWS: &[(&str, Change)] = &[(
    "Session::reduced_rows",
    Change(Kind::ReducedRows, NESTED, &[0], b""),
)];

/// Edits of the nested circuit, in its outermost list, or at a path of three numbers; of the circuit
/// with a Pauli gate, which is replaced by another, or one that does the same to that state; and splits
/// of the outer block and the inner one.
const CHANGES: &[(&str, Change)] = &[
    (
        "Session::apply, insertion",
        Change(Kind::Insert, NESTED, &[1], b"MX 1"),
    ),
    (
        "Session::apply, insertion",
        Change(Kind::Insert, NESTED, &[1], b"REPEAT 2 {\nH 0\nM 0 1\n}"),
    ),
    (
        "Session::apply, insertion in blocks",
        Change(Kind::Insert, NESTED, &[2, 1, 1], b"MPP Y0*Y1"),
    ),
    (
        "Session::apply, Paulis in blocks",
        Change(Kind::Insert, NESTED, &[2, 1, 1], b"X 0 2"),
    ),
    (
        "Session::apply, replacement",
        Change(Kind::Replace, NESTED, &[1], b"CZ 0 1"),
    ),
    (
        "Session::apply, replacement in blocks",
        Change(Kind::Replace, NESTED, &[2, 1, 1], b"MRX 0 1 2"),
    ),
    (
        "Session::apply, a Pauli for another",
        Change(Kind::Replace, WITH_PAULI, &[1], b"Z 2"),
    ),
    (
        "Session::apply, a Pauli for one that does the same",
        Change(Kind::Replace, WITH_PAULI, &[1], b"Y 2"),
    ),
    (
        "Session::apply, deletion",
        Change(Kind::Delete, NESTED, &[1], b""),
    ),
    (
        "Session::apply, deletion in blocks",
        Change(Kind::Delete, NESTED, &[2, 1, 1], b""),
    ),
    ("Session::split", Change(Kind::Split, NESTED, &[2], b"")),
    ("Session::split", Change(Kind::Split, NESTED, &[2, 1], b"")),
];

/// A call of a session, with an edit's item while it is not put in, and with the rows that it gave.
#[derive(Drop)]
pub struct SessionCall {
    change: Change,
    session: OneDrop<Session<SeedCoins>>,
    item: ItemSlot,
    rows: OneDrop<Vec<Pauli>>,
}

impl SessionCall {
    /// The edit, with its item.
    fn edit(&mut self) -> Result<Edit, Stop> {
        let place = self.change.path();
        if let Kind::Delete = self.change.0 {
            return Ok(Edit::Delete { place });
        }
        let item = take_item(&mut self.item)?;
        match self.change.0 {
            Kind::Replace => Ok(Edit::Replace { place, item }),
            _ => Ok(Edit::Insert { place, item }),
        }
    }

    /// Makes the edit.
    fn apply(&mut self) -> Result<(), Stop> {
        let edit = self.edit()?;
        match self.session.0.apply(edit) {
            Ok(_) => Ok(()),
            Err(refused) => Err(put_back(&mut self.item, refused)),
        }
    }
}

impl Trial for SessionCall {
    type Call = Change;

    fn new(alloc: Global, change: Change) -> Result<SessionCall, Stop> {
        Ok(SessionCall {
            change,
            session: session_of(alloc, change.1)?,
            item: item_of(alloc, change.3)?,
            rows: OneDrop(Vec::new(alloc)),
        })
    }

    fn call(&mut self, alloc: Global) -> Result<(), Stop> {
        match self.change.0 {
            Kind::ReducedRows => self.rows = OneDrop(self.session.0.reduced_rows(alloc)?),
            Kind::Split => self.session.0.split(self.change.path(), ROUND)?,
            _ => self.apply()?,
        }
        Ok(())
    }

    fn show(&mut self, alloc: Global, out: &mut MemoryOutput) -> Result<(), Stop> {
        show_session(alloc, out, &mut self.session.0)?;
        show_item(out, &self.item)?;
        show_strings(out, self.rows.0.as_slice())
    }
}

/// The text of a circuit.
fn circuit_text(alloc: Global, circuit: &Circuit) -> Result<MemoryOutput, Stop> {
    let mut text = MemoryOutput::new(alloc, 4096)?;
    write_circuit(&mut text, circuit)?;
    Ok(text)
}

/// The text of a circuit that is split by itself.
fn split_text(alloc: Global, change: Change) -> Result<MemoryOutput, Stop> {
    let mut circuit = circuit_of(alloc, change.1)?;
    circuit.0.split(change.path(), ROUND)?;
    circuit_text(alloc, &circuit.0)
}

/// The text of the circuit of an edited session.
fn edited_text(alloc: Global, change: Change) -> Result<MemoryOutput, Stop> {
    let mut edited = OneDrop(SessionCall::new(alloc, change)?);
    edited.0.apply()?;
    circuit_text(alloc, edited.0.session.0.circuit())
}

/// What a session shows that is opened with this circuit.
fn opened(alloc: Global, circuit: &[u8]) -> Result<MemoryOutput, Stop> {
    let mut session = session_of(alloc, circuit)?;
    let mut out = MemoryOutput::new(alloc, ROOM)?;
    show_session(alloc, &mut out, &mut session.0)?;
    Ok(out)
}

/// Tries a change, and compares with a session that is opened with the changed circuit.
fn try_change(alloc: Global, change: Change) -> Result<Ending, Stop> {
    let text = match change.0 {
        Kind::Split => split_text(alloc, change)?,
        _ => edited_text(alloc, change)?,
    };
    let wanted = opened(alloc, text.bytes())?;
    compare::<SessionCall>(alloc, change, wanted.bytes())
}

/// Tries each change.
pub fn print_all<R: AllocGlobal + Print>(rt: &R) -> io::Result<()> {
    for (name, change) in CHANGES {
        print_ending(rt, name, try_change(rt.alloc(), *change))?;
    }
    Ok(())
}
