//! The calls of a tableau that take memory.
use crate::one_drop::OneDrop;
use crate::sheet::{MOST_QUBITS, State, show_signs, show_string, show_strings};
use crate::stop::Stop;
use crate::trial::Trial;
use stab_pauli::{Letter, MemoryOutput, Pauli};
use stab_tableau::{CompactTableau, Gate, PairGate, Tableau};
use std::alloc::Global;

/// The qubits of the states.
const QUBITS: usize = MOST_QUBITS;

/// A call of a tableau.
#[derive(Clone, Copy)]
pub enum Call {
    New,
    Copy,
    Compact,
    Tableau,
    ReducedRows,
    Stabiliser,
    Destabiliser,
}

/// The calls.
pub const CALLS: &[(&str, Call)] = &[
    ("Tableau::new", Call::New),
    ("Tableau::copy", Call::Copy),
    ("Tableau::compact", Call::Compact),
    ("CompactTableau::tableau", Call::Tableau),
    ("Tableau::reduced_rows", Call::ReducedRows),
    ("Tableau::stabiliser", Call::Stabiliser),
    ("Tableau::destabiliser", Call::Destabiliser),
];

/// A call of a tableau, with what was given last.
#[derive(Drop)]
pub struct TableauCall {
    call: Call,
    tableau: Tableau,
    state: Tableau,
    compact: CompactTableau,
    string: Pauli,
    strings: OneDrop<Vec<Pauli>>,
}

impl State for Tableau {
    fn sign(&mut self, alloc: Global, qubit: usize, letter: Letter) -> Result<Option<bool>, Stop> {
        let n = self.len();
        if qubit >= n {
            return Ok(None);
        }
        let string = Pauli::single(alloc, n, qubit, letter)?;
        Ok(self.sign_of(&string))
    }
}

/// A state that gates have joined.
fn joined(alloc: Global) -> Result<Tableau, Stop> {
    let mut tableau = Tableau::new(alloc, QUBITS)?;
    tableau.apply(Gate::X, 3);
    tableau.apply(Gate::H, 0);
    tableau.apply_pair(PairGate::Cx, 0, 1);
    tableau.apply(Gate::S, 1);
    tableau.apply_pair(PairGate::Cz, 1, 3);
    Ok(tableau)
}

/// Writes a state: its reduced rows, and the signs of all single letters.
fn show_tableau(alloc: Global, out: &mut MemoryOutput, tableau: &mut Tableau) -> Result<(), Stop> {
    let rows = OneDrop(tableau.reduced_rows(alloc)?);
    show_strings(out, rows.0.as_slice())?;
    show_signs(alloc, out, tableau)
}

/// Writes the state that is stored compactly.
fn show_compact(
    alloc: Global,
    out: &mut MemoryOutput,
    compact: &CompactTableau,
) -> Result<(), Stop> {
    let mut preserved = compact.tableau(alloc, None)?;
    show_tableau(alloc, out, &mut preserved)
}

impl Trial for TableauCall {
    type Call = Call;

    fn new(alloc: Global, call: Call) -> Result<TableauCall, Stop> {
        let tableau = joined(alloc)?;
        let state = Tableau::new(alloc, 0)?;
        // The state to go back to must be there before the call.
        let compact = match call {
            Call::Tableau => tableau.compact(alloc)?,
            _ => state.compact(alloc)?,
        };
        Ok(TableauCall {
            call,
            tableau,
            state,
            compact,
            string: Pauli::identity(alloc, 0)?,
            strings: OneDrop(Vec::new(alloc)),
        })
    }

    fn call(&mut self, alloc: Global) -> Result<(), Stop> {
        if self.tableau.len() < QUBITS {
            return Ok(());
        }
        match self.call {
            Call::New => self.state = Tableau::new(alloc, QUBITS)?,
            Call::Copy => self.state = self.tableau.copy(alloc)?,
            Call::Compact => self.compact = self.tableau.compact(alloc)?,
            Call::Tableau => self.state = self.compact.tableau(alloc, None)?,
            Call::ReducedRows => self.strings = OneDrop(self.tableau.reduced_rows(alloc)?),
            Call::Stabiliser => self.string = self.tableau.stabiliser(alloc, 1)?,
            Call::Destabiliser => self.string = self.tableau.destabiliser(alloc, 1)?,
        }
        Ok(())
    }

    fn show(&mut self, alloc: Global, out: &mut MemoryOutput) -> Result<(), Stop> {
        show_tableau(alloc, out, &mut self.tableau)?;
        show_tableau(alloc, out, &mut self.state)?;
        show_compact(alloc, out, &self.compact)?;
        show_string(out, &self.string)?;
        show_strings(out, self.strings.0.as_slice())
    }
}
