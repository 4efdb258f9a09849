//! Opening a session.
use crate::circuits::NESTED;
use crate::one_drop::OneDrop;
use crate::runs::QUBITS;
use crate::sheet::{
    State, circuit_of, show_circuit, show_coins, show_lists, show_signs, show_strings,
};
use crate::stop::Stop;
use crate::trial::Trial;
use stab_circuit::Circuit;
use stab_pauli::{Letter, MemoryOutput, Pauli};
use stab_session::{OpenRefused, SeedCoins, Session};
use std::alloc::Global;
use std::mem;

/// The most steps between two states that a session keeps: few, so that it keeps several.
const STRIDE: usize = 2;

/// The coins of every session.
fn coins() -> SeedCoins {
    SeedCoins::new(1, 0)
}

impl State for Session<SeedCoins> {
    fn sign(&mut self, alloc: Global, qubit: usize, letter: Letter) -> Result<Option<bool>, Stop> {
        let n = self.qubits();
        if qubit >= n {
            return Ok(None);
        }
        let string = Pauli::single(alloc, n, qubit, letter)?;
        Ok(self.sign_of(&string))
    }
}

/// A session of the circuit that a text stands for.
pub fn session_of(alloc: Global, text: &[u8]) -> Result<OneDrop<Session<SeedCoins>>, Stop> {
    let circuit = circuit_of(alloc, text)?.value();
    match Session::open(alloc, circuit, QUBITS, STRIDE, coins()) {
        Ok(session) => Ok(OneDrop(session)),
        Err(refused) => Err(Stop(refused.fault)),
    }
}

/// Writes all that a session shows: its four lists, its circuit, and its state by reduced rows and by the
/// signs of all single letters.
pub fn show_session(
    alloc: Global,
    out: &mut MemoryOutput,
    session: &mut Session<SeedCoins>,
) -> Result<(), Stop> {
    show_lists(
        out,
        &[
            session.records(),
            session.free(),
            session.detectors(),
            session.observables(),
        ],
    )?;
    show_circuit(out, session.circuit())?;
    let rows = OneDrop(session.reduced_rows(alloc)?);
    show_strings(out, rows.0.as_slice())?;
    show_signs(alloc, out, session)
}

/// `Session::open`, with the circuit and the coins while it is not open, and then with the session.
#[derive(Drop)]
pub struct Opening {
    circuit: OneDrop<Circuit>,
    coins: SeedCoins,
    session: OneDrop<Option<Session<SeedCoins>>>,
}

impl Trial for Opening {
    type Call = ();

    fn new(alloc: Global, _call: ()) -> Result<Opening, Stop> {
        Ok(Opening {
            circuit: circuit_of(alloc, NESTED)?,
            coins: coins(),
            session: OneDrop(None),
        })
    }

    fn call(&mut self, alloc: Global) -> Result<(), Stop> {
        let circuit = mem::replace(&mut self.circuit, OneDrop(Circuit::new(alloc))).value();
        // Coins of another seed, so that it shows if they are not handed back.
        let coins = mem::replace(&mut self.coins, SeedCoins::new(2, 0));
        match Session::open(alloc, circuit, QUBITS, STRIDE, coins) {
            Ok(session) => {
                self.session = OneDrop(Some(session));
                Ok(())
            }
            Err(refused) => {
                let OpenRefused {
                    fault,
                    circuit,
                    coins,
                } = refused;
                self.circuit = OneDrop(circuit);
                self.coins = coins;
                Err(Stop(fault))
            }
        }
    }

    fn show(&mut self, alloc: Global, out: &mut MemoryOutput) -> Result<(), Stop> {
        show_circuit(out, &self.circuit.0)?;
        show_coins(out, &mut self.coins)?;
        match &mut self.session.0 {
            None => Ok(()),
            Some(session) => show_session(alloc, out, session),
        }
    }
}
