mod edits;
mod splits;

use crate::opening::{Recorded, record_run};
use crate::recording::Recording;
pub use edits::Report;
use stab_circuit::Circuit;
use stab_io::{Fault, Refusal};
use stab_items::Repeat;
use stab_pauli::Pauli;
use stab_run::Coins;
use stab_tableau::Tableau;
use std::alloc::Global;
use std::marker::Model;

/// A circuit with what its run gives, to be read and edited.
///
/// Contracts see its items, its number of qubits, its stride, its coins, the four lists of bits, and the
/// steps before which it keeps checkpoints of the state of its qubits. The statement of `specs/Headline.antt`, which
/// each call that gives or takes a session repeats, holds for all of these: they are those of the run of the
/// items from the first step on.
pub struct Session<C: Coins> {
    alloc: Global,
    circuit: Circuit,
    stride: usize,
    coins: C,
    recording: Recording,
    // Where the circuit's steps come again, as far as it is known; contracts don't see it.
    rounds: Vec<Repeat>,
    // What the last edit left over, for the next one to go on in its memory.
    spare: Option<Tableau>,
}

// Written out, so that a proof sees the drop of a value as one call, and not one for each of its parts.
impl<C: Coins> Drop for Session<C> {
    fn drop(self) {
        let Session {
            alloc: _,
            circuit: _,
            stride: _,
            coins: _,
            recording: _,
            rounds: _,
            spare: _,
        } = self;
    }
}

/// What a refused opening hands back: the fault, the circuit as it was, and the coins, which are
/// for the same sequence.
#[derive(Drop)]
pub struct OpenRefused<C: Coins> {
    pub fault: Fault,
    pub circuit: Circuit,
    pub coins: C,
}

impl<C: Coins> Model for Session<C> {
    ghost use Rattle.stab_items.specs.Steps.{unroll};
    ghost use Rattle.stab_items.specs.Views.{circuit_items};
    ghost use Rattle.stab_items.specs.Repeats.{AreRepeats};
    ghost use Rattle.stab_session.specs.Sessions.{SessionState};
    ghost use Rattle.stab_session.specs.inner.SessionRecordings.{IsRecorded, session_of, session_code};

    ghost Value = { SessionState C };

    ghost coded = { session_code C.code };

    ghost view = { λ s. session_of (circuit_items s.circuit) s.stride s.coins s.recording };

    ghost invariant = { λ s. IsRecorded C.sequence (session_of (circuit_items s.circuit) s.stride s.coins s.recording) s.recording × AreRepeats 0 (unroll (circuit_items s.circuit)) s.rounds.items };
}

impl<C: Coins> Session<C> {
    ghost use Rattle.std.specs.Prelude.{◌≡◌, ℕ, ◌+◌, ◌≤◌, Bool, None, length, IfOk, IfErr, OnOk};
    ghost use Rattle.stab_io.specs.declared.refusal.Refusal.TheVariants.{OutOfMemory};
    ghost use Rattle.stab_io.specs.Refusals.{IsCallFault};
    ghost use Rattle.stab_gates.specs.Limits.{most_qubits};
    ghost use Rattle.stab_tableau.specs.Traces.{member};
    ghost use Rattle.stab_tableau.specs.Reduced.{AreReduced};
    ghost use Rattle.stab_items.specs.Steps.{unroll, check_within};
    ghost use Rattle.stab_items.specs.Views.{circuit_items};
    ghost use Rattle.stab_circuit.specs.Limits.{most_stride};
    ghost use Rattle.stab_run.specs.Records.{ones};
    ghost use Rattle.stab_run.specs.Runs.{run_of};
    ghost use Rattle.stab_run.specs.Points.{all_coins_of};
    ghost use Rattle.stab_session.specs.Sessions.{IsSignIn};
    ghost use Rattle.stab_run.specs.Laws.{IsSoundRun};
    ghost use Rattle.stab_session.specs.Bounds.{most_checkpoints};
    ghost use Rattle.stab_session.specs.Headline.{IsRunOfItems};

    /// Runs a circuit once on n qubits, at most 1,024, and keeps it with what the run gives. The
    /// stride is from 1 to 65,536.
    ///
    /// Coins are numbered and asked for as by `run_once`. Refused as `Circuit::check` refuses, else
    /// `OutOfMemory`, always with line 0; circuit and coins then come back.
    pub fn open(
        alloc: Global,
        circuit: Circuit,
        n: usize,
        stride: usize,
        coins: C,
    ) -> Result<Session<C>, OpenRefused<C>>
        requires in_range { n ≤ most_qubits }
        requires stride_above { 1 ≤ stride }
        requires stride_within { stride ≤ most_stride }
        ensures statement { IfOk result (IsRunOfItems C.sequence) }
        ensures items { IfOk result (λ s. s.items ≡ circuit_items circuit) }
        ensures qubits { IfOk result (λ s. s.qubits ≡ n) }
        ensures stride { IfOk result (λ s. s.stride ≡ stride) }
        ensures coins { IfOk result (λ s. C.sequence s.coins ≡ C.sequence coins) }
        ensures asks { IfOk result (λ s. C.asks s.coins ≤ C.asks coins + all_coins_of (unroll (circuit_items circuit))) }
        ensures asks_random { IfOk result (λ s. C.asks s.coins ≤ C.asks coins + ones s.free) }
        ensures checkpoints { IfOk result (λ s. length s.checkpoints ≤ most_checkpoints s) }
        ensures accepted { OnOk result (check_within n (circuit_items circuit) ≡ None) }
        ensures refused { IfErr result (λ r. IsCallFault (check_within n (circuit_items circuit)) r.fault) }
        ensures refused_circuit { IfErr result (λ r. r.circuit ≡ circuit) }
        ensures refused_coins { IfErr result (λ r. C.sequence r.coins ≡ C.sequence coins) }
        ensures refused_asks { IfErr result (λ r. C.asks r.coins ≤ C.asks coins + all_coins_of (unroll (circuit_items circuit))) }
    {
        let mut coins = coins;
        match record_run(alloc, &circuit, n, stride, &mut coins) {
            Ok(Recorded { recording, repeats }) => Ok(Session {
                alloc,
                circuit,
                stride,
                coins,
                recording,
                rounds: repeats,
                spare: None,
            }),
            Err(fault) => Err(OpenRefused {
                fault,
                circuit,
                coins,
            }),
        }
    }

    /// The records, one for each measured target that has one.
    pub fn records(&self) -> &[bool]
        ensures value { result.now ≡ self.now.records }
        ensures statement { IsRunOfItems C.sequence self.now }
    {
        self.recording.outputs.records.as_slice()
    }

    /// For each coin number, whether the coin decided the outcome.
    pub fn free(&self) -> &[bool]
        ensures value { result.now ≡ self.now.free }
        ensures statement { IsRunOfItems C.sequence self.now }
    {
        self.recording.outputs.free.as_slice()
    }

    /// The parity of each detector's records.
    pub fn detectors(&self) -> &[bool]
        ensures value { result.now ≡ self.now.detectors }
        ensures statement { IsRunOfItems C.sequence self.now }
    {
        self.recording.outputs.detectors.as_slice()
    }

    /// The parity of each observable's records, in the order of their numbers.
    pub fn observables(&self) -> &[bool]
        ensures value { result.now ≡ self.now.observables }
        ensures statement { IsRunOfItems C.sequence self.now }
    {
        self.recording.observables.as_slice()
    }

    /// The circuit as it is now.
    pub fn circuit(&self) -> &Circuit
        ensures value { circuit_items result.now ≡ self.now.items }
        ensures accepted { check_within self.now.qubits self.now.items ≡ None }
    {
        &self.circuit
    }

    /// The number of qubits.
    pub fn qubits(&self) -> usize
        ensures value { result ≡ self.now.qubits }
        ensures in_range { result ≤ most_qubits }
    {
        self.recording.tableau.len()
    }

    /// The sign with which a string stabilises the state after the run, true for -, or `None` if
    /// neither sign does.
    ///
    /// The string's own sign counts: the answer for -P is the other one than that for P.
    pub fn sign_of(&mut self, pauli: &Pauli) -> Option<bool>
        requires same_length { length pauli.now.letters ≡ self.old.qubits }
        ensures unchanged { self.new ≡ self.old }
        ensures sign { IsSignIn (member (run_of self.old.qubits (C.sequence self.old.coins) self.old.items).trace) pauli.now result }
        ensures statement { IsRunOfItems C.sequence self.old }
    {
        self.recording.tableau.sign_of(pauli)
    }

    /// The reduced rows of the strings that stabilise the state after the run, in the order of
    /// `Tableau::reduced_rows`.
    ///
    /// Refusal `OutOfMemory` alone.
    pub fn reduced_rows(&mut self, alloc: Global) -> Result<Vec<Pauli>, Refusal>
        ensures unchanged { self.new ≡ self.old }
        ensures count { IfOk result (λ rows. length rows.items ≡ self.old.qubits) }
        ensures reduced_of_run { IfOk result (λ rows. AreReduced self.old.qubits (member (run_of self.old.qubits (C.sequence self.old.coins) self.old.items).trace) rows.items) }
        ensures statement { IsRunOfItems C.sequence self.old }
        ensures err { IfErr result (λ r. r ≡ OutOfMemory) }
    {
        self.recording.tableau.reduced_rows(alloc)
    }

    /// A law, and no work: for all random bits, the trace of the run fits the qubits and is sound.
    pub fn runs_are_sound(&self)
        ensures law { (coins : ℕ → Bool) → IsSoundRun self.now.qubits coins self.now.items }
    {
        // A circuit's invariant, which a proof sees at a use, says that its steps fit.
        let _ = &self.circuit;
    }
}
