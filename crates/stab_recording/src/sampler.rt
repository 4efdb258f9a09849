ghost use Rattle.std.specs.Prelude.{◌≡◌, ◌+◌, ◌≤◌, IfOk};
ghost use Rattle.stab_gates.specs.Limits.{most_qubits};
ghost use Rattle.stab_items.specs.Steps.{unroll, check_within};
ghost use Rattle.stab_items.specs.Views.{circuit_items};
ghost use Rattle.stab_run.specs.Records.{ones};
ghost use Rattle.stab_io.specs.Refusals.{Refuses};
ghost use Rattle.stab_run.specs.Runs.{run_of};
ghost use Rattle.stab_run.specs.Points.{all_coins_of};
ghost use Rattle.stab_run.specs.Laws.{DependsOnCoinsAt};

use crate::whole_run::{Shot, run_whole};
use stab_io::{Fault, Refusal};
use stab_items::{Circuit, Repeat};
use stab_run::{Coins, find_rounds};
use std::alloc::Global;
use std::marker::Model;

/// A circuit that is ready for many shots: checked once, and its rounds found once.
///
/// Contracts see how many qubits there are, and the circuit's items. No shot changes either, nor
/// does it leave anything to the next one.
pub struct Sampler<'a> {
    circuit: &'a Circuit,
    qubits: usize,
    // Its rounds, by their steps: they may come to a state that they were in before.
    repeats: Vec<Repeat>,
    // How many of each the circuit has, which the items are walked for once.
    records: usize,
    observables: usize,
}

// Written out, so that a proof sees the drop of a value as one call, and not one for each of its parts.
impl Drop for Sampler<'_> {
    fn drop(self) {
        let Sampler {
            circuit: _,
            qubits: _,
            repeats: _,
            records: _,
            observables: _,
        } = self;
    }
}

impl<'a> Model for Sampler<'a> {
    ghost use Rattle.stab_items.specs.Views.{circuit_items};
    ghost use Rattle.stab_recording.specs.Samplers.{SamplerState};
    ghost use Rattle.stab_recording.specs.inner.ReadySamplers.{IsReady, sampler_code};

    ghost Value = { SamplerState };

    ghost coded = { sampler_code };

    ghost view = { λ s. record { qubits = s.qubits; items = circuit_items s.circuit.now } };

    ghost invariant = { λ s. IsReady s.qubits (circuit_items s.circuit.now) s.repeats.items s.records s.observables };
}

impl<'a> Sampler<'a> {
    ghost use Rattle.std.specs.Prelude.{◌≡◌, ℕ, ◌+◌, ◌≤◌, Bool, None, IfOk, IfErr};
    ghost use Rattle.stab_io.specs.declared.refusal.Refusal.TheVariants.{OutOfMemory};
    ghost use Rattle.stab_gates.specs.Limits.{most_qubits};
    ghost use Rattle.stab_items.specs.Steps.{unroll, check_within};
    ghost use Rattle.stab_items.specs.Views.{circuit_items};
    ghost use Rattle.stab_run.specs.Records.{ones};
    ghost use Rattle.stab_io.specs.Refusals.{Refuses};
    ghost use Rattle.stab_run.specs.Runs.{run_of};
    ghost use Rattle.stab_run.specs.Points.{all_coins_of};
    ghost use Rattle.stab_run.specs.Laws.{DependsOnCoinsAt, IsSoundRun};

    /// Makes a circuit ready for shots on n qubits, at most 1,024.
    ///
    /// Refused as `Circuit::check` refuses, else `OutOfMemory`, always with line 0.
    pub fn new(alloc: Global, circuit: &'a Circuit, n: usize) -> Result<Sampler<'a>, Fault>
        requires in_range { n ≤ most_qubits }
        ensures state { IfOk result (λ s. s ≡ record { qubits = n; items = circuit_items circuit.now }) }
        ensures refused { Refuses result (check_within n (circuit_items circuit.now)) }
    {
        circuit.check(n)?;
        Sampler::of_checked(alloc, circuit, n).map_err(Fault::whole)
    }

    // Makes a circuit ready that was checked.
    #[tactic(auto, using(stab_run::proofs::ProductLemmas::length_identity))]
    fn of_checked(alloc: Global, circuit: &'a Circuit, n: usize) -> Result<Sampler<'a>, Refusal>
        requires in_range { n ≤ most_qubits }
        requires checked { check_within n (circuit_items circuit.now) ≡ None }
        ensures state { IfOk result (λ s. s ≡ record { qubits = n; items = circuit_items circuit.now }) }
        ensures err { IfErr result (λ r. r ≡ OutOfMemory) }
    {
        let repeats = find_rounds(alloc, circuit)?;
        // This shows a proof that the qubits of each pair differ.
        let _ = circuit.items();
        Ok(Sampler {
            circuit,
            qubits: n,
            repeats,
            records: circuit.records(),
            observables: circuit.observables(),
        })
    }

    /// Runs the circuit once, with all qubits 0 at first, whatever became of earlier shots.
    ///
    /// Rounds, of a block or written out, are carried out until a state comes again; from there on
    /// they repeat what they gave. If it comes again up to signs, as when coins decide in each
    /// round, a Pauli frame gives what the others give. Coins are numbered and asked for as by
    /// `run_once`. Besides its lists, a shot takes memory for a tableau and checkpoints of it, for positions
    /// within nested blocks, and for pivots of random outcomes, at most 16 MiB of them, and a pointer
    /// for each that rounds have again. Refusal `OutOfMemory` alone.
    pub fn shot<C: Coins>(&mut self, alloc: Global, coins: &mut C) -> Result<Shot, Refusal>
        ensures preserved { self.new ≡ self.old }
        ensures records { IfOk result (λ s. s.records.items ≡ (run_of self.old.qubits (C.sequence coins.old) self.old.items).records) }
        ensures free { IfOk result (λ s. s.free.items ≡ (run_of self.old.qubits (C.sequence coins.old) self.old.items).free) }
        ensures detectors { IfOk result (λ s. s.detectors.items ≡ (run_of self.old.qubits (C.sequence coins.old) self.old.items).detectors) }
        ensures observables { IfOk result (λ s. s.observables.items ≡ (run_of self.old.qubits (C.sequence coins.old) self.old.items).observables) }
        ensures decided { IfOk result (λ s. DependsOnCoinsAt s.free.items self.old.qubits (C.sequence coins.old) self.old.items) }
        ensures same_coins { C.sequence coins.new ≡ C.sequence coins.old }
        ensures asks { C.asks coins.new ≤ C.asks coins.old + all_coins_of (unroll self.old.items) }
        ensures asks_random { IfOk result (λ s. C.asks coins.new ≤ C.asks coins.old + ones s.free.items) }
        ensures err { IfErr result (λ r. r ≡ OutOfMemory) }
    {
        run_whole(
            alloc,
            self.circuit,
            self.repeats.as_slice(),
            self.qubits,
            coins,
            self.records,
            self.observables,
        )
    }

    /// A law, and no work: for all random bits, the trace of a shot fits the qubits and is sound.
    pub fn runs_are_sound(&self)
        ensures law { (coins : ℕ → Bool) → IsSoundRun self.now.qubits coins self.now.items }
    {
        // A circuit's invariant, which a proof sees at a use, says that its steps fit.
        let _ = &self.circuit;
    }
}

/// Runs a circuit once on n qubits, at most 1,024, that begin as zeros.
///
/// Each measured target, resets included, uses up the next coin number, counted from 0. The coin
/// with that number is the outcome if neither sign of what is measured stabilises the state;
/// any other outcome does not depend on it. A coin is asked for only if it decides. Refused as
/// `Circuit::check` refuses, else `OutOfMemory`, always with line 0.
pub fn run_once<C: Coins>(
    alloc: Global,
    circuit: &Circuit,
    n: usize,
    coins: &mut C,
) -> Result<Shot, Fault>
    requires in_range { n ≤ most_qubits }
    ensures records { IfOk result (λ s. s.records.items ≡ (run_of n (C.sequence coins.old) (circuit_items circuit.now)).records) }
    ensures free { IfOk result (λ s. s.free.items ≡ (run_of n (C.sequence coins.old) (circuit_items circuit.now)).free) }
    ensures detectors { IfOk result (λ s. s.detectors.items ≡ (run_of n (C.sequence coins.old) (circuit_items circuit.now)).detectors) }
    ensures observables { IfOk result (λ s. s.observables.items ≡ (run_of n (C.sequence coins.old) (circuit_items circuit.now)).observables) }
    ensures decided { IfOk result (λ s. DependsOnCoinsAt s.free.items n (C.sequence coins.old) (circuit_items circuit.now)) }
    ensures refused { Refuses result (check_within n (circuit_items circuit.now)) }
    ensures same_coins { C.sequence coins.new ≡ C.sequence coins.old }
    ensures asks { C.asks coins.new ≤ C.asks coins.old + all_coins_of (unroll (circuit_items circuit.now)) }
    ensures asks_random { IfOk result (λ s. C.asks coins.new ≤ C.asks coins.old + ones s.free.items) }
{
    let mut sampler = Sampler::new(alloc, circuit, n)?;
    match sampler.shot(alloc, coins) {
        Ok(shot) => Ok(shot),
        Err(refusal) => Err(Fault::whole(refusal)),
    }
}
