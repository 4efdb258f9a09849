//! The runs that have one coin 1, as lanes.
ghost use Rattle.std.specs.Prelude.{◌≡◌, ℕ, ◌+◌, ◌<◌, ◌≤◌, None, All, length, map, slice_index_or, IfOk, IfSome, IfErr, OnOk};
ghost use Rattle.stab_io.specs.declared.refusal.Refusal.TheVariants.{OutOfMemory};
ghost use Rattle.stab_io.specs.Refusals.{Refuses, whole};
ghost use Rattle.stab_gates.specs.Limits.{most_qubits};
ghost use Rattle.stab_items.specs.Steps.{check_of, check_within, unroll, HasDistinctQubits};
ghost use Rattle.stab_items.specs.Views.{circuit_items};
ghost use Rattle.stab_run.specs.Points.{all_coins_of};
ghost use Rattle.stab_results.specs.Formats.{one_positions};
ghost use Rattle.stab_sampler.specs.References.{IsReference};
ghost use Rattle.stab_report.specs.ItemPaths.{step_of_coin};
ghost use Rattle.stab_report.specs.Coins.{flips_of};
ghost use Rattle.stab_run.specs.Coins.{zero_coins};
ghost use Rattle.stab_commands.specs.CoinRuns.{AreCoinRuns, LaneHasBits, deciding_coins};

use crate::coin_positions::{CoinPositions, coin_positions};
use stab_circuit::Circuit;
use stab_io::Fault;
use stab_recording::{Shot, run_once};
use stab_run::ListCoins;
use stab_sampler::{Reference, Shots, UnitLanes, UnitWord, flip_bits, run_lanes};
use std::alloc::Global;

/// The run of a circuit with all coins 0, which coins decide in it, and what is needed to propagate runs with other coins over it.
pub struct CoinRuns {
    zero: Shot,
    numbers: Vec<u64>,
    steps: Vec<usize>,
    reference: Option<Reference>,
}

// Written out, so that a proof sees the drop of a value as one call, and not one for each of its parts.
impl Drop for CoinRuns {
    fn drop(self) {
        let CoinRuns {
            zero: _,
            numbers: _,
            steps: _,
            reference: _,
        } = self;
    }
}

/// How many bytes the bits of lanes take at most, one for each eight lanes, besides the room that a growing list keeps unused.
const MOST_BYTES: usize = 12 * 1024 * 1024;

/// In how many lanes this many coins of a run are propagated at once: 64, 256 or 1,024.
fn lanes_of(zero: &Shot, coins: usize) -> usize
    ensures some { 0 < result }
    ensures few { result ≤ 1024 }
{
    let bits = zero.records.len().saturating_add(zero.detectors.len());
    if coins > 256 && bits.saturating_mul(128) <= MOST_BYTES {
        1_024
    } else if coins > 64 && bits.saturating_mul(32) <= MOST_BYTES {
        256
    } else {
        64
    }
}

/// The reference of a circuit that nothing refuses, if it has one, and if more than one batch of lanes is propagated over it.
fn reference_of(
    alloc: Global,
    circuit: &Circuit,
    n: usize,
    many: bool,
) -> Result<Option<Reference>, Fault>
    requires in_range { n ≤ most_qubits }
    requires checked { check_within n (circuit_items circuit.now) ≡ None }
    ensures reference { IfOk result (λ found. IfSome found (λ r. IsReference n (circuit_items circuit.now) r)) }
    ensures err { IfErr result (λ f. f ≡ whole OutOfMemory) }
{
    if !many {
        return Ok(None);
    }
    Reference::of(alloc, circuit, n)
}

/// The coins of a circuit that nothing refuses which decide, by a flag for each of its coin numbers.
fn positions_of(alloc: Global, circuit: &Circuit, free: &[bool]) -> Result<CoinPositions, Fault>
    requires checked { check_of (circuit_items circuit.now) ≡ None }
    requires randomness { length free.now ≡ all_coins_of (unroll (circuit_items circuit.now)) }
    ensures numbers { IfOk result (λ p. p.numbers.items ≡ one_positions free.now) }
    ensures steps { IfOk result (λ p. p.steps.items ≡ map (step_of_coin (unroll (circuit_items circuit.now))) (one_positions free.now)) }
    ensures distinct { IfOk result (λ p. All HasDistinctQubits (unroll (circuit_items circuit.now))) }
    ensures err { IfErr result (λ f. f ≡ whole OutOfMemory) }
{
    match coin_positions(alloc, circuit, free) {
        Ok(positions) => Ok(positions),
        Err(refusal) => Err(Fault::whole(refusal)),
    }
}

impl CoinRuns {
    /// The runs of a circuit on n qubits, at most 1,024.
    ///
    /// Refused as `Circuit::check` refuses, else `OutOfMemory`, always with line 0.
    pub fn of(alloc: Global, circuit: &Circuit, n: usize) -> Result<CoinRuns, Fault>
        requires in_range { n ≤ most_qubits }
        ensures runs { IfOk result (λ r. AreCoinRuns n (circuit_items circuit.now) r) }
        ensures refused { Refuses result (check_within n (circuit_items circuit.now)) }
    {
        circuit.check(n)?;
        CoinRuns::of_checked(alloc, circuit, n)
    }

    /// The runs of a circuit that nothing refuses.
    fn of_checked(alloc: Global, circuit: &Circuit, n: usize) -> Result<CoinRuns, Fault>
        requires in_range { n ≤ most_qubits }
        requires checked { check_within n (circuit_items circuit.now) ≡ None }
        ensures runs { IfOk result (λ r. AreCoinRuns n (circuit_items circuit.now) r) }
        ensures err { IfErr result (λ f. f ≡ whole OutOfMemory) }
    {
        let mut coins = ListCoins::new(&[]);
        let zero = run_once(alloc, circuit, n, &mut coins)?;
        let CoinPositions { numbers, steps } = positions_of(alloc, circuit, zero.free.as_slice())?;
        let many = numbers.len() > lanes_of(&zero, numbers.len());
        let reference = reference_of(alloc, circuit, n, many)?;
        Ok(CoinRuns {
            zero,
            numbers,
            steps,
            reference,
        })
    }

    /// The run with all coins 0.
    pub fn zero(&self) -> &Shot
        ensures value { result.now ≡ self.now.zero }
    {
        &self.zero
    }

    /// The numbers of the coins that decide, ascending.
    pub fn numbers(&self) -> &[u64]
        ensures value { result.now ≡ self.now.numbers.items }
    {
        self.numbers.as_slice()
    }

    /// How many steps are in front of the one that takes each of these coins.
    pub fn steps(&self) -> &[usize]
        ensures value { result.now ≡ self.now.steps.items }
    {
        self.steps.as_slice()
    }

    /// In how many lanes these coins are propagated at once: 64, 256 or 1,024.
    pub fn lanes(&self) -> usize
        ensures some { 0 < result }
        ensures few { result ≤ 1024 }
    {
        lanes_of(&self.zero, self.numbers.len())
    }

    /// Replaces what lists had by, for each lane, which bits of a run are flipped by a coin: lane l has those of the coin at
    /// position `first` + l of the numbers, as far as there are such.
    ///
    /// Fault `OutOfMemory` alone, with line 0; nothing is said of the lists then.
    pub fn flips<W: UnitWord>(
        &self,
        alloc: Global,
        circuit: &Circuit,
        n: usize,
        first: usize,
        lists: &mut Shots<W>,
    ) -> Result<(), Fault>
        requires in_range { n ≤ most_qubits }
        requires runs { AreCoinRuns n (circuit_items circuit.now) self.now }
        requires some { first ≤ length self.now.numbers.items }
        ensures flips { OnOk result ((l : ℕ) → l < W.lanes → first + l < length (deciding_coins n (circuit_items circuit.now)) → LaneHasBits W.at l (flips_of n (circuit_items circuit.now) zero_coins (slice_index_or (deciding_coins n (circuit_items circuit.now)) (first + l) 0)) lists.new) }
        ensures err { IfErr result (λ f. f ≡ whole OutOfMemory) }
    {
        let (_, left) = self.numbers.as_slice().split_at(first);
        let mut coins = UnitLanes::new(left);
        run_lanes(
            alloc,
            circuit,
            n,
            self.reference.as_ref(),
            &mut coins,
            lists,
        )?;
        flip_bits(self.zero.records.as_slice(), &mut lists.records);
        flip_bits(self.zero.detectors.as_slice(), &mut lists.detectors);
        flip_bits(self.zero.observables.as_slice(), &mut lists.observables);
        Ok(())
    }
}
