//! Shots of a seed, run by batches of lanes, each with lists of its own.
ghost use Rattle.std.specs.Prelude.{◌≡◌, ℕ, ◌+◌, ◌<◌, ◌≤◌, Bool, None, length, IfOk, IfSome, OnOk, IfErr};
ghost use Rattle.stab_io.specs.declared.refusal.Refusal.TheVariants.{OutOfMemory};
ghost use Rattle.stab_io.specs.Refusals.{Refuses};
ghost use Rattle.stab_gates.specs.Limits.{most_qubits};
ghost use Rattle.stab_items.specs.Items.{Items};
ghost use Rattle.stab_items.specs.Steps.{check_within};
ghost use Rattle.stab_items.specs.Views.{circuit_items};
ghost use Rattle.stab_sampler.specs.Lanes.{lane_bits};
ghost use Rattle.stab_sampler.specs.References.{IsReference};
ghost use Rattle.stab_sampler.specs.Seeds.{shot_coins};
ghost use Rattle.stab_sampler.specs.Shots.{AreRuns, IsShot, AreShots};

use crate::coins::SeedLanes;
use crate::lanes::write_lane;
use crate::reference::Reference;
use crate::run::run_checked_batch;
use crate::shots::Shots;
use crate::wide::Wide;
use crate::word::Word;
use stab_io::{Fault, Refusal};
use stab_items::Circuit;
use stab_recording::Shot;
use std::alloc::{AllocError, Global};

/// The bits of a lane, in a list of their own.
fn bits_of_lane<W: Word>(alloc: Global, words: &[W], lane: usize) -> Result<Vec<bool>, AllocError>
    requires in_range { lane < W.lanes }
    ensures value { IfOk result (λ v. v.items ≡ lane_bits W.at lane words.now) }
{
    let mut bits = Vec::with_capacity(alloc, words.len())?;
    write_lane(words, lane, &mut bits)?;
    Ok(bits)
}

/// The shot of a lane, in lists of its own.
fn shot_of_lane<W: Word>(alloc: Global, lists: &Shots<W>, lane: usize) -> Result<Shot, AllocError>
    requires in_range { lane < W.lanes }
    ensures records { IfOk result (λ s. s.records.items ≡ lane_bits W.at lane lists.now.records.items) }
    ensures free { IfOk result (λ s. s.free.items ≡ lists.now.free.items) }
    ensures detectors { IfOk result (λ s. s.detectors.items ≡ lane_bits W.at lane lists.now.detectors.items) }
    ensures observables { IfOk result (λ s. s.observables.items ≡ lane_bits W.at lane lists.now.observables.items) }
{
    Ok(Shot {
        records: bits_of_lane(alloc, lists.records.as_slice(), lane)?,
        free: Vec::from_slice(alloc, lists.free.as_slice())?,
        detectors: bits_of_lane(alloc, lists.detectors.as_slice(), lane)?,
        observables: bits_of_lane(alloc, lists.observables.as_slice(), lane)?,
    })
}

/// Puts the shots of this many lanes, from the first on, after others.
fn push_lanes<W: Word>(
    alloc: Global,
    lists: &Shots<W>,
    lanes: usize,
    shots: &mut Vec<Shot>,
) -> Result<(), AllocError>
    requires in_range { lanes ≤ W.lanes }
    ensures number { OnOk result (length shots.new.items ≡ length shots.old.items + lanes) }
    ensures shots { OnOk result ((n : ℕ) (coins : ℕ → ℕ → Bool) (items : Items) → AreShots n coins items shots.old.items → ((l : ℕ) → l < lanes → AreRuns W.at l n (coins (length shots.old.items + l)) items lists.now) → AreShots n coins items shots.new.items) }
{
    for lane in 0..lanes {
        shots.push(shot_of_lane(alloc, lists, lane)?)?;
    }
    Ok(())
}

/// Runs this many shots of a seed from a first one on, by batches of 64 * N.
fn run_batches<const N: usize>(
    alloc: Global,
    circuit: &Circuit,
    n: usize,
    seed: u64,
    first: u64,
    number: usize,
) -> Result<Vec<Shot>, Refusal>
    requires in_range { n ≤ most_qubits }
    requires checked { check_within n (circuit_items circuit.now) ≡ None }
    requires some { 0 < N }
    requires few { N ≤ 4 }
    ensures number { IfOk result (λ s. length s.items ≡ number) }
    ensures shots { IfOk result (λ s. AreShots n (shot_coins seed first) (circuit_items circuit.now) s.items) }
    ensures err { IfErr result (λ r. r ≡ OutOfMemory) }
{
    let mut shots = Vec::with_capacity(alloc, number)?;
    let mut lists: Shots<Wide<N>> = Shots::with_room(alloc, circuit.records())?;
    let found = Reference::of_checked(alloc, circuit, n)?;
    let reference = found.as_ref();
    let mut made = 0;
    while made < number {
        let batch = (number - made).min(64 * N);
        let mut coins = SeedLanes::<N>::of_seed(seed, first.wrapping_add(made as u64), batch);
        run_checked_batch(alloc, circuit, n, reference, &mut coins, &mut lists)?;
        push_lanes(alloc, &lists, batch, &mut shots)?;
        made += batch;
    }
    Ok(shots)
}

/// Runs this many shots of a seed from a first one on, on n qubits, at most 1,024. Numbers of shots go on from 2^64 - 1 with 0.
///
/// Each shot is the run that `stab_recording::run_once` makes with `SeedCoins` of its number. The tableau goes through the circuit
/// once, except for rounds that come again; if more of its outcomes are random than a `Reference` keeps, it goes through it once
/// more for each 256 shots. Refused as `Circuit::check` refuses, else `OutOfMemory`, always with line 0.
pub fn run_shots(
    alloc: Global,
    circuit: &Circuit,
    n: usize,
    seed: u64,
    first: u64,
    number: usize,
) -> Result<Vec<Shot>, Fault>
    requires in_range { n ≤ most_qubits }
    ensures number { IfOk result (λ s. length s.items ≡ number) }
    ensures shots { IfOk result (λ s. AreShots n (shot_coins seed first) (circuit_items circuit.now) s.items) }
    ensures refused { Refuses result (check_within n (circuit_items circuit.now)) }
{
    circuit.check(n)?;
    if number <= 64 {
        run_batches::<1>(alloc, circuit, n, seed, first, number).map_err(Fault::whole)
    } else {
        run_batches::<4>(alloc, circuit, n, seed, first, number).map_err(Fault::whole)
    }
}
