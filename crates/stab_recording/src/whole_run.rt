//! A whole run of a circuit.

ghost use Rattle.std.specs.Prelude.{◌≡◌, ◌+◌, ◌≤◌, false, length, replicate, None, IfOk, IfErr};
ghost use Rattle.stab_io.specs.declared.refusal.Refusal.TheVariants.{OutOfMemory};
ghost use Rattle.stab_gates.specs.Limits.{most_qubits};
ghost use Rattle.stab_items.specs.Steps.{unroll, check_within};
ghost use Rattle.stab_items.specs.Views.{circuit_items};
ghost use Rattle.stab_items.specs.Repeats.{AreRepeats};
ghost use Rattle.stab_run.specs.Records.{ones};
ghost use Rattle.stab_run.specs.Runs.{run, start};
ghost use Rattle.stab_run.specs.Points.{all_coins_of, with_additions};
ghost use Rattle.stab_recording.specs.inner.Shots.{IsShotOf};

use crate::replay::Replay;
use crate::runs::pivots_of_frames;
use stab_io::Refusal;
use stab_items::{Circuit, Repeat};
use stab_run::{Coins, Outputs, observables as summed};
use std::alloc::{AllocError, Global};

/// What one run of a circuit gives; true stands for 1.
#[derive(Drop)]
pub struct Shot {
    /// The records, one for each measured target that has one.
    pub records: Vec<bool>,
    /// For each coin number, whether the coin decided the outcome.
    pub free: Vec<bool>,
    /// The parity of each detector's records.
    pub detectors: Vec<bool>,
    /// The parity of each observable's records, in the order of their numbers.
    pub observables: Vec<bool>,
}

/// Carries out all steps of a circuit on n qubits that are 0 at first. Rounds, of a block or written out, are carried out until a state
/// comes again; from there on they repeat what they gave, or a frame is propagated over them. There is room for this many records
/// from the beginning, and there are this many observables.
///
/// Refusal `OutOfMemory` alone.
pub fn run_whole<C: Coins>(
    alloc: Global,
    circuit: &Circuit,
    repeats: &[Repeat],
    n: usize,
    coins: &mut C,
    records: usize,
    observables: usize,
) -> Result<Shot, Refusal>
    requires in_range { n ≤ most_qubits }
    requires checked { check_within n (circuit_items circuit.now) ≡ None }
    requires repeats { AreRepeats 0 (unroll (circuit_items circuit.now)) repeats.now }
    ensures same_coins { C.sequence coins.new ≡ C.sequence coins.old }
    ensures asks { C.asks coins.new ≤ C.asks coins.old + all_coins_of (unroll (circuit_items circuit.now)) }
    ensures asks_random { IfOk result (λ s. C.asks coins.new ≤ C.asks coins.old + ones s.free.items) }
    ensures run { IfOk result (IsShotOf (run n (C.sequence coins.old) (unroll (circuit_items circuit.now)) (start observables))) }
    ensures err { IfErr result (λ r. r ≡ OutOfMemory) }
{
    let strings = pivots_of_frames(alloc, n, repeats);
    let mut replay = Replay::new(alloc, circuit, n, strings, records)?;
    replay.run_all(alloc, circuit, repeats, coins)?;
    let Replay { outputs, .. } = replay;
    let shot = shot_of(alloc, outputs, observables)?;
    Ok(shot)
}

/// What a run gives that has this many observables, by what its steps gave.
pub fn shot_of(alloc: Global, outputs: Outputs, observables: usize) -> Result<Shot, AllocError>
    ensures records { IfOk result (λ s. s.records.items ≡ outputs.records.items) }
    ensures free { IfOk result (λ s. s.free.items ≡ outputs.free.items) }
    ensures detectors { IfOk result (λ s. s.detectors.items ≡ outputs.detectors.items) }
    ensures observables { IfOk result (λ s. s.observables.items ≡ with_additions outputs.additions.items (replicate observables false)) }
{
    let (records, free, detectors, additions) = outputs.into_parts();
    let observables = summed(alloc, observables, additions.as_slice())?;
    Ok(Shot {
        records,
        free,
        detectors,
        observables,
    })
}
