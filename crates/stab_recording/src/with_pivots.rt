//! A run of a circuit with a pivot for each of its random outcomes.

ghost use Rattle.std.specs.Prelude.{◌≡◌, ◌≤◌, None, IfOk, IfErr};
ghost use Rattle.stab_io.specs.declared.refusal.Refusal.TheVariants.{OutOfMemory};
ghost use Rattle.stab_gates.specs.Limits.{most_qubits};
ghost use Rattle.stab_items.specs.Steps.{check_within};
ghost use Rattle.stab_items.specs.Views.{circuit_items};
ghost use Rattle.stab_recording.specs.RunsWithPivots.{IsRunWithPivots};

use crate::replay::Replay;
use crate::whole_run::{Shot, shot_of};
use stab_frames::{PivotRecorder, Pivots};
use stab_io::Refusal;
use stab_items::Circuit;
use stab_run::{Coins, find_rounds};
use std::alloc::Global;

/// A run, and the pivots of its random outcomes: of the first ones, if not all fit.
#[derive(Drop)]
pub struct RunWithPivots {
    /// What the run gave.
    pub shot: Shot,
    /// At most 16 MiB of strings, and a pointer to one for each outcome of rounds that have them again.
    pub strings: Pivots,
}

/// Runs a circuit that nothing refuses once on n qubits, as `run_once` does, and keeps a string for each random outcome, at most
/// 16 MiB of them. Rounds that come again are repeated, and so are their strings, which take a pointer each then.
///
/// Refusal `OutOfMemory` alone.
pub fn run_with_pivots<C: Coins>(
    alloc: Global,
    circuit: &Circuit,
    n: usize,
    coins: &mut C,
) -> Result<RunWithPivots, Refusal>
    requires in_range { n ≤ most_qubits }
    requires checked { check_within n (circuit_items circuit.now) ≡ None }
    ensures recorded { IfOk result (λ r. IsRunWithPivots n (C.sequence coins.old) (circuit_items circuit.now) r) }
    ensures same_coins { C.sequence coins.new ≡ C.sequence coins.old }
    ensures err { IfErr result (λ r. r ≡ OutOfMemory) }
{
    let repeats = find_rounds(alloc, circuit)?;
    let strings = Pivots::new(alloc, n);
    let mut replay = Replay::new(alloc, circuit, n, strings, circuit.records())?;
    replay.run_all(alloc, circuit, repeats.as_slice(), coins)?;
    let Replay {
        outputs,
        pivots,
        ..
    } = replay;
    let shot = shot_of(alloc, outputs, circuit.observables())?;
    let PivotRecorder {
        strings,
        window: _,
        string: _,
    } = pivots;
    Ok(RunWithPivots { shot, strings })
}
