//! All steps of a circuit, on lanes that are propagated over what is recorded of the run with all coins 0.
ghost use Rattle.std.specs.Prelude.{◌≡◌, ℕ, ◌<◌, ◌≤◌, None, [], IfSome, OnOk, IfErr};
ghost use Rattle.stab_io.specs.declared.refusal.Refusal.TheVariants.{OutOfMemory};
ghost use Rattle.stab_io.specs.Refusals.{Refuses};
ghost use Rattle.stab_gates.specs.Limits.{most_qubits};
ghost use Rattle.stab_items.specs.Steps.{unroll, check_within};
ghost use Rattle.stab_items.specs.Views.{circuit_items};
ghost use Rattle.stab_sampler.specs.Shots.{AreRuns};
ghost use Rattle.stab_sampler.specs.References.{IsReference};
ghost use Rattle.stab_sampler.specs.PartRecordings.{IsSized, IsPartRecording};
ghost use Rattle.stab_sampler.specs.Differences.{AreLanes};
ghost use Rattle.stab_frames.specs.Limits.{most_strings};

use crate::coins::Draw;
use crate::flips::shots_of;
use crate::lanes::Lanes;
use crate::part::propagate_part;
use crate::part_recording::{PartRecording, shot_of};
use crate::reference::{Reference, most_pivots};
use crate::rounds::propagate_all;
use crate::shots::Shots;
use crate::word::Word;
use stab_io::{Fault, Refusal};
use stab_items::Circuit;
use std::alloc::Global;

/// Runs a circuit once in each lane by a reference of it, and replaces what the lists had by what the shots give.
fn run_by_reference<W: Word, C: Draw<W>>(
    alloc: Global,
    circuit: &Circuit,
    n: usize,
    reference: &Reference,
    coins: &mut C,
    shots: &mut Shots<W>,
) -> Result<(), Refusal>
    requires in_range { n ≤ most_qubits }
    requires reference { IsReference n (circuit_items circuit.now) reference.now }
    ensures runs { OnOk result ((l : ℕ) → l < W.lanes → AreRuns W.at l n (C.sequences coins.old l) (circuit_items circuit.now) shots.new) }
    ensures same_coins { C.sequences coins.new ≡ C.sequences coins.old }
    ensures err { IfErr result (λ r. r ≡ OutOfMemory) }
{
    let recorded_pivots = reference.recorded_pivots();
    let mut lanes = shots.lanes(alloc, n)?;
    propagate_all(alloc, circuit, recorded_pivots, coins, &mut lanes)?;
    *shots = shots_of(alloc, reference.shot(), lanes, circuit.observables())?;
    Ok(())
}

/// Goes over the steps of a circuit that nothing refuses, this many at once: a run with all coins 0 records them, and
/// all lanes are propagated over them.
fn propagate_by_parts<W: Word, D: Draw<W>>(
    alloc: Global,
    circuit: &Circuit,
    recording: &mut PartRecording,
    draw: &mut D,
    lanes: &mut Lanes<W>,
    most: usize,
) -> Result<(), Refusal>
    requires checked { check_within recording.old.tableau.qubits (circuit_items circuit.now) ≡ None }
    requires sized { IsSized recording.old.tableau.qubits recording.old }
    requires begins { IsPartRecording recording.old.tableau.qubits [] recording.old }
    requires lanes { AreLanes W.at W.lanes recording.old.tableau.qubits (D.sequences draw.old) [] lanes.old }
    requires some { 0 < most }
    requires few { most < most_strings recording.old.tableau.qubits }
    ensures recorded { OnOk result (IsPartRecording recording.old.tableau.qubits (unroll (circuit_items circuit.now)) recording.new) }
    ensures same_coins { D.sequences draw.new ≡ D.sequences draw.old }
    ensures lanes { OnOk result (AreLanes W.at W.lanes recording.old.tableau.qubits (D.sequences draw.old) (unroll (circuit_items circuit.now)) lanes.new) }
    ensures err { IfErr result (λ r. r ≡ OutOfMemory) }
{
    let steps = circuit.steps();
    let mut from = 0;
    while from < steps {
        let count = most.min(steps - from);
        recording.advance(alloc, circuit, from, count)?;
        lanes.number = 0;
        propagate_part(
            alloc,
            circuit,
            recording.recorded_pivots(),
            draw,
            lanes,
            from,
            count,
        )?;
        from += count;
    }
    Ok(())
}

/// Runs a circuit that nothing refuses once in each lane, propagated over a run of its own of which at most 4 MiB are recorded at once.
fn run_by_parts<W: Word, C: Draw<W>>(
    alloc: Global,
    circuit: &Circuit,
    n: usize,
    coins: &mut C,
    shots: &mut Shots<W>,
) -> Result<(), Refusal>
    requires in_range { n ≤ most_qubits }
    requires checked { check_within n (circuit_items circuit.now) ≡ None }
    ensures runs { OnOk result ((l : ℕ) → l < W.lanes → AreRuns W.at l n (C.sequences coins.old l) (circuit_items circuit.now) shots.new) }
    ensures same_coins { C.sequences coins.new ≡ C.sequences coins.old }
    ensures err { IfErr result (λ r. r ≡ OutOfMemory) }
{
    let mut recording = PartRecording::new(alloc, n, circuit.records())?;
    let mut lanes = shots.lanes(alloc, n)?;
    let most = most_pivots(n);
    propagate_by_parts(alloc, circuit, &mut recording, coins, &mut lanes, most)?;
    let PartRecording {
        tableau: _,
        string: _,
        outputs,
        pivots: _,
        free,
    } = recording;
    let shot = shot_of(alloc, circuit, outputs, free)?;
    *shots = shots_of(alloc, &shot, lanes, circuit.observables())?;
    Ok(())
}

/// Runs a circuit that nothing refuses once in each lane, by a reference of it if there is one.
pub(crate) fn run_checked_batch<W: Word, C: Draw<W>>(
    alloc: Global,
    circuit: &Circuit,
    n: usize,
    reference: Option<&Reference>,
    coins: &mut C,
    shots: &mut Shots<W>,
) -> Result<(), Refusal>
    requires in_range { n ≤ most_qubits }
    requires checked { check_within n (circuit_items circuit.now) ≡ None }
    requires reference { IfSome reference (λ r. IsReference n (circuit_items circuit.now) r.now) }
    ensures runs { OnOk result ((l : ℕ) → l < W.lanes → AreRuns W.at l n (C.sequences coins.old l) (circuit_items circuit.now) shots.new) }
    ensures same_coins { C.sequences coins.new ≡ C.sequences coins.old }
    ensures err { IfErr result (λ r. r ≡ OutOfMemory) }
{
    match reference {
        Some(reference) => run_by_reference(alloc, circuit, n, reference, coins, shots),
        None => run_by_parts(alloc, circuit, n, coins, shots),
    }
}

/// Runs a circuit on n qubits, at most 1,024, once in each lane, with the coins of the lane, and replaces what the lists had by
/// what the shots give. Their memory serves again, so that many such runs need little that is fresh.
///
/// Each lane is the run that `stab_recording::run_once` makes with these coins. By a reference of the circuit no tableau goes through
/// it; without one a tableau does so once, however many lanes there are, and is recorded on its way. Refused as `Circuit::check` refuses, else
/// `OutOfMemory`, always with line 0; nothing is said of the lists then.
pub fn run_lanes<W: Word, C: Draw<W>>(
    alloc: Global,
    circuit: &Circuit,
    n: usize,
    reference: Option<&Reference>,
    coins: &mut C,
    shots: &mut Shots<W>,
) -> Result<(), Fault>
    requires in_range { n ≤ most_qubits }
    requires reference { IfSome reference (λ r. IsReference n (circuit_items circuit.now) r.now) }
    ensures runs { OnOk result ((l : ℕ) → l < W.lanes → AreRuns W.at l n (C.sequences coins.old l) (circuit_items circuit.now) shots.new) }
    ensures same_coins { C.sequences coins.new ≡ C.sequences coins.old }
    ensures refused { Refuses result (check_within n (circuit_items circuit.now)) }
{
    circuit.check(n)?;
    run_checked_batch(alloc, circuit, n, reference, coins, shots).map_err(Fault::whole)
}
