ghost use Rattle.std.specs.Prelude.{◌≡◌, ◌+◌, ◌≤◌, None, All, OnOk, IfOk, IfErr};
ghost use Rattle.stab_io.specs.declared.refusal.Refusal.TheVariants.{OutOfMemory};
ghost use Rattle.stab_io.specs.Refusals.{Refuses};
ghost use Rattle.stab_gates.specs.Limits.{most_qubits};
ghost use Rattle.stab_items.specs.Steps.{unroll, observables_of, check_within, HasDistinctQubits};
ghost use Rattle.stab_items.specs.Views.{circuit_items};
ghost use Rattle.stab_items.specs.Repeats.{AreRepeats};
ghost use Rattle.stab_run.specs.Records.{ones};
ghost use Rattle.stab_run.specs.Points.{all_coins_of};
ghost use Rattle.stab_session.specs.Recordings.{IsRecording};

use crate::recording::Recording;
use stab_io::{Fault, Refusal};
use stab_items::{Circuit, Repeat, Span};
use stab_run::{Coins, find_rounds};
use std::alloc::Global;

/// A recording, and where the steps that it is of come again.
#[derive(Drop)]
pub struct Recorded {
    pub recording: Recording,
    pub repeats: Vec<Repeat>,
}

/// Runs a circuit once on n qubits, at most 1,024, and keeps the run.
///
/// Refused as `Circuit::check` refuses, else `OutOfMemory`, always with line 0.
pub fn record_run<C: Coins>(
    alloc: Global,
    circuit: &Circuit,
    n: usize,
    stride: usize,
    coins: &mut C,
) -> Result<Recorded, Fault>
    requires in_range { n ≤ most_qubits }
    requires stride { 1 ≤ stride }
    ensures preserved { IfOk result (λ r. IsRecording n (C.sequence coins.old) stride (unroll (circuit_items circuit.now)) (observables_of (circuit_items circuit.now)) r.recording) }
    ensures repeats { IfOk result (λ r. AreRepeats 0 (unroll (circuit_items circuit.now)) r.repeats.items) }
    ensures distinct { OnOk result (All HasDistinctQubits (unroll (circuit_items circuit.now))) }
    ensures refused { Refuses result (check_within n (circuit_items circuit.now)) }
    ensures same_coins { C.sequence coins.new ≡ C.sequence coins.old }
    ensures asks { C.asks coins.new ≤ C.asks coins.old + all_coins_of (unroll (circuit_items circuit.now)) }
    ensures asks_random { IfOk result (λ r. C.asks coins.new ≤ C.asks coins.old + ones r.recording.outputs.free.items) }
{
    circuit.check(n)?;
    run_checked(alloc, circuit, n, stride, coins).map_err(Fault::whole)
}

/// Runs a circuit that was checked: an edit that puts all of its steps in.
fn run_checked<C: Coins>(
    alloc: Global,
    circuit: &Circuit,
    n: usize,
    stride: usize,
    coins: &mut C,
) -> Result<Recorded, Refusal>
    requires in_range { n ≤ most_qubits }
    requires stride { 1 ≤ stride }
    requires checked { check_within n (circuit_items circuit.now) ≡ None }
    ensures preserved { IfOk result (λ r. IsRecording n (C.sequence coins.old) stride (unroll (circuit_items circuit.now)) (observables_of (circuit_items circuit.now)) r.recording) }
    ensures repeats { IfOk result (λ r. AreRepeats 0 (unroll (circuit_items circuit.now)) r.repeats.items) }
    ensures distinct { OnOk result (All HasDistinctQubits (unroll (circuit_items circuit.now))) }
    ensures same_coins { C.sequence coins.new ≡ C.sequence coins.old }
    ensures asks { C.asks coins.new ≤ C.asks coins.old + all_coins_of (unroll (circuit_items circuit.now)) }
    ensures asks_random { IfOk result (λ r. C.asks coins.new ≤ C.asks coins.old + ones r.recording.outputs.free.items) }
    ensures err { IfErr result (λ r. r ≡ OutOfMemory) }
{
    let span = Span {
        first: 0,
        old_end: 0,
        new_end: circuit.steps(),
    };
    let mut recording = Recording::new(alloc, n)?;
    let repeats = find_rounds(alloc, circuit)?;
    recording.replay(
        alloc,
        circuit,
        repeats.as_slice(),
        span,
        stride,
        coins,
        &mut None,
        0,
    )?;
    Ok(Recorded { recording, repeats })
}
