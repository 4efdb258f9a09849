//! A run with all coins 0, of whose steps this many are recorded at once.
ghost use Rattle.std.specs.Prelude.{◌≡◌, ◌≤◌, ◌+◌, ◌++◌, None, [], false, length, replicate, take, drop, IfOk, OnOk, IfErr};
ghost use Rattle.stab_io.specs.declared.refusal.Refusal.TheVariants.{OutOfMemory};
ghost use Rattle.stab_gates.specs.Limits.{most_qubits};
ghost use Rattle.stab_items.specs.Steps.{unroll, check_within, observables_of};
ghost use Rattle.stab_items.specs.Views.{circuit_items};
ghost use Rattle.stab_run.specs.Records.{ones};
ghost use Rattle.stab_run.specs.Points.{with_additions};

use crate::measure::RecordedPivots;
use stab_frames::{PivotRecorder, Pivots};
use stab_io::Refusal;
use stab_items::{Circuit, Cursor};
use stab_pauli::Pauli;
use stab_recording::{Shot, run_recording_pivots};
use stab_run::{ListCoins, Outputs, observables};
use stab_tableau::Tableau;
use std::alloc::{AllocError, Global};

/// A run with all coins 0 on its way, and what is recorded of the last steps that it went over.
#[derive(Drop)]
pub struct PartRecording {
    pub tableau: Tableau,
    // For products to be written into.
    pub string: Pauli,
    // Its randomness is that of the last steps alone, and 0 before.
    pub outputs: Outputs,
    pub pivots: PivotRecorder,
    // The randomness of all coin numbers.
    pub free: Vec<bool>,
}

/// Makes randomness 0.
fn clear_randomness(randomness: &mut Vec<bool>)
    ensures size { length randomness.new.items ≡ length randomness.old.items }
    ensures none { ones randomness.new.items ≡ 0 }
{
    randomness.fill(false);
}

/// Puts randomness from a position on after others.
fn push_rest(randomness: &mut Vec<bool>, all: &[bool], from: usize) -> Result<(), AllocError>
    ensures value { OnOk result (randomness.new.items ≡ randomness.old.items ++ drop from all.now) }
{
    let (_, rest) = all.split_at(from.min(all.len()));
    randomness.extend_from_slice(rest)
}

impl PartRecording {
    ghost use Rattle.stab_sampler.specs.PartRecordings.{IsSized, IsPartRecording, HasPivots};

    /// The run on n qubits before its first step, with room for this many records.
    pub fn new(alloc: Global, n: usize, records: usize) -> Result<PartRecording, Refusal>
        requires in_range { n ≤ most_qubits }
        ensures sized { IfOk result (λ r. IsSized n r) }
        ensures begins { IfOk result (λ r. IsPartRecording n [] r) }
        ensures err { IfErr result (λ r. r ≡ OutOfMemory) }
    {
        let tableau = Tableau::new(alloc, n)?;
        let string = Pauli::identity(alloc, n)?;
        let written = Pauli::identity(alloc, n)?;
        let outputs = Outputs::with_capacity(alloc, records)?;
        let free = Vec::with_capacity(alloc, records)?;
        let strings = Pivots::new(alloc, n);
        Ok(PartRecording {
            tableau,
            string,
            outputs,
            pivots: PivotRecorder {
                strings,
                window: 0,
                string: written,
            },
            free,
        })
    }

    /// Goes over this many steps of a circuit that nothing refuses, from this one on, and replaces what was recorded by what they give.
    pub fn advance(
        &mut self,
        alloc: Global,
        circuit: &Circuit,
        from: usize,
        count: usize,
    ) -> Result<(), Refusal>
        requires checked { check_within self.old.tableau.qubits (circuit_items circuit.now) ≡ None }
        requires in_range { from ≤ length (unroll (circuit_items circuit.now)) }
        requires sized { IsSized self.old.tableau.qubits self.old }
        requires recorded { IsPartRecording self.old.tableau.qubits (take from (unroll (circuit_items circuit.now))) self.old }
        ensures sized { OnOk result (IsSized self.old.tableau.qubits self.new) }
        ensures recorded { OnOk result (IsPartRecording self.old.tableau.qubits (take (from + count) (unroll (circuit_items circuit.now))) self.new) }
        ensures recorded_pivots { OnOk result (HasPivots self.old.tableau.qubits (take from (unroll (circuit_items circuit.now))) (take count (drop from (unroll (circuit_items circuit.now)))) self.new) }
        ensures err { IfErr result (λ r. r ≡ OutOfMemory) }
    {
        self.pivots.strings.truncate(0);
        clear_randomness(&mut self.outputs.free);
        let determined = self.outputs.free.len();
        let mut cursor = Cursor::at(alloc, circuit, from)?;
        let mut coins = ListCoins::new(&[]);
        let mut applied = 0;
        run_recording_pivots(
            alloc,
            &mut self.tableau,
            &mut self.string,
            &mut coins,
            &mut self.outputs,
            &mut cursor,
            count,
            &mut applied,
            &mut self.pivots,
        )?;
        push_rest(&mut self.free, self.outputs.free.as_slice(), determined)?;
        Ok(())
    }

    /// What is recorded.
    pub fn recorded_pivots(&self) -> RecordedPivots<'_>
        ensures strings { result.strings.now ≡ self.now.pivots.strings }
        ensures free { result.free.now ≡ self.now.outputs.free.items }
    {
        RecordedPivots {
            strings: &self.pivots.strings,
            free: self.outputs.free.as_slice(),
        }
    }
}

/// What a run gave, with the randomness of all coin numbers, as a shot of a circuit.
pub fn shot_of(
    alloc: Global,
    circuit: &Circuit,
    outputs: Outputs,
    free: Vec<bool>,
) -> Result<Shot, AllocError>
    ensures records { IfOk result (λ s. s.records.items ≡ outputs.records.items) }
    ensures free { IfOk result (λ s. s.free.items ≡ free.items) }
    ensures detectors { IfOk result (λ s. s.detectors.items ≡ outputs.detectors.items) }
    ensures observables { IfOk result (λ s. s.observables.items ≡ with_additions outputs.additions.items (replicate (observables_of (circuit_items circuit.now)) false)) }
{
    let (records, _, detectors, additions) = outputs.into_parts();
    let observables = observables(alloc, circuit.observables(), additions.as_slice())?;
    Ok(Shot {
        records,
        free,
        detectors,
        observables,
    })
}
