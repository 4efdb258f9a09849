//! What a run records on its way, for frames to be propagated over its steps.

use crate::pivots::Pivots;
use stab_instructions::{MeasureTarget, Measurement};
use stab_io::Refusal;
use stab_items::{Step, Steps, furthest, furthest_detector, furthest_of, measured_step};
use stab_pauli::Pauli;
use stab_run::{Coins, Outputs, apply_step, apply_step_with_pivot, apply_steps};
use stab_tableau::Tableau;
use std::alloc::Global;

/// What a run records on its way, for frames to be propagated over its steps.
#[derive(Drop)]
pub struct PivotRecorder {
    /// Pivots of its random outcomes, the first of them in their order.
    pub strings: Pivots,
    /// No step so far looks back further than this many records.
    pub window: u32,
    /// A string on the run's qubits, for the tableau to write into.
    pub string: Pauli,
}

impl PivotRecorder {
    ghost use Rattle.std.specs.Prelude.{◌≡◌, ◌+◌, ◌<◌, ◌≤◌, ◌^◌, ◌∷◌, [], All, length, map, OnOk, IfErr};
    ghost use Rattle.stab_io.specs.declared.refusal.Refusal.TheVariants.{OutOfMemory};
    ghost use Rattle.stab_items.specs.Steps.{measured};
    ghost use Rattle.stab_items.specs.StepValues.{step_shown, steps_shown};
    ghost use Rattle.stab_run.specs.Points.{coins_of, all_coins_of};
    ghost use Rattle.stab_run.specs.ProgramStates.{StepFits, program_state, output_of};
    ghost use Rattle.stab_frames.specs.inner.RecordedPivots.{AreOnQubits, RecordsNoLess, RecordsSteps};

    /// Carries out steps, and records them. The other string is for products to be written into.
    pub fn run_steps<C: Coins>(
        &mut self,
        alloc: Global,
        tableau: &mut Tableau,
        string: &mut Pauli,
        coins: &mut C,
        outputs: &mut Outputs,
        steps: Steps,
        applied: &mut u64,
    ) -> Result<(), Refusal>
        requires sized { AreOnQubits tableau.old.qubits string.old self.old }
        requires fits { All (StepFits tableau.old.qubits) (steps_shown steps) }
        requires few { applied.old + length (steps_shown steps) < 2 ^ 63 }
        ensures qubits { tableau.new.qubits ≡ tableau.old.qubits }
        ensures sized { AreOnQubits tableau.old.qubits string.new self.new }
        ensures same_coins { C.sequence coins.new ≡ C.sequence coins.old }
        ensures asks { C.asks coins.new ≤ C.asks coins.old + all_coins_of (steps_shown steps.entry) }
        ensures no_less { RecordsNoLess self.old self.new }
        ensures recorded { OnOk result (RecordsSteps tableau.old.qubits (C.sequence coins.old) (steps_shown steps.entry) self.old self.new (program_state tableau.old (output_of outputs.old)) (program_state tableau.new (output_of outputs.new)) applied.old applied.new (C.asks coins.old) (C.asks coins.new)) }
        ensures err { IfErr result (λ r. r ≡ OutOfMemory) }
    {
        match steps {
            Steps::Gates(..) => apply_steps(tableau, string, coins, outputs, steps, applied)?,
            Steps::Pairs(_, pairs) => {
                self.window = furthest(self.window, pairs);
                apply_steps(tableau, string, coins, outputs, steps, applied)?;
            }
            Steps::Detectors(detectors) => {
                self.window = furthest_detector(self.window, detectors);
                apply_steps(tableau, string, coins, outputs, steps, applied)?;
            }
            Steps::Measurements(measurement, targets) => {
                self.run_targets(
                    alloc,
                    tableau,
                    string,
                    coins,
                    outputs,
                    measurement,
                    targets,
                    applied,
                )?;
            }
            Steps::Single(step) => {
                self.run_step(alloc, tableau, string, coins, outputs, step, applied)?;
            }
        }
        Ok(())
    }

    /// Carries out the measurements of targets, and records them: all at once if no further string is stored.
    fn run_targets<C: Coins>(
        &mut self,
        alloc: Global,
        tableau: &mut Tableau,
        string: &mut Pauli,
        coins: &mut C,
        outputs: &mut Outputs,
        measurement: Measurement,
        targets: &[MeasureTarget],
        applied: &mut u64,
    ) -> Result<(), Refusal>
        requires sized { AreOnQubits tableau.old.qubits string.old self.old }
        requires fits { All (StepFits tableau.old.qubits) (map (measured measurement) targets.now) }
        requires few { applied.old + length targets.now < 2 ^ 63 }
        ensures qubits { tableau.new.qubits ≡ tableau.old.qubits }
        ensures sized { AreOnQubits tableau.old.qubits string.new self.new }
        ensures same_coins { C.sequence coins.new ≡ C.sequence coins.old }
        ensures asks { C.asks coins.new ≤ C.asks coins.old + length targets.now }
        ensures no_less { RecordsNoLess self.old self.new }
        ensures recorded { OnOk result (RecordsSteps tableau.old.qubits (C.sequence coins.old) (map (measured measurement) targets.now) self.old self.new (program_state tableau.old (output_of outputs.old)) (program_state tableau.new (output_of outputs.new)) applied.old applied.new (C.asks coins.old) (C.asks coins.new)) }
        ensures err { IfErr result (λ r. r ≡ OutOfMemory) }
    {
        if self.strings.is_full() {
            let steps = Steps::Measurements(measurement, targets);
            apply_steps(tableau, string, coins, outputs, steps, applied)?;
            return Ok(());
        }
        for target in targets {
            let step = measured_step(measurement, *target);
            self.run_step(alloc, tableau, string, coins, outputs, step, applied)?;
        }
        Ok(())
    }

    /// Carries out a step, and records it. If no further string is stored, none is looked for.
    fn run_step<C: Coins>(
        &mut self,
        alloc: Global,
        tableau: &mut Tableau,
        string: &mut Pauli,
        coins: &mut C,
        outputs: &mut Outputs,
        step: Step,
        applied: &mut u64,
    ) -> Result<(), Refusal>
        requires sized { AreOnQubits tableau.old.qubits string.old self.old }
        requires fits { StepFits tableau.old.qubits (step_shown step) }
        requires few { applied.old < 2 ^ 63 }
        ensures qubits { tableau.new.qubits ≡ tableau.old.qubits }
        ensures sized { AreOnQubits tableau.old.qubits string.new self.new }
        ensures same_coins { C.sequence coins.new ≡ C.sequence coins.old }
        ensures asks { C.asks coins.new ≤ C.asks coins.old + coins_of (step_shown step.entry) }
        ensures no_less { RecordsNoLess self.old self.new }
        ensures recorded { OnOk result (RecordsSteps tableau.old.qubits (C.sequence coins.old) (step_shown step.entry ∷ []) self.old self.new (program_state tableau.old (output_of outputs.old)) (program_state tableau.new (output_of outputs.new)) applied.old applied.new (C.asks coins.old) (C.asks coins.new)) }
        ensures err { IfErr result (λ r. r ≡ OutOfMemory) }
    {
        self.window = furthest_of(self.window, step);
        if self.strings.is_full() {
            apply_step(tableau, string, coins, outputs, step, applied)?;
            return Ok(());
        }
        let free = apply_step_with_pivot(
            tableau,
            string,
            &mut self.string,
            coins,
            outputs,
            step,
            applied,
        )?;
        if free {
            self.strings.push(alloc, &self.string)?;
        }
        Ok(())
    }
}
