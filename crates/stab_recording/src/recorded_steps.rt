//! Steps that a run carries out, with pivots of its random outcomes.

ghost use Rattle.std.specs.Prelude.{◌≡◌, ◌+◌, ◌<◌, ◌≤◌, ◌^◌, All, length, take, OnOk, IfErr};
ghost use Rattle.stab_io.specs.declared.refusal.Refusal.TheVariants.{OutOfMemory};
ghost use Rattle.stab_run.specs.Points.{all_coins_of};
ghost use Rattle.stab_run.specs.ProgramStates.{StepFits, program_state, output_of};
ghost use Rattle.stab_frames.specs.inner.RecordedPivots.{AreOnQubits, RecordsNoLess};
ghost use Rattle.stab_recording.specs.RecordedSteps.{HasRecorded};

use stab_frames::PivotRecorder;
use stab_io::Refusal;
use stab_items::Cursor;
use stab_pauli::Pauli;
use stab_run::{Coins, Outputs};
use stab_tableau::Tableau;
use std::alloc::Global;

/// Carries out the steps that a cursor has left, up to this many, and counts them. It records the
/// pivots of random outcomes and how far the steps look back. The string is for products to be written into.
///
/// Refusal `OutOfMemory` alone.
pub fn run_recording_pivots<C: Coins>(
    alloc: Global,
    tableau: &mut Tableau,
    string: &mut Pauli,
    coins: &mut C,
    outputs: &mut Outputs,
    cursor: &mut Cursor,
    most: usize,
    applied: &mut u64,
    pivots: &mut PivotRecorder,
) -> Result<(), Refusal>
    requires sized { AreOnQubits tableau.old.qubits string.old pivots.old }
    requires fits { All (StepFits tableau.old.qubits) cursor.old.left }
    requires few { applied.old + length cursor.old.left < 2 ^ 63 }
    ensures all { cursor.new.all ≡ cursor.old.all }
    ensures qubits { tableau.new.qubits ≡ tableau.old.qubits }
    ensures sized { AreOnQubits tableau.old.qubits string.new pivots.new }
    ensures same_coins { C.sequence coins.new ≡ C.sequence coins.old }
    ensures asks { C.asks coins.new ≤ C.asks coins.old + all_coins_of (take most cursor.old.left) }
    ensures recorded { OnOk result (HasRecorded tableau.old.qubits (C.sequence coins.old) most cursor.old cursor.new pivots.old pivots.new (program_state tableau.old (output_of outputs.old)) (program_state tableau.new (output_of outputs.new)) applied.old applied.new (C.asks coins.old) (C.asks coins.new)) }
    ensures no_less { RecordsNoLess pivots.old pivots.new }
    ensures err { IfErr result (λ r. r ≡ OutOfMemory) }
{
    let mut left = most;
    while left > 0 {
        let Some(steps) = cursor.next_steps(left) else {
            return Ok(());
        };
        left -= steps.len();
        pivots.run_steps(alloc, tableau, string, coins, outputs, steps, applied)?;
    }
    Ok(())
}
