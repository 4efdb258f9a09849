//! Some steps of a circuit, on lanes that are propagated over what is recorded of a run.
ghost use Rattle.std.specs.Prelude.{◌≡◌, ◌+◌, ◌≤◌, None, All, length, take, drop, OnOk, IfErr};
ghost use Rattle.stab_io.specs.declared.refusal.Refusal.TheVariants.{OutOfMemory};
ghost use Rattle.stab_items.specs.Steps.{unroll, check_within};
ghost use Rattle.stab_items.specs.Views.{circuit_items};
ghost use Rattle.stab_run.specs.ProgramStates.{StepFits};
ghost use Rattle.stab_sampler.specs.Differences.{MayPropagateLanes, GoOver, ArePropagated};

use crate::coins::Draw;
use crate::lanes::Lanes;
use crate::measure::RecordedPivots;
use crate::steps::propagate_instruction;
use crate::word::Word;
use stab_io::Refusal;
use stab_items::{Circuit, Cursor};
use std::alloc::Global;

/// Propagates all lanes over this many steps of a circuit that nothing refuses, from this one on.
pub fn propagate_part<W: Word, D: Draw<W>>(
    alloc: Global,
    circuit: &Circuit,
    recorded_pivots: RecordedPivots,
    draw: &mut D,
    lanes: &mut Lanes<W>,
    from: usize,
    count: usize,
) -> Result<(), Refusal>
    requires checked { check_within recorded_pivots.strings.now.qubits (circuit_items circuit.now) ≡ None }
    requires in_range { from ≤ length (unroll (circuit_items circuit.now)) }
    requires may { MayPropagateLanes recorded_pivots lanes.old }
    ensures same_coins { D.sequences draw.new ≡ D.sequences draw.old }
    ensures goes { OnOk result (GoOver W.at W.lanes recorded_pivots.entry (D.sequences draw.old) (take count (drop from (unroll (circuit_items circuit.now)))) lanes.old lanes.new) }
    ensures fits { OnOk result (All (StepFits recorded_pivots.entry.strings.now.qubits) (unroll (circuit_items circuit.now))) }
    ensures err { IfErr result (λ r. r ≡ OutOfMemory) }
{
    let mut cursor = Cursor::at(alloc, circuit, from)?;
    let mut left = count;
    while left > 0 {
        let Some(steps) = cursor.next_steps(left) else {
            return Ok(());
        };
        left -= steps.len();
        propagate_instruction(recorded_pivots, draw, lanes, steps)?;
    }
    Ok(())
}

/// Propagates all lanes, which went over the steps before this one, over this many more.
pub fn propagate_along<W: Word, D: Draw<W>>(
    alloc: Global,
    circuit: &Circuit,
    recorded_pivots: RecordedPivots,
    draw: &mut D,
    lanes: &mut Lanes<W>,
    from: usize,
    count: usize,
) -> Result<(), Refusal>
    requires checked { check_within recorded_pivots.strings.now.qubits (circuit_items circuit.now) ≡ None }
    requires in_range { from ≤ length (unroll (circuit_items circuit.now)) }
    requires advanced { ArePropagated W.at W.lanes recorded_pivots (D.sequences draw.old) (take from (unroll (circuit_items circuit.now))) lanes.old }
    ensures same_coins { D.sequences draw.new ≡ D.sequences draw.old }
    ensures advanced { OnOk result (ArePropagated W.at W.lanes recorded_pivots.entry (D.sequences draw.old) (take (from + count) (unroll (circuit_items circuit.now))) lanes.new) }
    ensures fits { OnOk result (All (StepFits recorded_pivots.entry.strings.now.qubits) (unroll (circuit_items circuit.now))) }
    ensures err { IfErr result (λ r. r ≡ OutOfMemory) }
{
    propagate_part(alloc, circuit, recorded_pivots, draw, lanes, from, count)?;
    Ok(())
}
