//! What a run gave, repeated.

ghost use Rattle.std.specs.Prelude.{◌≡◌, OnOk, IfOk};
ghost use Rattle.stab_run.specs.Points.{joined};
ghost use Rattle.stab_run.specs.ProgramStates.{output_of};
ghost use Rattle.stab_recording.specs.Parts.{between as between_lengths};

use stab_frames::between;
use stab_run::{Lengths, Outputs};
use std::alloc::{AllocError, Global};

/// What lists have between some lengths and others.
pub fn part_between(
    alloc: Global,
    outputs: &Outputs,
    from: Lengths,
    to: Lengths,
) -> Result<Outputs, AllocError>
    ensures value { IfOk result (λ o. output_of o ≡ between_lengths from to (output_of outputs.now)) }
{
    let records = between(outputs.records.as_slice(), from.records, to.records);
    let free = between(outputs.free.as_slice(), from.free, to.free);
    let outcomes = between(outputs.outcomes.as_slice(), from.free, to.free);
    let detectors = between(outputs.detectors.as_slice(), from.detectors, to.detectors);
    let additions = between(outputs.additions.as_slice(), from.additions, to.additions);
    Ok(Outputs {
        records: Vec::from_slice(alloc, records)?,
        free: Vec::from_slice(alloc, free)?,
        outcomes: Vec::from_slice(alloc, outcomes)?,
        detectors: Vec::from_slice(alloc, detectors)?,
        additions: Vec::from_slice(alloc, additions)?,
    })
}

/// Repeats what was given from some lengths to others.
pub fn repeat_outputs(
    alloc: Global,
    outputs: &mut Outputs,
    from: Lengths,
    to: Lengths,
) -> Result<(), AllocError>
    ensures value { OnOk result (output_of outputs.new ≡ joined (output_of outputs.old) (between_lengths from to (output_of outputs.old))) }
{
    let part = part_between(alloc, outputs, from, to)?;
    let before = Lengths {
        records: 0,
        free: 0,
        detectors: 0,
        additions: 0,
    };
    outputs.append_rest(&part, before)?;
    Ok(())
}
