//! What a run gave, repeated as a frame flips it: bits that are flipped, and pivots again.

ghost use Rattle.std.specs.Prelude.{◌≡◌, ◌≤◌, length, OnOk, IfErr};
ghost use Rattle.stab_run.specs.Points.{joined};
ghost use Rattle.stab_run.specs.ProgramStates.{output_of};
ghost use Rattle.stab_frames.specs.Flips.{flipped_output};
ghost use Rattle.stab_io.specs.declared.refusal.Refusal.TheVariants.{OutOfMemory};
ghost use Rattle.stab_recording.specs.FramesFrom.{flips_after};
ghost use Rattle.stab_recording.specs.inner.FoldedReplays.{HasStringsAgain};

use stab_frames::{Pivots, Propagation, append_flipped, append_flipped_additions, between};
use stab_io::Refusal;
use stab_run::{Lengths, Outputs};
use std::alloc::AllocError;

/// How many records, coins, detectors and additions a frame has passed.
pub fn lengths_propagated(propagation: &Propagation) -> Lengths
    ensures records { result.records ≡ length propagation.now.flips.records }
    ensures free { result.free ≡ length propagation.now.flips.outcomes }
    ensures detectors { result.detectors ≡ length propagation.now.flips.detectors }
    ensures additions { result.additions ≡ length propagation.now.flips.additions }
{
    Lengths {
        records: propagation.records().len(),
        free: propagation.outcomes().len(),
        detectors: propagation.detectors().len(),
        additions: propagation.additions().len(),
    }
}

/// Appends what steps gave, flipped as a frame says that went over them and had passed this much before.
pub fn append_propagated(
    outputs: &mut Outputs,
    part: &Outputs,
    propagation: &Propagation,
    before: Lengths,
) -> Result<(), AllocError>
    ensures value { OnOk result (output_of outputs.new ≡ joined (output_of outputs.old) (flipped_output (output_of part.now) (flips_after before propagation.now))) }
{
    append_flipped(
        &mut outputs.records,
        part.records.as_slice(),
        between(
            propagation.records(),
            before.records,
            propagation.records().len(),
        ),
    )?;
    outputs.free.extend_from_slice(part.free.as_slice())?;
    append_flipped(
        &mut outputs.outcomes,
        part.outcomes.as_slice(),
        between(
            propagation.outcomes(),
            before.free,
            propagation.outcomes().len(),
        ),
    )?;
    append_flipped(
        &mut outputs.detectors,
        part.detectors.as_slice(),
        between(
            propagation.detectors(),
            before.detectors,
            propagation.detectors().len(),
        ),
    )?;
    append_flipped_additions(
        &mut outputs.additions,
        part.additions.as_slice(),
        between(
            propagation.additions(),
            before.additions,
            propagation.additions().len(),
        ),
    )?;
    Ok(())
}

/// Puts strings after the others again, from the one with a number up to another's, unless no further ones are stored.
///
/// Refusal `OutOfMemory` alone.
pub fn repeat_pivots(strings: &mut Pivots, from: usize, to: usize) -> Result<(), Refusal>
    ensures value { OnOk result (HasStringsAgain from to strings.old strings.new) }
    ensures most { strings.old.most ≤ strings.new.most }
    ensures err { IfErr result (λ r. r ≡ OutOfMemory) }
{
    if strings.is_full() {
        return Ok(());
    }
    strings.append_again(from, to)?;
    Ok(())
}
