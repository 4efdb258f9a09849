//! A law of what commands write. The function does nothing: its contract is the law, and the check proves it.
ghost use Rattle.stab_commands.specs.Outputs.{DetectedPartsJoin, SampledPartsJoin};

/// What `sample` and `detect` write for some shots and for those that follow them, one after the
/// other, is what they write for all of these, in each format: so a run in parts gives the bytes of
/// one run.
pub fn joined_parts_are_the_whole()
    ensures sampled { SampledPartsJoin }
    ensures detected { DetectedPartsJoin }
{}
