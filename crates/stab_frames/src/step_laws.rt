//! Laws of steps: what becomes of a frame on the way.

ghost use Rattle.stab_frames.specs.StepLaws.{FramesAdd, FramesCompose, FramesEnd, PointsHaveGroups, RunsKeepFrames, StepsKeepFrames};
ghost use Rattle.stab_frames.specs.RepeatedStepLaws.{StepsComePropagated};

/// From two points that differ by a frame a step comes to two that differ by the frame after it, and
/// what it gives at the one is what it gives at the other, flipped.
pub fn steps_keep_frames()
    ensures law { StepsKeepFrames }
{}

/// So do steps.
pub fn runs_keep_frames()
    ensures law { RunsKeepFrames }
{}

/// The strings that stabilise at a point of a run are a group, which the laws of steps ask for.
pub fn points_have_groups()
    ensures law { PointsHaveGroups }
{}

/// Between a point and itself there is the identity; two frames one after another make their product;
/// and a frame serves both ways.
pub fn frames_compose()
    ensures law { FramesCompose }
{}

/// What the product of two frames flips is what each flips, added.
pub fn frames_add()
    ensures law { FramesAdd }
{}

/// A frame that flips no sign, and has flipped none of the newest m records, leaves two points that
/// agree as far back as these.
pub fn frames_end()
    ensures law { FramesEnd }
{}

/// If a run comes to a point that is as an earlier one except for a frame, as far back as its steps look, steps give there what
/// they gave, flipped, whatever the coins, and come to such a point again.
pub fn steps_come_propagated()
    ensures law { StepsComePropagated }
{}
