//! Laws of pivots: what has to be known of a run's measurements for a frame to follow it.

ghost use Rattle.stab_frames.specs.PivotLaws.{RandomnessDeterminesPivots, FramesHaveCoins, RightPivotsAreEnough, RunsHavePivots, FlippedCoinsNeedNoPivots};

/// Notes that are right for each measurement of a run are enough for every frame.
pub fn right_pivots_are_enough()
    ensures law { RightPivotsAreEnough }
{}

/// If the coins of the other run are flipped with the frame, it needs no strings.
pub fn flipped_coins_need_no_pivots()
    ensures law { FlippedCoinsNeedNoPivots }
{}

/// Each frame has such coins, for any run that it starts from.
pub fn frames_have_coins()
    ensures law { FramesHaveCoins }
{}

/// Each run has right pivots, so what the laws of steps and runs ask of pivots can be met.
pub fn runs_have_pivots()
    ensures law { RunsHavePivots }
{}

/// Right pivots have a string exactly if the randomness of the run says that the coin decided.
pub fn randomness_determines_pivots()
    ensures law { RandomnessDeterminesPivots }
{}
