//! Laws of runs. Each function does nothing: its contract is the law, and the check proves it.

ghost use Rattle.stab_run.specs.Laws.{CheckedStepsFit, FixedOutcomesNeedNoCoins, RunsArePointsWithOutputs, CoinsDecideRandomOutcomes, RunsDependOnDecidingCoins, RunsAreSound, SameFuture, SameFutureBack};
ghost use Rattle.stab_run.specs.RoundLaws.{RoundsComeAgain};

/// A run ends at the point where its steps end, with what the steps give put after what there
/// was; so prefixes and tails of runs are prefixes and tails of lists.
pub fn runs_are_points_with_outputs()
    ensures law { RunsArePointsWithOutputs }
{}

/// An outcome that is random is the coin, and any other does not depend on the coin.
pub fn coins_decide_random_outcomes()
    ensures law { CoinsDecideRandomOutcomes }
{}

/// A run does not depend on the coins whose outcomes were not random.
pub fn runs_depend_on_deciding_coins()
    ensures law { RunsDependOnDecidingCoins }
{}

/// If nothing refuses the items of any faultless lines on n qubits, the trace of their run fits
/// n qubits and is sound, for all random bits. So the laws of `stab_tableau::laws` hold for every
/// run. The lines rule out pairs of one qubit with itself, which a bare list of items could hold.
pub fn runs_are_sound()
    ensures law { RunsAreSound }
{}

/// The qubits of each step of a circuit that nothing refuses on n qubits are below n, and those of a
/// pair differ: no pair in the items of any faultless lines is of one qubit with itself
/// (`stab_circuit::laws::lines_keep_qubits_distinct`), and a `Cursor` says so about its circuit.
pub fn checked_steps_fit()
    ensures law { CheckedStepsFit }
{}

/// Two points with the same stabilised strings, number of the next coin and records have the same
/// future, though they came about in different ways: every list of steps gives the same from both,
/// and comes to two such points.
pub fn same_future()
    ensures law { SameFuture }
{}

/// Two points that agree as far back as steps look have the same future by these steps.
pub fn same_future_back()
    ensures law { SameFutureBack }
{}

/// If no coin decides, the number of the next coin makes no difference.
pub fn fixed_outcomes_need_no_coins()
    ensures law { FixedOutcomesNeedNoCoins }
{}

/// Steps that no coin decides, and that come to where they began as far back as they look, give the
/// same again, however often they are repeated.
pub fn rounds_come_again()
    ensures law { RoundsComeAgain }
{}
