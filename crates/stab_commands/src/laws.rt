//! Laws of what is written of a circuit. Each function does nothing: its contract is the law, and the check
//! proves it.
ghost use Rattle.stab_commands.specs.Checks.{NumbersAreOfRuns};
ghost use Rattle.stab_report.specs.Coins.{CoinsHaveRows};
ghost use Rattle.stab_report.specs.Reasons.{DeterministicHasNoDecider};
ghost use Rattle.stab_report.specs.Rows.{SameGroupSameLines};

/// Two stabiliser groups are one if and only if the lines of their reduced rows are the same: so texts that `stabilisers`
/// wrote can be compared instead of states.
pub fn same_group_same_lines()
    ensures law { SameGroupSameLines }
{}

/// The numbers that `check` writes are those of any run of the circuit, for all random bits: how many
/// records, detectors and observables it has, and how many coins it uses up.
pub fn numbers_are_of_runs()
    ensures law { NumbersAreOfRuns }
{}

/// A detector or observable is the same for all random bits if and only if none of the coins of a circuit's table flips it: so it is left
/// out by `run_explain` if and only if `run_deterministic` writes a 1 for it.
pub fn deterministic_has_no_decider()
    ensures law { DeterministicHasNoDecider }
{}

/// If nothing refuses a circuit, it has a table of coins: what a coin flips does not depend on the other coins.
pub fn coins_have_rows()
    ensures law { CoinsHaveRows }
{}
