//! Laws of single errors. Each function does nothing: its contract is the law, and the check proves it.

ghost use Rattle.stab_regions.specs.SingleErrorLaws.{DeterministicParities, DeterministicParityBits, SingleErrorsFlipParities, SitesFlipDeterministicParities, SingleErrorsAdd};

use stab_run::laws::runs_are_points_with_outputs;

/// The pass backwards finds deterministic exactly the detectors and observables whose bits are the same
/// for all random bits, and these are the bits that it gives.
pub fn deterministic_parities()
    ensures law { DeterministicParities }
    ensures bits { DeterministicParityBits }
{
    runs_are_points_with_outputs();
}

/// An inserted letter flips a deterministic bit if and only if the pass says so, for all random bits of both
/// runs, and so does the single error at a site. Any bit is flipped so once the coins of the outcomes that the
/// letter flips are flipped with it; which coins these are is the same for all bits.
pub fn single_errors_flip_parities()
    ensures law { SingleErrorsFlipParities }
    ensures sites { SitesFlipDeterministicParities }
{
    runs_are_points_with_outputs();
}

/// However many single errors go wrong in one run, in whatever order they are listed, a deterministic bit is flipped
/// if and only if an odd number of them flip it alone. So Y, which is X and Z at one site, and letters
/// on both qubits of a pair, are determined by X and Z on each.
pub fn single_errors_add()
    ensures law { SingleErrorsAdd }
{
    runs_are_points_with_outputs();
}
