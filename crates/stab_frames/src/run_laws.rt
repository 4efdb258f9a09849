//! Laws of whole runs: what an edit by Pauli gates, or other coins, make of a run.

ghost use Rattle.stab_frames.specs.RunLaws.{CoinsFlip, CheckpointsTakeFrames, FrontsFlip, FrontsGoOn, FrontsTakePaulis, PauliEditsFlip};

/// After fronts that differ by a frame the same steps make the one run the other, flipped: its
/// records, randomness, detectors and observables.
pub fn fronts_flip()
    ensures law { FrontsFlip }
{}

/// With these steps they are fronts again, which differ by the frame propagated over the steps.
pub fn fronts_go_on()
    ensures law { FrontsGoOn }
{}

/// With Pauli gates after the one and the other they are fronts again, which differ by the frame times
/// the letters of these gates.
pub fn fronts_take_paulis()
    ensures law { FrontsTakePaulis }
{}

/// A checkpoint of one of two such runs is one of the other, conjugated by the frame there: the signs
/// of its rows are flipped by the letters.
pub fn checkpoints_take_frames()
    ensures law { CheckpointsTakeFrames }
{}

/// So an edit that replaces Pauli gates by others, puts some in or takes some out, gives
/// the old run, flipped.
pub fn pauli_edits_flip()
    ensures law { PauliEditsFlip }
{}

/// The run of a circuit with other coins is that with some, flipped.
pub fn coins_flip()
    ensures law { CoinsFlip }
{}
