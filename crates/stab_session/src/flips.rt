ghost use Rattle.std.specs.Prelude.{◌≡◌, ◌++◌, [], false, length, take, drop, replicate};
ghost use Rattle.stab_run.specs.Points.{joined, with_additions};
ghost use Rattle.stab_run.specs.Cuts.{front_of, rest_of};
ghost use Rattle.stab_run.specs.ProgramStates.{output_of};
ghost use Rattle.stab_frames.specs.Flips.{flipped, flipped_additions, flipped_output};

use stab_frames::Propagation;
use stab_run::{Addition, Lengths, Outputs};

/// Inverts bits if the flips are 1. If there are no more flips they are as they are.
fn flip(bits: &mut [bool], flips: &[bool])
    ensures value { bits.new ≡ flipped bits.old flips.now }
{
    let count = flips.len().min(bits.len());
    for index in 0..count {
        bits[index] ^= flips[index];
    }
}

/// Inverts the bits of additions if those of the flips are 1.
fn flip_additions(additions: &mut [Addition], flips: &[Addition])
    ensures value { additions.new ≡ flipped_additions additions.old flips.now }
{
    let count = flips.len().min(additions.len());
    for index in 0..count {
        additions[index].bit ^= flips[index].bit;
    }
}

/// Inverts the bits of a list after this many, if the flips are 1.
fn flip_from(bits: &mut Vec<bool>, from: usize, flips: &[bool])
    ensures value { bits.new.items ≡ take from bits.old.items ++ flipped (drop from bits.old.items) flips.now }
{
    let from = from.min(bits.len());
    let (_, rest) = bits.as_mut_slice().split_at_mut(from);
    flip(rest, flips);
}

/// Inverts the bits of additions after this many, if those of the flips are 1.
fn flip_additions_from(additions: &mut Vec<Addition>, from: usize, flips: &[Addition])
    ensures value { additions.new.items ≡ take from additions.old.items ++ flipped_additions (drop from additions.old.items) flips.now }
{
    let from = from.min(additions.len());
    let (_, rest) = additions.as_mut_slice().split_at_mut(from);
    flip_additions(rest, flips);
}

/// Flips what a run gave after these lengths, as a frame says that was propagated over what is there. The randomness of coin numbers is as
/// they were. It takes no memory.
pub fn flip_outputs(outputs: &mut Outputs, from: Lengths, propagation: &Propagation)
    ensures value { output_of outputs.new ≡ joined (front_of from (output_of outputs.old)) (flipped_output (rest_of from (output_of outputs.old)) (record propagation.now.flips { free = [] })) }
{
    flip_from(&mut outputs.records, from.records, propagation.records());
    flip_from(&mut outputs.outcomes, from.free, propagation.outcomes());
    flip_from(
        &mut outputs.detectors,
        from.detectors,
        propagation.detectors(),
    );
    flip_additions_from(
        &mut outputs.additions,
        from.additions,
        propagation.additions(),
    );
}

/// Makes each observable the sum of what was added to it. It takes no memory.
pub fn sum_additions(observables: &mut Vec<bool>, additions: &[Addition])
    ensures value { observables.new.items ≡ with_additions additions.now (replicate (length observables.old.items) false) }
{
    observables.fill(false);
    for addition in additions {
        let index = addition.observable as usize;
        if index < observables.len() {
            observables[index] ^= addition.bit;
        }
    }
}
