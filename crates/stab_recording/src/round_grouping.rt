//! Which rounds of a block are compared to find a state that comes again: short rounds are taken several as one.

ghost use Rattle.std.specs.Prelude.{◌≡◌, ◌+◌, ◌*◌, ◌<◌, ◌≤◌, ◌^◌, nat_le, List};
ghost use Rattle.stab_items.specs.Steps.{Step};
ghost use Rattle.stab_items.specs.Repeats.{IsRepeat};

use stab_items::Repeat;

/// How many rounds of a block are compared one by one; the others are handled as a whole.
pub const MOST_SINGLE: usize = 64;

/// How many steps a block has at least for its rounds to be compared.
const LEAST_STEPS: usize = 2048;

/// How many steps a round has at least that is compared by itself: to compare takes about as long as some hundred steps.
const LEAST_TOGETHER: usize = 512;

/// How many of the rounds so taken there are at least, so that enough are left to be repeated.
const LEAST_ROUNDS: usize = 8;

/// Whether a block has enough steps that it pays to compare its rounds: each comparison finds its step in the circuit anew.
pub fn is_long(repeat: Repeat) -> bool
    ensures value { result ≡ nat_le 2048 (repeat.rounds * repeat.length) }
{
    repeat.rounds.saturating_mul(repeat.length) >= LEAST_STEPS
}

/// The rounds of a repeat, or, if they are short, groups of them of some hundred steps, each taken as one round. Rounds that are
/// left at the end are no part of it.
pub fn taken_together(repeat: Repeat) -> Repeat
    requires some { 0 < repeat.length }
    requires few { repeat.rounds * repeat.length < 2 ^ 63 }
    ensures repeat { (steps : List Step) → IsRepeat steps repeat → IsRepeat steps result }
    ensures first { result.first ≡ repeat.first }
    ensures within { result.rounds * result.length ≤ repeat.rounds * repeat.length }
{
    let together = LEAST_TOGETHER.div_ceil(repeat.length);
    let rounds = repeat.rounds / together;
    if rounds < LEAST_ROUNDS {
        return repeat;
    }
    Repeat {
        length: repeat.length * together,
        rounds,
        ..repeat
    }
}
