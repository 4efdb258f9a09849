//! Steps on the way of a frame, from a run to one that has other coins there.

ghost use Rattle.std.specs.Prelude.{◌≡◌, ◌+◌, ◌^◌, ◌<◌, ◌≤◌, All, length, take, drop, OnOk};
ghost use Rattle.stab_run.specs.Records.{ones};
ghost use Rattle.stab_run.specs.Points.{all_coins_of};
ghost use Rattle.stab_run.specs.ProgramStates.{StepFits};
ghost use Rattle.stab_frames.specs.Pivots.{pivot_at};
ghost use Rattle.stab_frames.specs.Propagations.{IsPlaced};
ghost use Rattle.stab_frames.specs.OtherCoins.{coins_from, PropagatesToOthers};
ghost use Rattle.stab_frames.specs.inner.Draws.{outcome_of, differing};

use crate::propagate::propagate;
use stab_frames::{Draw, Known, Pivots, Propagation, bit_at};
use stab_items::Cursor;
use stab_run::Coins;
use std::alloc::AllocError;

/// Those coins differ that are not as the one run's outcomes were.
#[derive(Clone, Copy)]
struct OtherCoins<'a> {
    // Those of the coins from the one with number `start` on.
    outcomes: &'a [bool],
    start: usize,
    // The other run's coins have numbers this much greater.
    ahead: usize,
}

impl Draw for OtherCoins<'_> {
    ghost changes = { λ d coins. differing (outcome_of d.outcomes.now d.start) (coins_from d.ahead coins) };

    ghost ahead = { λ d. d.ahead };

    fn change<C: Coins>(&self, coins: &mut C, coin: usize) -> bool {
        let old = bit_at(self.outcomes, coin.saturating_sub(self.start));
        old ^ coins.coin((self.ahead + coin) as u64)
    }

    fn is_still(&self) -> bool {
        false
    }
}

/// Propagates a frame over the steps that a cursor has left, up to this many, from a run that passed them to one with other coins,
/// whose next coin has a number this much greater. The one run had this randomness, these outcomes there,
/// and pivots of all its random outcomes so far are stored. It asks for the coin of each random outcome at most once, and for no other.
pub fn propagate_with_coins<C: Coins>(
    propagation: &mut Propagation,
    strings: &Pivots,
    free: &[bool],
    outcomes: &[bool],
    coins: &mut C,
    ahead: usize,
    cursor: &mut Cursor,
    most: usize,
) -> Result<(), AllocError>
    requires same_length { strings.now.qubits ≡ length propagation.old.letters }
    requires fits { All (StepFits (length propagation.old.letters)) cursor.old.left }
    requires placed { IsPlaced free.now propagation.old }
    requires few { ahead + (propagation.old.coin + length cursor.old.left) < 2 ^ 63 }
    requires preserved { ones (take (propagation.old.coin + all_coins_of (take most cursor.old.left)) free.now) ≤ length strings.now.strings }
    ensures all { cursor.new.all ≡ cursor.old.all }
    ensures left { OnOk result (cursor.new.left ≡ drop most cursor.old.left) }
    ensures length { length propagation.new.letters ≡ length propagation.old.letters }
    ensures placed { OnOk result (IsPlaced free.now propagation.new) }
    ensures same_coins { C.sequence coins.new ≡ C.sequence coins.old }
    ensures asks { C.asks coins.new ≤ C.asks coins.old + all_coins_of (take most cursor.old.left) }
    ensures asks_random { OnOk result (C.asks coins.new ≤ C.asks coins.old + ones (take (all_coins_of (take most cursor.old.left)) (drop propagation.old.coin free.now))) }
    ensures propagated { OnOk result (PropagatesToOthers (length propagation.old.letters) (pivot_at strings.now.strings free.now) free.now outcomes.now (coins_from ahead (C.sequence coins.old)) (take most cursor.old.left) propagation.old propagation.new) }
{
    let draw = OtherCoins {
        outcomes,
        start: propagation.coin(),
        ahead,
    };
    let known = Known {
        strings,
        free,
        draw: &draw,
    };
    // The caller has counted these steps: as carried out those whose coin is asked for.
    let mut by_frame = 0;
    propagate(
        propagation,
        known,
        coins,
        cursor,
        most,
        0,
        false,
        &mut by_frame,
    )?;
    Ok(())
}
