//! Which coins differ where a frame meets random outcomes.

ghost use Rattle.std.specs.Prelude.{◌≡◌, ℕ, ◌+◌, ◌^◌, ◌<◌, ◌≤◌, Bool, true, false};
ghost use Rattle.stab_frames.specs.inner.Draws.{never};

use stab_run::Coins;

/// Which coins of another run differ from those of the run that a frame comes from. If an outcome is random, it is flipped
/// exactly if its coin differs.
pub trait Draw: Copy {
    // Whether a coin differs: by the other run's coins and the coin's number.
    ghost changes: { Self → (ℕ → Bool) → ℕ → Bool };
    // The other run's coins have numbers this much greater.
    ghost ahead: { Self → ℕ };

    /// Whether the coin of a random outcome differs. It asks for the other run's coin there, or for none.
    fn change<C: Coins>(&self, coins: &mut C, coin: usize) -> bool
        requires few { ahead self.now + coin < 2 ^ 63 }
        ensures value { result ≡ changes self.now (C.sequence coins.old) coin }
        ensures same_coins { C.sequence coins.new ≡ C.sequence coins.old }
        ensures asks { C.asks coins.new ≤ C.asks coins.old + 1 };

    /// Whether no coin differs.
    fn is_still(&self) -> bool
        ensures still { result ≡ true → (coins : ℕ → Bool) (coin : ℕ) → changes self.now coins coin ≡ false };
}

/// None differs.
#[derive(Clone, Copy)]
pub struct SameCoins;

impl Draw for SameCoins {
    ghost changes = { λ d coins. never };

    ghost ahead = { λ d. 0 };

    fn change<C: Coins>(&self, _: &mut C, _: usize) -> bool {
        false
    }

    fn is_still(&self) -> bool {
        true
    }
}
