ghost use Rattle.std.specs.Prelude.{List, ℕ, ◌≡◌, ◌==◌, ◌<◌};
ghost use Rattle.stab_sampler.specs.Units.{AreAscending, unit_coin};

use crate::coins::Draw;
use crate::wide::Wide;
use crate::word::Word;
use std::marker::Model;

/// Words of which one lane may be 1.
pub trait UnitWord: Word {
    /// 1 in the lane of this number, if there is such a one, and 0 in all others.
    fn one(lane: usize) -> Self
        ensures value { (l : ℕ) → l < Self.lanes → Self.at result l ≡ (l == lane) };
}

impl UnitWord for u64 {
    fn one(lane: usize) -> u64 {
        if lane < 64 { 1 << lane } else { 0 }
    }
}

impl<const N: usize> UnitWord for Wide<N> {
    #[tactic(auto, using(crate::proofs::UnitLemmas::one_wide_bit, crate::proofs::UnitLemmas::no_wide_bit))]
    fn one(lane: usize) -> Wide<N> {
        let mut words = [0; N];
        if lane / 64 < N {
            words[lane / 64] = 1 << (lane % 64);
        }
        Wide { words }
    }
}

/// Coins of lanes that are all 0 except one in each lane. Contracts see the numbers of those that are 1, by lane.
pub struct UnitLanes<'a> {
    numbers: &'a [u64],
}

// Written out, so that a proof sees the drop of a value as one call, and not one for each of its parts.
impl Drop for UnitLanes<'_> {
    fn drop(self) {
        let UnitLanes { numbers: _ } = self;
    }
}

impl<'a> Model for UnitLanes<'a> {
    ghost Value = { List ℕ };

    ghost view = { λ c. c.numbers.now };

    ghost invariant = { λ c. AreAscending c.numbers.now };
}

impl<'a> UnitLanes<'a> {
    /// In lane l the coin that is 1 is the one whose number is at position l of a list. The numbers ascend. Lanes beyond the list have no
    /// such coin.
    pub fn new(numbers: &'a [u64]) -> UnitLanes<'a>
        requires ascending { AreAscending numbers.now }
        ensures value { result ≡ numbers.entry.now }
    {
        UnitLanes { numbers }
    }
}

impl<W: UnitWord> Draw<W> for UnitLanes<'_> {
    ghost sequences = { unit_coin };

    fn coins(&mut self, t: u64) -> W {
        match self.numbers.binary_search(&t) {
            Ok(lane) => W::one(lane),
            Err(_) => W::all(false),
        }
    }
}
