ghost use Rattle.std.specs.Prelude.{◌≡◌, ℕ, ◌*◌, ◌<◌};
ghost use Rattle.stab_sampler.specs.Words.{wide_bit};
ghost use Rattle.std.proofs.Math.Nat.{mul-mod_right};

use crate::word::Word;

/// The bits of 64 * N lanes: that of lane l is bit l % 64 of word l / 64.
#[derive(Clone, Copy)]
pub struct Wide<const N: usize> {
    pub(crate) words: [u64; N],
}

impl<const N: usize> Word for Wide<N> {
    ghost at = { λ w. wide_bit w.words };

    ghost lanes = { 64 * N };

    fn all(bit: bool) -> Wide<N> {
        Wide {
            words: [u64::all(bit); N],
        }
    }

    fn xor(self, other: Wide<N>) -> Wide<N> {
        let mut words = self.words;
        for k in 0..N {
            words[k] ^= other.words[k];
        }
        Wide { words }
    }

    fn is_same(&self, other: &Wide<N>) -> bool {
        for k in 0..N {
            if self.words[k] != other.words[k] {
                return false;
            }
        }
        true
    }

    fn bit(self, lane: usize) -> bool {
        self.words[lane / 64].bit(lane % 64)
    }

    fn part(&self, position: usize) -> u64 {
        self.words[position]
    }

    ghost in_parts = { mul-mod_right 64 N };
}
