ghost use Rattle.std.specs.Prelude.{◌≡◌, refl, ℕ, ◌+◌, ◌*◌, ◌/◌, ◌%◌, ◌<◌, ◌≤◌, Bool, IsTrue};
ghost use Rattle.stab_gates.specs.Letters.{◌⊕◌};
ghost use Rattle.stab_sampler.specs.Words.{word_bit};
ghost use Rattle.stab_sampler.specs.Bytes.{byte_at};

/// This many bits, one for each lane.
pub trait Word: Copy {
    // The bit of each lane.
    ghost at: { Self → ℕ → Bool };
    // How many lanes there are.
    ghost lanes: { ℕ };

    /// The same bit in all lanes.
    fn all(bit: bool) -> Self
        ensures value { (l : ℕ) → l < lanes → at result l ≡ bit };

    /// In each lane whether the bits differ.
    fn xor(self, other: Self) -> Self
        ensures value { (l : ℕ) → l < lanes → at result l ≡ at self l ⊕ at other l };

    /// Whether the bits are the same in all lanes.
    fn is_same(&self, other: &Self) -> bool
        ensures same { IsTrue result → (l : ℕ) → l < lanes → at self.now l ≡ at other.now l };

    /// The bit of a lane.
    fn bit(self, lane: usize) -> bool
        requires in_range { lane < lanes }
        ensures value { result ≡ at self lane };

    /// The bits of the 64 lanes from 64 * position on.
    fn part(&self, position: usize) -> u64
        requires in_range { 64 * position + 64 ≤ lanes }
        ensures value { (l : ℕ) → l < 64 → word_bit result l ≡ at self.now (64 * position + l) };

    // Lanes are 64 by 64.
    ghost in_parts: { lanes % 64 ≡ 0 };
}

impl Word for u64 {
    ghost at = { word_bit };

    ghost lanes = { 64 };

    fn all(bit: bool) -> u64 {
        if bit { u64::MAX } else { 0 }
    }

    fn xor(self, other: u64) -> u64 {
        self ^ other
    }

    fn is_same(&self, other: &u64) -> bool {
        *self == *other
    }

    fn bit(self, lane: usize) -> bool {
        (self >> lane) & 1 == 1
    }

    fn part(&self, position: usize) -> u64 {
        *self
    }

    ghost in_parts = { refl };
}

/// Byte number `position` of a word, counted from the lowest.
pub fn byte(word: u64, position: usize) -> u8
    requires in_range { position < 8 }
    ensures value { result ≡ byte_at word position }
{
    (word >> (8 * position) & 0xff) as u8
}
