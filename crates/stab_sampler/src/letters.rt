ghost use Rattle.std.specs.Prelude.{◌≡◌, ℕ, ◌<◌, ◌&&◌, IsTrue, if◌then◌else◌};
ghost use Rattle.stab_gates.specs.declared.letter.Letter.TheVariants;
ghost use Rattle.stab_gates.specs.Letters.{◌⊕◌, letters_anticommute};
ghost use Rattle.stab_tableau.specs.Gates.{letter_image};
ghost use Rattle.stab_sampler.specs.Lanes.{letter_in, letter_times};

use crate::word::Word;
use stab_frames::Images;
use stab_pauli::Letter;
use stab_tableau::Gate;

/// The letters of all lanes at a qubit: X if only the X bit is 1, Z if only the Z bit is, and Y if both are.
#[derive(Clone, Copy)]
pub struct Letters<W> {
    pub x: W,
    pub z: W,
}

/// Adds a word to another, if the bit is 1.
#[inline(always)]
fn add_if<W: Word>(bit: bool, word: &mut W, other: W)
    ensures value { (l : ℕ) → l < W.lanes → W.at word.new l ≡ W.at word.old l ⊕ (bit && W.at other l) }
{
    if bit {
        *word = word.xor(other);
    }
}

/// Exchanges two words, if the bit is 1.
#[inline(always)]
fn exchange_if<W: Word>(bit: bool, word: &mut W, other: &mut W)
    ensures word { word.new ≡ (if bit then other.old else word.old) }
    ensures other { other.new ≡ (if bit then word.old else other.old) }
{
    if bit {
        std::mem::swap(word, other);
    }
}

impl<W: Word> Letters<W> {
    /// The letter I in all lanes.
    pub fn blank() -> Letters<W>
        ensures value { (l : ℕ) → l < W.lanes → letter_in W.at l result ≡ TheVariants.I }
    {
        Letters {
            x: W::all(false),
            z: W::all(false),
        }
    }

    /// Whether they are the same as others in all lanes.
    pub fn is_same(&self, other: &Letters<W>) -> bool
        ensures same { IsTrue result → (l : ℕ) → l < W.lanes → letter_in W.at l self.now ≡ letter_in W.at l other.now }
    {
        self.x.is_same(&other.x) && self.z.is_same(&other.z)
    }

    /// Makes the letters what a gate makes of them, up to signs. It does so in place: words of many lanes would be copied to and fro.
    #[inline(always)]
    pub fn apply(&mut self, gate: Gate)
        ensures value { (l : ℕ) → l < W.lanes → letter_in W.at l self.new ≡ (letter_image gate (letter_in W.at l self.old)).letter }
    {
        let images = Images::of(gate);
        add_if(images.x_has_both(), &mut self.z, self.x);
        add_if(images.z_has_both(), &mut self.x, self.z);
        exchange_if(images.exchanges(), &mut self.x, &mut self.z);
    }

    /// The lanes whose letter anticommutes with this one.
    #[inline(always)]
    pub fn anticommuting(self, letter: Letter) -> W
        ensures value { (l : ℕ) → l < W.lanes → W.at result l ≡ letters_anticommute (letter_in W.at l self) letter }
    {
        match letter {
            Letter::I => W::all(false),
            Letter::X => self.z,
            Letter::Y => self.x.xor(self.z),
            Letter::Z => self.x,
        }
    }

    /// Multiplies the letters by this one, in the lanes whose bit is 1, in place too.
    #[inline(always)]
    pub fn multiply(&mut self, letter: Letter, lanes: W)
        ensures value { (l : ℕ) → l < W.lanes → letter_in W.at l self.new ≡ letter_times (W.at lanes l) letter (letter_in W.at l self.old) }
    {
        match letter {
            Letter::I => {}
            Letter::X => self.x = self.x.xor(lanes),
            Letter::Y => {
                self.x = self.x.xor(lanes);
                self.z = self.z.xor(lanes);
            }
            Letter::Z => self.z = self.z.xor(lanes),
        }
    }
}
