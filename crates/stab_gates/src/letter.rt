use crate::phase::Phase;

/// A letter of a Pauli string: the identity or one of the three Pauli matrices.
#[derive(Clone, Copy, Debug, PartialEq, Eq)]
pub enum Letter {
    /// The identity.
    I,
    /// The bit flip.
    X,
    /// i times the bit flip times the phase flip.
    Y,
    /// The phase flip.
    Z,
}

// I, X, Y and Z are numbered 0 to 3, so that the XOR of two letters' numbers is the number of their product.
impl Letter {
    ghost use Rattle.std.specs.Prelude.{◌≡◌, ◌∷◌, []};
    ghost use Rattle.stab_gates.specs.Letters.{letter_product, letter_phase, letters_anticommute, letter_power};
    ghost use Rattle.stab_gates.specs.XParts.{has_x};
    ghost use Rattle.stab_gates.specs.LetterTexts.{letter_text};

    /// The letter of the product of two letters, without its power of i.
    pub fn times(self, other: Letter) -> Letter
        ensures value { result ≡ letter_product self other }
    {
        match (self as u8) ^ (other as u8) {
            0 => Letter::I,
            1 => Letter::X,
            2 => Letter::Y,
            _ => Letter::Z,
        }
    }

    /// The power of i of the product of two letters: i for XY, YZ and ZX, and -i in the other order.
    pub fn product_phase(self, other: Letter) -> Phase
        ensures value { result ≡ letter_phase self other }
    {
        // From X to Y and from Y to Z it is 1 further, and from Z to X it is 2 back.
        let step = (other as u8).wrapping_sub(self as u8);
        let forward = (step == 1) | (step == 254);
        if !self.anticommutes(other) {
            Phase::Zero
        } else if forward {
            Phase::Quarter
        } else {
            Phase::ThreeQuarters
        }
    }

    /// Whether two letters anticommute: they differ, and neither is I.
    pub fn anticommutes(self, other: Letter) -> bool
        ensures value { result ≡ letters_anticommute self other }
    {
        self != Letter::I && other != Letter::I && self != other
    }

    /// Whether the letter has an X part, as X and Y do.
    pub fn has_x(self) -> bool
        ensures value { result ≡ has_x self }
    {
        self == Letter::X || self == Letter::Y
    }

    /// The power of i of the letter before its X bit and then its Z bit.
    #[inline(always)]
    pub fn power(self) -> Phase
        ensures value { result ≡ letter_power self }
    {
        match self {
            Letter::Y => Phase::Quarter,
            _ => Phase::Zero,
        }
    }

    /// The character that the letter is printed as: `_`, `X`, `Y` or `Z`.
    pub fn symbol(self) -> u8
        ensures value { result ∷ [] ≡ letter_text self }
    {
        match self {
            Letter::I => b'_',
            Letter::X => b'X',
            Letter::Y => b'Y',
            Letter::Z => b'Z',
        }
    }
}
