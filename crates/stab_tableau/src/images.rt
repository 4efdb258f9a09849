//! The table of the gates on one qubit: what each makes of X, Y and Z. Rows of a state, letters of frames and Pauli gates follow from it.
ghost use Rattle.std.specs.Prelude.{◌≡◌, ◌≢◌, true, false};
ghost use Rattle.stab_gates.specs.declared.letter.Letter.TheVariants.{I, X, Y, Z};
ghost use Rattle.stab_tableau.specs.Gates.{letter_image, inverse};

use stab_gates::{Gate, Letter};

/// A letter with a sign, which is - if it is negative.
#[derive(Clone, Copy)]
pub struct SignedLetter {
    pub negative: bool,
    pub letter: Letter,
}

/// What a gate makes of X, Y and Z on its qubit.
#[derive(Clone, Copy)]
pub struct GateImages {
    pub of_x: SignedLetter,
    pub of_y: SignedLetter,
    pub of_z: SignedLetter,
}

/// The letter with the sign +.
#[inline(always)]
fn plus(letter: Letter) -> SignedLetter
    ensures letter { result.letter ≡ letter }
    ensures sign { result.negative ≡ false }
{
    SignedLetter {
        negative: false,
        letter,
    }
}

/// The letter with the sign -.
#[inline(always)]
fn minus(letter: Letter) -> SignedLetter
    ensures letter { result.letter ≡ letter }
    ensures sign { result.negative ≡ true }
{
    SignedLetter {
        negative: true,
        letter,
    }
}

impl GateImages {
    /// The table, a row for each gate.
    #[inline(always)]
    pub fn of(gate: Gate) -> GateImages
        ensures x { result.of_x ≡ letter_image gate X }
        ensures y { result.of_y ≡ letter_image gate Y }
        ensures z { result.of_z ≡ letter_image gate Z }
    {
        let (x, y, z) = (Letter::X, Letter::Y, Letter::Z);
        let (of_x, of_y, of_z) = match gate {
            Gate::I => (plus(x), plus(y), plus(z)),
            Gate::X => (plus(x), minus(y), minus(z)),
            Gate::Y => (minus(x), plus(y), minus(z)),
            Gate::Z => (minus(x), minus(y), plus(z)),
            Gate::H => (plus(z), minus(y), plus(x)),
            Gate::S => (plus(y), minus(x), plus(z)),
            Gate::SDag => (minus(y), plus(x), plus(z)),
            Gate::CXyz => (plus(y), plus(z), plus(x)),
            Gate::CZyx => (plus(z), plus(x), plus(y)),
            Gate::SqrtX => (plus(x), plus(z), minus(y)),
            Gate::SqrtXDag => (plus(x), minus(z), plus(y)),
            Gate::SqrtY => (minus(z), plus(y), plus(x)),
            Gate::SqrtYDag => (plus(z), plus(y), minus(x)),
        };
        GateImages { of_x, of_y, of_z }
    }

    /// The letter, with its sign, that is made into X, Y or Z.
    #[inline(always)]
    pub fn before(self, letter: Letter) -> SignedLetter
        requires some { letter ≢ I }
        ensures value { (g : Gate) → self.of_x ≡ letter_image g X → self.of_y ≡ letter_image g Y → self.of_z ≡ letter_image g Z → result ≡ letter_image (inverse g) letter }
    {
        if self.of_x.letter == letter {
            SignedLetter {
                letter: Letter::X,
                ..self.of_x
            }
        } else if self.of_y.letter == letter {
            SignedLetter {
                letter: Letter::Y,
                ..self.of_y
            }
        } else {
            SignedLetter {
                letter: Letter::Z,
                ..self.of_z
            }
        }
    }
}
