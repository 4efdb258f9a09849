//! What gates make of letters, whatever their signs. The table of the gates on a qubit is `GateImages::of` of `stab_tableau`, and that of
//! the gates on two is `controlled_letter`: what becomes of a frame's letters, of lanes of letters and of strings seen backwards follows from these.
ghost use Rattle.std.specs.Prelude.{◌≡◌};
ghost use Rattle.stab_gates.specs.declared.letter.Letter.TheVariants.{X, Z};
ghost use Rattle.stab_tableau.specs.Gates.{letter_image, letter_at, pair_letters};
ghost use Rattle.stab_frames.specs.Images.{has_both, exchanges as exchanges_of, letter_where, controlled_letter as letter_controlled};
ghost use Rattle.stab_frames.specs.inner.Weights.{letter_weight};

use stab_pauli::Letter;
use stab_tableau::{Gate, GateImages, PairGate};

/// What a gate on a qubit makes of X and of Z there. With them it makes of every letter what it makes of its X part, times what it
/// makes of its Z part.
#[derive(Clone, Copy)]
pub struct Images {
    pub of_x: Letter,
    pub of_z: Letter,
}

impl Images {
    /// Those of a gate.
    #[inline(always)]
    pub fn of(gate: Gate) -> Images
        ensures x { result.of_x ≡ (letter_image gate X).letter }
        ensures z { result.of_z ≡ (letter_image gate Z).letter }
    {
        let images = GateImages::of(gate);
        Images {
            of_x: images.of_x.letter,
            of_z: images.of_z.letter,
        }
    }

    /// Whether X becomes Y.
    #[inline(always)]
    pub fn x_has_both(self) -> bool
        ensures value { result ≡ has_both self.of_x }
    {
        self.of_x == Letter::Y
    }

    /// Whether Z becomes Y.
    #[inline(always)]
    pub fn z_has_both(self) -> bool
        ensures value { result ≡ has_both self.of_z }
    {
        self.of_z == Letter::Y
    }

    /// Whether X loses its X part, or Z its Z part. Each gate exchanges these parts or does not, and it adds at most one to the other.
    #[inline(always)]
    pub fn exchanges(self) -> bool
        ensures value { result ≡ exchanges_of self.of_x self.of_z }
    {
        !(self.of_x.has_x() && self.of_z.anticommutes(Letter::X))
    }
}

/// What a gate makes of a letter on its qubit.
pub fn image(gate: Gate, letter: Letter) -> Letter
    ensures value { result ≡ (letter_image gate letter).letter }
{
    let images = GateImages::of(gate);
    match letter {
        Letter::I => Letter::I,
        Letter::X => images.of_x.letter,
        Letter::Y => images.of_y.letter,
        Letter::Z => images.of_z.letter,
    }
}

/// The table of the gates on two qubits: the letter that a gate puts on the second, if the first has an X part. Z is then put on
/// the first, if the second anticommutes with that letter. A gate without one exchanges the letters.
#[inline(always)]
pub fn controlled_letter(gate: PairGate) -> Option<Letter>
    ensures value { result ≡ letter_controlled gate }
{
    match gate {
        PairGate::Cx => Some(Letter::X),
        PairGate::Cy => Some(Letter::Y),
        PairGate::Cz => Some(Letter::Z),
        PairGate::Swap => None,
    }
}

/// The letter, or I if the bit is 0.
fn letter_if(bit: bool, letter: Letter) -> Letter
    ensures value { result ≡ letter_where bit letter }
{
    if bit { letter } else { Letter::I }
}

/// What a gate on two qubits makes of the letter on the first.
#[tactic(auto, using(crate::proofs::ImageLemmas::first_controlled))]
pub fn first_image(gate: PairGate, first: Letter, second: Letter) -> Letter
    ensures value { result ≡ letter_at (pair_letters gate first second).letters 0 }
{
    match controlled_letter(gate) {
        Some(letter) => first.times(letter_if(second.anticommutes(letter), Letter::Z)),
        None => second,
    }
}

/// What it makes of the letter on the second.
#[tactic(auto, using(crate::proofs::ImageLemmas::second_controlled))]
pub fn second_image(gate: PairGate, first: Letter, second: Letter) -> Letter
    ensures value { result ≡ letter_at (pair_letters gate first second).letters 1 }
{
    match controlled_letter(gate) {
        Some(letter) => second.times(letter_if(first.has_x(), letter)),
        None => first,
    }
}

/// 1 for a letter that is not I.
pub fn weight_of(letter: Letter) -> usize
    ensures value { result ≡ letter_weight letter }
{
    match letter {
        Letter::I => 0,
        Letter::X | Letter::Y | Letter::Z => 1,
    }
}
