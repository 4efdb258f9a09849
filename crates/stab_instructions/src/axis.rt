use stab_gates::Letter;

/// A letter other than the identity: what is measured, reset, or applied by a control.
#[derive(Clone, Copy, Debug, PartialEq, Eq)]
pub enum Axis {
    X,
    Y,
    Z,
}

impl Axis {
    ghost use Rattle.std.specs.Prelude.{◌≡◌};
    ghost use Rattle.stab_instructions.specs.Axes.{letter_of};

    /// The letter.
    pub fn letter(self) -> Letter
        ensures value { result ≡ letter_of self }
    {
        match self {
            Axis::X => Letter::X,
            Axis::Y => Letter::Y,
            Axis::Z => Letter::Z,
        }
    }
}
