//! Letters at sites between steps, and errors of them.
ghost use Rattle.std.specs.Prelude.{◌≡◌, List};
ghost use Rattle.stab_regions.specs.SingleErrors.{SingleError};
ghost use Rattle.stab_error_model.specs.inner.ErrorLists.{ErrorStands, Stands};
ghost use Rattle.stab_error_model.specs.Placed.{error_shown, single_error_shown, single_error_of_letter};
ghost use Rattle.stab_error_model.specs.Errors.{product_at};

use stab_gates::Letter;

/// A site for errors: a qubit in front of a step or after it.
#[derive(Clone, Copy)]
pub(crate) struct ErrorSite {
    pub qubit: usize,
    /// How many steps are in front of it.
    pub before: usize,
    /// The number of its step.
    pub step: usize,
    /// The row of X there, in the circuit's table of single errors. That of Z is the next one.
    pub row: usize,
}

/// A Pauli X, Y or Z on a qubit between two steps.
#[derive(Clone, Copy)]
pub struct PlacedLetter {
    pub letter: Letter,
    pub(crate) site: ErrorSite,
}

/// What goes wrong at once.
#[derive(Clone, Copy)]
pub enum Error {
    /// A letter.
    Letter(PlacedLetter),
    /// Letters at two sites.
    Letters(PlacedLetter, PlacedLetter),
    /// The record of this number by itself: a letter in front of the measurement flips its outcome, and
    /// unless the qubit is reset, the same letter after it flips the qubit back.
    Record {
        number: usize,
        flip: PlacedLetter,
        back: Option<PlacedLetter>,
    },
}

impl Error {
    ghost use Rattle.std.specs.Prelude.{◌≡◌};
    ghost use Rattle.stab_error_model.specs.Errors.{first_single_error};
    ghost use Rattle.stab_error_model.specs.Placed.{error_shown, single_error_shown};

    /// The first of its letters.
    pub fn first(self) -> PlacedLetter
        ensures value { single_error_shown result ≡ first_single_error (error_shown self) }
    {
        match self {
            Error::Letter(first) => first,
            Error::Letters(first, _) => first,
            Error::Record { flip, .. } => flip,
        }
    }
}

impl PlacedLetter {
    ghost use Rattle.std.specs.Prelude.{◌≡◌};
    ghost use Rattle.stab_error_model.specs.Placed.{single_error_shown};

    /// The qubit that it is on.
    pub fn qubit(self) -> usize
        ensures value { result ≡ (single_error_shown self).qubit }
    {
        self.site.qubit
    }

    /// How many steps are in front of it.
    pub fn before(self) -> usize
        ensures value { result ≡ (single_error_shown self).before }
    {
        self.site.before
    }

    /// The number of the step that it is at.
    pub fn step(self) -> usize
        ensures value { result ≡ (single_error_shown self).step }
    {
        self.site.step
    }
}

impl ErrorSite {
    ghost use Rattle.std.specs.Prelude.{◌≡◌, ◌≤◌};
    ghost use Rattle.stab_gates.specs.declared.letter.Letter.{Letter};
    ghost use Rattle.stab_items.specs.Steps.{most_steps};
    ghost use Rattle.stab_regions.specs.SingleErrors.{single_error_on, in_front as site_in_front, following as site_after};
    ghost use Rattle.stab_error_model.specs.Placed.{single_error_shown, single_error_of_letter};

    /// A qubit in front of a step, with its row.
    pub fn in_front(qubit: usize, step: usize, row: usize) -> ErrorSite
        ensures value { (l : Letter) → single_error_of_letter result l ≡ single_error_on step (site_in_front qubit) l }
        ensures row { result.row ≡ row }
    {
        ErrorSite {
            qubit,
            before: step,
            step,
            row,
        }
    }

    /// A qubit after a step, with its row.
    pub fn following(qubit: usize, step: usize, row: usize) -> ErrorSite
        requires few { step ≤ most_steps }
        ensures value { (l : Letter) → single_error_of_letter result l ≡ single_error_on step (site_after qubit) l }
        ensures row { result.row ≡ row }
    {
        ErrorSite {
            qubit,
            before: step + 1,
            step,
            row,
        }
    }

    /// A letter there.
    pub fn with(self, letter: Letter) -> PlacedLetter
        ensures value { result ≡ record { letter = letter; site = self } }
    {
        PlacedLetter { letter, site: self }
    }
}

/// The error of a product at two sites, in which I is no letter.
pub(crate) fn product_at(first: ErrorSite, second: ErrorSite, pair: (Letter, Letter)) -> Error
    ensures value { error_shown result ≡ product_at (single_error_of_letter first) (single_error_of_letter second) pair.0 pair.1 }
    ensures stands { (single_errors : List SingleError) → Stands first single_errors → Stands second single_errors → ErrorStands single_errors result }
{
    match pair {
        (Letter::I, letter) => Error::Letter(second.with(letter)),
        (letter, Letter::I) => Error::Letter(first.with(letter)),
        (letter, other) => Error::Letters(first.with(letter), second.with(other)),
    }
}
