//! Of which letters errors are made.
ghost use Rattle.std.specs.Prelude.{◌≡◌};
ghost use Rattle.stab_error_model.specs.Errors.{letters_asked, pairs_asked};

use stab_gates::Letter::{self, I, X, Y, Z};
use stab_jobs::ErrorLetters;

/// The letters of errors on one qubit.
pub fn letters_asked(letters: ErrorLetters) -> &'static [Letter]
    ensures value { result.now ≡ letters_asked letters }
{
    match letters {
        ErrorLetters::All => &[X, Y, Z],
        ErrorLetters::XAndZ => &[X, Z],
    }
}

/// The products of errors on two qubits, of which one letter may be I.
pub fn pairs_asked(letters: ErrorLetters) -> &'static [(Letter, Letter)]
    ensures value { result.now ≡ pairs_asked letters }
{
    match letters {
        ErrorLetters::All => &[
            (I, X),
            (I, Y),
            (I, Z),
            (X, I),
            (X, X),
            (X, Y),
            (X, Z),
            (Y, I),
            (Y, X),
            (Y, Y),
            (Y, Z),
            (Z, I),
            (Z, X),
            (Z, Y),
            (Z, Z),
        ],
        ErrorLetters::XAndZ => &[(I, X), (I, Z), (X, I), (X, X), (Z, I), (Z, Z)],
    }
}
