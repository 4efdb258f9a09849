//! What the tag of an instruction `I` says of the errors that it marks.
ghost use Rattle.std.specs.Prelude.{◌≡◌, bytes_eq, codes};
ghost use Rattle.stab_error_model.specs.Errors.{letters_left, y_asked};

use crate::letters::letters_asked;
use stab_gates::Letter;
use stab_jobs::ErrorLetters;

/// Whether a tag asks for products on each two targets.
pub fn is_pairs(tag: &[u8]) -> bool
    ensures value { result ≡ bytes_eq tag.now (codes "pairs") }
{
    tag == b"pairs".as_slice()
}

/// Y, if errors are made of it.
fn y_asked(letters: ErrorLetters) -> &'static [Letter]
    ensures value { result.now ≡ y_asked letters }
{
    match letters {
        ErrorLetters::All => &[Letter::Y],
        ErrorLetters::XAndZ => &[],
    }
}

/// The letters that a tag leaves.
pub fn letters_left(letters: ErrorLetters, tag: &[u8]) -> &'static [Letter]
    ensures value { result.now ≡ letters_left letters tag.now }
{
    if tag == b"X".as_slice() {
        &[Letter::X]
    } else if tag == b"Y".as_slice() {
        y_asked(letters)
    } else if tag == b"Z".as_slice() {
        &[Letter::Z]
    } else if tag == b"XZ".as_slice() {
        &[Letter::X, Letter::Z]
    } else {
        letters_asked(letters)
    }
}
