//! Laws of errors everywhere. Each function does nothing: its contract is the law, and the check proves it.

ghost use Rattle.stab_error_model.specs.EverywhereLaws.{LettersAreErrors, StringsAreErrors, WrongRecordsAreInverted};

use stab_regions::single_error_laws::{
    deterministic_parities, single_errors_add, single_errors_flip_parities,
};

/// If a record of `M`, `MR` or `MPP` goes wrong by itself, each detector and observable that is the same for
/// all random bits is what it is with one more `!` at that record, also if later gates are controlled by it.
pub fn wrong_records_are_inverted()
    ensures law { WrongRecordsAreInverted }
{
    deterministic_parities();
    single_errors_flip_parities();
    single_errors_add();
}

/// The errors everywhere leave no Pauli out: letters at any sites, such as a Pauli string between two steps, flip what
/// some of these errors flip together. A single letter flips nothing, or what one error flips. So errors at
/// idling qubits, and at earlier sites, add nothing.
pub fn everywhere_is_everywhere()
    ensures letters { LettersAreErrors }
    ensures strings { StringsAreErrors }
{
    deterministic_parities();
    single_errors_flip_parities();
    single_errors_add();
}
