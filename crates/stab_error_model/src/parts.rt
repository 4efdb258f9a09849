//! Errors that flip more than two detectors, and the parts that replace them.
ghost use Rattle.std.specs.Prelude.{◌≡◌, List, [], ◌∷◌, ◌++◌, IfOk, OnOk};
ghost use Rattle.stab_error_model.specs.declared.placed.Error.{Error as ErrorValue};
ghost use Rattle.stab_error_model.specs.Placed.{error_shown, single_error_shown};
ghost use Rattle.stab_error_model.specs.Parts.{single_error_parts, letter_parts, parts_of_error};
ghost use Rattle.stab_error_model.specs.inner.ErrorLists.{AddsErrors, ErrorStands, Stands};
ghost use Rattle.stab_error_model.specs.inner.ErrorRows.{RowsAscend};
ghost use Rattle.stab_error_model.specs.inner.RowParts.{AreSplitByRows};

use crate::error_lists::{add_error, add_letters};
use crate::placed::{Error, PlacedLetter};
use crate::rows::error_row;
use stab_gates::Letter;
use stab_regions::SingleErrorTable;
use stab_search::is_graphlike;
use std::alloc::{AllocError, Global};

/// The X and the Z that a letter is the product of.
fn letter_parts(letter: Letter) -> &'static [Letter]
    ensures value { result.now ≡ letter_parts letter }
{
    match letter {
        Letter::I => &[],
        Letter::X => &[Letter::X],
        Letter::Y => &[Letter::X, Letter::Z],
        Letter::Z => &[Letter::Z],
    }
}

/// Adds the X and the Z of a letter, at its site.
fn add_letter_parts(errors: &mut Vec<Error>, placed: PlacedLetter) -> Result<(), AllocError>
    ensures adds { OnOk result (AddsErrors (Stands placed.site) (single_error_parts (single_error_shown placed)) errors.old.items errors.new.items) }
{
    add_letters(errors, letter_parts(placed.letter), placed.site)?;
    Ok(())
}

/// Adds the parts of an error.
fn add_parts(errors: &mut Vec<Error>, error: Error) -> Result<(), AllocError>
    ensures adds { OnOk result (AddsErrors (λ single_errors. ErrorStands single_errors error) (parts_of_error (error_shown error)) errors.old.items errors.new.items) }
{
    match error {
        Error::Letter(placed) => {
            add_letter_parts(errors, placed)?;
            Ok(())
        }
        Error::Letters(first, second) => {
            add_letter_parts(errors, first)?;
            add_letter_parts(errors, second)?;
            Ok(())
        }
        Error::Record { .. } => Ok(()),
    }
}

/// Adds an error if it flips at most two detectors, else its parts.
fn add_split(
    alloc: Global,
    errors: &mut Vec<Error>,
    single_errors: &SingleErrorTable,
    detectors: usize,
    error: Error,
) -> Result<(), AllocError>
    requires ascend { RowsAscend single_errors.now.rows }
    ensures split { OnOk result ((whole : List ErrorValue) → AreSplitByRows single_errors.now.rows detectors whole errors.old.items → AreSplitByRows single_errors.now.rows detectors (whole ++ error ∷ []) errors.new.items) }
{
    let row = error_row(alloc, single_errors, error)?;
    if is_graphlike(row.as_slice(), detectors) {
        add_error(errors, error)?;
        return Ok(());
    }
    add_parts(errors, error)?;
    Ok(())
}

/// The errors that flip at most two detectors, and the parts of the others.
pub(crate) fn split_errors(
    alloc: Global,
    single_errors: &SingleErrorTable,
    whole: &[Error],
    detectors: usize,
) -> Result<Vec<Error>, AllocError>
    requires ascend { RowsAscend single_errors.now.rows }
    ensures split { IfOk result (λ v. AreSplitByRows single_errors.now.rows detectors whole.now v.items) }
{
    let mut errors = Vec::new(alloc);
    'errors: for error in whole {
        add_split(alloc, &mut errors, single_errors, detectors, *error)?;
    }
    Ok(errors)
}
