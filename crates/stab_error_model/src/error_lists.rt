//! Errors at one or two sites, put after others.
ghost use Rattle.std.specs.Prelude.{[], ◌∷◌, OnOk, map};
ghost use Rattle.stab_error_model.specs.Errors.{each_letter, each_product};
ghost use Rattle.stab_error_model.specs.Placed.{error_shown, single_error_of_letter};
ghost use Rattle.stab_error_model.specs.inner.ErrorLists.{AddsErrors, Stands, ErrorStands};

use crate::letters::pairs_asked;
use crate::placed::{Error, ErrorSite, product_at};
use stab_gates::Letter;
use stab_jobs::ErrorLetters;
use std::alloc::AllocError;

/// Adds an error.
pub(crate) fn add_error(errors: &mut Vec<Error>, error: Error) -> Result<(), AllocError>
    ensures adds { OnOk result (AddsErrors (λ single_errors. ErrorStands single_errors error) (error_shown error ∷ []) errors.old.items errors.new.items) }
{
    errors.push(error)?;
    Ok(())
}

/// Adds each of some letters at a site.
pub(crate) fn add_letters(
    errors: &mut Vec<Error>,
    letters: &[Letter],
    site: ErrorSite,
) -> Result<(), AllocError>
    ensures adds { OnOk result (AddsErrors (Stands site) (each_letter letters.now (single_error_of_letter site)) errors.old.items errors.new.items) }
{
    'letters: for letter in letters {
        add_error(errors, Error::Letter(site.with(*letter)))?;
    }
    Ok(())
}

/// Adds each product of two letters at two sites.
pub(crate) fn add_products(
    errors: &mut Vec<Error>,
    letters: ErrorLetters,
    first: ErrorSite,
    second: ErrorSite,
) -> Result<(), AllocError>
    ensures adds { OnOk result (AddsErrors (λ single_errors. Stands first single_errors × Stands second single_errors) (each_product letters (single_error_of_letter first) (single_error_of_letter second)) errors.old.items errors.new.items) }
{
    'pairs: for pair in pairs_asked(letters) {
        add_error(errors, product_at(first, second, *pair))?;
    }
    Ok(())
}
