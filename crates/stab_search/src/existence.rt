ghost use Rattle.std.specs.Prelude.{IfOk};
ghost use Rattle.stab_search.specs.inner.Shortest.{Decides};

use crate::answer::Unwatched;
use crate::certificate::are_certified;
use crate::elimination::eliminate;
use crate::errors::Errors;
use crate::logical::is_logical;
use crate::search_part::SearchPart;
use crate::sizes::first_in_part;
use std::alloc::AllocError;

/// Whether there is a logical error, of any size. Elimination finds one, or detectors that add up to each observable over every row. What it
/// finds is checked; if both checks failed, all sizes would be searched.
pub fn has_logical_error(errors: &Errors) -> Result<bool, AllocError>
    ensures decides { IfOk result (Decides errors.now.table) }
{
    let (alloc, detectors, rows) = (errors.alloc(), errors.detectors(), errors.rows());
    let echelon = eliminate(alloc, detectors, rows)?;
    let last = echelon.last_rows(alloc)?;
    if is_logical(alloc, detectors, rows, last.as_slice())? {
        return Ok(true);
    }
    if are_certified(alloc, detectors, rows, &echelon)? {
        return Ok(false);
    }
    let whole = SearchPart::whole();
    let found = first_in_part(errors, &whole, 0, errors.len(), &mut Unwatched)?;
    Ok(found.is_some())
}
