ghost use Rattle.std.specs.Prelude.{◌≡◌, length, IfOk, IfErr};
ghost use Rattle.stab_io.specs.declared.refusal.Refusal.TheVariants.{OutOfMemory};
ghost use Rattle.stab_search.specs.LogicalErrors.{IsLeastAnswer, HasNoneWithin};
ghost use Rattle.stab_search.specs.Progress.{ReportsSearch};
ghost use Rattle.stab_search.specs.inner.ReportedProgress.{ReportsAnswer};

use crate::answer::{Answer, Progress};
use crate::part_search::search_part;
use crate::search_part::SearchPart;
use crate::table::Table;
use stab_io::Refusal;
use std::alloc::Global;

/// The least logical error of a table, if it has at most `most` errors.
///
/// A logical error is a set of errors that together flip some observable and no detector. `progress` hears of
/// the number of errors, and then of each number of them that was excluded. The time grows by a factor with each further error. The memory
/// grows with the rows, and with the greatest number in them; if no set of at most 3 errors is found, also with the number of detectors
/// times that of rows that no others add up to.
///
/// The only refusal is `OutOfMemory`.
pub fn least_logical_error<P: Progress>(
    alloc: Global,
    table: &Table,
    most: usize,
    progress: &mut P,
) -> Result<Answer, Refusal>
    ensures answer { IfOk result (IsLeastAnswer table.now most) }
    ensures refusal { IfErr result (λ e. e ≡ OutOfMemory) }
    ensures reported { ReportsSearch (length table.now.rows) most (HasNoneWithin table.now) (P.heard progress.old) (P.heard progress.new) result }
{
    progress.begins(table.len());
    least_of(alloc, table, most, progress)
}

/// What `least_logical_error` answers, once `progress` has heard of the number of errors.
pub fn least_of<P: Progress>(
    alloc: Global,
    table: &Table,
    most: usize,
    progress: &mut P,
) -> Result<Answer, Refusal>
    ensures answer { IfOk result (IsLeastAnswer table.now most) }
    ensures refusal { IfErr result (λ e. e ≡ OutOfMemory) }
    ensures reported { ReportsAnswer table.now most (P.heard progress.old) (P.heard progress.new) result }
{
    let whole = SearchPart::whole();
    let found = search_part(alloc, table, &whole, most, progress)?;
    Ok(found.answer)
}
