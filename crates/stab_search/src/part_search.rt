ghost use Rattle.std.specs.Prelude.{◌≡◌, length, IfOk, IfErr};
ghost use Rattle.stab_io.specs.declared.refusal.Refusal.TheVariants.{OutOfMemory};
ghost use Rattle.stab_search.specs.SearchParts.{IsPartAnswer};
ghost use Rattle.stab_search.specs.inner.ReportedProgress.{AreInside, IsInTable, IsPartFound, ReportsPart, ReportsSizes};

use crate::answer::{Answer, Progress, Unwatched};
use crate::digest::{EMPTY, with_errors};
use crate::enough_errors::enough_of;
use crate::errors::Errors;
use crate::existence::has_logical_error;
use crate::search_part::{PartAnswer, SearchPart};
use crate::sets::set_of;
use crate::sizes::{Found, first_in_part};
use crate::table::Table;
use stab_io::Refusal;
use std::alloc::{AllocError, Global};

/// Up to how many errors are searched for before elimination shows whether there is a logical error at all, and before pairs are left out:
/// so few take less time and memory than these two do.
const PLAIN_SIZES: usize = 3;

/// What one part of the search for a least logical error finds, if sets of at most `most` errors are asked for.
///
/// It searches sets of 1, 2 errors and so on that begin with an error of the part, until it finds one. That a part has no set of some
/// number of errors says nothing by itself; if no part has one, there is none (`laws`).
///
/// The only refusal is `OutOfMemory`.
pub fn least_in_part(
    alloc: Global,
    table: &Table,
    part: SearchPart,
    most: usize,
) -> Result<PartAnswer, Refusal>
    ensures answer { IfOk result (IsPartAnswer part table.now most) }
    ensures refusal { IfErr result (λ e. e ≡ OutOfMemory) }
{
    search_part(alloc, table, &part, most, &mut Unwatched)
}

/// The same; and `progress` hears of each number of errors of which the part has no set.
pub fn search_part<P: Progress>(
    alloc: Global,
    table: &Table,
    part: &SearchPart,
    most: usize,
    progress: &mut P,
) -> Result<PartAnswer, Refusal>
    ensures answer { IfOk result (IsPartAnswer part.now table.now most) }
    ensures refusal { IfErr result (λ e. e ≡ OutOfMemory) }
    ensures reported { ReportsPart part.now table.now most (P.heard progress.old) (P.heard progress.new) result }
{
    let retained = enough_of(alloc, table)?;
    let mut errors = retained.errors;
    let digest = with_errors(EMPTY, &errors);
    let found = find(&mut errors, part, most, progress)?;
    let answer = in_table(alloc, found.answer, retained.numbers.as_slice())?;
    Ok(PartAnswer {
        digest,
        last: found.last,
        first: found.first,
        answer,
    })
}

/// The answer with the numbers of its errors in the table, in ascending order.
fn in_table(alloc: Global, found: Answer, numbers: &[usize]) -> Result<Answer, AllocError>
    requires inside { AreInside (length numbers.now) found }
    ensures same { IfOk result (IsInTable numbers.now found) }
{
    match found {
        Answer::Least(own) => {
            let set = set_of(alloc, own.as_slice(), numbers)?;
            Ok(Answer::Least(set))
        }
        Answer::NoneWithin => Ok(Answer::NoneWithin),
        Answer::NoneAtAll => Ok(Answer::NoneAtAll),
    }
}

/// What a part finds among these errors alone.
fn find<P: Progress>(
    errors: &mut Errors,
    part: &SearchPart,
    most: usize,
    progress: &mut P,
) -> Result<Found, AllocError>
    ensures reported { ReportsSizes part.now (record { table = errors.old.table; firsts = errors.old.firsts }) 0 (IsPartFound part.now (record { table = errors.old.table; firsts = errors.old.firsts }) most) (P.heard progress.old) (P.heard progress.new) result }
{
    let end = most.min(errors.len());
    let middle = end.min(PLAIN_SIZES);
    match first_in_part(errors, part, 0, middle, progress)? {
        Some(found) => return Ok(found),
        None => {}
    }
    let exists = has_logical_error(errors)?;
    if !exists {
        return Ok(Found {
            last: middle,
            first: 0,
            answer: Answer::NoneAtAll,
        });
    }
    errors.leave_out_pairs()?;
    match first_in_part(errors, part, middle, end, progress)? {
        Some(found) => Ok(found),
        None => Ok(Found {
            last: end,
            first: 0,
            answer: Answer::NoneWithin,
        }),
    }
}
