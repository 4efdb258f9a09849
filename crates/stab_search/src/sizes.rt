ghost use Rattle.std.specs.Prelude.{◌≡◌, ℕ, ◌+◌, ◌<◌, ◌≤◌, ◌∷◌, [], true, length, IfOk, IfSome, IfNone};
ghost use Rattle.stab_parities.specs.OddNumbers.{row};
ghost use Rattle.stab_search.specs.LogicalErrors.{HasNoneWithin};
ghost use Rattle.stab_search.specs.SearchParts.{BeginsIn, HasNoneIn};
ghost use Rattle.stab_search.specs.inner.Ends.{NoEnds};
ghost use Rattle.stab_search.specs.inner.Lists.{has};
ghost use Rattle.stab_search.specs.inner.Pairs.{ArePairs};
ghost use Rattle.stab_search.specs.inner.Shortest.{IsLogicalWithin};
ghost use Rattle.stab_search.specs.inner.ReportedProgress.{IsBegunBy, IsFirstFound, ReportsSizes};

use crate::answer::{Answer, Progress};
use crate::errors::Errors;
use crate::search_part::SearchPart;
use crate::searching::search;
use std::alloc::AllocError;

/// What a part finds among errors that are enough, by their own numbers and in any order.
#[derive(Drop)]
pub struct Found {
    /// Up to how many errors the part has no set.
    pub last: usize,
    /// The error with which the search for its set began.
    pub first: usize,
    pub answer: Answer,
}

/// What a part of a search finds with more than `from` errors and at most `most`: one number after another is tried, until a logical error
/// is found. `progress` hears of each number of which the part has no set.
pub fn first_in_part<P: Progress>(
    errors: &Errors,
    part: &SearchPart,
    from: usize,
    most: usize,
    progress: &mut P,
) -> Result<Option<Found>, AllocError>
    requires order { from ≤ most }
    ensures reported { ReportsSizes part.now (record { table = errors.now.table; firsts = errors.now.firsts }) from (IsFirstFound part.now (record { table = errors.now.table; firsts = errors.now.firsts }) most) (P.heard progress.old) (P.heard progress.new) result }
{
    let firsts = errors.firsts();
    'sizes: for left in from..most {
        match of_one_more(errors, firsts, part, left)? {
            Some(found) => return Ok(Some(found)),
            None => progress.none_within(left + 1),
        }
    }
    Ok(None)
}

/// A logical error of at most `left + 1` errors, which begins in a part of the search, if there is one of this size and none of fewer. Errors
/// before `firsts` can be the first ones.
fn of_one_more(
    errors: &Errors,
    firsts: usize,
    part: &SearchPart,
    left: usize,
) -> Result<Option<Found>, AllocError>
    requires within { firsts ≤ length errors.now.table.rows }
    requires pairs { ArePairs errors.now.table.rows firsts errors.now.pairs }
    ensures some { IfOk result (λ a. IfSome a (λ f. (f.last ≡ left) × IsBegunBy part.now (record { table = errors.now.table; firsts = firsts }) (f.last + 1) f.first f.answer)) }
    ensures none { IfOk result (λ a. IfNone a (HasNoneIn part.now (record { table = errors.now.table; firsts = firsts }) (left + 1))) }
{
    let mut cover = vec![in errors.alloc(); 0; errors.len()]?;
    'firsts: for first in 0..firsts {
        if let Some(found) = with_first(errors, part, first, left, cover.as_mut_slice())? {
            return Ok(Some(Found {
                last: left,
                first,
                answer: Answer::Least(found),
            }));
        }
    }
    Ok(None)
}

/// A logical error of this error and `left` errors after it, if the error is one of the part's.
fn with_first(
    errors: &Errors,
    part: &SearchPart,
    first: usize,
    left: usize,
    cover: &mut [usize],
) -> Result<Option<Vec<usize>>, AllocError>
    requires inside { first < length errors.now.table.rows }
    requires cover { length cover.old ≡ length errors.now.table.rows }
    ensures some { IfOk result (λ a. IfSome a (λ v. IsLogicalWithin errors.now.table (left + 1) v.items)) }
    ensures begun { IfOk result (λ a. IfSome a (λ v. BeginsIn part.now (first ∷ []) × (has first v.items ≡ true))) }
    ensures none { BeginsIn part.now (first ∷ []) → HasNoneWithin errors.now.table left → IfOk result (λ a. IfNone a (NoEnds errors.now.table errors.now.pairs first (first ∷ []) (row errors.now.table.rows first) left)) }
    ensures cover { length cover.new ≡ length cover.old }
{
    if !part.has(first) {
        return Ok(None);
    }
    let flipped = errors.row(first);
    let key = errors.key(first);
    let mut path = vec![in errors.alloc(); first; 1]?;
    match search(errors, first, &mut path, flipped, key, left, cover)? {
        None => Ok(None),
        Some(mut rest) => {
            rest.push(first)?;
            Ok(Some(rest))
        }
    }
}
