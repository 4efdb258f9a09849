ghost use Rattle.std.specs.Prelude.{◌≡◌, ◌+◌, ◌<◌, length, IfOk, IfSome, IfNone};
ghost use Rattle.stab_search.specs.LogicalErrors.{HasNoneWithin};
ghost use Rattle.stab_search.specs.inner.Ends.{CompletesSetWithin, NoEnds, NoEndsBy};
ghost use Rattle.stab_search.specs.inner.Errors.{IsKeyed};

use crate::candidates::candidates;
use crate::errors::Errors;
use stab_parities::merge_into;
use std::alloc::AllocError;

/// At most `left` errors that complete those chosen, which flip `flipped` together, to a logical error. `first` is the first of those chosen,
/// and `path` has all of them; `cover` is scratch.
#[cycle(search)]
pub fn search(
    errors: &Errors,
    first: usize,
    path: &mut Vec<usize>,
    flipped: &[u32],
    key: u64,
    left: usize,
    cover: &mut [usize],
) -> Result<Option<Vec<usize>>, AllocError>
    requires keyed { IsKeyed errors.now.numbers flipped.now key }
    requires cover { length cover.old ≡ length errors.now.table.rows }
    ensures some { IfOk result (λ a. IfSome a (λ v. CompletesSetWithin errors.now.table flipped.now left v.items)) }
    ensures none { HasNoneWithin errors.now.table left → IfOk result (λ a. IfNone a (NoEnds errors.now.table errors.now.pairs first path.old.items flipped.now left)) }
    ensures path { IfOk result (λ a. IfNone a (path.new.items ≡ path.old.items)) }
    ensures cover { length cover.new ≡ length cover.old }
{
    if flipped.is_empty() {
        return Ok(None);
    }
    if flipped[0] as usize >= errors.detectors() {
        return Ok(Some(Vec::new(errors.alloc())));
    }
    if left == 0 {
        return Ok(None);
    }
    let tried = candidates(errors, first, path.as_slice(), flipped, key, left, cover)?;
    let mut next = Vec::with_capacity(errors.alloc(), flipped.len())?;
    'tries: for g in tried.as_slice() {
        let found = try_error(
            errors,
            first,
            path,
            flipped,
            key,
            left - 1,
            *g,
            &mut next,
            cover,
        )?;
        if let Some(rest) = found {
            return Ok(Some(rest));
        }
    }
    Ok(None)
}

/// The same with error g among them, which is after the first one if none is left. What is flipped after g is written to `next`.
#[cycle(search)]
fn try_error(
    errors: &Errors,
    first: usize,
    path: &mut Vec<usize>,
    flipped: &[u32],
    key: u64,
    left: usize,
    g: usize,
    next: &mut Vec<u32>,
    cover: &mut [usize],
) -> Result<Option<Vec<usize>>, AllocError>
    requires keyed { IsKeyed errors.now.numbers flipped.now key }
    requires inside { g < length errors.now.table.rows }
    requires cover { length cover.old ≡ length errors.now.table.rows }
    ensures some { IfOk result (λ a. IfSome a (λ v. CompletesSetWithin errors.now.table flipped.now (left + 1) v.items)) }
    ensures none { HasNoneWithin errors.now.table left → IfOk result (λ a. IfNone a (NoEndsBy errors.now.table errors.now.pairs first path.old.items flipped.now (left + 1) g)) }
    ensures path { IfOk result (λ a. IfNone a (path.new.items ≡ path.old.items)) }
    ensures cover { length cover.new ≡ length cover.old }
{
    if left == 0 && g <= first {
        return Ok(None);
    }
    let next_key = key ^ errors.key(g);
    if left == 1 && !errors.has_key(next_key) {
        return Ok(None);
    }
    merge_into(next, flipped, errors.row(g))?;
    path.push(g)?;
    match search(errors, first, path, next.as_slice(), next_key, left, cover)? {
        None => {
            path.pop();
            Ok(None)
        }
        Some(mut rest) => {
            rest.push(g)?;
            Ok(Some(rest))
        }
    }
}
