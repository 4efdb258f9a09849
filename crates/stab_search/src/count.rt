ghost use Rattle.std.specs.Prelude.{◌≡◌, ℕ, ◌<◌, ◌≤◌, true, length, IfOk, IfErr};
ghost use Rattle.stab_io.specs.declared.refusal.Refusal.TheVariants.{OutOfMemory};
ghost use Rattle.stab_search.specs.Counts.{HasNoneBelow, IsCountOfSets};
ghost use Rattle.stab_parities.specs.OddNumbers.{odd, row};
ghost use Rattle.stab_search.specs.inner.Lists.{ForEach, has};

use crate::counting::try_each;
use crate::errors::Errors;
use crate::groups::groups_of;
use crate::row::end_of;
use crate::table::Table;
use stab_io::Refusal;
use std::alloc::{AllocError, Global};

/// How many sets of `size` errors are a logical error, if no logical error has fewer; `None` if the number takes more than 64 bits.
///
/// Errors that flip the same are tried once. The time grows with the number of sets of different rows: unlike a search for one set, it leaves
/// out no pair.
///
/// The only refusal is `OutOfMemory`.
pub fn count_least(alloc: Global, table: &Table, size: usize) -> Result<Option<u64>, Refusal>
    requires least { HasNoneBelow table.now size }
    ensures count { IfOk result (IsCountOfSets table.now size) }
    ensures refusal { IfErr result (λ e. e ≡ OutOfMemory) }
{
    if size == 0 {
        return Ok(Some(0));
    }
    let groups = groups_of(alloc, table)?;
    let errors = Errors::new(alloc, table.detectors(), groups.rows)?;
    let firsts = observing(&errors)?;
    let mut weights = groups.weights;
    let mut cover = vec![in alloc; 0; errors.len()]?;
    let count = try_each(
        &errors,
        firsts.as_slice(),
        weights.as_mut_slice(),
        &[],
        0,
        size - 1,
        cover.as_mut_slice(),
    )?;
    Ok(count)
}

/// The errors that flip an observable.
fn observing(errors: &Errors) -> Result<Vec<usize>, AllocError>
    ensures inside { IfOk result (λ v. ForEach (λ r. r < length errors.now.table.rows) v.items) }
    ensures all { IfOk result (λ v. (r o : ℕ) → r < length errors.now.table.rows → errors.now.table.detectors ≤ o → odd o (row errors.now.table.rows r) ≡ true → has r v.items ≡ true) }
{
    let mut found = Vec::new(errors.alloc());
    'rows: for r in 0..errors.len() {
        if end_of(errors.row(r)) > errors.detectors() {
            found.push(r)?;
        }
    }
    Ok(found)
}
