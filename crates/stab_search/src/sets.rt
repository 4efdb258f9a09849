ghost use Rattle.std.specs.Prelude.{◌≡◌, ℕ, ◌<◌, length, map, slice_index, IfOk, OnOk};
ghost use Rattle.stab_search.specs.inner.Lists.{toggle};
ghost use Rattle.stab_search.specs.inner.Shortest.{IsGathered};

use std::alloc::{AllocError, Global};

/// The numbers in the table of the rows found, in ascending order. A row that was found twice cancels.
pub fn set_of(alloc: Global, found: &[usize], numbers: &[usize]) -> Result<Vec<usize>, AllocError>
    requires inside { (k : ℕ) → k < length found.now → slice_index found.now k < length numbers.now }
    ensures gathered { IfOk result (λ v. IsGathered (map (slice_index numbers.now) found.now) v.items) }
{
    let mut set = Vec::new(alloc);
    'each: for k in found {
        toggle_row(&mut set, numbers[*k])?;
    }
    Ok(set)
}

/// Puts row r in, in order, or takes it out if it is there.
fn toggle_row(set: &mut Vec<usize>, r: usize) -> Result<(), AllocError>
    ensures value { OnOk result (set.new.items ≡ toggle r set.old.items) }
{
    let mut position = 0;
    'pass: while position < set.len() && set[position] < r {
        position += 1;
    }
    if position < set.len() && set[position] == r {
        set.remove(position);
    } else {
        set.insert(position, r)?;
    }
    Ok(())
}
