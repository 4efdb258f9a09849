ghost use Rattle.std.specs.Prelude.{◌≡◌, ℕ, OnOk};
ghost use Rattle.stab_gates.specs.Letters.{◌⊕◌};
ghost use Rattle.stab_parities.specs.Ascending.{IsAscending};
ghost use Rattle.stab_parities.specs.OddNumbers.{odd};

use std::alloc::AllocError;

/// Writes the numbers of one list or the other, and not of both, in increasing order.
pub fn merge_into(merged: &mut Vec<u32>, left: &[u32], right: &[u32]) -> Result<(), AllocError>
    requires left { IsAscending left.now }
    requires right { IsAscending right.now }
    ensures ascending { OnOk result (IsAscending merged.new.items) }
    ensures odd { OnOk result ((i : ℕ) → odd i merged.new.items ≡ odd i left.now ⊕ odd i right.now) }
{
    merged.clear();
    let mut a = 0;
    let mut b = 0;
    'heads: while a < left.len() && b < right.len() {
        let (x, y) = (left[a], right[b]);
        if x < y {
            merged.push(x)?;
            a += 1;
        } else if y < x {
            merged.push(y)?;
            b += 1;
        } else {
            a += 1;
            b += 1;
        }
    }
    merged.extend_from_slice(left.split_at(a).1)?;
    merged.extend_from_slice(right.split_at(b).1)?;
    Ok(())
}
