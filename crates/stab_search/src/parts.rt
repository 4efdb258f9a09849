ghost use Rattle.std.specs.Prelude.{◌≡◌, ◌⊎◌, [], IfOk, IfErr};
ghost use Rattle.stab_io.specs.declared.refusal.Refusal.TheVariants.{OutOfMemory};
ghost use Rattle.stab_parities.specs.Ascending.{IsAscending};
ghost use Rattle.stab_search.specs.Graphlike.{IsGraphlike};
ghost use Rattle.stab_search.specs.inner.Parts.{IsGraphlikePart};

use crate::edges::is_graphlike;
use crate::table::Table;
use stab_io::Refusal;
use std::alloc::Global;

/// The table with its graph-like rows alone. The others are empty, so that each has its number.
pub fn graphlike_part(alloc: Global, table: &Table) -> Result<Table, Refusal>
    ensures part { IfOk result (IsGraphlikePart table.now) }
    ensures refusal { IfErr result (λ e. e ≡ OutOfMemory) }
{
    let mut part = Table::new(alloc, table.detectors());
    'rows: for r in 0..table.len() {
        part.push(graphlike_or_empty(table.row(r), table.detectors()))?;
    }
    Ok(part)
}

/// A row if it is graph-like, else an empty one.
fn graphlike_or_empty(numbers: &[u32], detectors: usize) -> &[u32]
    requires ascending { IsAscending numbers.now }
    ensures ascending { IsAscending result.now }
    ensures preserved { IsGraphlike detectors numbers.now → result.now ≡ numbers.now }
    ensures others { IsGraphlike detectors numbers.now ⊎ (result.now ≡ []) }
{
    if is_graphlike(numbers, detectors) {
        numbers
    } else {
        &[]
    }
}
