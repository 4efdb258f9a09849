ghost use Rattle.std.specs.Prelude.{◌≡◌, ◌≢◌, ℕ, ◌+◌, ◌-◌, ◌<◌, List, ◌++◌, length, OnOk};
ghost use Rattle.stab_regions.specs.Regions.{look_where};
ghost use Rattle.stab_regions.specs.Rows.{Toggles, SameRows, ShowsLooks};
ghost use Rattle.stab_parities.specs.OddNumbers.{odd, row};

use crate::parities::Parities;
use std::alloc::{AllocError, Global};
use std::collections::VecDeque;

/// Takes away the newest record, and gives the parities whose regions had it. The others are then
/// looked back to by one less.
pub fn newest(alloc: Global, records: &mut VecDeque<Parities>) -> Parities
    ensures value { result ≡ row records.old.items 0 }
    ensures others { (k : ℕ) → row records.new.items k ≡ row records.old.items (k + 1) }
{
    match records.pop_front() {
        Some(parities) => parities,
        None => Parities::none(alloc),
    }
}

/// Adds rows of no parities until there are more than this many.
fn pad(alloc: Global, records: &mut VecDeque<Parities>, site: usize) -> Result<(), AllocError>
    ensures enough { OnOk result (site < length records.new.items) }
    ensures same { OnOk result (SameRows records.old.items records.new.items) }
{
    'padding: while records.len() <= site {
        records.push_back(Parities::none(alloc))?;
    }
    Ok(())
}

/// Toggles `rec[-(site + 1)]` in the regions of these parities.
pub fn look(
    alloc: Global,
    records: &mut VecDeque<Parities>,
    site: usize,
    parities: &Parities,
) -> Result<(), AllocError>
    ensures value { OnOk result (Toggles records.old.items records.new.items site parities.now) }
{
    if parities.is_empty() {
        return Ok(());
    }
    pad(alloc, records, site)?;
    records[site] = records[site].merged(alloc, parities)?;
    Ok(())
}

/// Toggles `rec[-k]` in the regions of these parities; `rec[-0]` is no record.
pub fn look_back(
    alloc: Global,
    records: &mut VecDeque<Parities>,
    k: u32,
    parities: &Parities,
) -> Result<(), AllocError>
    ensures looks { OnOk result ((i : ℕ) (looks : List ℕ) → ShowsLooks i records.old.items looks → ShowsLooks i records.new.items (look_where (odd i parities.now) k looks)) }
{
    if k == 0 {
        return Ok(());
    }
    look(alloc, records, k as usize - 1, parities)?;
    Ok(())
}

/// Toggles these `rec[-k]` in the region of one parity, each as often as it is there; `rec[-0]` is no record.
pub fn look_each(
    alloc: Global,
    records: &mut VecDeque<Parities>,
    lookbacks: &[u32],
    parity: u32,
) -> Result<(), AllocError>
    ensures own { OnOk result ((looks : List ℕ) → ShowsLooks parity records.old.items looks → ShowsLooks parity records.new.items (lookbacks.now ++ looks)) }
    ensures others { OnOk result ((i : ℕ) (looks : List ℕ) → i ≢ parity → ShowsLooks i records.old.items looks → ShowsLooks i records.new.items looks) }
{
    let parities = Parities::one(alloc, parity)?;
    for k in lookbacks {
        look_back(alloc, records, *k, &parities)?;
    }
    Ok(())
}
