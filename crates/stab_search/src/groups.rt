ghost use Rattle.std.specs.Prelude.{◌≡◌, ℕ, ◌<◌, ◌^◌, ◌-◌, List, length, slice_index, IfOk, IfSome, OnOk};
ghost use Rattle.stab_parities.specs.Ascending.{IsAscending};
ghost use Rattle.stab_search.specs.Tables.{ErrorTable};
ghost use Rattle.stab_parities.specs.OddNumbers.{row};
ghost use Rattle.stab_search.specs.inner.Ways.{AreGroups, IsWeightAdded};

use crate::distinct::position_of;
use crate::index::{list, rows_at};
use crate::row::Row;
use crate::table::Table;
use std::alloc::{AllocError, Global};

/// Rows of a table that differ, and how many errors have each.
#[derive(Drop)]
pub struct Groups {
    pub rows: Vec<Row>,
    pub weights: Vec<u64>,
}

/// The rows of a table, each with the number of errors that have it.
pub fn groups_of(alloc: Global, table: &Table) -> Result<Groups, AllocError>
    ensures groups { IfOk result (λ g. AreGroups table.now g.rows.items g.weights.items) }
{
    let mut groups = Groups {
        rows: Vec::new(alloc),
        weights: Vec::new(alloc),
    };
    let mut index = Vec::new(alloc);
    let size = table.len();
    'rows: for r in 0..size {
        add(alloc, &mut groups, &mut index, table.row(r), size)?;
    }
    Ok(groups)
}

/// Adds an error that flips these numbers. `index` lists the rows by their hashes.
fn add(
    alloc: Global,
    groups: &mut Groups,
    index: &mut Vec<Vec<usize>>,
    numbers: &[u32],
    size: usize,
) -> Result<(), AllocError>
    requires ascending { IsAscending numbers.now }
    requires count { length groups.old.weights.items ≡ length groups.old.rows.items }
    ensures added { OnOk result (IsWeightAdded numbers.now groups.old.rows.items groups.old.weights.items groups.new.rows.items groups.new.weights.items) }
{
    let position = position_of(numbers, size);
    let found = find(
        groups.rows.as_slice(),
        groups.weights.as_slice(),
        rows_at(index.as_slice(), position),
        numbers,
    );
    match found {
        Some(k) => {
            groups.weights[k] += 1;
        }
        None => {
            list(alloc, index, position, groups.rows.len())?;
            let row = Row::copied(alloc, numbers)?;
            groups.rows.push(row)?;
            groups.weights.push(1)?;
        }
    }
    Ok(())
}

/// One of the candidates that is this row, and can have one more error.
fn find(rows: &[Row], weights: &[u64], candidates: &[usize], numbers: &[u32]) -> Option<usize>
    ensures found { IfSome result (λ k. (k < length rows.now) × ((k < length weights.now) × ((slice_index weights.now k < 2 ^ 64 - 1) × (row rows.now k ≡ numbers.now)))) }
{
    'candidates: for k in candidates {
        let k = *k;
        if k < rows.len() && k < weights.len() && weights[k] < u64::MAX {
            let row = &rows[k];
            if row.numbers() == numbers {
                return Some(k);
            }
        }
    }
    None
}
