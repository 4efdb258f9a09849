ghost use Rattle.std.specs.Prelude.{◌≡◌, ℕ, ◌<◌, true, List, length, IfOk, IfSome, OnOk};
ghost use Rattle.stab_parities.specs.Ascending.{IsAscending};
ghost use Rattle.stab_parities.specs.OddNumbers.{row};
ghost use Rattle.stab_search.specs.inner.Errors.{AreRowsOf, HasRow};

use crate::index::{list, rows_at};
use crate::row::Row;
use crate::table::Table;
use std::alloc::{AllocError, Global};

/// Rows of a table that differ, with their numbers in it.
#[derive(Drop)]
pub struct Distinct {
    pub rows: Vec<Row>,
    pub numbers: Vec<usize>,
}

impl Distinct {
    ghost use Rattle.std.specs.Prelude.{◌≡◌, ◌<◌, ◌∷◌, [], ◌++◌, List, ℕ, length, OnOk};
    ghost use Rattle.stab_parities.specs.Ascending.{IsAscending};
    ghost use Rattle.stab_parities.specs.OddNumbers.{row};
    ghost use Rattle.stab_search.specs.inner.Errors.{AreRowsOf, HasRow};

    /// None.
    pub fn new(alloc: Global) -> Distinct
        ensures rows { result.rows.items ≡ [] }
        ensures numbers { result.numbers.items ≡ [] }
    {
        Distinct {
            rows: Vec::new(alloc),
            numbers: Vec::new(alloc),
        }
    }

    /// Adds row r of the table, which has these numbers, at the end.
    pub fn add(&mut self, alloc: Global, numbers: &[u32], r: usize) -> Result<(), AllocError>
        requires ascending { IsAscending numbers.now }
        ensures rows { OnOk result ((rows : List (List ℕ)) → r < length rows → row rows r ≡ numbers.now → AreRowsOf rows self.old.rows.items self.old.numbers.items → AreRowsOf rows self.new.rows.items self.new.numbers.items) }
        ensures added { OnOk result (self.new.rows.items ≡ self.old.rows.items ++ numbers.now ∷ []) }
        ensures there { OnOk result (HasRow self.new.rows.items numbers.now) }
        ensures others { OnOk result ((others : List ℕ) → HasRow self.old.rows.items others → HasRow self.new.rows.items others) }
    {
        let row = Row::copied(alloc, numbers)?;
        self.numbers.push(r)?;
        self.rows.push(row)?;
        Ok(())
    }
}

/// The first numbers of a row, by which rows are sorted.
#[derive(Clone, Copy, PartialEq, Eq, PartialOrd, Ord)]
struct Start {
    numbers: [u32; 4],
    row: usize,
}

/// The rows of a table, each once, sorted by their numbers.
pub fn distinct_rows(alloc: Global, table: &Table) -> Result<Distinct, AllocError>
    ensures rows { IfOk result (λ x. AreRowsOf table.now.rows x.rows.items x.numbers.items) }
    ensures all { IfOk result (λ x. (r : ℕ) → r < length table.now.rows → HasRow x.rows.items (row table.now.rows r)) }
{
    let order = sorted(alloc, table.rows())?;
    let distinct = rows_in_order(alloc, table.rows(), order.as_slice())?;
    Ok(distinct)
}

/// These rows, each once: first those of `order`, and then any others.
pub fn rows_in_order(alloc: Global, rows: &[Row], order: &[usize]) -> Result<Distinct, AllocError>
    ensures rows { IfOk result (λ x. AreRowsOf rows.now x.rows.items x.numbers.items) }
    ensures all { IfOk result (λ x. (r : ℕ) → r < length rows.now → HasRow x.rows.items (row rows.now r)) }
{
    let mut distinct = Distinct::new(alloc);
    let mut index = Vec::new(alloc);
    let size = rows.len();
    'ordered: for r in order {
        let r = *r;
        if r < size {
            let row = &rows[r];
            take(alloc, &mut distinct, &mut index, row.numbers(), r, size)?;
        }
    }
    'all: for r in 0..size {
        let row = &rows[r];
        take(alloc, &mut distinct, &mut index, row.numbers(), r, size)?;
    }
    Ok(distinct)
}

/// The numbers of rows, sorted by what the rows flip.
fn sorted(alloc: Global, rows: &[Row]) -> Result<Vec<usize>, AllocError> {
    let mut starts = Vec::with_capacity(alloc, rows.len())?;
    for r in 0..rows.len() {
        let row = &rows[r];
        let numbers = start_of(row.numbers());
        starts.push(Start { numbers, row: r })?;
    }
    starts.sort()?;
    let mut order = Vec::with_capacity(alloc, rows.len())?;
    for start in starts.as_slice() {
        order.push(start.row)?;
    }
    Ok(order)
}

/// The first four numbers of a row, each one more than it is, and 0 for those that it lacks.
fn start_of(numbers: &[u32]) -> [u32; 4] {
    let mut start = [0; 4];
    for k in 0..4 {
        if k < numbers.len() {
            start[k] = numbers[k].saturating_add(1);
        }
    }
    start
}

/// Takes a row at the end, if no row is the same. `index` lists the rows by their hashes.
fn take(
    alloc: Global,
    distinct: &mut Distinct,
    index: &mut Vec<Vec<usize>>,
    numbers: &[u32],
    r: usize,
    size: usize,
) -> Result<(), AllocError>
    requires ascending { IsAscending numbers.now }
    ensures rows { OnOk result ((rows : List (List ℕ)) → r < length rows → row rows r ≡ numbers.now → AreRowsOf rows distinct.old.rows.items distinct.old.numbers.items → AreRowsOf rows distinct.new.rows.items distinct.new.numbers.items) }
    ensures there { OnOk result (HasRow distinct.new.rows.items numbers.now) }
    ensures others { OnOk result ((others : List ℕ) → HasRow distinct.old.rows.items others → HasRow distinct.new.rows.items others) }
{
    let position = position_of(numbers, size);
    if has_row(
        distinct.rows.as_slice(),
        rows_at(index.as_slice(), position),
        numbers,
    ) {
        return Ok(());
    }
    list(alloc, index, position, distinct.rows.len())?;
    distinct.add(alloc, numbers, r)?;
    Ok(())
}

/// Whether one of the candidates is this row.
fn has_row(rows: &[Row], candidates: &[usize], numbers: &[u32]) -> bool
    ensures yes { result ≡ true → HasRow rows.now numbers.now }
{
    'candidates: for k in candidates {
        if *k < rows.len() {
            let row = &rows[*k];
            if row.numbers() == numbers {
                return true;
            }
        }
    }
    false
}

/// The position at which rows of these numbers are listed, below the number of rows.
pub(crate) fn position_of(numbers: &[u32], size: usize) -> usize {
    let mut hash: u64 = 0;
    for n in numbers {
        hash = (hash ^ u64::from(*n)).wrapping_mul(0x9e3779b97f4a7c15);
        hash ^= hash >> 29;
    }
    if size == 0 { 0 } else { hash as usize % size }
}
