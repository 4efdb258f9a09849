ghost use Rattle.std.specs.Prelude.{◌≡◌, ℕ, ◌<◌, ◌≤◌, false, length};
ghost use Rattle.stab_parities.specs.Ascending.{IsAscending};
ghost use Rattle.stab_parities.specs.OddNumbers.{odd, row};

use std::alloc::{AllocError, Global};
use std::marker::Model;

/// What one error flips, by numbers in ascending order.
pub struct Row {
    numbers: Vec<u32>,
}

// Written out, so that a proof sees the drop of a value as one call, and not one for each of its parts.
impl Drop for Row {
    fn drop(self) {
        let Row { numbers: _ } = self;
    }
}

impl Model for Row {
    ghost use Rattle.std.specs.Prelude.{ℕ, List};
    ghost use Rattle.stab_parities.specs.Ascending.{IsAscending};

    ghost Value = { List ℕ };

    ghost view = { λ r. r.numbers.items };

    ghost invariant = { λ r. IsAscending r.numbers.items };
}

impl Row {
    ghost use Rattle.std.specs.Prelude.{◌≡◌, IfOk};
    ghost use Rattle.stab_parities.specs.Ascending.{IsAscending};

    /// A row of these numbers.
    pub fn copied(alloc: Global, numbers: &[u32]) -> Result<Row, AllocError>
        requires ascending { IsAscending numbers.now }
        ensures value { IfOk result (λ r. r ≡ numbers.now) }
    {
        let mut copied = Vec::with_capacity(alloc, numbers.len())?;
        copied.extend_from_slice(numbers)?;
        Ok(Row { numbers: copied })
    }

    /// Its numbers.
    pub fn numbers(&self) -> &[u32]
        ensures value { result.now ≡ self.now }
        ensures ascending { IsAscending self.now }
    {
        self.numbers.as_slice()
    }
}

/// One more than the greatest of some numbers in ascending order, 0 if there is none.
pub fn end_of(numbers: &[u32]) -> usize
    requires ascending { IsAscending numbers.now }
    ensures end { (i : ℕ) → result ≤ i → odd i numbers.now ≡ false }
{
    if numbers.is_empty() {
        return 0;
    }
    numbers[numbers.len() - 1] as usize + 1
}

/// One more than the greatest number of some rows, 0 if there is none.
pub fn end_of_rows(rows: &[Row]) -> usize
    ensures end { (r i : ℕ) → r < length rows.now → result ≤ i → odd i (row rows.now r) ≡ false }
{
    let mut end = 0;
    'rows: for r in 0..rows.len() {
        let row = &rows[r];
        end = end.max(end_of(row.numbers()));
    }
    end
}

/// Whether these numbers have i in them an odd number of times.
pub fn flips(numbers: &[u32], i: usize) -> bool
    ensures value { result ≡ odd i numbers.now }
{
    let mut odd = false;
    'each: for n in numbers {
        odd ^= *n as usize == i;
    }
    odd
}
