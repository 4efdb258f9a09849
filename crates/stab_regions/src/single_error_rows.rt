ghost use Rattle.std.specs.Prelude.{◌≡◌, ◌-◌, ◌<◌, ◌≤◌, [], ◌∷◌, length, take, drop, slice_index, slice_index_or};
ghost use Rattle.stab_regions.specs.inner.StoredRows.{rows_cut, Rises, ends_retained, is_stored, retained_of};

use std::alloc::{AllocError, Global};
use std::marker::Model;

/// Rows of numbers, one after another in one allocation. Contracts see the list of the rows.
pub(crate) struct SingleErrorRows {
    numbers: Vec<u32>,
    // Where each row ends.
    ends: Vec<usize>,
}

// Written out, so that a proof sees the drop of a value as one call, and not one for each of its parts.
impl Drop for SingleErrorRows {
    fn drop(self) {
        let SingleErrorRows {
            numbers: _,
            ends: _,
        } = self;
    }
}

impl Model for SingleErrorRows {
    ghost use Rattle.std.specs.Prelude.{ℕ, List, length};
    ghost use Rattle.stab_regions.specs.inner.StoredRows.{rows_cut, Rises};

    ghost Value = { List (List ℕ) };

    ghost view = { λ r. rows_cut 0 r.ends.items r.numbers.items };

    ghost invariant = { λ r. Rises 0 r.ends.items (length r.numbers.items) };
}

impl SingleErrorRows {
    ghost use Rattle.std.specs.Prelude.{◌≡◌, ◌<◌, [], ◌∷◌, ◌++◌, length, map, slice_index_or, OnOk};
    ghost use Rattle.stab_regions.specs.inner.StoredRows.{retained_of};

    /// None, which takes no memory.
    pub fn new(alloc: Global) -> SingleErrorRows
        ensures value { result ≡ [] }
    {
        SingleErrorRows {
            numbers: Vec::new(alloc),
            ends: Vec::new(alloc),
        }
    }

    /// How many rows there are.
    pub fn len(&self) -> usize
        ensures value { result ≡ length self.now }
    {
        self.ends.len()
    }

    /// A row.
    pub fn row(&self, k: usize) -> &[u32]
        requires in_range { k < length self.now }
        ensures value { result.now ≡ slice_index_or self.now k [] }
    {
        row_of(self.ends.as_slice(), self.numbers.as_slice(), k)
    }

    /// Puts a row after the others.
    pub fn push(&mut self, row: &[u32]) -> Result<(), AllocError>
        ensures value { OnOk result (self.new ≡ self.old ++ row.now ∷ []) }
    {
        self.ends.reserve(1)?;
        self.numbers.extend_from_slice(row)?;
        self.ends.push(self.numbers.len())?;
        Ok(())
    }

    /// Takes all rows away, and leaves their memory for others.
    pub fn clear(&mut self)
        ensures value { self.new ≡ [] }
    {
        self.numbers.clear();
        self.ends.clear();
    }

    /// Takes out of each row the numbers whose bit isn't set.
    pub fn keep(&mut self, retained: &[bool])
        ensures value { self.new ≡ map (retained_of retained.now) self.old }
    {
        move_ends(&mut self.ends, self.numbers.as_slice(), retained);
        self.numbers.retain(|number| is_stored(retained, *number));
    }
}

/// Where a row begins: at the end of the one before it.
fn begin_of(ends: &[usize], k: usize) -> usize
    requires in_range { k < length ends.now }
    ensures value { result ≡ slice_index (0 ∷ ends.now) k }
{
    if k == 0 { 0 } else { ends[k - 1] }
}

/// The numbers from one position on up to before another.
fn part(numbers: &[u32], begin: usize, end: usize) -> &[u32]
    requires order { begin ≤ end }
    requires in_range { end ≤ length numbers.now }
    ensures value { result.now ≡ take (end - begin) (drop begin numbers.now) }
{
    &numbers[begin..end]
}

/// A row.
fn row_of<'a>(ends: &[usize], numbers: &'a [u32], k: usize) -> &'a [u32]
    requires rises { Rises 0 ends.now (length numbers.now) }
    requires in_range { k < length ends.now }
    ensures value { result.now ≡ slice_index_or (rows_cut 0 ends.now numbers.now) k [] }
{
    let begin = begin_of(ends, k);
    let end = ends[k];
    part(numbers, begin, end)
}

/// Whether a number's bit is set.
fn is_stored(retained: &[bool], number: u32) -> bool
    ensures value { result ≡ is_stored retained.now number }
{
    retained.get(number as usize).copied().unwrap_or(false)
}

/// How many numbers' bits are set.
fn count_retained(retained: &[bool], numbers: &[u32]) -> usize
    ensures value { result ≡ length (retained_of retained.now numbers.now) }
{
    numbers
        .iter()
        .filter(|number| is_stored(retained, **number))
        .count()
}

/// Moves the ends of rows to where they are once only those numbers are there whose bit is set.
fn move_ends(ends: &mut [usize], numbers: &[u32], retained: &[bool])
    requires rises { Rises 0 ends.old (length numbers.now) }
    ensures value { ends.new ≡ ends_retained retained.now 0 0 ends.old numbers.now }
{
    let mut begin = 0;
    let mut count = 0;
    'rows: for k in 0..ends.len() {
        let end = ends[k];
        count += count_retained(retained, part(numbers, begin, end));
        ends[k] = count;
        begin = end;
    }
}
