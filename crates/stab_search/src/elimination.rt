use crate::certificate::Members;
use crate::row::{Row, end_of_rows};
use std::alloc::{AllocError, Global};

/// Rows over the field of two elements in echelon form. No proof rests on it: what it finds is checked.
#[derive(Drop)]
pub struct Echelon {
    pivots: Vec<Pivot>,
    // For each number the pivot whose least number it is, if there is one.
    pivot_of: Vec<Option<usize>>,
}

/// What is left of a row once earlier pivots were added to it, and the row's number. The bits of its words are its numbers, and after
/// those of all numbers the pivots whose rows add up to it.
#[derive(Drop)]
struct Pivot {
    words: Vec<u64>,
    row: usize,
}

/// The echelon form of rows, up to the first one of which only observables are left.
pub(crate) fn eliminate(
    alloc: Global,
    detectors: usize,
    rows: &[Row],
) -> Result<Echelon, AllocError> {
    let mut echelon = Echelon {
        pivots: Vec::new(alloc),
        pivot_of: vec![in alloc; None; end_of_rows(rows)]?,
    };
    for r in 0..rows.len() {
        let row = &rows[r];
        if echelon.add(alloc, row.numbers(), r)? > detectors {
            break;
        }
    }
    Ok(echelon)
}

impl Echelon {
    /// Adds row r, which has these numbers, after the pivots that they lead are added to it. Gives one more than the least number that is
    /// left, 0 if none is.
    fn add(&mut self, alloc: Global, numbers: &[u32], r: usize) -> Result<usize, AllocError> {
        let end = self.pivot_of.len();
        let mut words = words_of(alloc, numbers, end)?;
        for n in 0..end {
            if has_bit(words.as_slice(), n) {
                match self.pivot_of[n] {
                    Some(p) => self.add_pivot(p, words.as_mut_slice()),
                    None => {
                        let p = self.pivots.len();
                        set_bit(words.as_mut_slice(), end.saturating_add(p));
                        self.pivot_of[n] = Some(p);
                        self.pivots.push(Pivot { words, row: r })?;
                        return Ok(n + 1);
                    }
                }
            }
        }
        Ok(0)
    }

    /// Adds pivot p to a row.
    fn add_pivot(&self, p: usize, words: &mut [u64]) {
        if p < self.pivots.len() {
            let others = self.pivots[p].words.as_slice();
            for i in 0..words.len() {
                if i < others.len() {
                    words[i] ^= others[i];
                }
            }
        }
    }

    /// The rows that add up to the last pivot: to observables and no detector, if some rows do.
    pub(crate) fn last_rows(&self, alloc: Global) -> Result<Vec<usize>, AllocError> {
        let mut rows = Vec::new(alloc);
        let count = self.pivots.len();
        for p in 0..count {
            let words = self.pivots[count - 1].words.as_slice();
            if has_bit(words, self.pivot_of.len().saturating_add(p)) {
                rows.push(self.pivots[p].row)?;
            }
        }
        Ok(rows)
    }

    /// Whether a pivot that has an odd number of members begins with number n.
    fn has_odd_pivot(&self, n: usize, members: &[u64]) -> bool {
        let mut odd = 0;
        if n < self.pivot_of.len()
            && let Some(p) = self.pivot_of[n]
            && p < self.pivots.len()
        {
            let words = self.pivots[p].words.as_slice();
            for i in 0..members.len() {
                if i < words.len() {
                    odd ^= words[i] & members[i];
                }
            }
        }
        odd.count_ones() % 2 == 1
    }
}

impl Members for Echelon {
    /// The observable, and from the last number on each with which a pivot begins that has an odd number of members.
    fn members(&self, alloc: Global, observable: usize) -> Result<Vec<bool>, AllocError> {
        let end = self.pivot_of.len();
        let mut words = vec![in alloc; 0; end / 64 + 1]?;
        set_bit(words.as_mut_slice(), observable);
        for k in 0..end {
            if self.has_odd_pivot(end - 1 - k, words.as_slice()) {
                set_bit(words.as_mut_slice(), end - 1 - k);
            }
        }
        let mut members = Vec::new(alloc);
        for n in 0..end {
            members.push(has_bit(words.as_slice(), n))?;
        }
        Ok(members)
    }
}

/// Numbers as the bits of words, with as many bits after those of all numbers.
fn words_of(alloc: Global, numbers: &[u32], end: usize) -> Result<Vec<u64>, AllocError> {
    let mut words = vec![in alloc; 0; end.saturating_mul(2) / 64 + 1]?;
    for n in numbers {
        set_bit(words.as_mut_slice(), *n as usize);
    }
    Ok(words)
}

fn has_bit(words: &[u64], n: usize) -> bool {
    n / 64 < words.len() && words[n / 64] >> (n % 64) & 1 == 1
}

fn set_bit(words: &mut [u64], n: usize) {
    if n / 64 < words.len() {
        words[n / 64] |= 1 << (n % 64);
    }
}
