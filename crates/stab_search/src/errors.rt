ghost use Rattle.std.specs.Prelude.{◌≡◌, ◌≤◌, ℕ, true, false, length, slice_index, IfOk};
ghost use Rattle.stab_parities.specs.OddNumbers.{odd};
ghost use Rattle.stab_search.specs.inner.Errors.{key_of, AreKeys};
ghost use Rattle.stab_search.specs.inner.Steps.{BeginsBefore};

use crate::index::{rows_at, rows_by_detector};
use crate::keys::{has_key, mask_for, rows_by_key};
use crate::pairs::pairs_of;
use crate::row::{Row, end_of_rows};
use crate::steps::moved_from;
use std::alloc::{AllocError, Global};
use std::marker::Model;

/// The errors of a table, ready for a search.
#[derive(Drop)]
pub struct Errors {
    alloc: Global,
    detectors: usize,
    rows: Vec<Row>,
    numbers: Vec<u64>,
    keys: Vec<u64>,
    // The low bits of keys by which errors are listed.
    mask: u64,
    by_key: Vec<Vec<usize>>,
    by_detector: Vec<Vec<usize>>,
    pairs: Vec<Vec<usize>>,
    firsts: usize,
}

impl Model for Errors {
    ghost use Rattle.stab_search.specs.inner.Errors.{Keyed, AreErrorsReady};

    ghost Value = { Keyed };

    ghost view = { λ e. record { table = record { detectors = e.detectors; rows = e.rows.items }; firsts = e.firsts; numbers = e.numbers.items; pairs = e.pairs.items } };

    ghost invariant = { λ e. AreErrorsReady e.detectors e.rows.items e.numbers.items e.keys.items e.mask e.by_key.items e.by_detector.items e.pairs.items e.firsts };
}

impl Errors {
    ghost use Rattle.std.specs.Prelude.{◌≡◌, ◌≢◌, ℕ, ◌<◌, ◌≤◌, true, false, length, slice_index, IfOk, OnOk};
    ghost use Rattle.stab_parities.specs.Ascending.{IsAscending};
    ghost use Rattle.stab_parities.specs.OddNumbers.{row, odd};
    ghost use Rattle.stab_search.specs.inner.Lists.{ForEach, has};
    ghost use Rattle.stab_search.specs.inner.Indexes.{rows_listed};
    ghost use Rattle.stab_search.specs.inner.Pairs.{ArePairs};
    ghost use Rattle.stab_search.specs.inner.Steps.{BeginsBefore};
    ghost use Rattle.stab_search.specs.inner.Errors.{key_of};

    /// The errors of these rows.
    pub fn new(alloc: Global, detectors: usize, rows: Vec<Row>) -> Result<Errors, AllocError>
        ensures table { IfOk result (λ e. e.table ≡ record { detectors = detectors; rows = rows.items }) }
    {
        let flipped = detectors.min(end_of_rows(rows.as_slice()));
        let numbers = numbers_of(alloc, flipped)?;
        let keys = keys_of(alloc, numbers.as_slice(), rows.as_slice())?;
        let mask = mask_for(keys.len());
        let by_key = rows_by_key(alloc, keys.as_slice(), mask)?;
        let by_detector = rows_by_detector(alloc, rows.as_slice())?;
        let firsts = rows.len();
        Ok(Errors {
            alloc,
            detectors,
            rows,
            numbers,
            keys,
            mask,
            by_key,
            by_detector,
            pairs: Vec::new(alloc),
            firsts,
        })
    }

    /// What gives memory.
    pub(crate) fn alloc(&self) -> Global {
        self.alloc
    }

    /// The number of errors.
    pub fn len(&self) -> usize
        ensures value { result ≡ length self.now.table.rows }
    {
        self.rows.len()
    }

    /// The number of detectors.
    pub fn detectors(&self) -> usize
        ensures value { result ≡ self.now.table.detectors }
    {
        self.detectors
    }

    /// What each error flips.
    pub fn rows(&self) -> &[Row]
        ensures value { result.now ≡ self.now.table.rows }
    {
        self.rows.as_slice()
    }

    /// What error r flips.
    pub fn row(&self, r: usize) -> &[u32]
        requires inside { r < length self.now.table.rows }
        ensures value { result.now ≡ row self.now.table.rows r }
        ensures ascending { IsAscending result.now }
    {
        self.rows[r].numbers()
    }

    /// The key of what error r flips.
    pub fn key(&self, r: usize) -> u64
        requires inside { r < length self.now.table.rows }
        ensures value { result ≡ key_of self.now.numbers (row self.now.table.rows r) }
        ensures numbered { length self.now.numbers ≤ self.now.table.detectors }
    {
        self.keys[r]
    }

    /// Whether some error has this key.
    pub fn has_key(&self, key: u64) -> bool
        ensures not { result ≡ false → (r : ℕ) → r < length self.now.table.rows → key_of self.now.numbers (row self.now.table.rows r) ≢ key }
    {
        has_key(self.keys.as_slice(), self.with_key(key), key)
    }

    /// Some errors, among them each with this key.
    pub fn with_key(&self, key: u64) -> &[usize]
        ensures inside { ForEach (λ r. r < length self.now.table.rows) result.now }
        ensures complete { (r : ℕ) → r < length self.now.table.rows → key_of self.now.numbers (row self.now.table.rows r) ≡ key → has r result.now ≡ true }
        ensures numbered { length self.now.numbers ≤ self.now.table.detectors }
    {
        rows_at(self.by_key.as_slice(), (key & self.mask) as usize)
    }

    /// The number of detectors up to the last that is flipped.
    pub(crate) fn flipped_detectors(&self) -> usize {
        self.numbers.len()
    }

    /// The number of a detector.
    pub(crate) fn number(&self, d: u32) -> u64 {
        number_at(self.numbers.as_slice(), d)
    }

    /// Some errors, among them each that flips detector d.
    pub fn flipping(&self, d: u32) -> &[usize]
        ensures inside { ForEach (λ r. r < length self.now.table.rows) result.now }
        ensures complete { (r : ℕ) → r < length self.now.table.rows → odd d (row self.now.table.rows r) ≡ true → has r result.now ≡ true }
    {
        rows_at(self.by_detector.as_slice(), d as usize)
    }

    /// The detectors among these numbers.
    pub fn detectors_of<'a>(&self, flipped: &'a [u32]) -> &'a [u32]
        requires ascending { IsAscending flipped.now }
        ensures some { 0 < length flipped.now → slice_index flipped.now 0 < self.now.table.detectors → 0 < length result.now }
        ensures inside { ForEach (λ d. d < self.now.table.detectors) result.now }
        ensures flipped { ForEach (λ d. odd d flipped.now ≡ true) result.now }
    {
        let mut count = 0;
        'detectors: while count < flipped.len() && (flipped[count] as usize) < self.detectors {
            count += 1;
        }
        flipped.split_at(count).0
    }

    /// Errors that need not be tried with error r.
    pub fn left_out(&self, r: usize) -> &[usize]
        ensures value { result.now ≡ rows_listed self.now.pairs r }
    {
        rows_at(self.pairs.as_slice(), r)
    }

    /// Finds pairs of errors that need not be tried together. It takes memory for each two errors that flip a common detector.
    pub fn leave_out_pairs(&mut self) -> Result<(), AllocError>
        ensures table { self.new.table ≡ self.old.table }
        ensures firsts { self.new.firsts ≡ self.old.firsts }
        ensures numbers { self.new.numbers ≡ self.old.numbers }
    {
        self.pairs = pairs_of(self)?;
        Ok(())
    }

    /// How many errors can be the first of a set: if there is a logical error, some shortest one has one of these.
    pub fn firsts(&self) -> usize
        ensures value { result ≡ self.now.firsts }
        ensures within { result ≤ length self.now.table.rows }
        ensures begun { BeginsBefore self.now.table result }
        ensures pairs { ArePairs self.now.table.rows result self.now.pairs }
    {
        self.firsts
    }

    /// Lets only those errors be first that are before all that a step moves down at the end (`steps`). Forgets which pairs were left out.
    pub fn begin_unmoved(&mut self, lower: &[u32])
        ensures table { self.new.table ≡ self.old.table }
        ensures numbers { self.new.numbers ≡ self.old.numbers }
    {
        let firsts = moved_from(self, lower);
        if firsts < self.firsts {
            self.firsts = firsts;
            self.pairs.clear();
        }
    }
}

/// A number of 64 bits for each detector, as good as random.
fn numbers_of(alloc: Global, detectors: usize) -> Result<Vec<u64>, AllocError>
    ensures count { IfOk result (λ v. length v.items ≡ detectors) }
{
    let mut numbers = Vec::new(alloc);
    'each: for d in 0..detectors {
        numbers.push(mixed(d as u64))?;
    }
    Ok(numbers)
}

/// The bits of a number, mixed as in splitmix64.
fn mixed(n: u64) -> u64 {
    let a = n.wrapping_add(1).wrapping_mul(0x9e3779b97f4a7c15);
    let b = (a ^ (a >> 30)).wrapping_mul(0xbf58476d1ce4e5b9);
    let c = (b ^ (b >> 27)).wrapping_mul(0x94d049bb133111eb);
    c ^ (c >> 31)
}

/// The keys of rows.
fn keys_of(alloc: Global, numbers: &[u64], rows: &[Row]) -> Result<Vec<u64>, AllocError>
    ensures keys { IfOk result (λ v. AreKeys numbers.now rows.now v.items) }
{
    let mut keys = Vec::new(alloc);
    'rows: for r in 0..rows.len() {
        let row = &rows[r];
        keys.push(key_of(numbers, row.numbers()))?;
    }
    Ok(keys)
}

/// The exclusive or of these detectors' numbers.
fn key_of(numbers: &[u64], detectors: &[u32]) -> u64
    ensures value { result ≡ key_of numbers.now detectors.now }
{
    let mut key = 0;
    'each: for d in detectors {
        key ^= number_at(numbers, *d);
    }
    key
}

/// The number of a detector, 0 if it has none.
fn number_at(numbers: &[u64], d: u32) -> u64
    ensures value { result ≡ slice_index numbers.now d }
{
    let d = d as usize;
    if d < numbers.len() { numbers[d] } else { 0 }
}
