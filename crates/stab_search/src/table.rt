ghost use Rattle.std.specs.Prelude.{◌≡◌};

use crate::row::Row;
use stab_io::Refusal;
use std::alloc::Global;
use std::marker::Model;

/// A table of errors: a row for each, with the numbers of the detectors and observables that it flips.
///
/// Numbers below the number of detectors are detectors, and the others are observables.
pub struct Table {
    alloc: Global,
    detectors: usize,
    rows: Vec<Row>,
}

// Written out, so that a proof sees the drop of a value as one call, and not one for each of its parts.
impl Drop for Table {
    fn drop(self) {
        let Table {
            alloc: _,
            detectors: _,
            rows: _,
        } = self;
    }
}

impl Model for Table {
    ghost use Rattle.stab_search.specs.Tables.{ErrorTable};

    ghost Value = { ErrorTable };

    ghost view = { λ t. record { detectors = t.detectors; rows = t.rows.items } };
}

impl Table {
    ghost use Rattle.std.specs.Prelude.{◌≡◌, ◌<◌, ◌==◌, [], ◌∷◌, ◌++◌, length, OnOk, OnErr, IfErr};
    ghost use Rattle.stab_io.specs.declared.refusal.Refusal.TheVariants.{OutOfMemory};
    ghost use Rattle.stab_parities.specs.Ascending.{IsAscending};
    ghost use Rattle.stab_parities.specs.OddNumbers.{row};

    /// A table without errors. Its observables are numbered from `detectors` on. It takes no memory.
    pub fn new(alloc: Global, detectors: usize) -> Table
        ensures empty { result ≡ record { detectors = detectors; rows = [] } }
    {
        Table {
            alloc,
            detectors,
            rows: Vec::new(alloc),
        }
    }

    /// Adds an error at the end, which flips these numbers, in ascending order.
    ///
    /// The only refusal is `OutOfMemory`, which leaves the table as it was.
    pub fn push(&mut self, numbers: &[u32]) -> Result<(), Refusal>
        requires ascending { IsAscending numbers.now }
        ensures ok { OnOk result (self.new ≡ record self.old { rows = self.old.rows ++ numbers.now ∷ [] }) }
        ensures err { OnErr result (self.new ≡ self.old) }
        ensures refusal { IfErr result (λ e. e ≡ OutOfMemory) }
    {
        let row = Row::copied(self.alloc, numbers)?;
        self.rows.push(row)?;
        Ok(())
    }

    /// The number of errors.
    pub fn len(&self) -> usize
        ensures value { result ≡ length self.now.rows }
    {
        self.rows.len()
    }

    /// Whether there is no error.
    pub fn is_empty(&self) -> bool
        ensures value { result ≡ (length self.now.rows == 0) }
    {
        self.rows.is_empty()
    }

    /// The number of detectors.
    pub fn detectors(&self) -> usize
        ensures value { result ≡ self.now.detectors }
    {
        self.detectors
    }

    /// The rows.
    pub(crate) fn rows(&self) -> &[Row]
        ensures value { result.now ≡ self.now.rows }
    {
        self.rows.as_slice()
    }

    /// What error r flips.
    pub fn row(&self, r: usize) -> &[u32]
        requires inside { r < length self.now.rows }
        ensures value { result.now ≡ row self.now.rows r }
        ensures ascending { IsAscending result.now }
    {
        self.rows[r].numbers()
    }
}
