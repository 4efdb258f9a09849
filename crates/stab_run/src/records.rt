ghost use Rattle.std.specs.Prelude.{◌≡◌, ◌++◌, false, replicate, take, drop, IfOk, OnOk};
ghost use Rattle.stab_run.specs.Points.{with_additions};
ghost use Rattle.stab_run.specs.Records.{looked_up as looked_up_of, parity as parity_of};

use std::alloc::{AllocError, Global};

/// How long the lists of a run were at some step. There are as many outcomes as bits of randomness.
#[derive(Clone, Copy)]
pub struct Lengths {
    pub records: usize,
    pub free: usize,
    pub detectors: usize,
    pub additions: usize,
}

/// A bit that is added to an observable.
#[derive(Clone, Copy)]
pub struct Addition {
    pub observable: u32,
    pub bit: bool,
}

/// What steps have given so far: records, a flag and an outcome for each coin number, detectors,
/// and what was added to observables. The number of the next coin is the number of bits of randomness.
pub struct Outputs {
    pub records: Vec<bool>,
    pub free: Vec<bool>,
    pub outcomes: Vec<bool>,
    pub detectors: Vec<bool>,
    pub additions: Vec<Addition>,
}

// Written out, so that a proof sees the drop of a value as one call, and not one for each of its parts.
impl Drop for Outputs {
    fn drop(self) {
        let Outputs {
            records: _,
            free: _,
            outcomes: _,
            detectors: _,
            additions: _,
        } = self;
    }
}

impl Outputs {
    ghost use Rattle.std.specs.Prelude.{◌≡◌, IfOk, OnOk};
    ghost use Rattle.stab_run.specs.Points.{nothing, joined};
    ghost use Rattle.stab_run.specs.ProgramStates.{output_of};
    ghost use Rattle.stab_run.specs.Cuts.{lengths_of, front_of, rest_of};

    /// Nothing yet, which takes no memory.
    pub fn new(alloc: Global) -> Outputs
        ensures value { output_of result ≡ nothing }
    {
        Outputs {
            records: Vec::new(alloc),
            free: Vec::new(alloc),
            outcomes: Vec::new(alloc),
            detectors: Vec::new(alloc),
            additions: Vec::new(alloc),
        }
    }

    /// Nothing yet, with room for this many records, randomness and outcomes.
    pub fn with_capacity(alloc: Global, records: usize) -> Result<Outputs, AllocError>
        ensures value { IfOk result (λ o. output_of o ≡ nothing) }
    {
        Ok(Outputs {
            records: Vec::with_capacity(alloc, records)?,
            free: Vec::with_capacity(alloc, records)?,
            outcomes: Vec::with_capacity(alloc, records)?,
            detectors: Vec::new(alloc),
            additions: Vec::new(alloc),
        })
    }

    /// Its records, randomness, detectors and additions.
    pub fn into_parts(self) -> (Vec<bool>, Vec<bool>, Vec<bool>, Vec<Addition>)
        ensures records { result.0 ≡ self.records }
        ensures free { result.1 ≡ self.free }
        ensures detectors { result.2 ≡ self.detectors }
        ensures additions { result.3 ≡ self.additions }
    {
        let Outputs {
            records,
            free,
            outcomes: _,
            detectors,
            additions,
        } = self;
        (records, free, detectors, additions)
    }

    /// How long the lists are.
    pub fn lengths(&self) -> Lengths
        ensures value { result ≡ lengths_of (output_of self.now) }
    {
        Lengths {
            records: self.records.len(),
            free: self.free.len(),
            detectors: self.detectors.len(),
            additions: self.additions.len(),
        }
    }

    /// A copy of the lists up to these lengths.
    pub fn front(&self, alloc: Global, lengths: Lengths) -> Result<Outputs, AllocError>
        ensures value { IfOk result (λ o. output_of o ≡ front_of lengths (output_of self.now)) }
    {
        Ok(Outputs {
            records: front(alloc, self.records.as_slice(), lengths.records)?,
            free: front(alloc, self.free.as_slice(), lengths.free)?,
            outcomes: front(alloc, self.outcomes.as_slice(), lengths.free)?,
            detectors: front(alloc, self.detectors.as_slice(), lengths.detectors)?,
            additions: front(alloc, self.additions.as_slice(), lengths.additions)?,
        })
    }

    /// Appends what other lists have after these lengths.
    pub fn append_rest(&mut self, other: &Outputs, lengths: Lengths) -> Result<(), AllocError>
        ensures value { OnOk result (output_of self.new ≡ joined (output_of self.old) (rest_of lengths (output_of other.now))) }
    {
        append_rest(&mut self.records, other.records.as_slice(), lengths.records)?;
        append_rest(&mut self.free, other.free.as_slice(), lengths.free)?;
        append_rest(&mut self.outcomes, other.outcomes.as_slice(), lengths.free)?;
        append_rest(
            &mut self.detectors,
            other.detectors.as_slice(),
            lengths.detectors,
        )?;
        append_rest(
            &mut self.additions,
            other.additions.as_slice(),
            lengths.additions,
        )
    }
}

/// The first elements of a list, up to this many.
fn front<T: Copy>(alloc: Global, items: &[T], len: usize) -> Result<Vec<T>, AllocError>
    ensures value { IfOk result (λ v. v.items ≡ take len items.now) }
{
    let (front, _) = items.split_at(len.min(items.len()));
    Vec::from_slice(alloc, front)
}

/// Appends the elements of a list after this many.
fn append_rest<T: Copy>(to: &mut Vec<T>, items: &[T], len: usize) -> Result<(), AllocError>
    ensures value { OnOk result (to.new.items ≡ to.old.items ++ drop len items.now) }
{
    let (_, rest) = items.split_at(len.min(items.len()));
    to.extend_from_slice(rest)
}

/// The record `rec[-k]`, or 0 if there are fewer than k.
pub fn looked_up(records: &[bool], k: u32) -> bool
    ensures value { result ≡ looked_up_of records.now k }
{
    match records.len().checked_sub(k as usize) {
        Some(position) => records.get(position).copied().unwrap_or(false),
        None => false,
    }
}

/// The parity of the records that the numbers k of `rec[-k]` name.
pub fn parity(records: &[bool], lookbacks: &[u32]) -> bool
    ensures value { result ≡ parity_of records.now lookbacks.now }
{
    let mut parity = false;
    for k in lookbacks {
        parity ^= looked_up(records, *k);
    }
    parity
}

/// This many observables with additions made, all 0 before.
pub fn observables(
    alloc: Global,
    count: usize,
    additions: &[Addition],
) -> Result<Vec<bool>, AllocError>
    ensures value { IfOk result (λ v. v.items ≡ with_additions additions.now (replicate count false)) }
{
    let mut observables = vec![in alloc; false; count]?;
    for addition in additions {
        let position = addition.observable as usize;
        if position < observables.len() {
            observables[position] ^= addition.bit;
        }
    }
    Ok(observables)
}
