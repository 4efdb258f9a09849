//! The bits at a bookmark, and what changed since.
ghost use Rattle.std.specs.Prelude.{◌≡◌, ◌++◌, OnOk};
ghost use Rattle.stab_gates.specs.Letters.{◌⊕◌};
ghost use Rattle.stab_script.specs.Changes.{changes as changes_of};

use std::alloc::{AllocError, Global};

/// The bits at a bookmark.
#[derive(Drop)]
pub struct BookmarkedBits {
    pub records: Vec<bool>,
    pub detectors: Vec<bool>,
    pub observables: Vec<bool>,
}

impl BookmarkedBits {
    ghost use Rattle.std.specs.Prelude.{◌≡◌, IfOk};
    ghost use Rattle.stab_script.specs.Changes.{bookmark_shown, no_bookmark};

    /// A bookmark that nothing is compared with.
    pub fn none(alloc: Global) -> BookmarkedBits
        ensures value { bookmark_shown result ≡ no_bookmark }
    {
        BookmarkedBits {
            records: Vec::new(alloc),
            detectors: Vec::new(alloc),
            observables: Vec::new(alloc),
        }
    }

    /// A bookmark at these bits.
    pub fn of(
        alloc: Global,
        records: &[bool],
        detectors: &[bool],
        observables: &[bool],
    ) -> Result<BookmarkedBits, AllocError>
        ensures value { IfOk result (λ m. bookmark_shown m ≡ record { records = records.now; detectors = detectors.now; observables = observables.now }) }
    {
        Ok(BookmarkedBits {
            records: Vec::from_slice(alloc, records)?,
            detectors: Vec::from_slice(alloc, detectors)?,
            observables: Vec::from_slice(alloc, observables)?,
        })
    }
}

/// Whether two bits differ.
fn differ(first: bool, second: bool) -> bool
    ensures value { result ≡ first ⊕ second }
{
    first ^ second
}

/// Appends, for each position that both lists have, whether their bits differ there.
#[tactic(auto, using(crate::proofs::ChangeLaws::changes_more, crate::proofs::ChangeLaws::changes_all))]
pub fn push_changes(bits: &mut Vec<bool>, old: &[bool], new: &[bool]) -> Result<(), AllocError>
    ensures value { OnOk result (bits.new.items ≡ bits.old.items ++ changes_of old.now new.now) }
{
    let count = old.len().min(new.len());
    bits.reserve(count)?;
    'indices: for index in 0..count {
        bits.push(differ(old[index], new[index]))?;
    }
    Ok(())
}
