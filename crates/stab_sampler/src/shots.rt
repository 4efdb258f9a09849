ghost use Rattle.std.specs.Prelude.{◌≡◌, ℕ, ◌<◌, [], length, replicate, IfOk};
ghost use Rattle.stab_gates.specs.declared.letter.Letter.TheVariants;
ghost use Rattle.stab_run.specs.Points.{nothing};
ghost use Rattle.stab_sampler.specs.Lanes.{lane_letters, lane_output};

use crate::frames::Frames;
use crate::lanes::Lanes;
use crate::word::Word;
use std::alloc::{AllocError, Global};
use std::mem;

/// What this many shots give, one in each lane: each list has a word for each bit that a shot gives.
pub struct Shots<W> {
    /// The records.
    pub records: Vec<W>,
    /// For each coin number whether the coin decided, which is the same in all shots.
    pub free: Vec<bool>,
    /// The detectors.
    pub detectors: Vec<W>,
    /// The observables, in the order of their numbers.
    pub observables: Vec<W>,
}

// Written out, so that a proof sees the drop of a value as one call, and not one for each of its parts.
impl<W: Drop> Drop for Shots<W> {
    fn drop(self) {
        let Shots {
            records: _,
            free: _,
            detectors: _,
            observables: _,
        } = self;
    }
}

impl<W: Word> Shots<W> {
    /// Nothing yet, with room for this many records.
    pub fn with_room(alloc: Global, records: usize) -> Result<Shots<W>, AllocError>
        ensures records { IfOk result (λ s. s.records.items ≡ []) }
        ensures free { IfOk result (λ s. s.free.items ≡ []) }
        ensures detectors { IfOk result (λ s. s.detectors.items ≡ []) }
        ensures observables { IfOk result (λ s. s.observables.items ≡ []) }
    {
        Ok(Shots {
            records: Vec::with_capacity(alloc, records)?,
            free: Vec::with_capacity(alloc, records)?,
            detectors: Vec::new(alloc),
            observables: Vec::new(alloc),
        })
    }

    /// Lanes that are all as a run on n qubits and have flipped nothing. They take the memory of these lists, which are empty then.
    pub(crate) fn lanes(&mut self, alloc: Global, n: usize) -> Result<Lanes<W>, AllocError>
        ensures qubits { IfOk result (λ s. length s.frames.letters.items ≡ n) }
        ensures letters { IfOk result (λ s. (l : ℕ) → l < W.lanes → lane_letters W.at l s.frames.letters.items ≡ replicate n TheVariants.I) }
        ensures free { IfOk result (λ s. s.free.items ≡ []) }
        ensures number { IfOk result (λ s. s.number ≡ 0) }
        ensures output { IfOk result (λ s. (l : ℕ) → l < W.lanes → lane_output W.at l s ≡ nothing) }
    {
        let mut records = mem::replace(&mut self.records, Vec::new(alloc));
        let mut free = mem::replace(&mut self.free, Vec::new(alloc));
        let mut detectors = mem::replace(&mut self.detectors, Vec::new(alloc));
        records.clear();
        free.clear();
        detectors.clear();
        Ok(Lanes {
            frames: Frames::blank(alloc, n)?,
            records,
            free,
            detectors,
            sums: Vec::new(alloc),
            number: 0,
        })
    }
}
