ghost use Rattle.std.specs.Prelude.{◌≡◌, ℕ, ◌<◌, false, ◌||◌, [], List, length, replicate, slice_index_or, IfOk};
ghost use Rattle.std.specs.List.{list_any};
ghost use Rattle.stab_parities.specs.OddNumbers.{odd};

use crate::counts::Counts;
use crate::effects::{before_effects, effects_at_end};
use crate::marks::{invert, mark};
use crate::parities::Parities;
use crate::region_rows::RegionRows;
use stab_items::Step;
use std::alloc::{AllocError, Global};
use std::collections::VecDeque;

/// What has numbers in a walk.
#[derive(Clone, Copy)]
pub(crate) enum Numbered {
    /// A circuit's detectors, and then its observables.
    Parities,
    /// Its records, detectors and observables, and the parts of the letters on each qubit at its end.
    Effects,
}

/// A walk backwards through a circuit's steps: the regions of what has numbers, at a point between two of them.
pub(crate) struct RegionWalk {
    pub rows: RegionRows,
    numbered: Numbered,
    /// Which parities depend on a coin of the steps after the point.
    random: Vec<bool>,
}

// Written out, so that a proof sees the drop of a value as one call, and not one for each of its parts.
impl Drop for RegionWalk {
    fn drop(self) {
        let RegionWalk {
            rows: _,
            numbered: _,
            random: _,
        } = self;
    }
}

/// This many rows of no parities.
fn empty_rows(alloc: Global, count: usize) -> Result<Vec<Parities>, AllocError>
    ensures value { IfOk result (λ rows. rows.items ≡ replicate count []) }
{
    let mut rows = Vec::with_capacity(alloc, count)?;
    'rows: while rows.len() < count {
        rows.push(Parities::none(alloc))?;
    }
    Ok(rows)
}

/// Marks the parities in any of these rows.
fn mark_all(bits: &mut [bool], rows: &[Parities])
    ensures same_length { length bits.new ≡ length bits.old }
    ensures value { (i : ℕ) → i < length bits.old → slice_index_or bits.new i false ≡ (list_any (odd i) rows.now || slice_index_or bits.old i false) }
{
    for parities in rows {
        mark(bits, parities.numbers());
    }
}

impl RegionWalk {
    ghost use Rattle.std.specs.Prelude.{◌≡◌, ◌+◌, ◌<◌, ◌^◌, [], ◌∷◌, length, IfOk, OnOk};
    ghost use Rattle.stab_items.specs.Steps.{HasDistinctQubits};
    ghost use Rattle.stab_items.specs.StepValues.{step_shown};
    ghost use Rattle.stab_run.specs.ProgramStates.{StepFits};
    ghost use Rattle.stab_regions.specs.declared.walk.Numbered.TheVariants as numbers;
    ghost use Rattle.stab_regions.specs.inner.EffectsAt.{numbers_in, IsEffectsAt};
    ghost use Rattle.stab_regions.specs.inner.Passes.{StandsAfter, GoesBefore};
    ghost use Rattle.stab_regions.specs.inner.RegionsAt.{IsRegionsAt, AreRowsSized, HasParity, MovesTo, DetermineDeterministic};
    ghost use Rattle.stab_regions.specs.inner.Sweeps.{IsWalkAt};

    /// The regions of parities after the last step.
    fn parities_at_end(alloc: Global, counts: Counts) -> Result<RegionWalk, AllocError>
        requires few { numbers_in counts < 2 ^ 32 }
        ensures numbered { IfOk result (λ w. w.numbered ≡ numbers.Parities) }
        ensures state { IfOk result (IsRegionsAt counts.qubits counts.detectors counts.observables []) }
    {
        Ok(RegionWalk {
            rows: RegionRows {
                by_x: empty_rows(alloc, counts.qubits)?,
                by_z: empty_rows(alloc, counts.qubits)?,
                records: VecDeque::new(alloc),
                record_end: 0,
                detector_end: counts.detectors,
                observable: counts.detectors,
            },
            numbered: Numbered::Parities,
            random: vec![in alloc; false; counts.detectors + counts.observables]?,
        })
    }

    /// What letters after the last step flip and leave.
    fn effects_at_end(alloc: Global, counts: Counts) -> Result<RegionWalk, AllocError>
        requires few { numbers_in counts < 2 ^ 32 }
        ensures numbered { IfOk result (λ w. w.numbered ≡ numbers.Effects) }
        ensures state { IfOk result (λ w. IsEffectsAt counts [] w.rows) }
    {
        Ok(RegionWalk {
            rows: effects_at_end(alloc, counts)?,
            numbered: Numbered::Effects,
            random: Vec::new(alloc),
        })
    }

    /// The walk after the last step.
    pub(crate) fn at_end(
        alloc: Global,
        numbered: Numbered,
        counts: Counts,
    ) -> Result<RegionWalk, AllocError>
        requires few { numbers_in counts < 2 ^ 32 }
        ensures numbered { IfOk result (λ w. w.numbered ≡ numbered) }
        ensures state { IfOk result (λ w. IsWalkAt w counts []) }
    {
        match numbered {
            Numbered::Parities => RegionWalk::parities_at_end(alloc, counts),
            Numbered::Effects => RegionWalk::effects_at_end(alloc, counts),
        }
    }

    /// Moves the regions of parities to the point before a step, and marks those that it does not keep.
    fn before_parities(&mut self, alloc: Global, step: Step) -> Result<(), AllocError>
        requires sized { AreRowsSized self.old }
        requires fits { StepFits (length self.old.rows.by_x.items) (step_shown step) }
        requires distinct { HasDistinctQubits (step_shown step) }
        requires there { HasParity self.old (step_shown step) }
        ensures numbered { self.new.numbered ≡ self.old.numbered }
        ensures state { OnOk result (MovesTo (step_shown step.entry) self.old self.new) }
    {
        let flipped = self.rows.flipped_by_step(alloc, step)?;
        mark(self.random.as_mut_slice(), flipped.numbers());
        self.rows.before(alloc, step, true)?;
        Ok(())
    }

    /// Moves to the point before a step.
    pub(crate) fn before(&mut self, alloc: Global, step: Step) -> Result<(), AllocError>
        requires site { StandsAfter (IsWalkAt self.old) (step_shown step ∷ []) }
        ensures numbered { self.new.numbered ≡ self.old.numbered }
        ensures passes { OnOk result (GoesBefore (step_shown step.entry ∷ []) (IsWalkAt self.old) (IsWalkAt self.new)) }
    {
        match self.numbered {
            Numbered::Parities => self.before_parities(alloc, step),
            Numbered::Effects => before_effects(&mut self.rows, alloc, step),
        }
    }

    /// For each parity whether it is deterministic, if the point is the circuit's start: the steps after
    /// keep it, and it has no letter X or Y.
    pub(crate) fn deterministic(self) -> Vec<bool>
        ensures value { DetermineDeterministic self result.items }
    {
        let RegionWalk {
            rows,
            numbered: _,
            mut random,
        } = self;
        mark_all(random.as_mut_slice(), rows.by_z.as_slice());
        invert(random.as_mut_slice());
        random
    }
}
