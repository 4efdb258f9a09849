ghost use Rattle.std.specs.Prelude.{◌≡◌, ◌&&◌};

use crate::gates::{before_gate, before_pair};
use crate::lookbacks::look_each;
use crate::parities::Parities;
use crate::products::{before_product, flipped_by_product};
use crate::rows::flipped;
use crate::steps::{before_collapse, before_controlled};
use stab_instructions::Factor;
use stab_items::Step;
use stab_pauli::Letter;
use stab_tableau::{Gate, PairGate};
use std::alloc::{AllocError, Global};
use std::collections::VecDeque;

/// Regions by numbers, at a point between two steps.
pub(crate) struct RegionRows {
    /// For each qubit the numbers of the regions that X flips there, and those that Z does.
    pub by_x: Vec<Parities>,
    pub by_z: Vec<Parities>,
    /// For each record in front of the point, the newest first, the numbers of the regions that have it.
    pub records: VecDeque<Parities>,
    /// One more than the number of the last record in front of the point; 0 if records have none.
    pub record_end: usize,
    /// One more than the number of the last detector in front of the point, and the number of the first observable.
    pub detector_end: usize,
    pub observable: usize,
}

// Written out, so that a proof sees the drop of a value as one call, and not one for each of its parts.
impl Drop for RegionRows {
    fn drop(self) {
        let RegionRows {
            by_x: _,
            by_z: _,
            records: _,
            record_end: _,
            detector_end: _,
            observable: _,
        } = self;
    }
}

/// Whether both are so.
fn both(first: bool, second: bool) -> bool
    ensures value { result ≡ (first && second) }
{
    first && second
}

impl RegionRows {
    ghost use Rattle.std.specs.Prelude.{◌≡◌, ◌≢◌, ℕ, ◌+◌, ◌<◌, ◌^◌, ◌&&◌, Bool, not, false, All, length, IfOk, OnOk};
    ghost use Rattle.stab_instructions.specs.Products.{names_twice};
    ghost use Rattle.stab_items.specs.Steps.{one, two, controlled, collapse, product, detector, observable, HasDistinctQubits};
    ghost use Rattle.stab_items.specs.StepValues.{step_shown};
    ghost use Rattle.stab_run.specs.ProgramStates.{StepFits};
    ghost use Rattle.stab_regions.specs.Regions.{Region, keeps_region};
    ghost use Rattle.stab_parities.specs.OddNumbers.{odd};
    ghost use Rattle.stab_regions.specs.inner.RowMoves.{ShowsNumber, HasNumbers, BeginsRecord, corrected_by, MovesRows};

    /// Moves to the point before a gate on a qubit.
    fn undo_gate(&mut self, alloc: Global, gate: Gate, qubit: usize) -> Result<(), AllocError>
        requires rows { length self.old.by_z.items ≡ length self.old.by_x.items }
        requires in_range { qubit < length self.old.by_x.items }
        ensures moved { OnOk result (MovesRows (length self.old.by_x.items) (one gate qubit) (one gate qubit) self.old self.new) }
    {
        before_gate(
            alloc,
            self.by_x.as_mut_slice(),
            self.by_z.as_mut_slice(),
            gate,
            qubit,
        )?;
        Ok(())
    }

    /// Moves to the point before a gate on two qubits.
    fn undo_pair(
        &mut self,
        alloc: Global,
        gate: PairGate,
        first: usize,
        second: usize,
    ) -> Result<(), AllocError>
        requires rows { length self.old.by_z.items ≡ length self.old.by_x.items }
        requires first_in_range { first < length self.old.by_x.items }
        requires second_in_range { second < length self.old.by_x.items }
        requires different { second ≢ first }
        ensures moved { OnOk result (MovesRows (length self.old.by_x.items) (two gate first second) (two gate first second) self.old self.new) }
    {
        before_pair(
            alloc,
            self.by_x.as_mut_slice(),
            self.by_z.as_mut_slice(),
            gate,
            first,
            second,
        )?;
        Ok(())
    }

    /// Moves to the point before a letter that a record controls.
    fn undo_controlled(
        &mut self,
        alloc: Global,
        letter: Letter,
        k: u32,
        qubit: usize,
    ) -> Result<(), AllocError>
        requires rows { length self.old.by_z.items ≡ length self.old.by_x.items }
        requires in_range { qubit < length self.old.by_x.items }
        ensures moved { OnOk result (MovesRows (length self.old.by_x.items) (controlled letter k qubit) (controlled letter k qubit) self.old self.new) }
    {
        before_controlled(
            alloc,
            self.by_x.as_slice(),
            self.by_z.as_slice(),
            &mut self.records,
            letter,
            k,
            qubit,
        )?;
        Ok(())
    }

    /// Asks for the newest record by its own number, if a step makes one and records have numbers.
    fn begin_record(&mut self, alloc: Global, recorded: bool) -> Result<(), AllocError>
        requires few { self.old.record_end < 2 ^ 32 }
        ensures begun { OnOk result (BeginsRecord recorded self.old self.new) }
    {
        if recorded && self.record_end > 0 {
            self.record_end -= 1;
            look_each(alloc, &mut self.records, &[1], self.record_end as u32)?;
        }
        Ok(())
    }

    /// Moves to the point before a measurement of a letter.
    fn undo_collapse(
        &mut self,
        alloc: Global,
        letter: Letter,
        qubit: usize,
        recorded: bool,
        reset: bool,
        corrects: bool,
    ) -> Result<(), AllocError>
        requires rows { length self.old.by_z.items ≡ length self.old.by_x.items }
        requires in_range { qubit < length self.old.by_x.items }
        requires few { self.old.record_end < 2 ^ 32 }
        ensures moved { OnOk result ((inverted : Bool) → MovesRows (length self.old.by_x.items) (collapse letter qubit recorded inverted reset) (collapse letter qubit recorded inverted (corrects && reset)) self.old self.new) }
    {
        self.begin_record(alloc, recorded)?;
        before_collapse(
            alloc,
            self.by_x.as_mut_slice(),
            self.by_z.as_mut_slice(),
            &mut self.records,
            letter,
            qubit,
            recorded,
            both(corrects, reset),
        )?;
        Ok(())
    }

    /// Moves to the point before a measured product.
    fn undo_product(&mut self, alloc: Global, factors: &[Factor]) -> Result<(), AllocError>
        requires rows { length self.old.by_z.items ≡ length self.old.by_x.items }
        requires in_range { All (λ f. f.qubit < length self.old.by_x.items) factors.now }
        requires distinct { names_twice factors.now ≡ false }
        requires few { self.old.record_end < 2 ^ 32 }
        ensures moved { OnOk result ((inverted : Bool) → MovesRows (length self.old.by_x.items) (product factors.now inverted) (product factors.now inverted) self.old self.new) }
    {
        self.begin_record(alloc, true)?;
        before_product(
            alloc,
            self.by_x.as_mut_slice(),
            self.by_z.as_mut_slice(),
            &mut self.records,
            factors,
        )?;
        Ok(())
    }

    /// Asks for the records of the last detector in front of the point.
    fn begin_detector(&mut self, alloc: Global, lookbacks: &[u32]) -> Result<(), AllocError>
        requires some { 0 < self.old.detector_end }
        requires few { self.old.detector_end < 2 ^ 32 }
        ensures moved { OnOk result (MovesRows (length self.old.by_x.items) (detector lookbacks.now) (detector lookbacks.now) self.old self.new) }
    {
        self.detector_end -= 1;
        look_each(
            alloc,
            &mut self.records,
            lookbacks,
            self.detector_end as u32,
        )?;
        Ok(())
    }

    /// Asks for these records by the number of an observable.
    fn ask(&mut self, alloc: Global, number: u32, lookbacks: &[u32]) -> Result<(), AllocError>
        requires few { self.old.observable + number < 2 ^ 32 }
        ensures moved { OnOk result (MovesRows (length self.old.by_x.items) (observable number lookbacks.now) (observable number lookbacks.now) self.old self.new) }
    {
        let own = self.observable as u32 + number;
        look_each(alloc, &mut self.records, lookbacks, own)?;
        Ok(())
    }

    /// Moves to the point before a step, with what resets correct by if the bit is 1.
    pub fn before(&mut self, alloc: Global, step: Step, corrects: bool) -> Result<(), AllocError>
        requires rows { length self.old.by_z.items ≡ length self.old.by_x.items }
        requires fits { StepFits (length self.old.by_x.items) (step_shown step) }
        requires distinct { HasDistinctQubits (step_shown step) }
        requires there { HasNumbers self.old (step_shown step) }
        ensures moved { OnOk result (MovesRows (length self.old.by_x.items) (step_shown step.entry) (corrected_by corrects (step_shown step.entry)) self.old self.new) }
    {
        match step {
            Step::One(gate, qubit) => self.undo_gate(alloc, gate, qubit),
            Step::Two(gate, first, second) => self.undo_pair(alloc, gate, first, second),
            Step::Controlled(letter, k, qubit) => self.undo_controlled(alloc, letter, k, qubit),
            Step::Collapse {
                letter,
                qubit,
                recorded,
                inverted: _,
                reset,
            } => self.undo_collapse(alloc, letter, qubit, recorded, reset, corrects),
            Step::Product {
                factors,
                inverted: _,
            } => self.undo_product(alloc, factors),
            Step::Detector(lookbacks) => self.begin_detector(alloc, lookbacks),
            Step::Observable(number, lookbacks) => self.ask(alloc, number, lookbacks),
        }
    }

    /// The numbers of the regions that a step does not keep, since what it measures flips them.
    pub fn flipped_by_step(&self, alloc: Global, step: Step) -> Result<Parities, AllocError>
        requires rows { length self.now.by_z.items ≡ length self.now.by_x.items }
        requires fits { StepFits (length self.now.by_x.items) (step_shown step) }
        requires distinct { HasDistinctQubits (step_shown step) }
        ensures odd { IfOk result (λ p. (i : ℕ) (r : Region) → length r.string.letters ≡ length self.now.by_x.items → ShowsNumber self.now i r → odd i p ≡ not (keeps_region (length self.now.by_x.items) (step_shown step.entry) r)) }
    {
        let (by_x, by_z) = (self.by_x.as_slice(), self.by_z.as_slice());
        match step {
            Step::Collapse { letter, qubit, .. } => flipped(alloc, by_x, by_z, letter, qubit),
            Step::Product { factors, .. } => flipped_by_product(alloc, by_x, by_z, factors),
            Step::One(_, _) => Ok(Parities::none(alloc)),
            Step::Two(_, _, _) => Ok(Parities::none(alloc)),
            Step::Controlled(_, _, _) => Ok(Parities::none(alloc)),
            Step::Detector(_) => Ok(Parities::none(alloc)),
            Step::Observable(_, _) => Ok(Parities::none(alloc)),
        }
    }
}
