ghost use Rattle.std.specs.Prelude.{◌≡◌, ◌-◌, ◌^◌, ◌<◌, ◌≤◌, None, All, length, map, take, drop, IfOk, IfErr, OnOk};
ghost use Rattle.stab_io.specs.declared.refusal.Refusal.TheVariants.{OutOfMemory};
ghost use Rattle.stab_items.specs.StepValues.{step_shown};
ghost use Rattle.stab_items.specs.Steps.{unroll, check_of, check_within};
ghost use Rattle.stab_items.specs.Views.{circuit_items};
ghost use Rattle.stab_run.specs.ProgramStates.{StepFits};
ghost use Rattle.stab_regions.specs.inner.EffectsAt.{numbers_in};
ghost use Rattle.stab_regions.specs.inner.Passes.{numbers_before};
ghost use Rattle.stab_regions.specs.inner.Sweeps.{IsSwept};

use crate::counts::Counts;
use crate::single_error_rows::SingleErrorRows;
use crate::site_rows::{add_all, keep_all};
use crate::sites::{Asked, sides_at};
use crate::walk::{Numbered, RegionWalk};
use stab_io::Refusal;
use stab_items::{Circuit, Cursor, Step as StepValue};
use std::alloc::{AllocError, Global};

// Steps are walked backwards in pieces of this many, each of which is unrolled forwards.
const PIECE: usize = 4096;

// More qubits, records, detectors or observables than any text of a circuit has.
const MOST: usize = 0x1fff_ffff;

/// What the pass backwards has found at its point.
#[derive(Drop)]
pub(crate) struct Sweep {
    pub walk: RegionWalk,
    /// The rows of the single errors after the point, the last single error's first.
    pub rows: SingleErrorRows,
    // The rows of the letters after the step that is passed.
    preserved: SingleErrorRows,
}

impl Sweep {
    ghost use Rattle.std.specs.Prelude.{◌≡◌, ◌<◌, ◌^◌, [], ◌∷◌, map, IfOk, OnOk};
    ghost use Rattle.stab_items.specs.StepValues.{step_shown};
    ghost use Rattle.stab_regions.specs.declared.sites.Asked.{Asked};
    ghost use Rattle.stab_regions.specs.inner.EffectsAt.{numbers_in};
    ghost use Rattle.stab_regions.specs.inner.Passes.{StandsAfter, GoesBefore};
    ghost use Rattle.stab_regions.specs.inner.Sweeps.{IsSwept};

    /// The pass after the last step.
    fn at_end(alloc: Global, numbered: Numbered, counts: Counts) -> Result<Sweep, AllocError>
        requires few { numbers_in counts < 2 ^ 32 }
        ensures numbered { IfOk result (λ s. s.walk.numbered ≡ numbered) }
        ensures swept { (asked : Asked) → IfOk result (λ s. IsSwept asked s counts []) }
    {
        Ok(Sweep {
            walk: RegionWalk::at_end(alloc, numbered, counts)?,
            rows: SingleErrorRows::new(alloc),
            preserved: SingleErrorRows::new(alloc),
        })
    }

    /// Goes on before a step.
    fn before(&mut self, alloc: Global, asked: Asked, step: StepValue) -> Result<(), AllocError>
        requires site { StandsAfter (IsSwept asked self.old) (step_shown step ∷ []) }
        ensures numbered { self.new.walk.numbered ≡ self.old.walk.numbered }
        ensures passes { OnOk result (GoesBefore (step_shown step.entry ∷ []) (IsSwept asked self.old) (IsSwept asked self.new)) }
    {
        let sides = sides_at(asked, step);
        keep_all(
            &mut self.preserved,
            self.walk.rows.by_x.as_slice(),
            self.walk.rows.by_z.as_slice(),
            sides.following,
            step,
        )?;
        self.walk.before(alloc, step)?;
        add_all(
            &mut self.rows,
            self.walk.rows.by_x.as_slice(),
            self.walk.rows.by_z.as_slice(),
            &self.preserved,
            sides,
            step,
        )?;
        Ok(())
    }

    /// Goes on before some steps.
    fn before_all(
        &mut self,
        alloc: Global,
        asked: Asked,
        steps: &[StepValue],
    ) -> Result<(), AllocError>
        requires site { StandsAfter (IsSwept asked self.old) (map step_shown steps.now) }
        ensures numbered { self.new.walk.numbered ≡ self.old.walk.numbered }
        ensures passes { OnOk result (GoesBefore (map step_shown steps.now) (IsSwept asked self.old) (IsSwept asked self.new)) }
    {
        let mut left = steps.len();
        'steps: while left > 0 {
            left -= 1;
            self.before(alloc, asked, steps[left])?;
        }
        Ok(())
    }
}

/// The steps of a circuit from one number on up to before another.
pub(crate) fn steps_between<'a>(
    alloc: Global,
    circuit: &'a Circuit,
    begin: usize,
    end: usize,
) -> Result<Vec<StepValue<'a>>, Refusal>
    requires checked { check_of (circuit_items circuit.now) ≡ None }
    requires order { begin ≤ end }
    requires in_range { end ≤ length (unroll (circuit_items circuit.now)) }
    ensures value { IfOk result (λ v. map step_shown v.items ≡ take (end - begin) (drop begin (unroll (circuit_items circuit.now)))) }
    ensures err { IfErr result (λ r. r ≡ OutOfMemory) }
{
    let mut steps = Vec::with_capacity(alloc, end - begin)?;
    let mut cursor = Cursor::at(alloc, circuit, begin)?;
    'steps: while steps.len() < end - begin {
        match cursor.next() {
            Some(step) => steps.push(step)?,
            None => return Ok(steps),
        }
    }
    Ok(steps)
}

/// That an `u32` numbers all records, detectors, observables and parts of letters.
fn check_few(counts: Counts) -> Result<(), Refusal>
    ensures few { OnOk result (numbers_in counts < 2 ^ 32) }
    ensures err { IfErr result (λ r. r ≡ OutOfMemory) }
{
    if counts.qubits <= MOST
        && counts.records <= MOST
        && counts.detectors <= MOST
        && counts.observables <= MOST
    {
        Ok(())
    } else {
        Err(Refusal::OutOfMemory)
    }
}

/// The pass over a whole circuit, backwards: the walk before its first step, and the rows of all
/// single errors that are asked for. Only a piece of its steps is unrolled at a time.
///
/// Refusal `OutOfMemory` alone.
pub fn sweep_back(
    alloc: Global,
    circuit: &Circuit,
    qubits: usize,
    numbered: Numbered,
    asked: Asked,
) -> Result<Sweep, Refusal>
    requires checked { check_within qubits (circuit_items circuit.now) ≡ None }
    ensures numbered { IfOk result (λ s. s.walk.numbered ≡ numbered) }
    ensures swept { IfOk result (λ s. IsSwept asked s (numbers_before qubits (circuit_items circuit.now)) (unroll (circuit_items circuit.now))) }
    ensures fits { OnOk result (All (StepFits qubits) (unroll (circuit_items circuit.now))) }
    ensures err { IfErr result (λ r. r ≡ OutOfMemory) }
{
    // This shows a proof that the qubits of each pair differ.
    let _ = circuit.items();
    let counts = Counts {
        qubits,
        records: circuit.records(),
        detectors: circuit.detectors(),
        observables: circuit.observables(),
    };
    check_few(counts)?;
    let mut sweep = Sweep::at_end(alloc, numbered, counts)?;
    let mut end = circuit.steps();
    'pieces: while end > 0 {
        let begin = end.saturating_sub(PIECE);
        let steps = steps_between(alloc, circuit, begin, end)?;
        sweep.before_all(alloc, asked, steps.as_slice())?;
        end = begin;
    }
    Ok(sweep)
}
