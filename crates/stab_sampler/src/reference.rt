ghost use Rattle.std.specs.Prelude.{◌≡◌, ◌≤◌, None, true, min, is_some, length, IfOk, IfSome, IfErr};
ghost use Rattle.stab_io.specs.declared.refusal.Refusal.TheVariants.{OutOfMemory};
ghost use Rattle.stab_io.specs.Refusals.{Refuses};
ghost use Rattle.stab_gates.specs.Limits.{most_qubits};
ghost use Rattle.stab_items.specs.Steps.{check_within};
ghost use Rattle.stab_items.specs.Views.{circuit_items};
ghost use Rattle.stab_run.specs.Records.{ones};
ghost use Rattle.stab_run.specs.Runs.{run_of};
ghost use Rattle.stab_frames.specs.Limits.{most_strings};
ghost use Rattle.stab_frames.specs.Pivots.{own_strings};
ghost use Rattle.stab_sampler.specs.RecordedPivots.{most_pivots as most_of};
ghost use Rattle.stab_run.specs.Coins.{zero_coins};
ghost use Rattle.stab_sampler.specs.References.{IsReference};

use crate::measure::RecordedPivots;
use stab_frames::Pivots;
use stab_io::{Fault, Refusal};
use stab_items::Circuit;
use stab_recording::{RunWithPivots, Shot, run_with_pivots};
use stab_run::ListCoins;
use std::alloc::Global;

/// The run of a circuit with all coins 0, and a pivot for each of its random outcomes that exchanges it for the other: by
/// these, shots with other coins are propagated without a tableau.
pub struct Reference {
    shot: Shot,
    strings: Pivots,
}

// Written out, so that a proof sees the drop of a value as one call, and not one for each of its parts.
impl Drop for Reference {
    fn drop(self) {
        let Reference {
            shot: _,
            strings: _,
        } = self;
    }
}

/// How many strings of n letters are recorded at once at most: those of 4 MiB, each counted as two bits a letter and 128 bytes.
pub fn most_pivots(n: usize) -> usize
    ensures value { result ≡ most_of n }
{
    4_194_304 / (n / 4 + 128)
}

impl Reference {
    /// The reference of a circuit on n qubits, at most 1,024; `None` if it would need more strings of its own than 4 MiB hold.
    /// There is one if no more outcomes are random, and where rounds have the strings of earlier ones again, for more. On its way it
    /// takes up to 16 MiB for them.
    ///
    /// Refused as `Circuit::check` refuses, else `OutOfMemory`, always with line 0.
    pub fn of(alloc: Global, circuit: &Circuit, n: usize) -> Result<Option<Reference>, Fault>
        requires in_range { n ≤ most_qubits }
        ensures reference { IfOk result (λ found. IfSome found (λ r. IsReference n (circuit_items circuit.now) r)) }
        ensures preserved { IfOk result (λ found. ones (run_of n zero_coins (circuit_items circuit.now)).free ≤ most_of n → is_some found ≡ true) }
        ensures few { IfOk result (λ found. IfSome found (λ r. own_strings r.strings ≤ most_of n)) }
        ensures refused { Refuses result (check_within n (circuit_items circuit.now)) }
    {
        circuit.check(n)?;
        Reference::of_checked(alloc, circuit, n).map_err(Fault::whole)
    }

    /// That of a circuit that nothing refuses.
    pub(crate) fn of_checked(
        alloc: Global,
        circuit: &Circuit,
        n: usize,
    ) -> Result<Option<Reference>, Refusal>
        requires in_range { n ≤ most_qubits }
        requires checked { check_within n (circuit_items circuit.now) ≡ None }
        ensures reference { IfOk result (λ found. IfSome found (λ r. IsReference n (circuit_items circuit.now) r)) }
        ensures preserved { IfOk result (λ found. ones (run_of n zero_coins (circuit_items circuit.now)).free ≤ most_of n → is_some found ≡ true) }
        ensures few { IfOk result (λ found. IfSome found (λ r. own_strings r.strings ≤ most_of n)) }
        ensures err { IfErr result (λ r. r ≡ OutOfMemory) }
    {
        let run = Reference::run(alloc, circuit, n)?;
        if run.strings.own() > most_pivots(n) {
            return Ok(None);
        }
        Ok(Some(run))
    }

    /// Runs a circuit that nothing refuses with all coins 0, and keeps the pivots of its random outcomes, as far as a run may
    /// keep any. Rounds that come again are repeated.
    fn run(alloc: Global, circuit: &Circuit, n: usize) -> Result<Reference, Refusal>
        requires in_range { n ≤ most_qubits }
        requires checked { check_within n (circuit_items circuit.now) ≡ None }
        ensures most { IfOk result (λ r. most_strings n ≤ r.strings.most) }
        ensures qubits { IfOk result (λ r. r.strings.qubits ≡ n) }
        ensures number { IfOk result (λ r. length r.strings.strings ≡ min (ones (run_of n zero_coins (circuit_items circuit.now)).free) r.strings.most) }
        ensures reference { IfOk result (λ r. length r.strings.strings ≡ ones (run_of n zero_coins (circuit_items circuit.now)).free → IsReference n (circuit_items circuit.now) r) }
        ensures err { IfErr result (λ r. r ≡ OutOfMemory) }
    {
        let mut coins = ListCoins::new(&[]);
        let recorded = run_with_pivots(alloc, circuit, n, &mut coins)?;
        let RunWithPivots { shot, strings } = recorded;
        Ok(Reference { shot, strings })
    }

    /// The run with all coins 0.
    pub(crate) fn shot(&self) -> &Shot
        ensures value { result.now ≡ self.now.shot }
    {
        &self.shot
    }

    /// What is recorded of its outcomes.
    pub(crate) fn recorded_pivots(&self) -> RecordedPivots<'_>
        ensures strings { result.strings.now ≡ self.now.strings }
        ensures free { result.free.now ≡ self.now.shot.free.items }
    {
        RecordedPivots {
            strings: &self.strings,
            free: self.shot.free.as_slice(),
        }
    }
}
