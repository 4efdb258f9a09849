mod edits;
mod gaps;
mod items_at;
mod repeats;
mod splits;
mod step_items;
pub(crate) mod stretches;

use crate::item::Item;
use crate::summary::{STEPS_CAP, Summary};
pub use repeats::Repeat;
use stab_io::{Fault, Refusal};
use std::alloc::Global;
use std::marker::Model;
pub use step_items::{StepItem, StepItems};
use stretches::{Stretch, stretches_of, whole_summary};

/// A list of items. Contracts see them one by one.
///
/// What is known of them all is stored, so that no call walks over them for it.
pub struct Circuit {
    items: Vec<Item>,
    /// The summaries of parts of the items, by which a step is found and an edit is judged.
    stretches: Vec<Stretch>,
    total: Summary,
}

// Written out, so that a proof sees the drop of a value as one call, and not one for each of its parts.
impl Drop for Circuit {
    fn drop(self) {
        let Circuit {
            items: _,
            stretches: _,
            total: _,
        } = self;
    }
}

impl Model for Circuit {
    ghost use Rattle.std.specs.Prelude.{◌≡◌, ◌≤◌, List};
    ghost use Rattle.stab_items.specs.Items.{OneItem, listed, AreGood};
    ghost use Rattle.stab_items.specs.inner.StoredItems.{entries_code};

    ghost Value = { List OneItem };

    ghost coded = { entries_code };

    ghost use Rattle.stab_items.specs.inner.Summaries.{summary_of, IsSummary};
    ghost use Rattle.stab_items.specs.inner.Stretches.{AreStretches};

    ghost view = { λ c. c.items.items };

    ghost invariant = { λ c. (c.total ≡ summary_of (listed c.items.items)) × IsSummary c.total × (c.total.depth ≤ 16) × AreGood (listed c.items.items) × AreStretches c.stretches.items c.items.items };
}

impl Circuit {
    ghost use Rattle.std.specs.Prelude.{◌≡◌, ◌≤◌, [], All, min, length, IfOk};
    ghost use Rattle.stab_items.specs.Items.{listed, depth, AreGood};
    ghost use Rattle.stab_gates.specs.Limits.{most_qubits};
    ghost use Rattle.stab_items.specs.Steps.{unroll, records_of, detectors_of, qubits_of, observables_of, most_steps, steps_cap, check_of, check_within, Checks, HasDistinctQubits};
    ghost use Rattle.stab_io.specs.Refusals.{Refuses};
    ghost use Rattle.stab_items.specs.Views.{circuit_items};
    ghost use Rattle.stab_items.specs.inner.Stretches.{AreStretches};

    /// The empty circuit, which takes no memory.
    pub fn new(alloc: Global) -> Circuit
        ensures empty { result ≡ [] }
    {
        Circuit {
            items: Vec::new(alloc),
            stretches: Vec::new(alloc),
            total: Summary::NONE,
        }
    }

    /// The circuit of these items, if nothing refuses it as a whole.
    ///
    /// Refused as `check` refuses on any number of qubits, else `OutOfMemory`, always with line 0.
    #[tactic(auto, using(crate::proofs::SummaryLemmas::check_judged))]
    pub fn of_items(alloc: Global, items: Vec<Item>) -> Result<Circuit, Fault>
        requires shallow { depth (listed items.items) ≤ 16 }
        ensures value { IfOk result (λ c. c ≡ items.items) }
        ensures refused { Refuses result (check_of (listed items.items)) }
    {
        let stretches = stretches_of(alloc, items.as_slice());
        let total = whole_summary(&stretches, items.as_slice());
        if let Some(refusal) = total.refusal() {
            return Err(Fault::whole(refusal));
        }
        Ok(Circuit {
            items,
            stretches: stretches?,
            total,
        })
    }

    /// The items of the outermost list. It takes no memory.
    #[tactic(auto, using(crate::proofs::LineDistinctLemmas::good_distinct))]
    pub fn items(&self) -> &[Item]
        ensures value { result.now ≡ self.now }
        ensures shallow { depth (circuit_items self.now) ≤ 16 }
        ensures good { AreGood (circuit_items self.now) }
        ensures distinct { All HasDistinctQubits (unroll (circuit_items self.now)) }
    {
        let _ = &self.total;
        self.items.as_slice()
    }

    /// One more than the greatest qubit named anywhere, by QUBIT_COORDS too, or 0. It is at most
    /// 1,024.
    pub fn qubits(&self) -> usize
        ensures value { result ≡ qubits_of (circuit_items self.now) }
        ensures in_range { result ≤ most_qubits }
    {
        self.total.qubits as usize
    }

    /// One more than the greatest observable named anywhere, or 0.
    pub fn observables(&self) -> usize
        ensures value { result ≡ observables_of (circuit_items self.now) }
    {
        self.total.observables as usize
    }

    /// The number of unrolled steps, or 1,048,577 if there are more.
    pub fn steps(&self) -> usize
        ensures value { result ≡ min (length (unroll (circuit_items self.now))) steps_cap }
    {
        self.total.steps as usize
    }

    /// The number of records, or 1,048,577 if there are more.
    pub fn records(&self) -> usize
        ensures value { result ≡ min (records_of (unroll (circuit_items self.now))) steps_cap }
    {
        self.total.records.min(STEPS_CAP) as usize
    }

    /// The number of detectors, or 1,048,577 if there are more.
    pub fn detectors(&self) -> usize
        ensures value { result ≡ min (detectors_of (unroll (circuit_items self.now))) steps_cap }
    {
        self.total.detectors.min(STEPS_CAP) as usize
    }

    /// Whether nothing refuses the circuit on n qubits: a qubit that isn't below n, then a
    /// lookback past the first record, then too many steps. The fault's line is 0.
    #[tactic(auto, using(crate::proofs::SummaryLemmas::check_judged))]
    pub fn check(&self, n: usize) -> Result<(), Fault>
        ensures value { Checks result (check_within n (circuit_items self.now)) }
    {
        if self.total.qubits as usize > n {
            return Err(Fault::whole(Refusal::QubitOutOfRange));
        }
        match self.total.refusal() {
            Some(refusal) => Err(Fault::whole(refusal)),
            None => Ok(()),
        }
    }
}
