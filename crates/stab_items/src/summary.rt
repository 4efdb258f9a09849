ghost use Rattle.std.specs.Prelude.{◌≡◌, ◌≤◌, ◌*◌, min, length, ◌∷◌, [], All};
ghost use Rattle.stab_gates.specs.Limits.{most_qubits};
ghost use Rattle.stab_instructions.specs.Limits.{most_lookback};
ghost use Rattle.stab_instructions.specs.Lookbacks.{IsLookback};
ghost use Rattle.stab_instructions.specs.Targets.{pair_qubits};
ghost use Rattle.stab_items.specs.Steps.{past as past_of, target_qubits, factor_qubits, product_qubits, controlled_qubits, steps_cap};
ghost use Rattle.stab_items.specs.inner.Summaries.{greatest as greatest_of, looks_back, furthest as furthest_of, kind_summary_of, IsSummary};

use stab_instructions::{ControlledPair, Factor, Kind, MeasureTarget, Pair, Product, Qubit};
use stab_io::Refusal;

/// What checks need to know of items: how many steps they make, up to 1,048,577, how many
/// records and how many detectors, up to 16,777,215 each, how many records have to be before them, how
/// many qubits and observables they name, and how deep blocks are nested in them, up to 17.
#[derive(Clone, Copy)]
pub struct Summary {
    pub steps: u32,
    pub records: u32,
    pub detectors: u32,
    pub window: u32,
    pub qubits: u32,
    pub observables: u32,
    pub depth: u32,
}

/// The most steps of a circuit.
const MOST_STEPS: u32 = 1_048_576;

/// Where a count of steps stops: one more than the most.
pub const STEPS_CAP: u32 = 1_048_577;

/// Where a count of records or detectors stops: the furthest that a record is looked for.
const MOST_RECORDS: u32 = 16_777_215;

/// Where a count of nested blocks stops: one more than the most.
const MOST_DEPTH: u32 = 17;

impl Summary {
    ghost use Rattle.std.specs.Prelude.{◌≡◌};
    ghost use Rattle.stab_items.specs.inner.Summaries.{judged, followed_by, repeated as repeated_of, IsSummary};

    pub const NONE: Summary = Summary {
        steps: 0,
        records: 0,
        detectors: 0,
        window: 0,
        qubits: 0,
        observables: 0,
        depth: 0,
    };

    /// What refuses a whole circuit of this summary: a lookback, or else the number of steps.
    pub fn refusal(self) -> Option<Refusal>
        ensures value { result ≡ judged self }
    {
        if self.window > 0 {
            Some(Refusal::LookbackTooFar)
        } else if self.steps > MOST_STEPS {
            Some(Refusal::TooManySteps)
        } else {
            None
        }
    }

    /// The summary of these items with others after them.
    #[inline]
    pub fn then(self, next: Summary) -> Summary
        requires first { IsSummary self }
        requires second { IsSummary next }
        ensures value { result ≡ followed_by self next }
        ensures small { IsSummary result }
    {
        Summary {
            steps: (self.steps + next.steps).min(STEPS_CAP),
            records: (self.records + next.records).min(MOST_RECORDS),
            detectors: (self.detectors + next.detectors).min(MOST_RECORDS),
            window: self.window.max(next.window.saturating_sub(self.records)),
            qubits: self.qubits.max(next.qubits),
            observables: self.observables.max(next.observables),
            depth: self.depth.max(next.depth),
        }
    }

    /// The summary of this many rounds of these items.
    pub fn repeated(self, count: u64) -> Summary
        requires once { IsSummary self }
        ensures value { result ≡ repeated_of count self }
        ensures small { IsSummary result }
    {
        Summary {
            steps: capped_product(count, self.steps, STEPS_CAP),
            records: capped_product(count, self.records, MOST_RECORDS),
            detectors: capped_product(count, self.detectors, MOST_RECORDS),
            depth: (self.depth + 1).min(MOST_DEPTH),
            ..self
        }
    }
}

fn capped_product(count: u64, number: u32, cap: u32) -> u32
    ensures value { result ≡ min (count * number) cap }
{
    match count.checked_mul(u64::from(number)) {
        Some(product) => product.min(u64::from(cap)) as u32,
        None => cap,
    }
}

fn capped(number: usize, cap: u32) -> u32
    ensures value { result ≡ min number cap }
{
    number.min(cap as usize) as u32
}

#[tactic(auto, using(crate::proofs::SummaryLemmas::greatest_dropped))]
fn greatest(numbers: &[u32]) -> u32
    ensures value { result ≡ greatest_of numbers.now }
{
    let mut greatest = 0;
    for number in numbers {
        greatest = greatest.max(*number);
    }
    greatest
}

/// How many qubits are named, up to the greatest.
#[tactic(auto, using(crate::proofs::SummaryLemmas::past_dropped))]
fn past(qubits: &[Qubit]) -> u32
    ensures value { result ≡ past_of qubits.now }
    ensures small { result ≤ most_qubits }
{
    let mut past = 0;
    for qubit in qubits {
        past = past.max(qubit.number() as u32 + 1);
    }
    past
}

#[tactic(auto, using(crate::proofs::SummaryLemmas::past_pairs_dropped))]
fn past_pairs(pairs: &[Pair]) -> u32
    ensures value { result ≡ past_of (pair_qubits pairs.now) }
    ensures small { result ≤ most_qubits }
{
    let mut past = 0;
    for pair in pairs {
        let first = pair.first().number() as u32 + 1;
        past = past.max(first).max(pair.second().number() as u32 + 1);
    }
    past
}

#[tactic(auto, using(crate::proofs::SummaryLemmas::past_targets_dropped))]
fn past_targets(targets: &[MeasureTarget]) -> u32
    ensures value { result ≡ past_of (target_qubits targets.now) }
    ensures small { result ≤ most_qubits }
{
    let mut past = 0;
    for target in targets {
        past = past.max(target.qubit.number() as u32 + 1);
    }
    past
}

#[tactic(auto, using(crate::proofs::SummaryLemmas::past_factors_dropped))]
fn past_factors(factors: &[Factor]) -> u32
    ensures value { result ≡ past_of (factor_qubits factors.now) }
    ensures small { result ≤ most_qubits }
{
    let mut past = 0;
    for factor in factors {
        past = past.max(factor.qubit.number() as u32 + 1);
    }
    past
}

#[tactic(auto, using(crate::proofs::SummaryLemmas::past_products_dropped))]
fn past_products(products: &[Product]) -> u32
    ensures value { result ≡ past_of (product_qubits products.now) }
    ensures small { result ≤ most_qubits }
{
    let mut past = 0;
    for product in products {
        past = past.max(past_factors(product.as_slice()));
    }
    past
}

/// How many qubits a pair of a controlled gate names, up to the greatest.
fn past_pair(pair: &ControlledPair) -> u32
    ensures value { result ≡ past_of (controlled_qubits (pair.now ∷ [])) }
    ensures small { result ≤ most_qubits }
{
    match pair {
        ControlledPair::Qubits(pair) => {
            let first = pair.first().number() as u32 + 1;
            first.max(pair.second().number() as u32 + 1)
        }
        ControlledPair::Record(qubit, _) => qubit.number() as u32 + 1,
    }
}

/// How far back a pair of a controlled gate looks, or 0.
fn window_of_pair(pair: &ControlledPair) -> u32
    ensures value { result ≡ looks_back pair.now }
    ensures small { result ≤ most_lookback }
{
    match pair {
        ControlledPair::Qubits(_) => 0,
        ControlledPair::Record(_, lookback) => lookback.number(),
    }
}

/// How many qubits the pairs of a controlled gate name, up to the greatest, and how far back they look.
#[tactic(auto, using(crate::proofs::SummaryLemmas::past_controlled_dropped, crate::proofs::SummaryLemmas::furthest_dropped))]
fn past_and_window(pairs: &[ControlledPair]) -> (u32, u32)
    ensures past { result.0 ≡ past_of (controlled_qubits pairs.now) }
    ensures few { result.0 ≤ most_qubits }
    ensures window { result.1 ≡ furthest_of pairs.now }
    ensures near { result.1 ≤ most_lookback }
{
    let mut past = 0;
    let mut furthest = 0;
    for pair in pairs {
        past = past.max(past_pair(pair));
        furthest = furthest.max(window_of_pair(pair));
    }
    (past, furthest)
}

/// The summary of this many steps on this many qubits that make no records.
fn plain(steps: usize, qubits: u32) -> Summary
    requires few { qubits ≤ most_qubits }
    ensures value { result ≡ record { steps = min steps steps_cap; records = 0; detectors = 0; window = 0; qubits = qubits; observables = 0; depth = 0 } }
    ensures small { IsSummary result }
{
    Summary {
        steps: capped(steps, STEPS_CAP),
        qubits,
        ..Summary::NONE
    }
}

/// The summary of one step that looks back, and of this many detectors.
#[tactic(auto, using(crate::proofs::SummaryLemmas::greatest_small))]
fn look(records: &[u32], detectors: u32, observables: u32) -> Summary
    requires each { All IsLookback records.now }
    requires few { detectors ≤ most_lookback }
    ensures value { result ≡ record { steps = 1; records = 0; detectors = detectors; window = greatest_of records.now; qubits = 0; observables = observables; depth = 0 } }
    ensures small { IsSummary result }
{
    Summary {
        steps: 1,
        detectors,
        window: greatest(records),
        observables,
        ..Summary::NONE
    }
}

/// The summary of the pairs of a controlled gate.
fn controlled(pairs: &[ControlledPair]) -> Summary
    ensures value { result ≡ record { steps = min (length pairs.now) steps_cap; records = 0; detectors = 0; window = furthest_of pairs.now; qubits = past_of (controlled_qubits pairs.now); observables = 0; depth = 0 } }
    ensures small { IsSummary result }
{
    let (past, window) = past_and_window(pairs);
    Summary {
        window,
        ..plain(pairs.len(), past)
    }
}

/// The summary of this many steps on this many qubits that make a record each.
fn measurement(steps: usize, qubits: u32) -> Summary
    requires few { qubits ≤ most_qubits }
    ensures value { result ≡ record { steps = min steps steps_cap; records = min steps most_lookback; detectors = 0; window = 0; qubits = qubits; observables = 0; depth = 0 } }
    ensures small { IsSummary result }
{
    Summary {
        records: capped(steps, MOST_RECORDS),
        ..plain(steps, qubits)
    }
}

/// The summary of an instruction.
#[tactic(auto, using(crate::proofs::SummaryLemmas::gate_summary, crate::proofs::SummaryLemmas::swap_summary, crate::proofs::SummaryLemmas::product_summary, crate::proofs::SummaryLemmas::measure_summary, crate::proofs::SummaryLemmas::reset_summary, crate::proofs::SummaryLemmas::detector_summary, crate::proofs::SummaryLemmas::observable_summary))]
pub fn kind_summary(kind: &Kind) -> Summary
    ensures value { result ≡ kind_summary_of kind.now }
    ensures small { IsSummary result }
{
    match kind {
        Kind::Gate(_, qubits) => plain(qubits.as_slice().len(), past(qubits.as_slice())),
        Kind::Controlled(_, pairs) => controlled(pairs.as_slice()),
        Kind::Swap(pairs) => plain(pairs.as_slice().len(), past_pairs(pairs.as_slice())),
        Kind::Measure(_, targets) => {
            measurement(targets.as_slice().len(), past_targets(targets.as_slice()))
        }
        Kind::Reset(_, qubits) => plain(qubits.as_slice().len(), past(qubits.as_slice())),
        Kind::MeasureProducts(products) => {
            measurement(
                products.as_slice().len(),
                past_products(products.as_slice()),
            )
        }
        Kind::Detector(located) => look(located.records(), 1, 0),
        Kind::ObservableInclude(observable, records) => {
            look(records.as_slice(), 0, observable.number() + 1)
        }
        Kind::QubitCoords(located) => plain(0, past(located.targets().as_slice())),
        Kind::Tick | Kind::ShiftCoords(_) => Summary::NONE,
    }
}
