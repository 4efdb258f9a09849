ghost use Rattle.std.specs.Prelude.{◌≡◌, ◌<◌, ◌≤◌, ◌^◌};
ghost use Rattle.stab_gates.specs.Limits.{most_qubits};
ghost use Rattle.stab_instructions.specs.Limits.{most_observables};

use crate::sequence::Sequence;
use std::alloc::{AllocError, Global};
use std::marker::Model;

/// A qubit's number, which is below 1,024.
#[derive(Clone, Copy, Debug, PartialEq, Eq)]
pub struct Qubit {
    number: u16,
}

impl Model for Qubit {
    ghost use Rattle.std.specs.Prelude.{ℕ, ◌<◌};
    ghost use Rattle.stab_gates.specs.Limits.{most_qubits};

    ghost Value = { ℕ };

    ghost view = { λ q. q.number };

    ghost invariant = { λ q. q.number < most_qubits };

    ghost inverse = { λ n. record { number = n } };
}

impl Qubit {
    /// The qubit of this number.
    pub fn new(number: u16) -> Qubit
        requires small { number < most_qubits }
        ensures value { result ≡ number }
    {
        Qubit { number }
    }

    /// The number.
    pub fn number(self) -> usize
        ensures value { result ≡ self }
        ensures small { result < most_qubits }
    {
        usize::from(self.number)
    }
}

/// Two different qubits; of a controlled gate the first is the control.
#[derive(Clone, Copy, Debug, PartialEq, Eq)]
pub struct Pair {
    first: Qubit,
    second: Qubit,
}

impl Model for Pair {
    ghost use Rattle.std.specs.Prelude.{ℕ, ◌≢◌};

    ghost Value = { ℕ × ℕ };

    ghost view = { λ p. (p.first, p.second) };

    ghost invariant = { λ p. p.first ≢ p.second };

    ghost inverse = { λ p. record { first = p.0; second = p.1 } };
}

impl Pair {
    ghost use Rattle.std.specs.Prelude.{◌≡◌, ◌≢◌};

    /// The pair of these qubits.
    pub fn new(first: Qubit, second: Qubit) -> Pair
        requires different { first ≢ second }
        ensures value { result ≡ (first, second) }
    {
        Pair { first, second }
    }

    /// The first qubit.
    pub fn first(self) -> Qubit
        ensures value { result ≡ self.0 }
        ensures different { self.0 ≢ self.1 }
    {
        self.first
    }

    /// The second qubit.
    pub fn second(self) -> Qubit
        ensures value { result ≡ self.1 }
        ensures different { self.0 ≢ self.1 }
    {
        self.second
    }
}

/// An observable's number, which is below 4,096.
#[derive(Clone, Copy, Debug, PartialEq, Eq)]
pub struct ObservableNumber {
    number: u16,
}

impl Model for ObservableNumber {
    ghost use Rattle.std.specs.Prelude.{ℕ, ◌<◌};
    ghost use Rattle.stab_instructions.specs.Limits.{most_observables};

    ghost Value = { ℕ };

    ghost view = { λ o. o.number };

    ghost invariant = { λ o. o.number < most_observables };

    ghost inverse = { λ n. record { number = n } };
}

impl ObservableNumber {
    /// The observable of this number.
    pub fn new(number: u16) -> ObservableNumber
        requires small { number < most_observables }
        ensures value { result ≡ number }
    {
        ObservableNumber { number }
    }

    /// The number.
    pub fn number(self) -> u32
        ensures value { result ≡ self }
        ensures small { result < most_observables }
    {
        u32::from(self.number)
    }
}

/// How far back a record is looked for: the number k of `rec[-k]`, from 1 to 16,777,215.
#[derive(Clone, Copy, Debug, PartialEq, Eq)]
pub struct Lookback {
    records: u32,
}

impl Model for Lookback {
    ghost use Rattle.std.specs.Prelude.{ℕ};
    ghost use Rattle.stab_instructions.specs.Lookbacks.{IsLookback};

    ghost Value = { ℕ };

    ghost view = { λ l. l.records };

    ghost invariant = { λ l. IsLookback l.records };

    ghost inverse = { λ n. record { records = n } };
}

impl Lookback {
    ghost use Rattle.std.specs.Prelude.{◌≡◌};
    ghost use Rattle.stab_instructions.specs.Lookbacks.{IsLookback};

    /// The record that is so far back.
    pub fn new(number: u32) -> Lookback
        requires in_range { IsLookback number }
        ensures value { result ≡ number }
    {
        Lookback { records: number }
    }

    /// The number k.
    pub fn number(self) -> u32
        ensures value { result ≡ self }
        ensures in_range { IsLookback result }
    {
        self.records
    }
}

/// How far back records are looked for: numbers k of `rec[-k]`, from 1 to 16,777,215 each.
pub struct Lookbacks {
    numbers: Sequence<u32>,
}

// Written out, so that a proof sees the drop of a value as one call, and not one for each of its parts.
impl Drop for Lookbacks {
    fn drop(self) {
        let Lookbacks { numbers: _ } = self;
    }
}

impl Model for Lookbacks {
    ghost use Rattle.std.specs.Prelude.{ℕ, List, All};
    ghost use Rattle.stab_instructions.specs.Lookbacks.{IsLookback};

    ghost Value = { List ℕ };

    ghost view = { λ l. l.numbers };

    ghost invariant = { λ l. All IsLookback l.numbers };
}

impl Lookbacks {
    ghost use Rattle.std.specs.Prelude.{◌≡◌, All, IfOk};
    ghost use Rattle.stab_instructions.specs.Lookbacks.{IsLookback};

    /// The records that are so far back.
    pub fn new(numbers: Sequence<u32>) -> Lookbacks
        requires each { All IsLookback numbers }
        ensures value { result ≡ numbers }
    {
        Lookbacks { numbers }
    }

    /// The numbers k.
    pub fn as_slice(&self) -> &[u32]
        ensures value { result.now ≡ self.now }
        ensures each { All IsLookback result.now }
    {
        self.numbers.as_slice()
    }

    /// A copy.
    pub fn copy(&self, alloc: Global) -> Result<Lookbacks, AllocError>
        ensures ok { IfOk result (λ l. l ≡ self.now) }
    {
        let numbers = self.numbers.copy(alloc)?;
        Ok(Lookbacks { numbers })
    }
}

/// How many rounds a block runs: at least one, and a number of at most 18 digits.
#[derive(Clone, Copy, Debug, PartialEq, Eq)]
pub struct Count {
    number: u64,
}

impl Model for Count {
    ghost use Rattle.std.specs.Prelude.{ℕ, ◌<◌, ◌^◌};

    ghost Value = { ℕ };

    ghost view = { λ c. c.number };

    ghost invariant = { λ c. (0 < c.number) × (c.number < 10 ^ 18) };

    ghost inverse = { λ n. record { number = n } };
}

impl Count {
    /// The count of this number.
    pub fn new(number: u64) -> Count
        requires some { 0 < number }
        requires few { number < 10 ^ 18 }
        ensures value { result ≡ number }
    {
        Count { number }
    }

    /// The number.
    pub fn number(self) -> u64
        ensures value { result ≡ self }
        ensures some { 0 < result }
        ensures few { result < 10 ^ 18 }
    {
        self.number
    }
}

/// A qubit that is measured, and whether its recorded bit is inverted.
#[derive(Clone, Copy, Debug, PartialEq, Eq)]
pub struct MeasureTarget {
    pub qubit: Qubit,
    pub inverted: bool,
}
