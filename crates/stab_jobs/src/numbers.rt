//! The numbers of a job: of shots, of qubits and of the steps between checkpoints, each within its limits.
use std::marker::Model;

/// Which shots a command takes: at most 1,000,000, one after another, and none beyond the last of a
/// seed, which is shot 2^64 - 1.
#[derive(Clone, Copy, Debug, PartialEq, Eq)]
pub struct Shots {
    first: u64,
    number: usize,
}

impl Model for Shots {
    ghost use Rattle.std.specs.Prelude.{◌+◌, ◌≤◌};
    ghost use Rattle.stab_jobs.specs.Limits.{ShotRange, most_shots, shots_of_seed};

    ghost Value = { ShotRange };

    ghost view = { λ s. record { first = s.first; number = s.number } };

    ghost invariant = { λ s. (s.number ≤ most_shots) × (s.first + s.number ≤ shots_of_seed) };

    ghost inverse = { λ r. record { first = r.first; number = r.number } };
}

impl Shots {
    ghost use Rattle.std.specs.Prelude.{◌≡◌, ◌+◌, ◌<◌, ◌≤◌, IfSome, IfNone};
    ghost use Rattle.stab_jobs.specs.Limits.{most_shots, shots_of_seed};

    /// The most shots that a command takes.
    pub const MOST: usize = 1_000_000;

    /// This many shots from shot 0 on, at most 1,000,000.
    pub fn new(number: usize) -> Shots
        requires in_range { number ≤ most_shots }
        ensures value { result ≡ record { first = 0; number = number } }
    {
        Shots { first: 0, number }
    }

    /// This many shots from this one on, at most 1,000,000, or none if they go beyond shot 2^64 - 1.
    pub fn from_first(first: u64, number: usize) -> Option<Shots>
        requires in_range { number ≤ most_shots }
        ensures some { IfSome result (λ shots. shots ≡ record { first = first; number = number }) }
        ensures none { IfNone result (shots_of_seed < first + number) }
    {
        if first <= u64::MAX - number.saturating_sub(1) as u64 {
            Some(Shots { first, number })
        } else {
            None
        }
    }

    /// The number of the first shot.
    pub fn first(self) -> u64
        ensures value { result ≡ self.first }
        ensures in_range { result + self.number ≤ shots_of_seed }
    {
        self.first
    }

    /// How many shots.
    pub fn number(self) -> usize
        ensures value { result ≡ self.number }
        ensures in_range { result ≤ most_shots }
    {
        self.number
    }
}

/// On how many qubits a circuit is edited, at most 1,024.
#[derive(Clone, Copy, Debug, PartialEq, Eq)]
pub struct QubitCount {
    number: usize,
}

impl Model for QubitCount {
    ghost use Rattle.std.specs.Prelude.{ℕ, ◌≤◌};
    ghost use Rattle.stab_gates.specs.Limits.{most_qubits};

    ghost Value = { ℕ };

    ghost view = { λ q. q.number };

    ghost invariant = { λ q. q.number ≤ most_qubits };

    ghost inverse = { λ n. record { number = n } };
}

impl QubitCount {
    ghost use Rattle.std.specs.Prelude.{◌≡◌, ◌≤◌};
    ghost use Rattle.stab_gates.specs.Limits.{most_qubits};

    /// The most qubits of a circuit.
    pub const MOST: usize = 1024;

    /// This many qubits, at most 1,024.
    pub fn new(number: usize) -> QubitCount
        requires in_range { number ≤ most_qubits }
        ensures value { result ≡ number }
    {
        QubitCount { number }
    }

    /// How many qubits.
    pub fn number(self) -> usize
        ensures value { result ≡ self }
        ensures in_range { result ≤ most_qubits }
    {
        self.number
    }
}

/// After how many steps a session keeps a checkpoint, from 1 to 65,536. It changes how long edits take
/// and how much memory they need, and nothing that is written.
#[derive(Clone, Copy, Debug, PartialEq, Eq)]
pub struct Stride {
    steps: usize,
}

impl Model for Stride {
    ghost use Rattle.std.specs.Prelude.{ℕ, ◌≤◌};
    ghost use Rattle.stab_circuit.specs.Limits.{most_stride};

    ghost Value = { ℕ };

    ghost view = { λ s. s.steps };

    ghost invariant = { λ s. (1 ≤ s.steps) × (s.steps ≤ most_stride) };

    ghost inverse = { λ n. record { steps = n } };
}

impl Stride {
    ghost use Rattle.std.specs.Prelude.{◌≡◌, ◌≤◌};
    ghost use Rattle.stab_circuit.specs.Limits.{most_stride};

    /// The greatest stride.
    pub const MOST: usize = 65_536;

    /// This many steps, from 1 to 65,536.
    pub fn new(steps: usize) -> Stride
        requires above { 1 ≤ steps }
        requires within { steps ≤ most_stride }
        ensures value { result ≡ steps }
    {
        Stride { steps }
    }

    /// How many steps.
    pub fn steps(self) -> usize
        ensures value { result ≡ self }
        ensures above { 1 ≤ result }
        ensures within { result ≤ most_stride }
    {
        self.steps
    }
}
