//! What a table of single errors, or a distance, is refused for.

use stab_circuit::Path;
use stab_io::Fault;

/// A detector or an observable of a circuit, by its number.
#[derive(Clone, Copy, Debug, PartialEq, Eq)]
pub enum Bit {
    Detector(usize),
    Observable(usize),
}

/// A coin that decides a detector or observable.
#[derive(Clone, Copy, Debug, PartialEq, Eq)]
pub struct Decider {
    /// Its number.
    pub coin: usize,
    /// Where the item is that takes it: a measurement or reset.
    pub path: Path,
}

/// A detector or observable that is not the same for all coins.
#[derive(Clone, Copy, Debug, PartialEq, Eq)]
pub struct Random {
    pub bit: Bit,
    /// Where the item is that makes it: its `DETECTOR`, or the first `OBSERVABLE_INCLUDE` of its
    /// number.
    pub path: Path,
    /// The first coin that decides it.
    pub decider: Decider,
}

/// Why no table of single errors, or no distance, was written.
#[derive(Clone, Copy, Debug, PartialEq, Eq)]
pub struct FaultsRefused {
    pub fault: Fault,
    /// With refusal `NotDeterministic`, the first detector or observable that is not the same for
    /// all random bits, in the order of a shot's bits; with any other none.
    pub random: Option<Random>,
}

impl From<Fault> for FaultsRefused {
    ghost use Rattle.std.specs.Prelude.{◌≡◌, None};

    ghost from_gives = { λ f r. r ≡ record { fault = f; random = None } };

    /// A fault that names no detector or observable.
    fn from(fault: Fault) -> FaultsRefused {
        FaultsRefused {
            fault,
            random: None,
        }
    }
}
