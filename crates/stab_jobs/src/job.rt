//! The commands with their options, and the job that the words of a command line ask for.
use crate::numbers::{QubitCount, Shots, Stride};
use stab_results::Format;
use stab_search::SearchPart;

/// Where coins come from: the outcomes of measurements that no stabiliser decides.
#[derive(Debug, Drop, PartialEq, Eq)]
pub enum Source {
    /// Each shot has its own coins of this seed.
    Seed(u64),
    /// Each shot has these coins, and 0 past their end.
    List(Vec<bool>),
}

/// Of which letters errors are made.
#[derive(Clone, Copy, Debug, PartialEq, Eq)]
pub enum ErrorLetters {
    /// X, Y and Z, and all products of two of them.
    All,
    /// X and Z alone, and products of one of them with itself.
    XAndZ,
}

/// Of which errors the distance of a circuit is asked for, and how far.
#[derive(Clone, Copy, Debug, PartialEq, Eq)]
pub struct DistanceOptions {
    /// Errors everywhere, and not at the sites that the circuit marks.
    pub everywhere: bool,
    /// Of which letters they are made.
    pub letters: ErrorLetters,
    /// Only those errors that flip at most two detectors.
    pub graphlike: bool,
    /// The observable that they are to flip; any, if none is given.
    pub observable: Option<usize>,
    /// Up to how many errors.
    pub most: Option<usize>,
    /// Detectors and observables that are not the same for all random bits are left out, and not refused.
    pub deterministic_only: bool,
    /// Each number of errors that was excluded is reported meanwhile.
    pub progress: bool,
}

/// How the errors that a distance is searched among are written.
#[derive(Clone, Copy, Debug, PartialEq, Eq)]
pub enum SearchedLayout {
    /// A line for each error: where it is, its name, and what it flips.
    Table,
    /// A problem for MaxSAT solvers in the format `p wcnf`, whose solution is a least set.
    Wcnf,
}

/// What is asked about the errors that `DistanceOptions` describe.
#[derive(Clone, Copy, Debug, PartialEq, Eq)]
pub enum Question {
    /// A least set of them that flips an observable and no detector.
    Least,
    /// Such a set of all errors, and how many there are.
    Counted,
    /// Such a set for each observable in turn.
    Each,
    /// What one part of the search for such a set finds, of all errors.
    Part(SearchPart),
    /// The errors themselves, and what each flips.
    Errors(SearchedLayout),
}

/// How a table of single errors or coins is written.
#[derive(Clone, Copy, Debug, PartialEq, Eq)]
pub enum FaultLayout {
    /// A line for each single error or coin: where it is, its name, and what it flips.
    Lines,
    /// A shot for each single error or coin, whose bits are 1 if it flips them.
    Shots(Format),
}

/// A command, with the options that are its own.
#[derive(Clone, Copy, Debug, PartialEq, Eq)]
pub enum Command {
    /// Writes the records of each shot.
    Sample {
        format: Format,
        shots: Shots,
    },
    /// Writes the detectors of each shot and, if `append` says so, the observables after them.
    Detect {
        format: Format,
        shots: Shots,
        append: bool,
    },
    /// Writes the reduced rows of the strings that stabilise the state after shot 0.
    Stabilisers,
    /// Writes the numbers of a circuit, or what is wrong with it.
    Check,
    /// Writes a bit for each detector and then each observable: 1 if it is the same for all random bits.
    Deterministic {
        format: Format,
    },
    /// Writes which detectors and observables each single error flips, at the sites that the circuit marks
    /// or `everywhere`. A circuit in which one is not the same for all random bits is refused, unless
    /// `deterministic_only` leaves such bits out.
    Faults {
        layout: FaultLayout,
        everywhere: bool,
        deterministic_only: bool,
    },
    /// Writes, for each detector and observable that is not the same for all random bits, which coins decide it.
    Explain,
    /// Writes which records, detectors and observables each coin flips that decides an outcome.
    Coins {
        layout: FaultLayout,
    },
    /// Writes the answer to a question about errors that flip an observable and no detector.
    Distance {
        question: Question,
        options: DistanceOptions,
    },
    /// Edits the circuit by a script, on this many qubits or on as many as it names, and writes the
    /// replies, counted if a program is to read them.
    Edit {
        framed: bool,
        qubits: Option<QubitCount>,
        stride: Stride,
    },
    /// Writes what a Pauli string becomes that is put in, or what it is at `every` tick, and what it flips.
    Propagate {
        every: bool,
    },
    /// Writes what each error flips and leaves: those that the circuit marks, or errors `everywhere`.
    PropagateEach {
        everywhere: bool,
    },
}

/// What the words of a command line ask for: a command, and what every command has.
#[derive(Debug, PartialEq, Eq)]
pub struct Job {
    /// The command with its own options.
    pub command: Command,
    /// Where its coins come from.
    pub source: Source,
    /// The file that its coins are read from, instead of a word.
    pub coins_path: Option<String>,
    /// The file that is read instead of standard input.
    pub in_path: Option<String>,
    /// The file that is written instead of standard output.
    pub out_path: Option<String>,
    /// Where `Propagate` puts a string in, or no text.
    pub at: String,
    /// That string, or no text.
    pub string: String,
}

// Written out, so that a proof sees the drop of a value as one call, and not one for each of its parts.
impl Drop for Job {
    fn drop(self) {
        let Job {
            command: _,
            source: _,
            coins_path: _,
            in_path: _,
            out_path: _,
            at: _,
            string: _,
        } = self;
    }
}

impl Job {
    ghost use Rattle.std.specs.Prelude.{◌≡◌};
    ghost use Rattle.stab_jobs.specs.Commands.{reads_script};

    /// Whether its command reads a script.
    pub fn reads_script(&self) -> bool
        ensures value { result ≡ reads_script self.now.command }
    {
        matches!(self.command, Command::Edit { .. })
    }
}
