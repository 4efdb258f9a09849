//! The trial of a row: all its runs.
use crate::row::WorkedRow;
use crate::run::{Devices, Ended, run};
use crate::text::Shown;
use stab_cli::{Job, Usage, parse_words};
use std::alloc::{AllocError, Global};

/// Why a row does not pass.
#[derive(Drop)]
pub(crate) enum Failure {
    /// Memory was refused.
    Memory,
    /// A run is not what the row wants. This is a report of it.
    Run(String),
}

impl From<AllocError> for Failure {
    fn from(_error: AllocError) -> Failure {
        Failure::Memory
    }
}

/// What is run, again and again: a row, one of its lines of words with what it asks for, and one of its
/// circuits.
#[derive(Clone, Copy)]
struct Trial<'a, 'b> {
    alloc: Global,
    row: &'a WorkedRow,
    words: &'a str,
    circuit: &'a [u8],
    asked: &'b Result<Job, Usage>,
}

/// Runs a row until a run is not what it wants.
///
/// There are runs for each line of words and each circuit, or on the empty circuit if there is
/// none: with and without the last line end of the circuit, and of the script, and, if the row says
/// so, over devices that fail.
pub(crate) fn try_row(alloc: Global, row: &WorkedRow) -> Result<(), Failure> {
    for words in &row.words {
        try_words(alloc, row, words.as_str())?;
    }
    Ok(())
}

/// The same with these words.
fn try_words(alloc: Global, row: &WorkedRow, words: &str) -> Result<(), Failure> {
    let all = words_of(alloc, words)?;
    let asked = parse_words(alloc, all.as_slice());
    let trial = Trial {
        alloc,
        row,
        words,
        circuit: &[],
        asked: &asked,
    };
    trial.try_circuits()
}

/// The words of a command line, the program's name first.
fn words_of(alloc: Global, words: &str) -> Result<Vec<&str>, AllocError> {
    let mut all = Vec::new(alloc);
    all.push("stabsim")?;
    all.extend(words.split_whitespace())?;
    Ok(all)
}

impl<'a, 'b> Trial<'a, 'b> {
    /// The same on each circuit of the row.
    fn try_circuits(self) -> Result<(), Failure> {
        if self.row.circuits.is_empty() {
            return self.try_circuit();
        }
        for circuit in &self.row.circuits {
            let circuit = circuit.as_slice();
            (Trial { circuit, ..self }).try_circuit()?;
        }
        Ok(())
    }

    /// The same on this circuit.
    fn try_circuit(self) -> Result<(), Failure> {
        let (circuit, script) = (self.circuit, self.row.script.as_slice());
        self.try_good(circuit, script)?;
        self.try_good(without_end(circuit), script)?;
        self.try_good(circuit, without_end(script))?;
        self.try_good(without_end(circuit), without_end(script))?;
        if self.row.on_failing_devices {
            return self.try_failing();
        }
        Ok(())
    }

    /// A run on these texts, over devices that never fail.
    fn try_good(self, circuit: &[u8], script: &[u8]) -> Result<(), Failure> {
        let ended = run(self.alloc, self.asked, circuit, script, self.good())?;
        if ended.meets(self.row) {
            return Ok(());
        }
        self.fail(self.good(), &ended)
    }

    /// Devices that never fail, except an output with the room that the row says.
    fn good(self) -> Devices {
        Devices {
            room: self.row.room,
            ..Devices::GOOD
        }
    }

    /// The runs over devices that fail after each number of bytes in turn.
    fn try_failing(self) -> Result<(), Failure> {
        let whole = self.run_over(self.good())?;
        let written = whole.out.bytes().len().max(whole.err.bytes().len());
        let calls = self.circuit.len().max(written).saturating_add(1);
        for call in 0..=calls {
            self.try_failing_at(call, &whole)?;
        }
        Ok(())
    }

    /// The runs over devices that fail after this many bytes, if a run over good ones ends in this way.
    fn try_failing_at(self, call: usize, whole: &Ended) -> Result<(), Failure> {
        let reads = self.circuit.len().saturating_add(1);
        let reads_fail = call <= reads && !whole.is_refused();
        let good = Devices {
            script_fails: u64::from(self.row.script.is_empty()),
            ..self.good()
        };
        for devices in [
            Devices { room: call, ..good },
            Devices {
                error_room: call,
                flush_fails: true,
                ..good
            },
            Devices {
                piece: call.max(1),
                error_room: call,
                ..good
            },
            Devices {
                piece: 1,
                circuit_fails: if reads_fail { call as u64 } else { 0 },
                ..good
            },
        ] {
            self.try_over(devices, whole)?;
        }
        Ok(())
    }

    /// A run over these devices, if one over good ones ends in this way.
    fn try_over(self, devices: Devices, whole: &Ended) -> Result<(), Failure> {
        let ended = self.run_over(devices)?;
        if ended.follows(whole, devices) {
            return Ok(());
        }
        self.fail(devices, &ended)
    }

    /// A run over these devices.
    fn run_over(self, devices: Devices) -> Result<Ended, AllocError> {
        let script = self.row.script.as_slice();
        run(self.alloc, self.asked, self.circuit, script, devices)
    }

    /// The failure of a run that ended so over these devices.
    fn fail(self, devices: Devices, ended: &Ended) -> Result<(), Failure> {
        let Trial { row, words, .. } = self;
        let circuit = Shown(self.circuit);
        let report = format!(in self.alloc;
            "line {}: {}\n  words   {words}\n  circuit {circuit}\n  devices {devices}\n{row}\n{ended}",
            row.line, row.name
        )?;
        Err(Failure::Run(report))
    }
}

/// A text without its last line end.
fn without_end(text: &[u8]) -> &[u8] {
    text.strip_suffix(b"\n").unwrap_or(text)
}
