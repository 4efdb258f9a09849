//! Runs of stabsim over devices in memory.
ghost use Rattle.std.specs.Prelude.{◌≡◌, vec_len, IsTrue};

use crate::row::WorkedRow;
use crate::text::Shown;
use stab_cli::{Job, Usage, run_job, write_usage};
use stab_pauli::{CutInput, MemoryOutput};
use std::alloc::{AllocError, Global};
use std::fmt::{self, Display, Formatter, Write};

/// The devices of a run.
#[derive(Clone, Copy)]
pub(crate) struct Devices {
    /// How many bytes a read of the circuit gives at most.
    pub(crate) piece: usize,
    /// From which read on the circuit fails, from 1; 0 is for never.
    pub(crate) circuit_fails: u64,
    /// From which read on the script fails.
    pub(crate) script_fails: u64,
    /// How many bytes standard output takes before it fails.
    pub(crate) room: usize,
    /// How many bytes standard error takes.
    pub(crate) error_room: usize,
    /// Whether both fail to flush.
    pub(crate) flush_fails: bool,
}

impl Devices {
    /// Devices that never fail, with more room than any row needs.
    pub(crate) const GOOD: Devices = Devices {
        piece: 65_536,
        circuit_fails: 0,
        script_fails: 0,
        room: 65_536,
        error_room: 65_536,
        flush_fails: false,
    };
}

impl Display for Devices {
    fn fmt<W: Write>(&self, f: &mut Formatter<W>) -> fmt::Result {
        let Devices {
            piece,
            circuit_fails,
            script_fails,
            room,
            error_room,
            flush_fails,
        } = *self;
        write!(
            f,
            "pieces of {piece}, failing reads {circuit_fails} and {script_fails}, room {room} and {error_room}, failing flush {flush_fails}"
        )
    }
}

/// What a run wrote, and its status.
pub(crate) struct Ended {
    pub(crate) out: MemoryOutput,
    pub(crate) err: MemoryOutput,
    pub(crate) status: u8,
}

// Written out, so that a proof sees the drop of a value as one call, and not one for each of its parts.
impl Drop for Ended {
    fn drop(self) {
        let Ended {
            out: _,
            err: _,
            status: _,
        } = self;
    }
}

impl Display for Ended {
    fn fmt<W: Write>(&self, f: &mut Formatter<W>) -> fmt::Result {
        let (out, err) = (Shown(self.out.bytes()), Shown(self.err.bytes()));
        write!(f, "  found   {}, {out}, {err}", self.status)
    }
}

impl Ended {
    /// Whether this is what a row wants.
    pub(crate) fn meets(&self, row: &WorkedRow) -> bool
        ensures status { IsTrue result → self.now.status ≡ row.now.status }
        ensures output { IsTrue result → vec_len row.now.output.parts ≡ 0 → self.now.out.written ≡ row.now.output.bytes.items }
        ensures error { IsTrue result → vec_len row.now.error.parts ≡ 0 → self.now.err.written ≡ row.now.error.bytes.items }
    {
        row.output.is_met(self.out.bytes())
            && row.error.is_met(self.err.bytes())
            && row.status == self.status
    }

    /// Whether this is what the same run must come to over these devices, if it came to `whole` over
    /// good ones: refusal 15 with nothing written if a read fails, 16 with as much as there is room for
    /// if the output does, and the same status however little is reported. Marks that may be meant in
    /// another way are not reported after a refusal.
    pub(crate) fn follows(&self, whole: &Ended, devices: Devices) -> bool {
        let (out, err) = (whole.out.bytes(), whole.err.bytes());
        let written = begin_of(out, devices.room);
        let output_fails = devices.flush_fails || devices.room < out.len();
        let (written, reported, status): (&[u8], &[u8], u8) = if devices.circuit_fails > 0 {
            (b"", b"stabsim: refused 15 ReadFault\n", 1)
        } else if output_fails && !whole.is_refused() {
            (written, b"stabsim: refused 16 WriteFault\n", 1)
        } else {
            (written, err, whole.status)
        };
        self.is(written, begin_of(reported, devices.error_room), status)
    }

    /// Whether this run reported a refusal or a mistake of usage, and not only what may be meant in another way.
    pub(crate) fn is_refused(&self) -> bool {
        self.status != 0 && !self.err.bytes().is_empty()
    }

    /// Whether these bytes were written, and this is the status.
    fn is(&self, out: &[u8], err: &[u8], status: u8) -> bool
        ensures same { IsTrue result → self.now.out.written ≡ out.now }
    {
        self.out.bytes() == out && self.err.bytes() == err && self.status == status
    }
}

/// At most this many bytes from the front.
fn begin_of(bytes: &[u8], count: usize) -> &[u8] {
    bytes.split_at(count.min(bytes.len())).0
}

/// Runs stabsim with what its words ask for, on this circuit and this script.
pub(crate) fn run(
    alloc: Global,
    asked: &Result<Job, Usage>,
    circuit: &[u8],
    script: &[u8],
    devices: Devices,
) -> Result<Ended, AllocError> {
    let mut out = output(alloc, devices.room, devices.flush_fails)?;
    let mut err = output(alloc, devices.error_room, devices.flush_fails)?;
    let status = match asked {
        Ok(job) => run_job(
            alloc,
            job,
            &mut CutInput::new(circuit, devices.piece.max(1), devices.circuit_fails),
            &mut CutInput::new(script, 65_536, devices.script_fails),
            &mut out,
            &mut err,
        ),
        Err(usage) => write_usage(usage, &mut out, &mut err),
    };
    Ok(Ended { out, err, status })
}

/// An output in memory with this room.
fn output(alloc: Global, room: usize, flush_fails: bool) -> Result<MemoryOutput, AllocError> {
    let mut output = MemoryOutput::new(alloc, room).map_err(|_| AllocError)?;
    if flush_fails {
        output.fail_flush();
    }
    Ok(output)
}
