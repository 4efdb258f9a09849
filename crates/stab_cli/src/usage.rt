//! Reporting words that ask for no job.
ghost use Rattle.std.specs.Prelude.{◌≡◌, MatchResult};
ghost use Rattle.stab_io.specs.Refusals.{whole};
ghost use Rattle.stab_io.specs.declared.refusal.Refusal.TheVariants.{WriteFault};
ghost use Rattle.stab_io.specs.Devices.{TookAndFlushed};
ghost use Rattle.stab_report.specs.Endings.{FailsToSend};
ghost use Rattle.stab_report.specs.FaultLines.{ReportsFault};
ghost use Rattle.stab_cli.specs.Usages.{ReportsUsage};

use stab_args::Usage;
use stab_io::{DeviceFault, Fault, Output, Refusal, write_all};
use stab_report::write_fault;

/// Reports why there is no job, and answers the status of the program: help goes to `out` with 0, the
/// text of bad arguments to `err` with 2, and refused memory is reported on `err` as its fault with 1.
///
/// Help is flushed. If it can't be written or flushed, that is refusal `WriteFault`, reported on
/// `err` with 1. No failure of `err` changes the status.
pub fn write_usage<O: Output, E: Output>(usage: &Usage, out: &mut O, err: &mut E) -> u8
    ensures reported { ReportsUsage usage.now (O.seen out.old) (O.seen out.new) (E.seen err.old) (E.seen err.new) result }
{
    match usage {
        Usage::Help(text) => match write_flushed(out, text.as_str().as_bytes()) {
            Ok(()) => 0,
            Err(refusal) => report(refusal, err),
        },
        Usage::Fault(text) => {
            let _ = write_all(err, text.as_str().as_bytes());
            2
        }
        Usage::Memory => report(Refusal::OutOfMemory, err),
    }
}

/// Writes all the bytes, and flushes.
fn write_flushed<O: Output>(out: &mut O, bytes: &[u8]) -> Result<(), Refusal>
    ensures sends { MatchResult result (λ _. TookAndFlushed (O.seen out.old) (O.seen out.new) bytes.now) (λ e. (e ≡ WriteFault) × FailsToSend (O.seen out.old) (O.seen out.new) bytes.now) }
{
    write_all(out, bytes)?;
    match out.flush() {
        Ok(()) => Ok(()),
        Err(DeviceFault) => Err(Refusal::WriteFault),
    }
}

/// Reports a refusal of the whole program on its error output, and answers its status.
fn report<E: Output>(refusal: Refusal, err: &mut E) -> u8
    ensures status { result ≡ 1 }
    ensures reported { ReportsFault (whole refusal) (E.seen err.old) (E.seen err.new) }
{
    let _ = write_fault(err, Fault::whole(refusal));
    1
}
