//! An observable that is asked for, but that the circuit lacks, as a line.
ghost use Rattle.std.specs.Prelude.{Some};
ghost use Rattle.stab_io.specs.Devices.{WritesAll};
ghost use Rattle.stab_report.specs.MissingObservables.{ReportsMissing, missing_line};

use crate::writing::write_texts;
use itoa::Buffer;
use stab_io::{Output, Refusal};

/// Writes the line of an observable that a circuit with this many lacks.
fn write_missing<O: Output>(out: &mut O, observable: usize, count: usize) -> Result<(), Refusal>
    ensures writes { WritesAll (O.seen out.old) (O.seen out.new) (missing_line observable count) result }
{
    let mut digits = Buffer::new();
    let mut others = Buffer::new();
    let observable = digits.format(observable).as_bytes();
    let count = others.format(count).as_bytes();
    write_texts(
        out,
        &[
            b"stabsim: the circuit has no L",
            observable,
            b", observables: ",
            count,
            b"\n",
        ],
    )
}

/// Reports an observable if it is none of this many. If it is one of them, or the output fails, it goes on.
fn report_number<E: Output>(err: &mut E, observable: usize, count: usize)
    ensures reports { ReportsMissing (Some observable) count (E.seen err.old) (E.seen err.new) }
{
    if observable < count {
        return;
    }
    let _ = write_missing(err, observable, count);
}

/// Reports an observable that is asked for, if one is and a circuit with this many lacks it, such as
/// `stabsim: the circuit has no L2, observables: 2`. If the output fails, it goes on.
pub fn report_missing<E: Output>(err: &mut E, observable: Option<usize>, count: usize)
    ensures reports { ReportsMissing observable count (E.seen err.old) (E.seen err.new) }
{
    match observable {
        Some(number) => report_number(err, number, count),
        None => {}
    }
}
