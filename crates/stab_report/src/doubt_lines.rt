//! Marks that may be meant in another way, as lines.
ghost use Rattle.std.specs.Prelude.{◌≡◌, ◌<◌, None, All, length};
ghost use Rattle.stab_io.specs.Devices.{WritesAll};
ghost use Rattle.stab_items.specs.Steps.{check_of, unroll};
ghost use Rattle.stab_items.specs.Views.{circuit_items};
ghost use Rattle.stab_report.specs.DoubtLines.{ReportsDoubts, doubt_line, doubt_lines, doubt_text};

use stab_circuit::Circuit;
use stab_error_model::{Doubt, DoubtfulMark};
use stab_io::{Output, Refusal, write_all};
use stab_items::write_path;

/// Why a mark is doubtful, as its line ends.
fn reason(doubt: Doubt) -> &'static [u8]
    ensures value { result.now ≡ doubt_text doubt }
{
    match doubt {
        Doubt::Tag => { b": the tag is none of X, Y, Z, XZ and pairs, so all letters are marked\n" }
        Doubt::LastTarget => {
            b": pairs of an odd number of targets, so the last is marked by itself\n"
        }
        Doubt::SameQubit => b": a pair of a qubit with itself\n",
    }
}

/// Writes the line of a doubtful mark.
fn write_doubt<O: Output>(out: &mut O, circuit: &Circuit, mark: DoubtfulMark) -> Result<(), Refusal>
    requires checked { check_of (circuit_items circuit.now) ≡ None }
    requires inside { mark.step < length (unroll (circuit_items circuit.now)) }
    ensures writes { WritesAll (O.seen out.old) (O.seen out.new) (doubt_line (circuit_items circuit.now) mark) result }
{
    let item = circuit.item_of_step(mark.step);
    write_all(out, b"stabsim: item ")?;
    write_path(out, &item.path)?;
    write_all(out, reason(mark.doubt))
}

/// Writes the lines of doubtful marks.
fn write_doubts<O: Output>(
    out: &mut O,
    circuit: &Circuit,
    marks: &[DoubtfulMark],
) -> Result<(), Refusal>
    requires checked { check_of (circuit_items circuit.now) ≡ None }
    requires inside { All (λ m. m.step < length (unroll (circuit_items circuit.now))) marks.now }
    ensures writes { WritesAll (O.seen out.old) (O.seen out.new) (doubt_lines (circuit_items circuit.now) marks.now) result }
{
    'marks: for mark in marks {
        write_doubt(out, circuit, *mark)?;
    }
    Ok(())
}

/// Reports doubtful marks, a line for each, such as `stabsim: item 3/0: a pair of a qubit with itself`. If there are none,
/// or the output fails, it goes on.
pub fn report_doubts<E: Output>(err: &mut E, circuit: &Circuit, marks: &[DoubtfulMark])
    requires checked { check_of (circuit_items circuit.now) ≡ None }
    requires inside { All (λ m. m.step < length (unroll (circuit_items circuit.now))) marks.now }
    ensures reports { ReportsDoubts (circuit_items circuit.now) marks.now (E.seen err.old) (E.seen err.new) }
{
    if marks.is_empty() {
        return;
    }
    let _ = write_doubts(err, circuit, marks);
}
