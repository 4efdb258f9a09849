//! Errors as lines: where each is, and what it flips.
ghost use Rattle.std.specs.Prelude.{◌≡◌, ◌<◌, None, All, length};
ghost use Rattle.std.specs.List.{flat_map};
ghost use Rattle.stab_io.specs.Devices.{WritesAll};
ghost use Rattle.stab_items.specs.Steps.{check_of};
ghost use Rattle.stab_items.specs.Views.{circuit_items};
ghost use Rattle.stab_error_model.specs.ErrorTables.{StepsInside};
ghost use Rattle.stab_error_model.specs.Placed.{error_shown};
ghost use Rattle.stab_report.specs.Deterministic.{kinds_of};
ghost use Rattle.stab_report.specs.Distances.{error_name, numbered_line, error_lines, what_text, where_text};

use crate::writing::write_texts;
use itoa::Buffer;
use stab_circuit::{Circuit, Path};
use stab_error_model::{Error, ErrorTable};
use stab_io::{Output, Refusal, write_all};
use stab_items::write_path;
use stab_results::{Kinds, write_entries};

/// Writes the name of an error.
fn write_name<O: Output>(out: &mut O, error: Error) -> Result<(), Refusal>
    ensures writes { WritesAll (O.seen out.old) (O.seen out.new) (error_name (error_shown error)) result }
{
    let mut digits = Buffer::new();
    let mut others = Buffer::new();
    match error {
        Error::Letter(placed) => {
            let qubit = digits.format(placed.qubit()).as_bytes();
            write_texts(out, &[&[placed.letter.symbol()], qubit])
        }
        Error::Letters(first, second) => {
            let qubit = digits.format(first.qubit()).as_bytes();
            let other = others.format(second.qubit()).as_bytes();
            let letter = first.letter.symbol();
            write_texts(
                out,
                &[&[letter], qubit, b"*", &[second.letter.symbol()], other],
            )
        }
        Error::Record { number, .. } => {
            write_texts(out, &[b"M", digits.format(number).as_bytes()])
        }
    }
}

/// Writes how many steps are in front, and the path of the item.
pub fn write_where<O: Output>(out: &mut O, before: usize, path: &Path) -> Result<(), Refusal>
    ensures writes { WritesAll (O.seen out.old) (O.seen out.new) (where_text before path.now) result }
{
    let mut digits = Buffer::new();
    write_texts(out, &[digits.format(before).as_bytes(), b" "])?;
    write_path(out, path)?;
    write_all(out, b" ")
}

/// Writes what an error is, and what it flips.
fn write_what<O: Output>(
    out: &mut O,
    kinds: Kinds,
    error: Error,
    flipped: &[u32],
) -> Result<(), Refusal>
    ensures writes { WritesAll (O.seen out.old) (O.seen out.new) (what_text kinds (error_shown error) flipped.now) result }
{
    write_name(out, error)?;
    write_entries(out, kinds, flipped)?;
    write_all(out, b"\n")
}

/// Writes the line of the error of a number.
fn write_error<O: Output>(
    out: &mut O,
    circuit: &Circuit,
    kinds: Kinds,
    errors: &ErrorTable,
    number: usize,
) -> Result<(), Refusal>
    requires checked { check_of (circuit_items circuit.now) ≡ None }
    requires kinds { kinds ≡ kinds_of (circuit_items circuit.now) }
    requires rows { length errors.now.table.rows ≡ length errors.now.errors }
    requires steps { StepsInside (circuit_items circuit.now) errors.now.errors }
    requires in_range { number < length errors.now.errors }
    ensures writes { WritesAll (O.seen out.old) (O.seen out.new) (numbered_line (circuit_items circuit.now) errors.now number) result }
{
    let error = errors.error(number);
    let first = error.first();
    let item = circuit.item_of_step(first.step());
    write_where(out, first.before(), &item.path)?;
    write_what(out, kinds, error, errors.table().row(number))
}

/// Writes the lines of the errors of these numbers.
pub fn write_errors<O: Output>(
    out: &mut O,
    circuit: &Circuit,
    kinds: Kinds,
    errors: &ErrorTable,
    numbers: &[usize],
) -> Result<(), Refusal>
    requires checked { check_of (circuit_items circuit.now) ≡ None }
    requires kinds { kinds ≡ kinds_of (circuit_items circuit.now) }
    requires rows { length errors.now.table.rows ≡ length errors.now.errors }
    requires steps { StepsInside (circuit_items circuit.now) errors.now.errors }
    requires in_range { All (λ k. k < length errors.now.errors) numbers.now }
    ensures writes { WritesAll (O.seen out.old) (O.seen out.new) (flat_map (numbered_line (circuit_items circuit.now) errors.now) numbers.now) result }
{
    'numbers: for number in numbers {
        write_error(out, circuit, kinds, errors, *number)?;
    }
    Ok(())
}

/// Writes the lines of all errors, in order.
pub fn write_all_errors<O: Output>(
    out: &mut O,
    circuit: &Circuit,
    kinds: Kinds,
    errors: &ErrorTable,
) -> Result<(), Refusal>
    requires checked { check_of (circuit_items circuit.now) ≡ None }
    requires kinds { kinds ≡ kinds_of (circuit_items circuit.now) }
    requires rows { length errors.now.table.rows ≡ length errors.now.errors }
    requires steps { StepsInside (circuit_items circuit.now) errors.now.errors }
    ensures writes { WritesAll (O.seen out.old) (O.seen out.new) (error_lines (circuit_items circuit.now) errors.now) result }
{
    'errors: for number in 0..errors.len() {
        write_error(out, circuit, kinds, errors, number)?;
    }
    Ok(())
}
