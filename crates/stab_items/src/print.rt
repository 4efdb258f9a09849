ghost use Rattle.std.specs.Prelude.{◌≡◌, ◌+◌, ◌*◌, ◌++◌, replicate, codes};
ghost use Rattle.stab_items.specs.Items.{before, done, listed};
ghost use Rattle.stab_io.specs.Devices.{WritesAll};
ghost use Rattle.stab_items.specs.inner.Margins.{margin_depth};
ghost use Rattle.stab_instructions.specs.Prints.{operation_text, open_text};
ghost use Rattle.stab_items.specs.Prints.{line_text, printed_in, printed, item_coordinates};

use crate::item::{Item, Part};
use stab_instructions::{Count, Kind, write_detector_coordinates, write_opening, write_operation};
use stab_io::{Output, Refusal, write_all};

/// The blocks around a line, from the innermost outwards.
#[derive(Clone, Copy)]
enum Margin<'a> {
    None,
    Inside(&'a Margin<'a>),
}

/// Writes four spaces for each block.
fn write_margin<O: Output>(out: &mut O, margin: &Margin) -> Result<(), Refusal>
    ensures writes { WritesAll (O.seen out.old) (O.seen out.new) (replicate (4 * margin_depth margin.now) 32) result }
{
    match margin {
        Margin::None => Ok(()),
        Margin::Inside(outer) => {
            write_margin(out, outer)?;
            write_all(out, b"    ")
        }
    }
}

fn write_operation_line<O: Output>(
    out: &mut O,
    margin: &Margin,
    kind: &Kind,
    tag: &[u8],
) -> Result<(), Refusal>
    ensures writes { WritesAll (O.seen out.old) (O.seen out.new) (line_text (record { depth = margin_depth margin.now; content = operation_text (record { kind = kind.now; tag = tag.now }) })) result }
{
    write_margin(out, margin)?;
    write_operation(out, kind, tag)?;
    write_all(out, b"\n")
}

fn write_open_line<O: Output>(
    out: &mut O,
    margin: &Margin,
    count: Count,
    tag: &[u8],
) -> Result<(), Refusal>
    ensures writes { WritesAll (O.seen out.old) (O.seen out.new) (line_text (record { depth = margin_depth margin.now; content = open_text count tag.now })) result }
{
    write_margin(out, margin)?;
    write_opening(out, count, tag)?;
    write_all(out, b"\n")
}

fn write_close_line<O: Output>(out: &mut O, margin: &Margin) -> Result<(), Refusal>
    ensures writes { WritesAll (O.seen out.old) (O.seen out.new) (line_text (record { depth = margin_depth margin.now; content = codes "}" })) result }
{
    write_margin(out, margin)?;
    write_all(out, b"}\n")
}

/// Writes an item's lines.
#[cycle(printing)]
fn write_item<O: Output>(out: &mut O, margin: &Margin, item: &Item) -> Result<(), Refusal>
    ensures writes { WritesAll (O.seen out.old) (O.seen out.new) (printed_in (margin_depth margin.now) (before item.now done)) result }
{
    match item.part() {
        Part::Tick => write_operation_line(out, margin, &Kind::Tick, &[]),
        Part::Operation { kind, tag } => write_operation_line(out, margin, kind, tag),
        Part::Block {
            count,
            tag,
            body,
            ..
        } => {
            write_open_line(out, margin, count, tag)?;
            write_items(out, &Margin::Inside(&*margin), body)?;
            write_close_line(out, margin)
        }
    }
}

/// Writes the items' lines.
#[cycle(printing)]
fn write_items<O: Output>(out: &mut O, margin: &Margin, items: &[Item]) -> Result<(), Refusal>
    ensures writes { WritesAll (O.seen out.old) (O.seen out.new) (printed_in (margin_depth margin.now) (listed items.now)) result }
{
    for item in items {
        write_item(out, margin, item)?;
    }
    Ok(())
}

/// Writes the text of items: that of a circuit of these items.
///
/// Refusal `WriteFault` if a write failed; what was written is then a prefix of the text, and
/// nothing more is tried.
pub fn write_all_items<O: Output>(out: &mut O, items: &[Item]) -> Result<(), Refusal>
    ensures writes { WritesAll (O.seen out.old) (O.seen out.new) (printed (listed items.now)) result }
{
    write_items(out, &Margin::None, items)
}

/// Writes the text of one item, as `write_circuit` does that of a circuit of this item alone.
///
/// Refusal `WriteFault` if a write failed; what was written is then a prefix of the text, and
/// nothing more is tried.
pub fn write_one_item<O: Output>(out: &mut O, item: &Item) -> Result<(), Refusal>
    ensures writes { WritesAll (O.seen out.old) (O.seen out.new) (printed (before item.now done)) result }
{
    write_item(out, &Margin::None, item)
}

/// Writes the coordinates of an item that is a detector after a space, as its line is printed, such as
/// ` (1, 3, 2)`. It writes nothing if there are none, or for any other item, and does not flush.
///
/// Refusal `WriteFault` if a write failed; what was written is then a prefix of the text.
pub fn write_item_coordinates<O: Output>(out: &mut O, item: &Item) -> Result<(), Refusal>
    ensures writes { WritesAll (O.seen out.old) (O.seen out.new) (item_coordinates item.now) result }
{
    match item.part() {
        Part::Operation { kind, .. } => write_detector_coordinates(out, kind),
        Part::Tick | Part::Block { .. } => Ok(()),
    }
}
