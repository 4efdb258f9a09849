//! Texts one after another, the front of a row's line, and the flush that ends a run.
ghost use Rattle.std.specs.Prelude.{◌≡◌, map};
ghost use Rattle.stab_io.specs.Devices.{WritesAll};
ghost use Rattle.stab_report.specs.Endings.{FlushesOrFault};
ghost use Rattle.stab_report.specs.Texts.{row_head, texts_joined};

use itoa::Buffer;
use stab_circuit::Path;
use stab_io::{DeviceFault, Fault, Output, Refusal, write_all};
use stab_items::write_path;

/// Writes texts one after another.
pub fn write_texts<O: Output>(out: &mut O, texts: &[&[u8]]) -> Result<(), Refusal>
    ensures writes { WritesAll (O.seen out.old) (O.seen out.new) (texts_joined (map (λ t. t.now) texts.now)) result }
{
    for text in texts {
        write_all(out, text)?;
    }
    Ok(())
}

/// Writes the front of a row's line: how many steps are in front, the path of the item, and a symbol and a number.
pub fn write_head<O: Output>(
    out: &mut O,
    before: usize,
    path: &Path,
    symbol: &[u8],
    number: usize,
) -> Result<(), Refusal>
    ensures writes { WritesAll (O.seen out.old) (O.seen out.new) (row_head before path.now symbol.now number) result }
{
    let mut digits = Buffer::new();
    write_texts(out, &[digits.format(before).as_bytes(), b" "])?;
    write_path(out, path)?;
    let mut digits = Buffer::new();
    write_texts(out, &[b" ", symbol, digits.format(number).as_bytes()])
}

/// Ends the run of a command that wrote all it had to write: flushes the output.
///
/// Fault `WriteFault` if that fails.
pub fn finish<O: Output>(out: &mut O) -> Result<(), Fault>
    ensures flushes { FlushesOrFault (O.seen out.old) (O.seen out.new) result }
{
    match out.flush() {
        Ok(()) => Ok(()),
        Err(DeviceFault) => Err(Fault::whole(Refusal::WriteFault)),
    }
}
