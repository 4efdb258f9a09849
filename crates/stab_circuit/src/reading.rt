//! Reading and printing circuits, and single items.

ghost use Rattle.std.specs.Prelude.{◌≡◌, None, IfOk, IfErr};
ghost use Rattle.stab_io.specs.Devices.{WritesAllOrFault};
ghost use Rattle.stab_items.specs.Prints.{printed};
ghost use Rattle.stab_items.specs.Steps.{check_of};
ghost use Rattle.stab_items.specs.Views.{circuit_items};
ghost use Rattle.stab_circuit.specs.Laws.{IsReadBack};
ghost use Rattle.stab_circuit.specs.Readings.{ReadsCircuit, ReadsInput, ReadsItem, HasLine, is_of_circuit, is_of_item};

use crate::input::{MOST_BYTES, read_text};
use crate::whole_text::read_lines;
use stab_io::{Fault, Input, Output, Refusal};
use stab_items::{Circuit, Item, write_all_items};
use std::alloc::Global;

/// The circuit that a text stands for.
///
/// Faults: those of the text, with their lines; 8, 9 and 14 for the whole of it; `OutOfMemory`.
pub fn circuit_of_text(alloc: Global, text: &[u8]) -> Result<Circuit, Fault>
    ensures gives { ReadsCircuit text.now result }
    ensures only { IfErr result (HasLine is_of_circuit) }
{
    if text.len() > MOST_BYTES {
        return Err(Fault::whole(Refusal::TooLong));
    }
    let items = read_lines(alloc, false, text)?;
    Circuit::of_items(alloc, items)
}

/// Reads the circuit that the input's text stands for.
///
/// The fault of the text is that of a text that was read whole. For a text over its limit, at most
/// 4,096 bytes after the limit are read, and then no more: the fault is `TooLong`, whatever
/// is there.
pub fn read_circuit<I: Input>(alloc: Global, input: &mut I) -> Result<Circuit, Fault>
    ensures reads { ReadsInput (I.seen input.old) (I.seen input.new) result }
    ensures only { IfErr result (HasLine is_of_circuit) }
    ensures checked { IfOk result (λ c. check_of (circuit_items c) ≡ None) }
{
    let text = read_text(alloc, input).map_err(Fault::whole)?;
    circuit_of_text(alloc, text.as_slice())
}

/// The item that a text stands for.
pub fn read_item(alloc: Global, text: &[u8]) -> Result<Item, Fault>
    ensures gives { ReadsItem text.now result }
    ensures only { IfErr result (HasLine is_of_item) }
{
    if text.len() > MOST_BYTES {
        return Err(Fault::whole(Refusal::TooLong));
    }
    let mut items = read_lines(alloc, true, text)?;
    match items.pop() {
        Some(item) => Ok(item),
        None => Err(Fault::whole(Refusal::BadLine)),
    }
}

/// Writes the circuit's text, and takes no memory: each instruction by its first name, four
/// spaces for each open block, a line feed after every line, nothing for the empty circuit.
/// It does not flush.
///
/// The text stands for these items and for no others, if it is no longer than a circuit text may be: it
/// is read back, however the circuit was put together.
///
/// Fault `WriteFault` with line 0 if a write failed; what was written is then a prefix of the
/// text, and nothing more is tried.
pub fn write_circuit<O: Output>(out: &mut O, circuit: &Circuit) -> Result<(), Fault>
    ensures writes { WritesAllOrFault (O.seen out.old) (O.seen out.new) (printed (circuit_items circuit.now)) result }
    ensures back { IsReadBack (circuit_items circuit.now) }
{
    write_all_items(out, circuit.items()).map_err(Fault::whole)
}
