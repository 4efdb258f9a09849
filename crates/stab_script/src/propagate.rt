//! The command that writes the way of a string.
ghost use Rattle.std.specs.Prelude.{◌≡◌, None, Ok, length};
ghost use Rattle.stab_items.specs.Steps.{check_of, qubits_of};
ghost use Rattle.stab_items.specs.Views.{circuit_items};
ghost use Rattle.stab_report.specs.Endings.{SendsFound};
ghost use Rattle.stab_script.specs.Words.{PutIn, put_in_of};
ghost use Rattle.stab_script.specs.WayTexts.{IsWayText};
ghost use Rattle.stab_script.specs.Endings.{EndsPropagate, SendsWay};

use crate::circuit_replies::way_reply;
use crate::words::read_put_in;
use stab_circuit::{Circuit, read_circuit};
use stab_io::{Fault, Input, Output, write_all};
use stab_pauli::Pauli;
use stab_report::finish;
use std::alloc::Global;

/// Writes the way of a string that is put in after this many steps, and flushes. Memory may be refused before the first byte.
fn send_way<O: Output>(
    alloc: Global,
    circuit: &Circuit,
    out: &mut O,
    every: bool,
    steps: usize,
    string: &Pauli,
) -> Result<(), Fault>
    requires checked { check_of (circuit_items circuit.now) ≡ None }
    requires qubits { length string.now.letters ≡ qubits_of (circuit_items circuit.now) }
    ensures sends { SendsFound (IsWayText (circuit_items circuit.now) every (record { steps = steps; string = string.now.letters })) (O.seen out.old) (O.seen out.new) result }
{
    let reply = way_reply(alloc, circuit, every, steps, string).map_err(Fault::whole)?;
    write_all(out, reply.bytes()).map_err(Fault::whole)?;
    finish(out)
}

/// Reads the words for where and for a string, and writes the way of that string.
fn send_asked<O: Output>(
    alloc: Global,
    circuit: &Circuit,
    out: &mut O,
    every: bool,
    at: &[u8],
    word: &[u8],
) -> Result<(), Fault>
    requires checked { check_of (circuit_items circuit.now) ≡ None }
    ensures sends { SendsWay (circuit_items circuit.now) every (put_in_of (qubits_of (circuit_items circuit.now)) (circuit_items circuit.now) at.now word.now) (O.seen out.old) (O.seen out.new) result }
{
    match read_put_in(alloc, circuit, circuit.qubits(), at, word) {
        Ok((steps, string)) => send_way(alloc, circuit, out, every, steps, &string),
        Err(refusal) => Err(Fault::whole(refusal)),
    }
}

/// Reads a circuit, and writes the way of a Pauli string that is put in: for each item after which it is another one,
/// in each round, a line with the number of steps before the item's end, the item's path, and the string there, as
/// `1207 3/0/2 X3*Z4`; then what it flips, as `flips M3 D24 L0`, and the string at the end, as `left X3`. A string without letters is 1.
/// With `every` the lines are those of the ticks from there on, in each round, each with the path of the last item with a step in front of it.
///
/// Where is `3/0/2`, in front of the item with that path, in the first round of each block around it; or `@1207`, after this many
/// steps. The number of items of the outermost list is the end of the circuit. The string is a product, or a letter for
/// each qubit that the circuit names; its sign is irrelevant.
///
/// Fault 2 if that is no path, 12 if it is past the end, 17 if it goes into an item that is no block; 3 if the string
/// is misspelt, 6 if the circuit doesn't name one of its qubits. Reading, the flush and the other faults are those of `run_deterministic`.
pub fn run_propagate<I: Input, O: Output>(
    alloc: Global,
    input: &mut I,
    out: &mut O,
    every: bool,
    at: &[u8],
    word: &[u8],
) -> Result<(), Fault>
    ensures ends { EndsPropagate every at.now word.now (I.seen input.old) (I.seen input.new) (O.seen out.old) (O.seen out.new) result }
{
    let circuit = read_circuit(alloc, input)?;
    send_asked(alloc, &circuit, out, every, at, word)
}
