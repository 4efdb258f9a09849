//! The command that edits a circuit by a script.

ghost use Rattle.std.specs.Prelude.{◌≤◌, IfSome};
ghost use Rattle.stab_gates.specs.Limits.{most_qubits};
ghost use Rattle.stab_circuit.specs.Limits.{most_stride};
ghost use Rattle.stab_script.specs.ScriptEndings.{EndsEdit, EndsPlainEdit};
ghost use Rattle.stab_script.specs.ScriptTurns.{EditsInTurn};

use crate::session_edit::edit_circuit;
use crate::watcher::{NoWatcher, Watcher};
use stab_circuit::read_circuit;
use stab_io::{Fault, Input, Output};
use stab_jobs::Source;
use stab_run::{ListCoins, SeedCoins};
use std::alloc::Global;

/// Reads a circuit, and edits it by a script, as `run_edit` does, with each read of the script made
/// by a watcher, which is shown the output as it then is.
///
/// If the script's input keeps a log, the replies are those of one answer, of which each read found
/// exactly the first written, to what was handed over before, in whole lines, after what the output
/// held at first.
///
/// A counted script is one that a program drives: it is greeted by a line of numbers before it is
/// read, each reply that is no refusal says first how many lines it has, and it may ask for more.
pub fn run_edit_watched<I: Input, S: Input, O: Output, W: Watcher<S, O>>(
    alloc: Global,
    circuit_input: &mut I,
    script_input: &mut S,
    out: &mut O,
    counted: bool,
    qubits: Option<usize>,
    stride: usize,
    source: &Source,
) -> Result<bool, Fault>
    requires in_range { IfSome qubits (λ n. n ≤ most_qubits) }
    requires stride_above { 1 ≤ stride }
    requires stride_within { stride ≤ most_stride }
    ensures ends { EndsEdit counted qubits source.now (I.seen circuit_input.old) (I.seen circuit_input.new) (S.seen script_input.old) (S.seen script_input.new) (O.seen out.old) (O.seen out.new) result }
    ensures turns { EditsInTurn counted qubits source.now (I.seen circuit_input.old) (I.seen circuit_input.new) (S.seen script_input.old) (S.seen script_input.new) (O.seen out.old) (O.seen out.new) (W.log script_input.old) (W.log script_input.new) result }
{
    let circuit = read_circuit(alloc, circuit_input)?;
    let n = match qubits {
        Some(n) => n,
        None => circuit.qubits(),
    };
    match source {
        Source::Seed(seed) => {
            let coins = SeedCoins::new(*seed, 0);
            edit_circuit::<SeedCoins, S, O, W>(
                alloc,
                counted,
                circuit,
                n,
                stride,
                coins,
                script_input,
                out,
            )
        }
        Source::List(list) => {
            let coins = ListCoins::new(list.as_slice());
            edit_circuit::<ListCoins, S, O, W>(
                alloc,
                counted,
                circuit,
                n,
                stride,
                coins,
                script_input,
                out,
            )
        }
    }
}

/// Reads a circuit, and edits it by a script: the reply to each line is written before the next
/// line is read.
///
/// The circuit is read whole first; its faults, and `QubitOutOfRange` if it names a qubit past
/// those asked for, leave the script unread and the output untouched. It has as many qubits as are
/// asked for, at most 1,024, or as it names. The stride is from 1 to 65,536. Coins are those of shot
/// 0. True if a line was refused. Faults: those of the circuit; `ReadFault` if an input
/// failed and `TooLong` for a script of more than 67,108,864 bytes, both after exactly the replies
/// to what was read whole; `WriteFault` if the output failed, and `OutOfMemory`, both after a
/// prefix of all replies.
pub fn run_edit<I: Input, S: Input, O: Output>(
    alloc: Global,
    circuit_input: &mut I,
    script_input: &mut S,
    out: &mut O,
    qubits: Option<usize>,
    stride: usize,
    source: &Source,
) -> Result<bool, Fault>
    requires in_range { IfSome qubits (λ n. n ≤ most_qubits) }
    requires stride_above { 1 ≤ stride }
    requires stride_within { stride ≤ most_stride }
    ensures ends { EndsPlainEdit qubits source.now (I.seen circuit_input.old) (I.seen circuit_input.new) (S.seen script_input.old) (S.seen script_input.new) (O.seen out.old) (O.seen out.new) result }
{
    run_edit_watched::<I, S, O, NoWatcher>(
        alloc,
        circuit_input,
        script_input,
        out,
        false,
        qubits,
        stride,
        source,
    )
}
