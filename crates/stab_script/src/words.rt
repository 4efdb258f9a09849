//! Where a string is put in, and the string, that the words of a command line or a script ask about.
ghost use Rattle.std.specs.Prelude.{◌≡◌, None, IfOk, length};
ghost use Rattle.stab_items.specs.Steps.{check_of, unroll};
ghost use Rattle.stab_items.specs.Views.{circuit_items};
ghost use Rattle.stab_instructions.specs.Results.{Gives};
ghost use Rattle.stab_script.specs.CountedRequests.{round_number_of};
ghost use Rattle.stab_script.specs.Words.{GivesPutIn, is_end, put_in_of, steps_in_front, steps_of_word, steps_written};

use crate::counted::read_round;
use crate::paths::read_path;
use crate::signs::read_string;
use stab_circuit::{Circuit, Path};
use stab_io::Refusal;
use stab_pauli::Pauli;
use std::alloc::Global;

/// This many steps, if a number is given and the circuit has as many.
fn steps_written(circuit: &Circuit, number: Option<u64>) -> Result<usize, Refusal>
    requires checked { check_of (circuit_items circuit.now) ≡ None }
    ensures gives { Gives result (steps_written (length (unroll (circuit_items circuit.now))) number) }
{
    match number {
        None => Err(Refusal::BadArguments),
        Some(asked) if asked <= circuit.steps() as u64 => Ok(asked as usize),
        Some(_) => Err(Refusal::PlaceOutOfRange),
    }
}

/// Whether a path is that of the end of a circuit.
fn is_end(circuit: &Circuit, path: &Path) -> bool
    ensures value { result ≡ is_end path.now (circuit_items circuit.now) }
{
    path.blocks().is_empty() && path.position() == circuit.items().len()
}

/// How many steps are before the item at a path, in the first round of each block around it, or all at the end of a circuit.
fn steps_in_front(circuit: &Circuit, path: Option<Path>) -> Result<usize, Refusal>
    requires checked { check_of (circuit_items circuit.now) ≡ None }
    ensures gives { Gives result (steps_in_front (circuit_items circuit.now) path) }
{
    let Some(path) = path else {
        return Err(Refusal::BadArguments);
    };
    if is_end(circuit, &path) {
        return Ok(circuit.steps());
    }
    let _ = circuit.item(path)?;
    Ok(circuit.steps_before(path).min(circuit.steps()))
}

/// How many steps are before where a word says: as many as it writes after `@`, as in `@1207`, or those before the item that
/// it goes to, as `3/0/2` does, in the first round of each block around it; the number of items is the end.
///
/// Refusals: `BadArguments` if it is no such word, `PlaceOutOfRange` and `NotABlock`.
fn read_steps(circuit: &Circuit, word: &[u8]) -> Result<usize, Refusal>
    requires checked { check_of (circuit_items circuit.now) ≡ None }
    ensures gives { Gives result (steps_of_word (circuit_items circuit.now) word.now) }
{
    if !word.is_empty() && word[0] == b'@' {
        return steps_written(circuit, read_round(&word[1..]));
    }
    steps_in_front(circuit, read_path(word))
}

/// How many steps are before where a word says, and the string of another one, on n qubits.
///
/// Refusals: those of `read_steps`, and after them those of `read_string`.
pub(crate) fn read_put_in(
    alloc: Global,
    circuit: &Circuit,
    n: usize,
    at: &[u8],
    word: &[u8],
) -> Result<(usize, Pauli), Refusal>
    requires checked { check_of (circuit_items circuit.now) ≡ None }
    ensures gives { GivesPutIn result (put_in_of n (circuit_items circuit.now) at.now word.now) }
    ensures size { IfOk result (λ r. length r.1.letters ≡ n) }
{
    let steps = read_steps(circuit, at)?;
    let string = read_string(alloc, n, word)?;
    Ok((steps, string))
}
