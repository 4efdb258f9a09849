//! Values as bytes, so that all of them can be compared. Nothing here is refused memory.
use crate::one_drop::OneDrop;
use crate::stop::Stop;
use stab_circuit::{Circuit, read_circuit, write_circuit};
use stab_io::write_all;
use stab_pauli::{Letter, MemoryInput, MemoryOutput, Pauli};
use stab_results::{Format, Kinds, write_shot};
use stab_session::{Coins, Shot};
use std::alloc::Global;

/// The circuit that a text stands for.
pub fn circuit_of(alloc: Global, text: &[u8]) -> Result<OneDrop<Circuit>, Stop> {
    let circuit = read_circuit(alloc, &mut MemoryInput::new(text))?;
    Ok(OneDrop(circuit))
}

/// Writes bits as characters.
pub fn show_bits(out: &mut MemoryOutput, bits: &[bool]) -> Result<(), Stop> {
    write_shot(out, Format::F01, Kinds::Measurements, bits)?;
    Ok(())
}

/// Writes lists of bits.
pub fn show_lists(out: &mut MemoryOutput, lists: &[&[bool]]) -> Result<(), Stop> {
    for list in lists {
        show_bits(out, list)?;
    }
    Ok(())
}

/// Writes the four lists of a shot.
pub fn show_shot(out: &mut MemoryOutput, shot: &Shot) -> Result<(), Stop> {
    show_lists(
        out,
        &[
            shot.records.as_slice(),
            shot.free.as_slice(),
            shot.detectors.as_slice(),
            shot.observables.as_slice(),
        ],
    )
}

/// Writes coins 0 to 99.
pub fn show_coins<C: Coins>(out: &mut MemoryOutput, coins: &mut C) -> Result<(), Stop> {
    for number in 0..100 {
        show_bits(out, &[coins.coin(number)])?;
    }
    Ok(())
}

/// Writes strings, a line each.
pub fn show_strings(out: &mut MemoryOutput, strings: &[Pauli]) -> Result<(), Stop> {
    for string in strings {
        show_string(out, string)?;
    }
    Ok(())
}

/// Writes a string.
pub fn show_string(out: &mut MemoryOutput, string: &Pauli) -> Result<(), Stop> {
    string.write_text(out)?;
    write_all(out, b"\n")?;
    Ok(())
}

/// A state of qubits, which single letters may stabilise.
pub trait State {
    /// The sign of a letter on a qubit, I elsewhere, as by `sign_of`; none if there is no such qubit.
    fn sign(&mut self, alloc: Global, qubit: usize, letter: Letter) -> Result<Option<bool>, Stop>;
}

/// No state has more qubits.
pub const MOST_QUBITS: usize = 5;

/// Writes the signs of all single letters.
pub fn show_signs<S: State>(
    alloc: Global,
    out: &mut MemoryOutput,
    state: &mut S,
) -> Result<(), Stop> {
    for qubit in 0..MOST_QUBITS {
        show_sign(alloc, out, state, qubit, Letter::X)?;
        show_sign(alloc, out, state, qubit, Letter::Y)?;
        show_sign(alloc, out, state, qubit, Letter::Z)?;
    }
    Ok(())
}

/// Writes the sign of a letter on a qubit, or 0 if it has none.
fn show_sign<S: State>(
    alloc: Global,
    out: &mut MemoryOutput,
    state: &mut S,
    qubit: usize,
    letter: Letter,
) -> Result<(), Stop> {
    let sign = match state.sign(alloc, qubit, letter)? {
        None => b"0",
        Some(false) => b"+",
        Some(true) => b"-",
    };
    write_all(out, sign)?;
    Ok(())
}

/// Writes numbers.
fn show_numbers(out: &mut MemoryOutput, numbers: &[usize]) -> Result<(), Stop> {
    for number in numbers {
        write_all(out, &number.to_le_bytes())?;
    }
    Ok(())
}

/// Writes a circuit, and the numbers that it keeps.
pub fn show_circuit(out: &mut MemoryOutput, circuit: &Circuit) -> Result<(), Stop> {
    write_circuit(out, circuit)?;
    show_numbers(
        out,
        &[
            circuit.qubits(),
            circuit.observables(),
            circuit.steps(),
            circuit.records(),
        ],
    )
}
