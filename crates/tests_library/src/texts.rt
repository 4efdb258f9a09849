//! Pauli strings from texts and printed, and calls that check what they ask for.

use stab_pauli::{Letter, MemoryOutput, Pauli, Refusal};
use std::alloc::Global;

/// The Pauli that a text such as `-_XZ` stands for.
pub(crate) fn read(alloc: Global, text: &str) -> Result<Pauli, Refusal> {
    let mut pauli = Pauli::identity(alloc, text.len().saturating_sub(1))?;
    for (index, byte) in text.as_bytes().iter().enumerate() {
        match *byte {
            b'-' => pauli.negate(),
            // Letters are after the sign.
            b'X' => set(&mut pauli, index.wrapping_sub(1), Letter::X),
            b'Y' => set(&mut pauli, index.wrapping_sub(1), Letter::Y),
            b'Z' => set(&mut pauli, index.wrapping_sub(1), Letter::Z),
            _ => {}
        }
    }
    Ok(pauli)
}

/// Sets a letter, if there is that qubit.
pub(crate) fn set(pauli: &mut Pauli, qubit: usize, letter: Letter) {
    if qubit < pauli.len() {
        pauli.set(qubit, letter);
    }
}

/// The string with one letter, at a qubit among n; without a letter if there is no such qubit.
pub(crate) fn single(
    alloc: Global,
    n: usize,
    qubit: usize,
    letter: Letter,
) -> Result<Pauli, Refusal> {
    if qubit < n {
        Pauli::single(alloc, n, qubit, letter)
    } else {
        Pauli::identity(alloc, n)
    }
}

/// Whether two strings have one length and commute.
pub(crate) fn commute(pauli: &Pauli, other: &Pauli) -> bool {
    pauli.len() == other.len() && pauli.commutes(other)
}

/// Multiplies a string by one that commutes with it, or by one that anticommutes with it and by i, if
/// they have the same length.
pub(crate) fn multiply(pauli: &mut Pauli, other: &Pauli) -> bool {
    let allowed = pauli.len() == other.len();
    if allowed {
        if pauli.commutes(other) {
            pauli.multiply(other);
        } else {
            pauli.multiply_times_i(other);
        }
    }
    allowed
}

/// Multiplies the letters of a string by those of another, if they have the same length.
pub(crate) fn multiply_letters(pauli: &mut Pauli, other: &Pauli) -> bool {
    let allowed = pauli.len() == other.len();
    if allowed {
        pauli.multiply_letters(other);
    }
    allowed
}

/// Whether the Pauli is printed as the text.
pub(crate) fn prints(alloc: Global, pauli: &Pauli, text: &str) -> Result<bool, Refusal> {
    let mut out = MemoryOutput::new(alloc, 2048)?;
    pauli.write_text(&mut out)?;
    Ok(out.bytes() == text.as_bytes())
}

/// Whether both hold, if both are known.
pub(crate) fn both(
    first: Result<bool, Refusal>,
    second: Result<bool, Refusal>,
) -> Result<bool, Refusal> {
    Ok(first? && second?)
}

/// n times one letter.
pub(crate) fn repeated(alloc: Global, n: usize, letter: Letter) -> Result<Pauli, Refusal> {
    let mut pauli = Pauli::identity(alloc, n)?;
    for qubit in 0..n {
        set(&mut pauli, qubit, letter);
    }
    Ok(pauli)
}
