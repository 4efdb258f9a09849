//! Letters of strings with their qubits, and whether strings differ.

ghost use Rattle.std.specs.Prelude.{◌≡◌, ◌++◌, ◌∷◌, [], length, IfOk, OnOk};
ghost use Rattle.std.specs.List.{list_any};
ghost use Rattle.stab_pauli.specs.Paulis.{string_product};
ghost use Rattle.stab_frames.specs.inner.Touches.{acts};
ghost use Rattle.stab_ways.specs.Ways.{differ as differ_of, placed as placed_from};

use crate::way::PlacedLetter;
use stab_gates::Letter;
use std::alloc::{AllocError, Global};

/// Whether two strings of as many letters differ.
pub(crate) fn differ(old: &[Letter], new: &[Letter]) -> bool
    requires same_length { length new.now ≡ length old.now }
    ensures value { result ≡ differ_of old.now new.now }
{
    let mut found = false;
    for qubit in 0..old.len() {
        found |= old[qubit].times(new[qubit]) != Letter::I;
    }
    found
}

/// The letters of a string that are not I, by qubit.
pub fn placed(alloc: Global, letters: &[Letter]) -> Result<Vec<PlacedLetter>, AllocError>
    ensures value { IfOk result (λ v. v.items ≡ placed_from 0 letters.now) }
{
    let mut found = Vec::new(alloc);
    for qubit in 0..letters.len() {
        push_letter(&mut found, letters[qubit], qubit)?;
    }
    Ok(found)
}

/// Puts a letter after others, unless it is I.
fn push_letter(
    found: &mut Vec<PlacedLetter>,
    letter: Letter,
    qubit: usize,
) -> Result<(), AllocError>
    ensures value { OnOk result (found.new.items ≡ found.old.items ++ placed_from qubit (letter ∷ [])) }
{
    if letter != Letter::I {
        found.push(PlacedLetter { letter, qubit })?;
    }
    Ok(())
}
