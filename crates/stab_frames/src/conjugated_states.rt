//! Stored states conjugated by the letters of a frame.

ghost use Rattle.std.specs.Prelude.{◌≡◌, ◌<◌, length};
ghost use Rattle.stab_pauli.specs.Paulis.{single};
ghost use Rattle.stab_tableau.specs.Tableaus.{stabilises};
ghost use Rattle.stab_tableau.specs.Conjugations.{IsConjugated};

use stab_pauli::Letter;
use stab_tableau::CompactTableau;

/// Applies a letter to a qubit of a stored state. Most letters of a frame are I, which flips no sign.
fn apply_at(state: &mut CompactTableau, letter: Letter, qubit: usize)
    requires in_range { qubit < state.old.qubits }
    ensures qubits { state.new.qubits ≡ state.old.qubits }
    ensures conjugated { IsConjugated state.old.qubits (single state.old.qubits qubit letter).letters (stabilises state.old) (stabilises state.new) }
{
    match letter {
        Letter::I => {}
        Letter::X | Letter::Y | Letter::Z => state.conjugate_letter(letter, qubit),
    }
}

/// Conjugates a stored state by letters, one a qubit.
pub fn apply_frame_to(state: &mut CompactTableau, letters: &[Letter])
    requires same_length { length letters.now ≡ state.old.qubits }
    ensures qubits { state.new.qubits ≡ state.old.qubits }
    ensures conjugated { IsConjugated state.old.qubits letters.now (stabilises state.old) (stabilises state.new) }
{
    for qubit in 0..letters.len() {
        apply_at(state, letters[qubit], qubit);
    }
}
