ghost use Rattle.std.specs.Prelude.{◌≡◌, ◌<◌, length, IfOk, IfErr};
ghost use Rattle.stab_io.specs.declared.refusal.Refusal.TheVariants.{OutOfMemory};
ghost use Rattle.stab_tableau.specs.Tableaus.{stabilises};
ghost use Rattle.stab_tableau.specs.Conjugations.{IsConjugated};
ghost use Rattle.stab_pauli.specs.Paulis.{single};

use stab_frames::apply_frame_to;
use stab_io::Refusal;
use stab_pauli::Letter;
use stab_run::as_gate;
use stab_tableau::{CompactTableau, Tableau};
use std::alloc::Global;

/// Applies letters, one a qubit, to a state: signs are flipped. It takes no memory.
///
/// A string stabilises the new state if it stabilised the old one with its sign flipped, if it
/// anticommutes with the letters.
pub fn apply_frame(tableau: &mut Tableau, letters: &[Letter])
    requires same_length { length letters.now ≡ tableau.old.qubits }
    ensures qubits { tableau.new.qubits ≡ tableau.old.qubits }
    ensures conjugated { IsConjugated tableau.old.qubits letters.now (stabilises tableau.old) (stabilises tableau.new) }
{
    for qubit in 0..letters.len() {
        conjugate_letter(tableau, letters[qubit], qubit);
    }
}

/// Applies one letter at a qubit.
fn conjugate_letter(tableau: &mut Tableau, letter: Letter, qubit: usize)
    requires in_range { qubit < tableau.old.qubits }
    ensures qubits { tableau.new.qubits ≡ tableau.old.qubits }
    ensures conjugated { IsConjugated tableau.old.qubits (single tableau.old.qubits qubit letter).letters (stabilises tableau.old) (stabilises tableau.new) }
{
    tableau.apply(as_gate(letter), qubit);
}

/// A checkpoint's state, conjugated by letters, one a qubit.
///
/// Refusal `OutOfMemory` alone.
pub fn propagated_checkpoint(
    alloc: Global,
    checkpoint: &CompactTableau,
    letters: &[Letter],
) -> Result<CompactTableau, Refusal>
    requires same_length { length letters.now ≡ checkpoint.now.qubits }
    ensures qubits { IfOk result (λ c. c.qubits ≡ checkpoint.now.qubits) }
    ensures conjugated { IfOk result (λ c. IsConjugated checkpoint.now.qubits letters.now (stabilises checkpoint.now) (stabilises c)) }
    ensures err { IfErr result (λ r. r ≡ OutOfMemory) }
{
    let mut conjugated = checkpoint.copy(alloc)?;
    apply_frame_to(&mut conjugated, letters);
    Ok(conjugated)
}
