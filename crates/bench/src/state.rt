ghost use Rattle.std.specs.Prelude.{◌≡◌, ◌≢◌, ◌<◌, ◌≤◌, IfOk};
ghost use Rattle.stab_gates.specs.Limits.{most_qubits};

use stab_pauli::Refusal;
use stab_tableau::{Gate, PairGate, Tableau};
use std::alloc::Global;

/// A state of n qubits in which gates have joined each qubit with all others.
pub fn scrambled(alloc: Global, n: usize) -> Result<Tableau, Refusal>
    requires in_range { n ≤ most_qubits }
    ensures qubits { IfOk result (λ t. t.qubits ≡ n) }
{
    let mut tableau = Tableau::new(alloc, n)?;
    scramble(&mut tableau);
    Ok(tableau)
}

/// Joins each qubit with all others by gates.
pub fn scramble(tableau: &mut Tableau)
    requires in_range { tableau.old.qubits ≤ most_qubits }
    ensures qubits { tableau.new.qubits ≡ tableau.old.qubits }
{
    let mut stride = 1;
    while stride < tableau.len() {
        join_with_stride(tableau, stride);
        stride *= 2;
    }
}

/// Applies gates to each qubit and the one that is a stride after it.
fn join_with_stride(tableau: &mut Tableau, stride: usize)
    requires above_zero { 0 < stride }
    requires in_range { stride < tableau.old.qubits }
    ensures qubits { tableau.new.qubits ≡ tableau.old.qubits }
{
    for qubit in 0..tableau.len() {
        let other = after(qubit, stride, tableau.len());
        tableau.apply(Gate::H, qubit);
        tableau.apply(Gate::S, other);
        tableau.apply_pair(PairGate::Cx, qubit, other);
    }
}

/// The qubit that is a stride after another, if the last of n is followed by the first.
pub fn after(qubit: usize, stride: usize, n: usize) -> usize
    requires qubit_in_range { qubit < n }
    requires stride_in_range { stride < n }
    ensures in_range { result < n }
    ensures distinct { 0 < stride → result ≢ qubit }
{
    let left = n - qubit;
    if stride < left {
        qubit + stride
    } else {
        stride - left
    }
}
