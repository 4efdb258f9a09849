//! Calls that make states, as data.
use crate::texts::read;
use stab_pauli::{Letter, Pauli, Refusal};
use stab_tableau::{Gate, PairGate, Tableau};
use std::alloc::Global;

// The qubit 0, or the last one.
#[derive(Clone, Copy)]
pub(super) enum EndQubit {
    First,
    Last,
}

// A call.
#[derive(Clone, Copy)]
pub(super) enum Call {
    One(Gate, EndQubit),
    Two(PairGate, EndQubit, EndQubit),
    // The measurement, with a coin, of the string with the two letters of a text, such as `-XZ`, on the first
    // and on the last qubit.
    Measure(&'static str, bool),
    // Every qubit is rotated, entangled and measured.
    Wear,
    Reset,
    // The state is copied, every qubit of it is rotated, entangled and measured, and the copy takes its place.
    Copy,
}

fn qubit(tableau: &Tableau, end: EndQubit) -> usize {
    match end {
        EndQubit::First => 0,
        EndQubit::Last => tableau.len().saturating_sub(1),
    }
}

fn apply(tableau: &mut Tableau, gate: Gate, qubit: usize) -> bool {
    let allowed = qubit < tableau.len();
    if allowed {
        tableau.apply(gate, qubit);
    }
    allowed
}

fn apply_pair(tableau: &mut Tableau, gate: PairGate, first: usize, second: usize) -> bool {
    let allowed = first < tableau.len() && second < tableau.len() && second != first;
    if allowed {
        tableau.apply_pair(gate, first, second);
    }
    allowed
}

// The Pauli that has the first letter of a text on qubit 0 among n, and the second on the last qubit.
fn spread(alloc: Global, n: usize, text: &str) -> Result<Pauli, Refusal> {
    let pair = read(alloc, text)?;
    let mut pauli = Pauli::identity(alloc, n)?;
    if n > 1 && pair.len() == 2 && pauli.len() == n {
        pauli.set(0, pair.letter(0));
        pauli.set(n - 1, pair.letter(1));
    }
    pauli.negate_if(pair.is_negative());
    Ok(pauli)
}

fn collapse(tableau: &mut Tableau, pauli: &Pauli, coin: bool) -> bool {
    let allowed = pauli.len() == tableau.len();
    if allowed {
        tableau.collapse(pauli, coin);
    }
    allowed
}

fn measure(alloc: Global, tableau: &mut Tableau, text: &str, coin: bool) -> Result<bool, Refusal> {
    let pauli = spread(alloc, tableau.len(), text)?;
    Ok(collapse(tableau, &pauli, coin))
}

// Turns a qubit, entangles it with the next one, and measures X on it with the coin 1.
fn wear(tableau: &mut Tableau, qubit: usize) {
    let next = qubit.wrapping_add(1);
    let next = if next < tableau.len() { next } else { 0 };
    apply(tableau, Gate::H, qubit);
    apply(tableau, Gate::S, qubit);
    apply_pair(tableau, PairGate::Cx, qubit, next);
    if qubit < tableau.len() {
        tableau.collapse_letter(Letter::X, qubit, true);
    }
}

fn wear_all(tableau: &mut Tableau) {
    for qubit in 0..tableau.len() {
        wear(tableau, qubit);
    }
}

fn go_on_with_copy(alloc: Global, tableau: &mut Tableau) -> Result<bool, Refusal> {
    let copy = tableau.copy(alloc)?;
    wear_all(tableau);
    *tableau = copy;
    Ok(true)
}

// Makes a call, if a state has the qubits that it names.
fn carry_out_one(alloc: Global, tableau: &mut Tableau, call: Call) -> Result<bool, Refusal> {
    match call {
        Call::One(gate, end) => Ok(apply(tableau, gate, qubit(tableau, end))),
        Call::Two(gate, first, second) => {
            let (first, second) = (qubit(tableau, first), qubit(tableau, second));
            Ok(apply_pair(tableau, gate, first, second))
        }
        Call::Measure(text, coin) => measure(alloc, tableau, text, coin),
        Call::Wear => {
            wear_all(tableau);
            Ok(true)
        }
        Call::Reset => {
            tableau.reset();
            Ok(true)
        }
        Call::Copy => go_on_with_copy(alloc, tableau),
    }
}

// Makes calls, one after another, and says whether each was made.
pub(super) fn carry_out(
    alloc: Global,
    tableau: &mut Tableau,
    calls: &[Call],
) -> Result<bool, Refusal> {
    let mut all = true;
    for call in calls {
        all &= carry_out_one(alloc, tableau, *call)?;
    }
    Ok(all)
}
