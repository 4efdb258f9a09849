//! Stabiliser states: groups that are the same, also of copies and of states that are reset, and the rows of a
//! Bell pair.
//!
//! `tools/fuzz.py --states` tries what gates, measurements and resets make of states, and runs the
//! program; here are the calls that no command makes, or whose answers none shows.
mod calls;
mod stored;

use crate::texts::{both, prints, single};
use calls::Call::{self, Copy, Measure, One, Reset, Two, Wear};
use calls::EndQubit::{First, Last};
use calls::carry_out;
use stab_pauli::{Letter, Pauli, Refusal};
use stab_tableau::{Collapse, Gate, PairGate, Tableau};
use std::alloc::Global;
use std::test::Fail;

// Sizes around those at which words and blocks of words end.
const SIZES: [usize; 12] = [2, 63, 64, 65, 127, 128, 129, 255, 256, 257, 1023, 1024];

// A Bell pair of the first and the last qubit.
const BELL: &[Call] = &[TURN, ENTANGLE];

const TURN: Call = One(Gate::H, First);

const ENTANGLE: Call = Two(PairGate::Cx, First, Last);

// The state of n qubits after these calls.
fn state(alloc: Global, n: usize, calls: &[Call]) -> Result<Tableau, Refusal> {
    let mut tableau = Tableau::new(alloc, n.min(1024))?;
    carry_out(alloc, &mut tableau, calls)?;
    Ok(tableau)
}

// Whether it is answered, asked of either, that two states have one group or have not.
fn are_same(first: &mut Tableau, second: &mut Tableau, wanted: bool) -> bool {
    first.len() == second.len()
        && first.same_group(second) == wanted
        && second.same_group(first) == wanted
}

// Whether that is answered of states of n qubits after these calls and after those.
fn are_same_after(
    alloc: Global,
    n: usize,
    calls: &[Call],
    others: &[Call],
    wanted: bool,
) -> Result<bool, Refusal> {
    let mut first = state(alloc, n, calls)?;
    let mut second = state(alloc, n, others)?;
    Ok(are_same(&mut first, &mut second, wanted))
}

// A Bell pair whose half was measured with the coin 1.
const HALF: &[Call] = &[TURN, ENTANGLE, Measure("+Z_", true)];

// The same, if every qubit was rotated, entangled and measured, and the state then reset.
const HALF_AFTER_RESET: &[Call] = &[Wear, Reset, TURN, ENTANGLE, Measure("+Z_", true)];

const GROUPS: &[(usize, &[Call], &[Call], bool)] = &[
    (2, BELL, BELL, true),
    // Signs alone distinguish groups if they are the signs of members.
    (1, &[], &[One(Gate::Z, First)], true),
    (1, &[], &[One(Gate::Z, First), One(Gate::X, First)], false),
    // A phase flip on a qubit that is zero keeps the group.
    (
        2,
        &[One(Gate::H, First)],
        &[One(Gate::H, First), One(Gate::Z, Last)],
        true,
    ),
    (
        2,
        &[One(Gate::H, First)],
        &[One(Gate::H, First), One(Gate::Z, Last), One(Gate::Z, First)],
        false,
    ),
    // States of one group may have other rows.
    (
        2,
        BELL,
        &[One(Gate::H, Last), Two(PairGate::Cx, Last, First)],
        true,
    ),
    (
        2,
        BELL,
        &[
            One(Gate::H, Last),
            Two(PairGate::Cx, Last, First),
            One(Gate::X, Last),
        ],
        false,
    ),
    // A state that is reset is all zeros, and goes on.
    (2, &[Wear, Reset], &[], true),
    (65, &[Wear, Reset], &[], true),
    (257, &[Wear, Reset], &[], true),
    (2, &[Wear], &[], false),
    (65, &[Wear], &[], false),
    (257, &[Wear], &[], false),
    (2, HALF_AFTER_RESET, HALF, true),
    (65, HALF_AFTER_RESET, HALF, true),
    (257, HALF_AFTER_RESET, HALF, true),
    // A copy stays as it was whatever becomes of the state.
    (
        1,
        &[One(Gate::X, First), Copy],
        &[One(Gate::X, First)],
        true,
    ),
    (
        1,
        &[One(Gate::X, First), Copy, One(Gate::X, First)],
        &[],
        true,
    ),
    (2, &[TURN, ENTANGLE, Copy], BELL, true),
    (65, &[TURN, ENTANGLE, Copy], BELL, true),
    (2, &[TURN, ENTANGLE, Copy, Measure("+Z_", true)], HALF, true),
];

#[test]
fn groups_are_compared(rt: HostRuntime) -> Result<(), Fail> {
    for (number, &(n, calls, others, wanted)) in GROUPS.iter().enumerate() {
        let right = are_same_after(rt.alloc(), n, calls, others, wanted)?;
        assert!(rt; right, "group {number}");
    }
    Ok(())
}

// Whether stabiliser and destabiliser k are printed as the texts.
fn has_rows(
    alloc: Global,
    tableau: &mut Tableau,
    k: usize,
    stabiliser: &str,
    destabiliser: &str,
) -> Result<bool, Refusal> {
    if k >= tableau.len() {
        return Ok(false);
    }
    let destabilises = match tableau.destabiliser(alloc, k) {
        Ok(row) => prints(alloc, &row, destabiliser),
        Err(refusal) => Err(refusal),
    };
    match tableau.stabiliser(alloc, k) {
        Ok(row) => both(destabilises, prints(alloc, &row, stabiliser)),
        Err(refusal) => Err(refusal),
    }
}

// Whether stabiliser and destabiliser k of a Bell pair are printed as the texts.
fn bell_has_rows(
    alloc: Global,
    k: usize,
    stabiliser: &str,
    destabiliser: &str,
) -> Result<bool, Refusal> {
    let mut tableau = state(alloc, 2, BELL)?;
    tableau.stabilisers_are_dual();
    tableau.stabilisers_generate();
    has_rows(alloc, &mut tableau, k, stabiliser, destabiliser)
}

#[test]
fn a_bell_pair_has_its_rows(rt: HostRuntime) -> Result<(), Fail> {
    let first = bell_has_rows(rt.alloc(), 0, "+XX", "+Z_")?;
    let second = bell_has_rows(rt.alloc(), 1, "+ZZ", "+_X")?;
    assert!(rt; first && second);
    Ok(())
}

const ZERO_AND_FIXED: Collapse = Collapse {
    outcome: false,
    free: false,
};

// Whether a string is X on the first qubit and has no other letter.
fn is_first_x(string: &Pauli) -> bool {
    let n = string.len();
    n > 0 && string.letter(0) == Letter::X && string.next_letter(1) == n
}

// Whether I is measured as 0 whatever the coin, on either end, and a string for what exchanges its outcomes stays as it
// was.
fn letter_i_is_fixed(tableau: &mut Tableau, coin: bool, string: &mut Pauli) -> bool {
    let n = tableau.len();
    if n == 0 || string.len() != n {
        return false;
    }
    tableau.fixed_letter(Letter::I, 0) == Some(false)
        && tableau.collapse_letter(Letter::I, n - 1, coin) == ZERO_AND_FIXED
        && tableau.collapse_letter_with_pivot(Letter::I, n - 1, coin, string) == ZERO_AND_FIXED
        && is_first_x(string)
}

// Whether the same holds for the string without a letter.
fn identity_is_fixed(
    tableau: &mut Tableau,
    identity: &Pauli,
    coin: bool,
    string: &mut Pauli,
) -> bool {
    let n = tableau.len();
    if identity.len() != n || string.len() != n {
        return false;
    }
    tableau.collapse(identity, coin) == ZERO_AND_FIXED
        && tableau.collapse_with_pivot(identity, coin, string) == ZERO_AND_FIXED
        && is_first_x(string)
}

// Whether both hold for a Bell pair of n qubits.
fn identities_are_fixed(alloc: Global, n: usize, coin: bool) -> Result<bool, Refusal> {
    let mut tableau = state(alloc, n, BELL)?;
    let identity = Pauli::identity(alloc, tableau.len())?;
    let mut string = single(alloc, tableau.len(), 0, Letter::X)?;
    let letter = letter_i_is_fixed(&mut tableau, coin, &mut string);
    Ok(letter && identity_is_fixed(&mut tableau, &identity, coin, &mut string))
}

#[test]
fn what_has_no_letter_is_never_random(rt: HostRuntime) -> Result<(), Fail> {
    for n in SIZES {
        let fixed = identities_are_fixed(rt.alloc(), n, n % 2 == 0)?;
        assert!(rt; fixed, "{n}");
    }
    Ok(())
}
