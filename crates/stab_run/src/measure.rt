//! Measurements of a letter or a string, which ask for a coin only if the coin decides.

ghost use Rattle.std.specs.Prelude.{◌≡◌, ◌+◌, ◌<◌, ◌≤◌, ◌∷◌, [], true, length, All};
ghost use Rattle.stab_pauli.specs.Paulis.{Signed, single};
ghost use Rattle.stab_tableau.specs.Tableaus.{stabilises};
ghost use Rattle.stab_tableau.specs.Rules.{outcome_by, is_random_by, projected_by};
ghost use Rattle.stab_tableau.specs.Pivots.{IsPivot};
ghost use Rattle.stab_run.specs.Records.{ones};
ghost use Rattle.stab_run.specs.Runs.{string_of};

use crate::coins::Coins;
use stab_instructions::Factor;
use stab_pauli::{Letter, Pauli};
use stab_tableau::{Collapse, Tableau};

/// Measures a letter on a qubit, and asks for the coin with this number only if the coin decides.
pub fn measure<C: Coins>(
    tableau: &mut Tableau,
    coins: &mut C,
    coin: u64,
    letter: Letter,
    qubit: usize,
) -> Collapse
    requires in_range { qubit < tableau.old.qubits }
    ensures qubits { tableau.new.qubits ≡ tableau.old.qubits }
    ensures same_coins { C.sequence coins.new ≡ C.sequence coins.old }
    ensures asks { C.asks coins.new ≤ C.asks coins.old + ones (result.free ∷ []) }
    ensures outcome { result.outcome ≡ outcome_by (stabilises tableau.old) (single tableau.old.qubits qubit letter) (C.sequence coins.old coin) }
    ensures free { result.free ≡ is_random_by (stabilises tableau.old) (single tableau.old.qubits qubit letter) }
    ensures members { (p : Signed) → length p.letters ≡ tableau.old.qubits → stabilises tableau.new p ≡ projected_by (stabilises tableau.old) (single tableau.old.qubits qubit letter) result.outcome p }
{
    match tableau.fixed_letter(letter, qubit) {
        Some(outcome) => Collapse {
            outcome,
            free: false,
        },
        None => tableau.collapse_letter(letter, qubit, coins.coin(coin)),
    }
}

/// `measure`, which also, if the coin decides, makes a string the letters of a stabiliser of the state before that exchanges
/// the outcomes.
pub fn measure_with_pivot<C: Coins>(
    tableau: &mut Tableau,
    pivot: &mut Pauli,
    coins: &mut C,
    coin: u64,
    letter: Letter,
    qubit: usize,
) -> Collapse
    requires in_range { qubit < tableau.old.qubits }
    requires pivot_length { length pivot.old.letters ≡ tableau.old.qubits }
    ensures qubits { tableau.new.qubits ≡ tableau.old.qubits }
    ensures same_coins { C.sequence coins.new ≡ C.sequence coins.old }
    ensures asks { C.asks coins.new ≤ C.asks coins.old + ones (result.free ∷ []) }
    ensures outcome { result.outcome ≡ outcome_by (stabilises tableau.old) (single tableau.old.qubits qubit letter) (C.sequence coins.old coin) }
    ensures free { result.free ≡ is_random_by (stabilises tableau.old) (single tableau.old.qubits qubit letter) }
    ensures members { (p : Signed) → length p.letters ≡ tableau.old.qubits → stabilises tableau.new p ≡ projected_by (stabilises tableau.old) (single tableau.old.qubits qubit letter) result.outcome p }
    ensures pivot_length { length pivot.new.letters ≡ length pivot.old.letters }
    ensures pivot { result.free ≡ true → IsPivot tableau.old.qubits (stabilises tableau.old) (single tableau.old.qubits qubit letter) pivot.new.letters }
{
    match tableau.fixed_letter(letter, qubit) {
        Some(outcome) => Collapse {
            outcome,
            free: false,
        },
        None => { tableau.collapse_letter_with_pivot(letter, qubit, coins.coin(coin), pivot) }
    }
}

/// Makes a string that of a product: the factors' letters at their qubits, I elsewhere, with the
/// sign +.
pub fn write_product(string: &mut Pauli, factors: &[Factor])
    requires in_range { All (λ f. f.qubit < length string.old.letters) factors.now }
    ensures value { string.new ≡ string_of (length string.old.letters) factors.now }
    ensures same_length { length string.new.letters ≡ length string.old.letters }
{
    string.clear();
    for factor in factors {
        string.set(factor.qubit.number(), factor.letter.letter());
    }
}

/// Measures a string, and asks for the coin with this number only if the coin decides.
pub fn measure_string<C: Coins>(
    tableau: &mut Tableau,
    coins: &mut C,
    coin: u64,
    string: &Pauli,
) -> Collapse
    requires same_length { length string.now.letters ≡ tableau.old.qubits }
    ensures qubits { tableau.new.qubits ≡ tableau.old.qubits }
    ensures same_coins { C.sequence coins.new ≡ C.sequence coins.old }
    ensures asks { C.asks coins.new ≤ C.asks coins.old + ones (result.free ∷ []) }
    ensures outcome { result.outcome ≡ outcome_by (stabilises tableau.old) string.now (C.sequence coins.old coin) }
    ensures free { result.free ≡ is_random_by (stabilises tableau.old) string.now }
    ensures members { (p : Signed) → length p.letters ≡ tableau.old.qubits → stabilises tableau.new p ≡ projected_by (stabilises tableau.old) string.now result.outcome p }
{
    // Since members are a group, a fixed outcome leaves the state as it is.
    tableau.stabilises_a_group();
    match tableau.sign_of(string) {
        Some(outcome) => Collapse {
            outcome,
            free: false,
        },
        None => tableau.collapse(string, coins.coin(coin)),
    }
}

/// `measure_string`, which also, if the coin decides, makes another string the letters of a stabiliser of the state before
/// that exchanges the outcomes.
pub fn measure_string_with_pivot<C: Coins>(
    tableau: &mut Tableau,
    pivot: &mut Pauli,
    coins: &mut C,
    coin: u64,
    string: &Pauli,
) -> Collapse
    requires same_length { length string.now.letters ≡ tableau.old.qubits }
    requires pivot_length { length pivot.old.letters ≡ tableau.old.qubits }
    ensures qubits { tableau.new.qubits ≡ tableau.old.qubits }
    ensures same_coins { C.sequence coins.new ≡ C.sequence coins.old }
    ensures asks { C.asks coins.new ≤ C.asks coins.old + ones (result.free ∷ []) }
    ensures outcome { result.outcome ≡ outcome_by (stabilises tableau.old) string.now (C.sequence coins.old coin) }
    ensures free { result.free ≡ is_random_by (stabilises tableau.old) string.now }
    ensures members { (p : Signed) → length p.letters ≡ tableau.old.qubits → stabilises tableau.new p ≡ projected_by (stabilises tableau.old) string.now result.outcome p }
    ensures pivot_length { length pivot.new.letters ≡ length pivot.old.letters }
    ensures pivot { result.free ≡ true → IsPivot tableau.old.qubits (stabilises tableau.old) string.now pivot.new.letters }
{
    // Since members are a group, a fixed outcome leaves the state as it is.
    tableau.stabilises_a_group();
    match tableau.sign_of(string) {
        Some(outcome) => Collapse {
            outcome,
            free: false,
        },
        None => tableau.collapse_with_pivot(string, coins.coin(coin), pivot),
    }
}
