//! Elimination: rows that generate a stabiliser group are made its reduced rows, in place.

ghost use Rattle.std.specs.Prelude.{◌≡◌, ◌≢◌, ℕ, ◌+◌, ◌^◌, ◌<◌, ◌≤◌, Bool, true, false, length, IfSome, IfNone};
ghost use Rattle.stab_pauli.specs.Paulis.{Signed, anticommute};
ghost use Rattle.stab_pauli.specs.Rows.{row_at, with_row};
ghost use Rattle.stab_tableau.specs.Groups.{IsStabiliserGroup};
ghost use Rattle.stab_tableau.specs.Reduced.{bit_at, AreReduced};
ghost use Rattle.stab_tableau.specs.inner.Eliminations.{IsBasis, ComesTo, AreExchanged, cleared_with, AreCleared, HasStepped};

use stab_pauli::{Letter, PauliRows};

/// Makes rows that generate a stabiliser group its reduced rows.
///
/// At each position in turn the first unused row with a 1 there becomes the leading row: it is moved up after the used rows,
/// and all other rows with a 1 there are multiplied by it.
pub fn eliminate(rows: &mut PauliRows)
    requires short { rows.old.qubits ≤ 2 ^ 24 }
    requires basis { (member : Signed → Bool) × IsStabiliserGroup rows.old.qubits member × IsBasis member rows.old }
    ensures qubits { rows.new.qubits ≡ rows.old.qubits }
    ensures number { length rows.new.rows ≡ length rows.old.rows }
    ensures reduced { (member : Signed → Bool) → IsStabiliserGroup rows.old.qubits member → IsBasis member rows.old → AreReduced rows.old.qubits member rows.new.rows }
{
    let mut used = 0;
    for position in 0..2 * rows.qubits() {
        used = step(rows, used, position);
    }
}

/// Takes one position: if an unused row has a 1 there, makes it the leading row and clears the others by it. Answers how many
/// rows are used then.
fn step(rows: &mut PauliRows, used: usize, position: usize) -> usize
    requires in_range { position < rows.old.qubits + rows.old.qubits }
    requires comes { ComesTo position used rows.old }
    ensures steps { HasStepped position used result rows.old rows.new }
{
    if used == rows.len() {
        return used;
    }
    match find_leading(rows, used, position) {
        None => used,
        Some(leading) => {
            exchange(rows, used, leading);
            clear_others(rows, used, position);
            used + 1
        }
    }
}

/// The first row from a number on that has a 1 at a position.
fn find_leading(rows: &PauliRows, from: usize, position: usize) -> Option<usize>
    requires in_range { position < rows.now.qubits + rows.now.qubits }
    ensures none { IfNone result ((a : ℕ) → from ≤ a → a < length rows.now.rows → bit_at rows.now.qubits (row_at rows.now a).letters position ≡ false) }
    ensures from { IfSome result (λ a. from ≤ a) }
    ensures in_range { IfSome result (λ a. a < length rows.now.rows) }
    ensures one { IfSome result (λ a. bit_at rows.now.qubits (row_at rows.now a).letters position ≡ true) }
{
    for row in from..rows.len() {
        if bit(rows, row, position) {
            return Some(row);
        }
    }
    None
}

/// Exchanges two rows, which may be the same.
fn exchange(rows: &mut PauliRows, first: usize, second: usize)
    requires first_in_range { first < length rows.old.rows }
    requires second_in_range { second < length rows.old.rows }
    ensures rows { AreExchanged first second rows.old rows.new }
{
    if first != second {
        rows.swap(first, second);
    }
}

/// Clears all rows but the leading one by it.
fn clear_others(rows: &mut PauliRows, leading: usize, position: usize)
    requires in_range { position < rows.old.qubits + rows.old.qubits }
    requires leading_in_range { leading < length rows.old.rows }
    requires commuting { (a : ℕ) → a < length rows.old.rows → anticommute (row_at rows.old a) (row_at rows.old leading) ≡ false }
    ensures rows { AreCleared leading position rows.old rows.new }
{
    for row in 0..rows.len() {
        if row != leading {
            clear(rows, row, leading, position);
        }
    }
}

/// Clears a row by the leading one: multiplies it if it has a 1 at the position.
fn clear(rows: &mut PauliRows, row: usize, leading: usize, position: usize)
    requires in_range { position < rows.old.qubits + rows.old.qubits }
    requires row_in_range { row < length rows.old.rows }
    requires leading_in_range { leading < length rows.old.rows }
    requires distinct { row ≢ leading }
    requires commuting { anticommute (row_at rows.old row) (row_at rows.old leading) ≡ false }
    ensures value { rows.new ≡ with_row rows.old row (cleared_with rows.old.qubits position (row_at rows.old leading) (row_at rows.old row)) }
{
    if bit(rows, row, position) {
        rows.multiply(row, leading);
    }
}

/// The bit of a row at a position: the X bits of all qubits come first, then their Z bits.
fn bit(rows: &PauliRows, row: usize, position: usize) -> bool
    requires row_in_range { row < length rows.now.rows }
    requires in_range { position < rows.now.qubits + rows.now.qubits }
    ensures value { result ≡ bit_at rows.now.qubits (row_at rows.now row).letters position }
{
    let qubits = rows.qubits();
    if position < qubits {
        rows.has_x(row, position)
    } else {
        Letter::X.anticommutes(rows.letter(row, position - qubits))
    }
}
