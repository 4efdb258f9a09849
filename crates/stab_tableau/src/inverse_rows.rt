ghost use Rattle.std.specs.Prelude.{◌≡◌, ◌≢◌, ◌<◌, true, false, length};
ghost use Rattle.stab_gates.specs.declared.letter.Letter.TheVariants.{Y};
ghost use Rattle.stab_gates.specs.Letters.{letters_anticommute};
ghost use Rattle.stab_pauli.specs.Paulis.{Signed, anticommute};
ghost use Rattle.stab_pauli.specs.Phaseds.{phased, phased_product};
ghost use Rattle.stab_tableau.specs.Gates.{letter_at};
ghost use Rattle.stab_tableau.specs.inner.InverseRows.{rows_at, letter_preimage, IsInverseRow, AreRows};
ghost use Rattle.stab_tableau.specs.inner.ColumnLetters.{letter_anticommuting};
ghost use Rattle.stab_tableau.specs.inner.Pairs.{put, TakesLetters, IsGated, IsPairGated};

use super::images::GateImages;
use super::table::{InverseRow, Table};
use stab_gates::{Gate, PairGate};
use stab_pauli::{Letter, Pauli};

/// Makes a row of a qubit the preimage of Y there.
#[inline(always)]
fn take_y(table: &mut Table, row: InverseRow, qubit: usize)
    requires in_range { qubit < length table.old }
    requires row { IsInverseRow (length table.old) (rows_at table.old qubit) }
    ensures taken { (y : Signed) × (table.new ≡ put row qubit y table.old) × (phased y ≡ letter_preimage (length table.old) (rows_at table.old qubit) Y) }
{
    match row {
        InverseRow::OfX => {
            table.multiply_times_i(InverseRow::OfX, qubit, InverseRow::OfZ, qubit);
        }
        InverseRow::OfZ => {
            table.multiply_times_i(InverseRow::OfZ, qubit, InverseRow::OfX, qubit);
            table.negate_if(InverseRow::OfZ, qubit, true);
        }
    }
}

/// Makes the rows of a qubit the preimages of two letters there, which anticommute.
#[inline(always)]
fn take_letters(table: &mut Table, qubit: usize, x: Letter, z: Letter)
    requires in_range { qubit < length table.old }
    requires row { IsInverseRow (length table.old) (rows_at table.old qubit) }
    requires opposed { letters_anticommute x z ≡ true }
    ensures taken { TakesLetters x z qubit table.old table.new }
{
    match x {
        Letter::I => {}
        Letter::X => {
            if z == Letter::Y {
                take_y(table, InverseRow::OfZ, qubit);
            }
        }
        Letter::Y => {
            if z == Letter::X {
                take_y(table, InverseRow::OfZ, qubit);
                table.exchange(InverseRow::OfX, qubit, InverseRow::OfZ, qubit);
            } else {
                take_y(table, InverseRow::OfX, qubit);
            }
        }
        Letter::Z => {
            if z == Letter::Y {
                take_y(table, InverseRow::OfX, qubit);
                table.exchange(InverseRow::OfX, qubit, InverseRow::OfZ, qubit);
            } else {
                table.exchange(InverseRow::OfX, qubit, InverseRow::OfZ, qubit);
            }
        }
    }
}

/// Makes the rows of the inverse those after a gate on a qubit.
pub fn apply(table: &mut Table, gate: Gate, qubit: usize)
    requires in_range { qubit < length table.old }
    requires row { IsInverseRow (length table.old) (rows_at table.old qubit) }
    ensures gated { IsGated gate qubit table.old table.new }
{
    let images = GateImages::of(gate);
    let x = images.before(Letter::X);
    let z = images.before(Letter::Z);
    take_letters(table, qubit, x.letter, z.letter);
    table.negate_if(InverseRow::OfX, qubit, x.negative);
    table.negate_if(InverseRow::OfZ, qubit, z.negative);
}

/// Makes the rows of the inverse those after a gate on two qubits.
pub fn apply_pair(table: &mut Table, gate: PairGate, first: usize, second: usize)
    requires first_in_range { first < length table.old }
    requires second_in_range { second < length table.old }
    requires distinct { second ≢ first }
    requires rows { AreRows (length table.old) (rows_at table.old first) (rows_at table.old second) }
    ensures gated { IsPairGated gate first second table.old table.new }
{
    match gate {
        PairGate::Cx => {
            table.multiply(InverseRow::OfX, first, InverseRow::OfX, second);
            table.multiply(InverseRow::OfZ, second, InverseRow::OfZ, first);
        }
        PairGate::Cy => {
            table.multiply(InverseRow::OfX, first, InverseRow::OfX, second);
            table.multiply_times_i(InverseRow::OfX, first, InverseRow::OfZ, second);
            table.multiply(InverseRow::OfX, second, InverseRow::OfZ, first);
            table.multiply(InverseRow::OfZ, second, InverseRow::OfZ, first);
        }
        PairGate::Cz => {
            table.multiply(InverseRow::OfX, first, InverseRow::OfZ, second);
            table.multiply(InverseRow::OfX, second, InverseRow::OfZ, first);
        }
        PairGate::Swap => {
            table.exchange(InverseRow::OfX, first, InverseRow::OfX, second);
            table.exchange(InverseRow::OfZ, first, InverseRow::OfZ, second);
        }
    }
}

/// Multiplies a string by the preimage of a letter on a qubit, with which it commutes.
pub fn multiply_into(table: &Table, qubit: usize, letter: Letter, out: &mut Pauli)
    requires in_range { qubit < length table.now }
    requires same_length { length out.old.letters ≡ length table.now }
    requires row { IsInverseRow (length table.now) (rows_at table.now qubit) }
    requires commutes_x { anticommute out.old (rows_at table.now qubit).x ≡ false }
    requires commutes_z { anticommute out.old (rows_at table.now qubit).z ≡ false }
    ensures value { phased out.new ≡ phased_product (phased out.old) (letter_preimage (length table.now) (rows_at table.now qubit) letter) }
{
    match letter {
        Letter::I => {}
        Letter::X => table.multiply_into(InverseRow::OfX, qubit, out),
        Letter::Y => {
            table.multiply_into(InverseRow::OfX, qubit, out);
            table.multiply_into_times_i(InverseRow::OfZ, qubit, out);
        }
        Letter::Z => table.multiply_into(InverseRow::OfZ, qubit, out),
    }
}

/// Makes a string the preimage of a letter on a qubit.
pub fn copy_into(table: &Table, qubit: usize, letter: Letter, out: &mut Pauli)
    requires in_range { qubit < length table.now }
    requires same_length { length out.old.letters ≡ length table.now }
    requires row { IsInverseRow (length table.now) (rows_at table.now qubit) }
    ensures value { phased out.new ≡ letter_preimage (length table.now) (rows_at table.now qubit) letter }
{
    match letter {
        Letter::I => out.clear(),
        Letter::X => table.copy_row(InverseRow::OfX, qubit, out),
        Letter::Y => {
            table.copy_row(InverseRow::OfX, qubit, out);
            table.multiply_into_times_i(InverseRow::OfZ, qubit, out);
        }
        Letter::Z => table.copy_row(InverseRow::OfZ, qubit, out),
    }
}

/// The letter that anticommutes with X, and with Z, exactly if the bits say so.
pub fn letter_where(with_x: bool, with_z: bool) -> Letter
    ensures value { result ≡ letter_anticommuting with_x with_z }
{
    match (with_x, with_z) {
        (false, false) => Letter::I,
        (false, true) => Letter::X,
        (true, true) => Letter::Y,
        (true, false) => Letter::Z,
    }
}

/// The letter on a qubit of the string whose preimage has the given letter at a position and I elsewhere.
pub fn column_letter(table: &Table, qubit: usize, letter: Letter, position: usize) -> Letter
    requires in_range { qubit < length table.now }
    requires position_in_range { position < length table.now }
    ensures value { result ≡ letter_anticommuting (letters_anticommute letter (letter_at (rows_at table.now qubit).x.letters position)) (letters_anticommute letter (letter_at (rows_at table.now qubit).z.letters position)) }
{
    let with_x = letter.anticommutes(table.letter(InverseRow::OfX, qubit, position));
    let with_z = letter.anticommutes(table.letter(InverseRow::OfZ, qubit, position));
    letter_where(with_x, with_z)
}
