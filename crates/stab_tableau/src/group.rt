//! Whether two states have one group: by the signs of their rows if the letters are the same, else by stabilisers.

ghost use Rattle.std.specs.Prelude.{◌≡◌, ℕ, ◌<◌, ◌↔◌, true, length};
ghost use Rattle.stab_pauli.specs.Rows.{row_at};
ghost use Rattle.stab_tableau.specs.Tableaus.{stabilises};
ghost use Rattle.stab_tableau.specs.Columns.{stabiliser_of};
ghost use Rattle.stab_tableau.specs.Groups.{SameGroup};
ghost use Rattle.stab_tableau.specs.inner.Tables.{IsTableau};
ghost use Rattle.stab_tableau.specs.inner.Frames.{SameLetters, sign_frame};

use super::inverse_rows::letter_where;
use super::rows;
use super::table::{CompactTable, InverseRow, Table};
use stab_pauli::{Pauli, PauliRows};

/// Whether two tables whose rows differ in their signs alone have one group.
///
/// The two states differ by a Pauli string, the frame; it keeps the group if and only if it is up to sign a member, that is
/// if its preimage has letters I and Z alone.
pub fn same_by_signs(table: &Table, others: &Table, preimage: &mut Pauli, frame: &mut Pauli) -> bool
    requires tableau { IsTableau (length table.now) table.now (record { x = preimage.old; z = frame.old }) }
    requires same_letters { SameLetters table.now others.now }
    ensures tableau { IsTableau (length table.now) table.now (record { x = preimage.new; z = frame.new }) }
    ensures value { (result ≡ true) ↔ SameGroup (length table.now) (stabilises (record { qubits = length table.now; rows = table.now })) (stabilises (record { qubits = length table.now; rows = others.now })) }
{
    write_frame(table, others, frame);
    rows::write_preimage(table, frame, preimage);
    match preimage.first_x() {
        None => true,
        Some(_) => false,
    }
}

/// Makes the letters of a string those that say where the signs of the rows of two tables differ.
fn write_frame(table: &Table, others: &Table, out: &mut Pauli)
    requires same_length { length others.now ≡ length table.now }
    requires out_length { length out.old.letters ≡ length table.now }
    ensures value { out.new ≡ record out.old { letters = sign_frame table.now others.now } }
{
    for qubit in 0..table.len() {
        let x = table.is_negative(InverseRow::OfX, qubit)
            ^ others.is_negative(InverseRow::OfX, qubit);
        let z = table.is_negative(InverseRow::OfZ, qubit)
            ^ others.is_negative(InverseRow::OfZ, qubit);
        out.set(qubit, letter_where(x, z));
    }
}

/// Makes the letters of a string those that say where the signs of the rows of a stored table and of another differ,
/// whose letters are the same.
pub fn write_stored_frame(table: &CompactTable, others: &Table, out: &mut Pauli)
    requires same_letters { SameLetters table.now others.now }
    requires out_length { length out.old.letters ≡ length table.now }
    ensures value { out.new ≡ record out.old { letters = sign_frame table.now others.now } }
{
    for qubit in 0..table.len() {
        let x = table.signs_differ(others, InverseRow::OfX, qubit);
        let z = table.signs_differ(others, InverseRow::OfZ, qubit);
        out.set(qubit, letter_where(x, z));
    }
}

/// Makes a string stabiliser k of a table.
pub fn write_stabiliser(table: &mut Table, k: usize, preimage: &mut Pauli, out: &mut Pauli)
    requires tableau { IsTableau (length table.old) table.old (record { x = preimage.old; z = out.old }) }
    requires in_range { k < length table.old }
    ensures unchanged { table.new ≡ table.old }
    ensures tableau { IsTableau (length table.old) table.old (record { x = preimage.new; z = out.new }) }
    ensures value { out.new ≡ stabiliser_of (record { qubits = length table.old; rows = table.old }) k }
{
    rows::write_stabiliser_letters(table, k, out);
    rows::write_preimage(table, out, preimage);
    out.negate_if(preimage.is_negative());
}

/// Makes strings the stabilisers of a table, in their order.
pub fn write_stabilisers(
    table: &mut Table,
    preimage: &mut Pauli,
    stabiliser: &mut Pauli,
    out: &mut PauliRows,
)
    requires tableau { IsTableau (length table.old) table.old (record { x = preimage.old; z = stabiliser.old }) }
    requires same_qubits { out.old.qubits ≡ length table.old }
    requires same_number { length out.old.rows ≡ length table.old }
    ensures unchanged { table.new ≡ table.old }
    ensures tableau { IsTableau (length table.old) table.old (record { x = preimage.new; z = stabiliser.new }) }
    ensures qubits { out.new.qubits ≡ length table.old }
    ensures number { length out.new.rows ≡ length table.old }
    ensures rows { (k : ℕ) → k < length table.old → row_at out.new k ≡ stabiliser_of (record { qubits = length table.old; rows = table.old }) k }
{
    for k in 0..table.len() {
        write_stabiliser(table, k, preimage, stabiliser);
        out.set_row(k, stabiliser);
    }
}
