ghost use Rattle.std.specs.Prelude.{◌≡◌, ◌≢◌, ◌<◌, Some, length, slice_set, OnOk, if◌then◌else◌};
ghost use Rattle.stab_tableau.specs.Gates.{back, back_pair};
ghost use Rattle.stab_frames.specs.Images.{controlled_letter as letter_controlled};
ghost use Rattle.stab_regions.specs.Rows.{MovesLetters};
ghost use Rattle.stab_parities.specs.OddNumbers.{row};

use crate::parities::Parities;
use crate::rows::{toggle_if, toggle_within_if};
use stab_frames::{Images, controlled_letter};
use stab_pauli::Letter;
use stab_tableau::{Gate, PairGate};
use std::alloc::{AllocError, Global};

/// What the strings before a gate on a qubit are, by those after it: their letters alone. In a
/// string, X flips letters with a Z part, and Z those with an X part. Before the gate each flips what its image flips after it.
pub fn before_gate(
    alloc: Global,
    by_x: &mut [Parities],
    by_z: &mut [Parities],
    gate: Gate,
    qubit: usize,
) -> Result<(), AllocError>
    requires in_range { qubit < length by_x.old }
    requires same_length { length by_z.old ≡ length by_x.old }
    ensures same_x { length by_x.new ≡ length by_x.old }
    ensures same_z { length by_z.new ≡ length by_z.old }
    ensures strings { OnOk result (MovesLetters (length by_x.old) (λ i. back gate qubit) by_x.old by_z.old by_x.new by_z.new) }
{
    let images = Images::of(gate);
    exchange_if(images.exchanges(), by_x, by_z, qubit);
    toggle_if(alloc, images.x_has_both(), by_x, qubit, &by_z[qubit])?;
    toggle_if(alloc, images.z_has_both(), by_z, qubit, &by_x[qubit])
}

/// Exchanges what X flips on a qubit with what Z does, if the bit is 1.
fn exchange_if(bit: bool, by_x: &mut [Parities], by_z: &mut [Parities], qubit: usize)
    requires in_range { qubit < length by_x.old }
    requires same_length { length by_z.old ≡ length by_x.old }
    ensures same_x { length by_x.new ≡ length by_x.old }
    ensures same_z { length by_z.new ≡ length by_z.old }
    ensures x { by_x.new ≡ (if bit then slice_set by_x.old qubit (row by_z.old qubit) else by_x.old) }
    ensures z { by_z.new ≡ (if bit then slice_set by_z.old qubit (row by_x.old qubit) else by_z.old) }
{
    if bit {
        std::mem::swap(&mut by_x[qubit], &mut by_z[qubit]);
    }
}

/// Exchanges two rows.
fn exchange_rows(rows: &mut [Parities], first: usize, second: usize)
    requires first_in_range { first < length rows.old }
    requires second_in_range { second < length rows.old }
    ensures same_length { length rows.new ≡ length rows.old }
    ensures value { rows.new ≡ slice_set (slice_set rows.old first (row rows.old second)) second (row rows.old first) }
{
    rows.swap(first, second);
}

/// What the strings before a gate on two qubits are, by those after it.
pub fn before_pair(
    alloc: Global,
    by_x: &mut [Parities],
    by_z: &mut [Parities],
    gate: PairGate,
    first: usize,
    second: usize,
) -> Result<(), AllocError>
    requires first_in_range { first < length by_x.old }
    requires second_in_range { second < length by_x.old }
    requires different { second ≢ first }
    requires same_length { length by_z.old ≡ length by_x.old }
    ensures same_x { length by_x.new ≡ length by_x.old }
    ensures same_z { length by_z.new ≡ length by_z.old }
    ensures strings { OnOk result (MovesLetters (length by_x.old) (λ i. back_pair gate first second) by_x.old by_z.old by_x.new by_z.new) }
{
    match controlled_letter(gate) {
        Some(letter) => before_control(alloc, by_x, by_z, letter, first, second),
        None => {
            exchange_rows(by_x, first, second);
            exchange_rows(by_z, first, second);
            Ok(())
        }
    }
}

/// The same for a gate that controls a letter: X on the first flips what the letter flips on the second too. X or Z on the second
/// flips what Z flips on the first too, if it anticommutes with the letter.
fn before_control(
    alloc: Global,
    by_x: &mut [Parities],
    by_z: &mut [Parities],
    letter: Letter,
    first: usize,
    second: usize,
) -> Result<(), AllocError>
    requires first_in_range { first < length by_x.old }
    requires second_in_range { second < length by_x.old }
    requires different { second ≢ first }
    requires same_length { length by_z.old ≡ length by_x.old }
    ensures same_x { length by_x.new ≡ length by_x.old }
    ensures same_z { length by_z.new ≡ length by_z.old }
    ensures strings { OnOk result ((gate : PairGate) → letter_controlled gate ≡ Some letter → MovesLetters (length by_x.old) (λ i. back_pair gate first second) by_x.old by_z.old by_x.new by_z.new) }
{
    let with_x = letter.anticommutes(Letter::X);
    let with_z = letter.anticommutes(Letter::Z);
    toggle_within_if(alloc, with_z, by_x, first, second)?;
    toggle_if(alloc, with_x, by_x, first, &by_z[second])?;
    toggle_if(alloc, with_x, by_x, second, &by_z[first])?;
    toggle_within_if(alloc, with_z, by_z, second, first)
}
