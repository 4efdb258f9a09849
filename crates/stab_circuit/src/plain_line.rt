ghost use Rattle.std.specs.Prelude.{◌<◌, length, IfOk, MatchOption};
ghost use Rattle.std.specs.Option.{option_copied};
ghost use Rattle.stab_circuit.specs.FirstLines.{ReadsInstruction};
ghost use Rattle.stab_circuit.specs.inner.PlainLines.{ReadsKind};

use crate::line::{is_digit, name_len, starts_with_letter};
use crate::spaced_target::{ControlledTargets, PairTargets, targets_in_front};
use crate::target::{MeasureTargets, QubitTargets};
use stab_instructions::{Instruction, Kind, Name};
use stab_io::Refusal;
use std::alloc::Global;

/// What an instruction does to the targets that are after its name, and the lines after its line, if
/// there are any. It is read if the targets are only numbers, with one space before each. `None` says nothing.
fn kind_in_front(
    alloc: Global,
    instruction: Instruction,
    bytes: &[u8],
) -> Result<Option<(Kind, Option<&[u8]>)>, Refusal>
    ensures reports { ReadsKind instruction bytes.now result }
{
    match instruction {
        Instruction::Gate(gate) => match targets_in_front::<QubitTargets>(alloc, bytes)? {
            Some(found) => Ok(Some((Kind::Gate(gate, found.0), found.1))),
            None => Ok(None),
        },
        Instruction::Reset(axis) => match targets_in_front::<QubitTargets>(alloc, bytes)? {
            Some(found) => Ok(Some((Kind::Reset(axis, found.0), found.1))),
            None => Ok(None),
        },
        Instruction::Measure(measurement) => {
            match targets_in_front::<MeasureTargets>(alloc, bytes)? {
                Some(found) => Ok(Some((Kind::Measure(measurement, found.0), found.1))),
                None => Ok(None),
            }
        }
        Instruction::Controlled(axis) => match targets_in_front::<ControlledTargets>(
            alloc, bytes,
        )? {
            Some(found) => Ok(Some((Kind::Controlled(axis, found.0), found.1))),
            None => Ok(None),
        },
        Instruction::Swap => match targets_in_front::<PairTargets>(alloc, bytes)? {
            Some(found) => Ok(Some((Kind::Swap(found.0), found.1))),
            None => Ok(None),
        },
        _ => Ok(None),
    }
}

/// Whether a space and a digit are in front: else no name need be looked up, such as those of products and records.
fn is_spaced_digit(bytes: &[u8]) -> bool {
    bytes.len() > 1 && bytes[0] == b' ' && is_digit(bytes[1])
}

/// The instruction that the first line means, and the lines after it, if there are any. It is read if it is
/// written as one is printed without a tag: a name and numbers, with one space before each. `None` says
/// nothing. Refusal `OutOfMemory` alone.
///
/// Most lines that are no detectors are of this form: each of their bytes is looked at once.
pub fn instruction_in_front(
    alloc: Global,
    text: &[u8],
) -> Result<Option<(Kind, Option<&[u8]>)>, Refusal>
    ensures reports { ReadsInstruction text.now result }
    ensures shorter { IfOk result (λ found. MatchOption found (Unit {0}) (λ p. MatchOption (option_copied p.1) (Unit {0}) (λ after. length after < length text.now))) }
{
    let (name, targets) = text.split_at(name_len(text));
    if !starts_with_letter(name) || !is_spaced_digit(targets) {
        return Ok(None);
    }
    match Name::of(name) {
        Ok(Name::Instruction(instruction)) => kind_in_front(alloc, instruction, targets),
        _ => Ok(None),
    }
}
