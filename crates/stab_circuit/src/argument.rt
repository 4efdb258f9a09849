ghost use Rattle.std.specs.Prelude.{◌≡◌};
ghost use Rattle.std.specs.List.{list_all};
ghost use Rattle.stab_instructions.specs.Results.{Gives, each};
ghost use Rattle.stab_circuit.specs.inner.Parts.{GivesBy, is_coordinate as is_coordinate_of};
ghost use Rattle.stab_instructions.specs.Words.{arguments_of};
ghost use Rattle.stab_instructions.specs.Targets.{is_coordinate_byte as coordinate_byte, coordinate_of, number_of, observable_of};

use crate::line::is_digit;
use crate::word::{capped_value, is_number};
use stab_instructions::{Coordinates, ObservableNumber, first_piece, is_blank, without_spacing};
use stab_io::Refusal;
use std::alloc::Global;

/// The greatest number of observables.
const MOST_OBSERVABLES: u64 = 4096;

fn is_coordinate_byte(byte: u8) -> bool
    ensures value { result ≡ coordinate_byte byte }
{
    is_digit(byte) || byte == b'+' || byte == b'-' || byte == b'.' || byte == b'e' || byte == b'E'
}

fn are_coordinate_bytes(bytes: &[u8]) -> bool
    ensures value { result ≡ list_all coordinate_byte bytes.now }
{
    bytes.iter().all(|b| is_coordinate_byte(*b))
}

/// Whether it is written as a coordinate is.
fn is_coordinate(argument: &[u8]) -> bool
    ensures value { result ≡ is_coordinate_of argument.now }
{
    !argument.is_empty() && are_coordinate_bytes(argument)
}

/// Whether each argument is written as a coordinate is.
pub fn are_coordinates(arguments: &[u8]) -> bool
    ensures value { result ≡ list_all is_coordinate_of (arguments_of arguments.now) }
{
    if is_blank(arguments) {
        return true;
    }
    let mut rest = Some(arguments);
    while let Some(bytes) = rest {
        let (argument, after) = first_piece(bytes, b',');
        if !is_coordinate(without_spacing(argument)) {
            return false;
        }
        rest = after;
    }
    true
}

/// The coordinates among the arguments.
#[tactic(auto, using(crate::proofs::CoordinateLemmas::each_coordinate, crate::proofs::CoordinateLemmas::no_coordinate))]
pub fn coordinates(alloc: Global, arguments: &[u8]) -> Result<Coordinates, Refusal>
    ensures gives { Gives result (each coordinate_of (arguments_of arguments.now)) }
{
    if !are_coordinates(arguments) {
        return Err(Refusal::BadArguments);
    }
    let found = Coordinates::of(alloc, arguments)?;
    Ok(found)
}

/// The digits of the only argument.
#[tactic(auto, unfolding(stab_instructions::specs::Targets::number_of), using(stab_instructions::proofs::TargetLemmas::two_arguments))]
pub fn only_number(arguments: &[u8]) -> Result<&[u8], Refusal>
    ensures gives { GivesBy (λ r. r.now) result (number_of (arguments_of arguments.now)) }
{
    if is_blank(arguments) {
        return Err(Refusal::BadArguments);
    }
    let (argument, after) = first_piece(arguments, b',');
    let number = without_spacing(argument);
    match after {
        None if is_number(number) => Ok(number),
        _ => Err(Refusal::BadArguments),
    }
}

/// The observable of a number.
#[tactic(auto, unfolding(stab_instructions::specs::Targets::observable_of))]
pub fn observable(digits: &[u8]) -> Result<ObservableNumber, Refusal>
    ensures value { result ≡ observable_of digits.now }
{
    let number = capped_value(digits, MOST_OBSERVABLES);
    if number < MOST_OBSERVABLES {
        Ok(ObservableNumber::new(number as u16))
    } else {
        Err(Refusal::ObservableOutOfRange)
    }
}
