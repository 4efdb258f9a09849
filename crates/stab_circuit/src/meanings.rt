ghost use Rattle.std.specs.Prelude.{◌≡◌};
ghost use Rattle.stab_instructions.specs.Results.{Gives};
ghost use Rattle.stab_instructions.specs.Words.{words};
ghost use Rattle.stab_instructions.specs.Controls.{controlled_of};
ghost use Rattle.stab_circuit.specs.inner.Parts.{shape_shown};
ghost use Rattle.stab_instructions.specs.declared.name.Instruction.TheVariants.{Detector, ShiftCoords};
ghost use Rattle.stab_instructions.specs.declared.name.Name.{Name};
ghost use Rattle.stab_instructions.specs.Meanings.{without_arguments, targets_alone as alone, observable_include_of, kind_of, only_count as only_count_of, block_of, named_line as named_line_of, shape_meaning, is_close as is_close_of, meaning_of};

use crate::argument::{are_coordinates, coordinates, observable, only_number};
use crate::control::controlled_pairs;
use crate::detector::detector_targets;
use crate::factor::ProductTargets;
use crate::line::{Shape, starts_with};
use crate::target::{
    CountTargets, MeasureTargets, QubitTargets, Target, lookbacks, pairs, targets,
};
use stab_instructions::{
    ControlledPair, Count, Instruction, Kind, Line, Located, Name, Operation, Sequence, is_blank,
};
use stab_io::Refusal;
use std::alloc::Global;

/// The targets of an instruction without arguments.
fn targets_alone<T: Target>(alloc: Global, shape: &Shape) -> Result<Sequence<T::Stored>, Refusal>
    ensures gives { Gives result (alone T.meaning (shape_shown shape.now)) }
{
    if is_blank(shape.arguments) {
        targets::<T>(alloc, shape.targets)
    } else {
        Err(Refusal::BadArguments)
    }
}

/// The pairs of a control and a qubit of an instruction without arguments.
fn pairs_alone(alloc: Global, shape: &Shape) -> Result<Sequence<ControlledPair>, Refusal>
    ensures gives { Gives result (without_arguments (shape_shown shape.now) (controlled_of (words (shape_shown shape.now).targets))) }
{
    if is_blank(shape.arguments) {
        controlled_pairs(alloc, shape.targets)
    } else {
        Err(Refusal::BadArguments)
    }
}

#[tactic(auto, using(crate::proofs::DetectorLemmas::detector_kind, crate::proofs::DetectorLemmas::detector_refused))]
fn detector(alloc: Global, shape: &Shape) -> Result<Kind, Refusal>
    ensures gives { Gives result (kind_of Detector (shape_shown shape.now)) }
{
    if !are_coordinates(shape.arguments) {
        return Err(Refusal::BadArguments);
    }
    let targets = detector_targets(alloc, shape.arguments, shape.targets)?;
    Ok(Kind::Detector(targets))
}

#[tactic(auto, unfolding(stab_instructions::specs::Meanings::observable_include_of))]
fn observable_include(alloc: Global, shape: &Shape) -> Result<Kind, Refusal>
    ensures gives { Gives result (observable_include_of (shape_shown shape.now)) }
{
    let digits = only_number(shape.arguments)?;
    let records = lookbacks(alloc, shape.targets)?;
    if shape.opens {
        return Err(Refusal::BadBlock);
    }
    Ok(Kind::ObservableInclude(observable(digits)?, records))
}

#[tactic(auto, unfolding(stab_instructions::specs::Meanings::kind_of))]
fn shift_coords(alloc: Global, shape: &Shape) -> Result<Kind, Refusal>
    ensures gives { Gives result (kind_of ShiftCoords (shape_shown shape.now)) }
{
    let coordinates = coordinates(alloc, shape.arguments)?;
    if is_blank(shape.targets) {
        Ok(Kind::ShiftCoords(coordinates))
    } else {
        Err(Refusal::BadTarget)
    }
}

/// What an instruction does.
#[tactic(auto, unfolding(stab_instructions::specs::Meanings::kind_of))]
fn kind(alloc: Global, instruction: Instruction, shape: &Shape) -> Result<Kind, Refusal>
    ensures gives { Gives result (kind_of instruction (shape_shown shape.now)) }
{
    match instruction {
        Instruction::Gate(gate) => Ok(Kind::Gate(
            gate,
            targets_alone::<QubitTargets>(alloc, shape)?,
        )),
        Instruction::Controlled(axis) => Ok(Kind::Controlled(axis, pairs_alone(alloc, shape)?)),
        Instruction::Swap => {
            let qubits = targets_alone::<QubitTargets>(alloc, shape)?;
            Ok(Kind::Swap(pairs(alloc, qubits.as_slice())?))
        }
        Instruction::Measure(measurement) => {
            Ok(Kind::Measure(measurement, targets_alone::<MeasureTargets>(alloc, shape)?))
        }
        Instruction::Reset(axis) => Ok(Kind::Reset(
            axis,
            targets_alone::<QubitTargets>(alloc, shape)?,
        )),
        Instruction::MeasureProducts => {
            Ok(Kind::MeasureProducts(targets_alone::<ProductTargets>(alloc, shape)?))
        }
        Instruction::Detector => detector(alloc, shape),
        Instruction::ObservableInclude => observable_include(alloc, shape),
        Instruction::Tick if !is_blank(shape.arguments) => Err(Refusal::BadArguments),
        Instruction::Tick if !is_blank(shape.targets) => Err(Refusal::BadTarget),
        Instruction::Tick => Ok(Kind::Tick),
        Instruction::QubitCoords => {
            let coordinates = coordinates(alloc, shape.arguments)?;
            let qubits = targets::<QubitTargets>(alloc, shape.targets)?;
            Ok(Kind::QubitCoords(Located::new(alloc, coordinates, qubits)?))
        }
        Instruction::ShiftCoords => shift_coords(alloc, shape),
    }
}

fn only_count(counts: &[Option<Count>]) -> Option<Count>
    ensures value { result ≡ only_count_of counts.now }
{
    if counts.len() == 1 { counts[0] } else { None }
}

#[tactic(auto, unfolding(stab_instructions::specs::Meanings::block_of))]
fn block(alloc: Global, shape: &Shape) -> Result<Line, Refusal>
    ensures gives { Gives result (block_of (shape_shown shape.now)) }
{
    let counts = targets_alone::<CountTargets>(alloc, shape)?;
    match only_count(counts.as_slice()) {
        Some(count) if shape.opens => Ok(Line::Open {
            count,
            tag: Sequence::of_bytes(alloc, shape.tag)?,
        }),
        _ => Err(Refusal::BadBlock),
    }
}

#[tactic(auto, unfolding(stab_instructions::specs::Meanings::named_line))]
fn named_line(alloc: Global, shape: &Shape, name: Name) -> Result<Line, Refusal>
    ensures gives { Gives result (named_line_of (shape_shown shape.now) name) }
{
    match name {
        Name::Repeat => block(alloc, shape),
        Name::Instruction(instruction) => {
            let kind = kind(alloc, instruction, shape)?;
            if shape.opens {
                return Err(Refusal::BadBlock);
            }
            let tag = Sequence::of_bytes(alloc, shape.tag)?;
            Ok(Line::Operation(Operation { kind, tag }))
        }
    }
}

/// Whether the content closes a block.
pub fn is_close(content: &[u8]) -> bool
    ensures value { result ≡ is_close_of content.now }
{
    content.len() == 1 && starts_with(content, b'}')
}

/// What the content of a line means: a refusal is the first that applies.
#[tactic(auto, unfolding(stab_instructions::specs::Meanings::meaning_of))]
pub fn meaning(alloc: Global, content: &[u8]) -> Result<Line, Refusal>
    ensures gives { Gives result (meaning_of content.now) }
{
    if content.is_empty() {
        return Ok(Line::Blank);
    }
    if is_close(content) {
        return Ok(Line::Close);
    }
    let shape = Shape::of(content)?;
    let name = Name::of(shape.name)?;
    named_line(alloc, &shape, name)
}
