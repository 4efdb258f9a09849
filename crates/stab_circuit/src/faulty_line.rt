//! The word at fault in a line, except its targets.
use crate::instruction_parts::{Finding, InstructionParts};
use crate::meanings::meaning;
use crate::part::{Part, pieces, words};
use crate::sentences;
use stab_instructions::Instruction;
use stab_io::Refusal;
use std::alloc::{AllocError, Global};

/// A line that has the shape of one and a name that is read, and is refused.
#[derive(Clone, Copy)]
pub(crate) struct FaultyLine<'a> {
    pub(crate) alloc: Global,
    pub(crate) content: Part<'a>,
    pub(crate) parts: InstructionParts<'a>,
    /// What its name stands for; none for the opening of a block.
    pub(crate) instruction: Option<Instruction>,
}

/// What refused something that was read, if anything.
pub(crate) fn refusal_in<T: Drop>(read: Result<T, Refusal>) -> Result<Option<Refusal>, AllocError> {
    match read {
        Ok(_) => Ok(None),
        Err(Refusal::OutOfMemory) => Err(AllocError),
        Err(refusal) => Ok(Some(refusal)),
    }
}

/// What refuses the line that these texts make together, if anything.
pub(crate) fn refusal_of(alloc: Global, texts: &[&[u8]]) -> Result<Option<Refusal>, AllocError> {
    let content = texts.concat(alloc)?;
    refusal_in(meaning(alloc, content.as_slice()))
}

impl<'a> FaultyLine<'a> {
    /// The word for which the line is refused like this.
    pub(crate) fn find(&self, refusal: Refusal) -> Result<Finding<'a>, AllocError> {
        match refusal {
            Refusal::BadArguments => self.find_argument(),
            Refusal::BadTarget | Refusal::QubitOutOfRange => self.find_target(refusal),
            Refusal::BadPairing => self.find_pair(),
            Refusal::BadBlock => self.find_in_block(),
            Refusal::ObservableOutOfRange => {
                Ok((self.parts.arguments, sentences::OBSERVABLE_RANGE))
            }
            Refusal::TooDeep => Ok((self.content, sentences::TOO_DEEP)),
            _ => Ok((self.content, sentences::LINE_NOT_READ)),
        }
    }

    fn find_argument(&self) -> Result<Finding<'a>, AllocError> {
        let sentences = match self.instruction {
            Some(Instruction::Detector | Instruction::QubitCoords | Instruction::ShiftCoords) => {
                return self.find_coordinate();
            }
            Some(Instruction::ObservableInclude) => sentences::ONE_NUMBER,
            Some(Instruction::Measure(_) | Instruction::MeasureProducts) => {
                sentences::NO_NOISY_MEASUREMENT
            }
            Some(Instruction::Reset(_)) => sentences::NO_ROTATION,
            _ => sentences::NO_ARGUMENTS,
        };
        let brackets = self.parts.arguments;
        let has_none = brackets.bytes().is_empty();
        Ok((if has_none { self.parts.name } else { brackets }, sentences))
    }

    /// The first argument that is no coordinate.
    fn find_coordinate(&self) -> Result<Finding<'a>, AllocError> {
        let brackets = self.parts.arguments;
        let inside = brackets.split(1).1.split_last().0;
        for piece in pieces(self.alloc, inside, b",")? {
            let argument = piece.trimmed();
            if !self.is_coordinate(argument.bytes())? {
                return Ok(finding_on_argument(inside, piece, argument));
            }
        }
        Ok((brackets, sentences::NO_COORDINATE))
    }

    fn is_coordinate(&self, argument: &[u8]) -> Result<bool, AllocError> {
        let refusal = refusal_of(self.alloc, &[b"SHIFT_COORDS(", argument, b")"])?;
        Ok(!argument.is_empty() && refusal.is_none())
    }

    /// What is wrong with the opening of a block, which may be that nothing closes it.
    fn find_in_block(&self) -> Result<Finding<'a>, AllocError> {
        if self.instruction.is_some() {
            return Ok((self.content.split_last().1, sentences::OPENS_NOTHING));
        }
        match words(self.alloc, self.parts.targets)?.as_slice() {
            [] => Ok((self.parts.name, sentences::NO_COUNT)),
            [count] => self.find_at_count(*count),
            [_, second, ..] => Ok((*second, sentences::SECOND_COUNT)),
        }
    }

    fn find_at_count(&self, count: Part<'a>) -> Result<Finding<'a>, AllocError> {
        if refusal_of(self.alloc, &[b"REPEAT ", count.bytes(), b" {"])?.is_some() {
            Ok((count, sentences::COUNT_RANGE))
        } else if self.parts.opens {
            Ok((self.content, sentences::NOT_CLOSED))
        } else {
            Ok((count, sentences::NO_BRACE))
        }
    }
}

/// What is wrong with an argument that is no coordinate, in a piece of what is inside the brackets.
fn finding_on_argument<'a>(inside: Part<'a>, piece: Part<'a>, argument: Part<'a>) -> Finding<'a> {
    let follows_last_comma = piece.start > inside.start && piece.end == inside.end;
    if argument.bytes().is_empty() && follows_last_comma {
        let start = piece.start.saturating_sub(1);
        let end = piece.start;
        return (
            Part {
                start,
                end,
                ..piece
            },
            sentences::TRAILING_COMMA,
        );
    }
    (argument, sentences::NO_COORDINATE)
}
