//! The target at fault in a line.
use crate::factor::read_product;
use crate::faulty_line::{FaultyLine, refusal_in, refusal_of};
use crate::instruction_parts::Finding;
use crate::part::{Part, pieces, words};
use crate::sentences;
use stab_instructions::Instruction;
use stab_io::Refusal;
use std::alloc::AllocError;

impl<'a> FaultyLine<'a> {
    /// The first target that is refused like this, each judged by itself.
    pub(crate) fn find_target(&self, refusal: Refusal) -> Result<Finding<'a>, AllocError> {
        let takes_pairs = matches!(
            self.instruction,
            Some(Instruction::Swap | Instruction::Controlled(_))
        );
        let words = words(self.alloc, self.parts.targets)?;
        for (index, word) in words.iter().enumerate() {
            let is_second = takes_pairs && index % 2 == 1;
            if self.refusal_of_target(word.bytes(), is_second)? == Some(refusal) {
                return self.find_in_target(*word, is_second, refusal);
            }
        }
        Ok((self.content, sentences::LINE_NOT_READ))
    }

    /// What refuses the instruction with this target, which comes after another one if it is the second.
    fn refusal_of_target(
        &self,
        word: &[u8],
        is_second: bool,
    ) -> Result<Option<Refusal>, AllocError> {
        let before: &[u8] = match self.instruction {
            Some(Instruction::ObservableInclude) => b"(0) ",
            _ if is_second => b" 0 ",
            _ => b" ",
        };
        refusal_of(self.alloc, &[self.parts.name.bytes(), before, word])
    }

    /// What is wrong with a target, or in a product with one of its factors.
    fn find_in_target(
        &self,
        target: Part<'a>,
        is_second: bool,
        refusal: Refusal,
    ) -> Result<Finding<'a>, AllocError> {
        let word = target.bytes();
        let sentences = match self.instruction {
            _ if word.starts_with(b"(") || word.starts_with(b"[") => sentences::BRACKETS_SEPARATE,
            Some(Instruction::MeasureProducts) => return self.find_factor(target, refusal),
            _ if refusal == Refusal::QubitOutOfRange => sentences::QUBIT_RANGE,
            // Stim has products among the targets of observables too.
            Some(Instruction::ObservableInclude)
                if refusal_in(read_product(self.alloc, word))?.is_none() => {
                sentences::PAULI_TARGET
            }
            _ => sentences_on_target(self.instruction, word, is_second),
        };
        Ok((target, sentences))
    }

    /// The first factor that is refused in this way; if none is, the product has a qubit twice.
    fn find_factor(&self, product: Part<'a>, refusal: Refusal) -> Result<Finding<'a>, AllocError> {
        let sentences = match refusal {
            Refusal::QubitOutOfRange => sentences::QUBIT_RANGE,
            _ => sentences::NO_FACTOR,
        };
        for factor in pieces(self.alloc, product, b"*")? {
            if refusal_in(read_product(self.alloc, factor.bytes()))? == Some(refusal) {
                return Ok((factor, sentences));
            }
        }
        Ok((product, sentences::QUBIT_TWICE))
    }

    /// The first pair of one qubit with itself, or the last target, which has no partner.
    pub(crate) fn find_pair(&self) -> Result<Finding<'a>, AllocError> {
        let words = words(self.alloc, self.parts.targets)?;
        for pair in words.as_slice().chunks(2) {
            let (whole, sentences) = match pair {
                [first, second] => {
                    (
                        first.between(first.start, second.end),
                        sentences::ONE_QUBIT_PAIR,
                    )
                }
                [alone] => (*alone, sentences::NO_PARTNER),
                _ => continue,
            };
            let texts: [&[u8]; 3] = [self.parts.name.bytes(), b" ", whole.bytes()];
            if refusal_of(self.alloc, &texts)? == Some(Refusal::BadPairing) {
                return Ok((whole, sentences));
            }
        }
        Ok((self.content, sentences::LINE_NOT_READ))
    }
}

/// What is wrong with a word that is no target of such an instruction.
fn sentences_on_target(
    instruction: Option<Instruction>,
    word: &[u8],
    is_second: bool,
) -> &'static str {
    let is_record = word.starts_with(b"rec[");
    match instruction {
        None => sentences::COUNT_SPELLING,
        Some(Instruction::Tick | Instruction::ShiftCoords) => sentences::NO_TARGETS,
        Some(Instruction::Detector | Instruction::ObservableInclude) => sentences::NO_RECORD,
        Some(Instruction::Measure(_)) if !is_record => sentences::NO_MEASURED_QUBIT,
        _ if word.starts_with(b"!") => sentences::NOT_INVERTED,
        Some(Instruction::Controlled(_)) if word.starts_with(b"sweep[") => sentences::NO_SWEEP,
        Some(Instruction::Controlled(_)) if !is_second => sentences::NO_CONTROL,
        Some(Instruction::Controlled(_)) if is_record => sentences::RECORD_SECOND,
        _ if is_record => sentences::NO_RECORD_HERE,
        _ => sentences::NO_QUBIT,
    }
}
