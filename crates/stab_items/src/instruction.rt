use crate::summary::{Summary, kind_summary};
use stab_instructions::{Kind, Operation, Sequence};
use std::marker::Model;

/// An instruction and its summary, so that items are added up without a look at targets. Contracts see
/// the instruction, which keeps the rules of lines.
pub struct Instruction {
    kind: Kind,
    tag: Option<Sequence<u8>>,
    sum: Summary,
}

// Written out, so that a proof sees the drop of a value as one call, and not one for each of its parts.
impl Drop for Instruction {
    fn drop(self) {
        let Instruction {
            kind: _,
            tag: _,
            sum: _,
        } = self;
    }
}

impl Model for Instruction {
    ghost use Rattle.std.specs.Prelude.{[]};
    ghost use Rattle.std.specs.Option.{unwrap_or};
    ghost use Rattle.stab_instructions.specs.declared.operation.Operation.{Operation as OperationValue};
    ghost use Rattle.stab_items.specs.Items.{next, done};
    ghost use Rattle.stab_items.specs.inner.Summaries.{IsSumOf};

    ghost Value = { OperationValue };

    ghost view = { λ i. record { kind = i.kind; tag = unwrap_or i.tag [] } };

    ghost invariant = { λ i. IsSumOf (next (record { kind = i.kind; tag = unwrap_or i.tag [] }) done) i.sum };
}

impl Instruction {
    ghost use Rattle.std.specs.Prelude.{◌≡◌};
    ghost use Rattle.stab_instructions.specs.Rules.{IsGoodKind, IsGoodLine};
    ghost use Rattle.stab_instructions.specs.declared.operation.Line.TheVariants as line;
    ghost use Rattle.stab_items.specs.Items.{next, done, without_tag};
    ghost use Rattle.stab_items.specs.inner.Summaries.{IsSumOf};

    /// The instruction of a line.
    #[tactic(auto, using(crate::proofs::SummaryLemmas::operation_sum))]
    pub fn new(operation: Operation) -> Instruction
        requires good { IsGoodLine (line.Operation operation) }
        ensures value { result ≡ operation }
    {
        let Operation { kind, tag } = operation;
        let sum = kind_summary(&kind);
        Instruction {
            kind,
            tag: Some(tag),
            sum,
        }
    }

    /// An instruction without a tag.
    #[tactic(auto, using(crate::proofs::SummaryLemmas::operation_sum))]
    pub fn plain(kind: Kind) -> Instruction
        requires good { IsGoodKind kind }
        ensures value { result ≡ without_tag kind }
    {
        let sum = kind_summary(&kind);
        Instruction {
            kind,
            tag: None,
            sum,
        }
    }

    pub(crate) fn kind(&self) -> &Kind
        ensures value { result.now ≡ self.now.kind }
    {
        &self.kind
    }

    /// The tag, which is empty if there is none.
    pub(crate) fn tag(&self) -> &[u8]
        ensures value { result.now ≡ self.now.tag }
    {
        match &self.tag {
            Some(tag) => tag.as_slice(),
            None => &[],
        }
    }

    /// The summary, without a look at targets.
    #[inline]
    pub(crate) fn summary(&self) -> Summary
        ensures sum { IsSumOf (next self.now done) result }
    {
        self.sum
    }
}
