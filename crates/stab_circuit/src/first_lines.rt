ghost use Rattle.std.specs.Prelude.{◌≡◌, ◌<◌, ℕ, List, false, length, IfOk, MatchOption};
ghost use Rattle.std.specs.Option.{option_copied};
ghost use Rattle.stab_items.specs.Circuits.{meaning_after as meaning_after_of};
ghost use Rattle.stab_circuit.specs.inner.KnownLines.{IsCut};
ghost use Rattle.stab_circuit.specs.FirstLines.{ReadsInstruction};

use crate::meanings::is_close;
use crate::plain_line::instruction_in_front;
use stab_instructions::{Kind, Line};
use stab_io::Refusal;
use std::alloc::Global;

/// The instruction that the first line means, if a look at its bytes is enough to see it, and the lines
/// after it. If only one item is read, a line after it means no more.
pub(crate) fn first_instruction(
    alloc: Global,
    single: bool,
    text: &[u8],
) -> Result<Option<(Kind, Option<&[u8]>)>, Refusal>
    ensures reports { ReadsInstruction text.now result }
    ensures shorter { IfOk result (λ found. MatchOption found (Unit {0}) (λ p. MatchOption (option_copied p.1) (Unit {0}) (λ after. length after < length text.now))) }
    ensures several { IfOk result (λ found. MatchOption found (Unit {0}) (λ _. single ≡ false)) }
{
    if single {
        return Ok(None);
    }
    instruction_in_front(alloc, text)
}

/// What a content means after a whole item.
pub(crate) fn meaning_after(content: &[u8]) -> Result<Line, Refusal>
    ensures value { result ≡ meaning_after_of content.now }
{
    if content.is_empty() {
        Ok(Line::Blank)
    } else if is_close(content) {
        Ok(Line::Close)
    } else {
        Err(Refusal::BadLine)
    }
}

/// The lines after a line with which the text begins, if there are any.
pub(crate) fn after_front<'a>(text: &'a [u8], line: &[u8]) -> Option<Option<&'a [u8]>>
    ensures front { MatchOption result (Unit {0}) (λ after. IsCut text.now line.now (option_copied after)) }
{
    if !text.starts_with(line) {
        return None;
    }
    let rest = text.split_at(line.len()).1;
    match rest.first() {
        None => Some(None),
        Some(first) if *first == b'\n' => Some(Some(rest.split_at(1).1)),
        Some(_) => None,
    }
}

/// What is in a text before these lines.
#[tactic(auto, using(crate::proofs::FirstLineLemmas::before_cut))]
pub(crate) fn before_lines<'a>(text: &'a [u8], after: Option<&[u8]>) -> &'a [u8]
    ensures value { (front : List ℕ) → IsCut text.now front (option_copied after.entry) → result.now ≡ front }
{
    match after {
        None => text,
        Some(rest) => text.split_at(text.len().saturating_sub(rest.len() + 1)).0,
    }
}
