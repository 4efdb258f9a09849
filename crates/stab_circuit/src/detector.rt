ghost use Rattle.std.specs.Prelude.{◌≡◌, IfSome, Ok};
ghost use Rattle.stab_instructions.specs.Results.{Gives, each};
ghost use Rattle.stab_instructions.specs.Words.{words, arguments_of};
ghost use Rattle.stab_instructions.specs.Targets.{lookback_of};
ghost use Rattle.stab_circuit.specs.inner.Parts.{after_coordinates};

use crate::target::{lookbacks, record_at_front};
use stab_instructions::{Coordinates, DetectorTargets, FEW_RECORDS, SHORT_COORDINATES, is_blank};
use stab_io::Refusal;
use std::alloc::Global;

/// The records that the words are, after coordinates that are written in this way.
pub fn detector_targets(
    alloc: Global,
    written: &[u8],
    words_text: &[u8],
) -> Result<DetectorTargets, Refusal>
    ensures gives { Gives result (after_coordinates written.now (each lookback_of (words words_text.now))) }
{
    match short_records(written, words_text) {
        Some(targets) => Ok(targets),
        None => long_records(alloc, written, words_text),
    }
}

/// The same, in memory of their own.
fn long_records(
    alloc: Global,
    written: &[u8],
    words_text: &[u8],
) -> Result<DetectorTargets, Refusal>
    ensures gives { Gives result (after_coordinates written.now (each lookback_of (words words_text.now))) }
{
    let records = lookbacks(alloc, words_text)?;
    let coordinates = Coordinates::of(alloc, written)?;
    Ok(DetectorTargets::long(alloc, coordinates, records)?)
}

/// The same without memory of its own, if coordinates and records are few and a look at the words' bytes
/// is enough to see it.
fn short_records(written: &[u8], words_text: &[u8]) -> Option<DetectorTargets>
    ensures in_front { IfSome result (λ d. d.0 ≡ arguments_of written.now) }
    ensures after { IfSome result (λ d. each lookback_of (words words_text.now) ≡ Ok d.1) }
{
    if written.len() > SHORT_COORDINATES {
        return None;
    }
    let mut found = [0; FEW_RECORDS];
    let mut count = 0;
    let mut rest = words_text;
    while count < FEW_RECORDS
        && let Some((number, after)) = record_at_front(rest)
    {
        found[count] = number;
        count += 1;
        rest = after;
    }
    if is_blank(rest) {
        Some(DetectorTargets::few(written, &found[..count]))
    } else {
        None
    }
}
