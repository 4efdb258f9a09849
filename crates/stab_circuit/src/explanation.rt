//! The words of an explanation, and writing them.
ghost use Rattle.stab_circuit.specs.Explanations.{AppendsSome};

use crate::faulty_line::FaultyLine;
use crate::instruction_parts::parts_of;
use crate::meanings::meaning;
use crate::part::{Part, words};
use crate::refused_item::{RefusedItem, find_item, furthest_lookback};
use crate::sentences;
use crate::shown::show_line;
use crate::unread_names::text_on_name;
use stab_instructions::{Line, Name};
use stab_io::{Fault, Output, Refusal, write_all};
use std::alloc::{AllocError, Global};

/// The bytes of a byte order mark in UTF-8.
const BYTE_ORDER_MARK: &[u8] = b"\xEF\xBB\xBF";

/// Writes what is wrong with a circuit's text that was refused with this fault, and does not flush.
///
/// The line at fault is first, with its number, and under it carets under the word at fault. Then
/// come two sentences: what is wrong with it, and what to do, if need be with the lines that do the same;
/// and, for a name that no instruction has, the nearest one if one is near. For lookbacks past the first
/// record and for too many steps the item is given by its path, and for too many steps also how many the whole
/// circuit has. For faults of devices and memory nothing is written.
///
/// Refusals: `WriteFault` if a write failed, and nothing more is tried; `OutOfMemory`, and then
/// nothing was written.
pub fn write_explanation<O: Output>(
    alloc: Global,
    out: &mut O,
    text: &[u8],
    fault: Fault,
) -> Result<(), Refusal>
    ensures appends { AppendsSome (O.seen out.old) (O.seen out.new) result }
{
    let words = explanation(alloc, text, fault)?;
    write_all(out, words.as_bytes())
}

/// What is wrong with the text, as lines.
fn explanation(alloc: Global, text: &[u8], fault: Fault) -> Result<String, AllocError> {
    if fault.refusal == Refusal::TooLong {
        return format!(in alloc; "{}\n", sentences::TOO_LONG);
    }
    if fault.line > 0 {
        let line = line_of(text, fault.line);
        let (part, sentences) = explanation_of_line(alloc, line, fault.refusal)?;
        return show_line(alloc, fault.line, part, sentences.as_str());
    }
    let Some(item) = find_item(alloc, text, fault.refusal)? else {
        return Ok(String::new(alloc));
    };
    let line = line_of(text, item.line);
    let (part, sentences) = explanation_of_item(alloc, line, &item, fault.refusal)?;
    show_line(alloc, item.line, part, sentences.as_str())
}

/// The line of this number, counted from 1.
fn line_of(text: &[u8], number: u64) -> &[u8] {
    let mut lines = text.split(|byte| *byte == b'\n');
    lines.nth(number.saturating_sub(1) as usize).unwrap_or(&[])
}

/// The part of a line for which it is refused like this, and what is wrong with it.
fn explanation_of_line<'a>(
    alloc: Global,
    line: &'a [u8],
    refusal: Refusal,
) -> Result<(Part<'a>, String), AllocError> {
    let content = Part::whole(line).trimmed();
    let (part, sentences) = match parts_of(content) {
        Err(finding) => finding,
        Ok(parts) => {
            let instruction = match Name::of(parts.name.bytes()) {
                Ok(Name::Repeat) => None,
                Ok(Name::Instruction(instruction)) => Some(instruction),
                Err(_) => return Ok((parts.name, text_on_name(alloc, parts.name.bytes())?)),
            };
            let faulty_line = FaultyLine {
                alloc,
                content,
                parts,
                instruction,
            };
            faulty_line.find(refusal)?
        }
    };
    let (part, sentences) = match part.beyond_ascii() {
        Some(_) if content.bytes().starts_with(BYTE_ORDER_MARK) => {
            (content.split(3).0, sentences::BYTE_ORDER_MARK)
        }
        // A block as a whole may have any bytes in its tag.
        Some(bytes) if !matches!(refusal, Refusal::BadBlock | Refusal::TooDeep) => {
            (bytes, sentences::NO_ASCII)
        }
        _ => (part, sentences),
    };
    Ok((part, String::from_str(alloc, sentences)?))
}

/// The part of a line for which its item is refused like this, and what is wrong with it.
fn explanation_of_item<'a>(
    alloc: Global,
    line: &'a [u8],
    item: &RefusedItem,
    refusal: Refusal,
) -> Result<(Part<'a>, String), AllocError> {
    let path = item.path.as_str();
    if refusal == Refusal::LookbackTooFar {
        let part = find_lookback(alloc, line, item.records)?;
        let records = match item.records {
            0 => format!(in alloc; "no record is")?,
            1 => format!(in alloc; "1 record is")?,
            records => format!(in alloc; "{records} records are")?,
        };
        let text = format!(in alloc;
            "This looks back past the first record: {records} before item {path}.\n{}",
            sentences::LOOK_BACK_LESS
        )?;
        return Ok((part, text));
    }
    let least = if item.steps_of_text == u64::MAX {
        "at least "
    } else {
        ""
    };
    let text = format!(in alloc;
        "There are more than 1048576 steps up to the end of item {path}.\n\
        The whole circuit has {least}{} steps.\n{}",
        item.steps_of_text,
        sentences::MAKE_SHORTER
    )?;
    Ok((Part::whole(line).trimmed(), text))
}

/// The first word of a line that looks back over more than this many records.
fn find_lookback<'a>(alloc: Global, line: &'a [u8], records: u64) -> Result<Part<'a>, AllocError> {
    let content = Part::whole(line).trimmed();
    let Ok(parts) = parts_of(content) else {
        return Ok(content);
    };
    for word in words(alloc, parts.targets)? {
        if lookback_of(alloc, word.bytes())? > records {
            return Ok(word);
        }
    }
    Ok(content)
}

/// How far back a word looks, or 0 if it is no record.
fn lookback_of(alloc: Global, word: &[u8]) -> Result<u64, AllocError> {
    let texts: [&[u8]; 2] = [b"DETECTOR ", word];
    let content = texts.concat(alloc)?;
    match meaning(alloc, content.as_slice()) {
        Ok(Line::Operation(operation)) => Ok(furthest_lookback(&operation.kind)),
        Err(Refusal::OutOfMemory) => Err(AllocError),
        Ok(_) | Err(_) => Ok(0),
    }
}
