//! A line with carets under a part of it.
use crate::part::Part;
use stab_instructions::is_spacing;
use std::alloc::{AllocError, Global};
use std::fmt::Write;

/// The most bytes of a line that is shown whole.
const MOST_WHOLE: usize = 120;

/// This many bytes of a longer line are shown, of which some are before the part.
const WINDOW: usize = 100;

const BEFORE: usize = 40;

/// A part's line with its number, under it carets under the part, and then sentences on it.
///
/// A byte that is no printed character of ASCII is shown as `?`, and spacing as a space, so that columns
/// are bytes.
pub(crate) fn show_line(
    alloc: Global,
    number: u64,
    part: Part,
    sentences: &str,
) -> Result<String, AllocError> {
    let line = part.line.strip_suffix(b"\r").unwrap_or(part.line);
    let window = window_round(line, part.start);
    let mut words = format!(in alloc; "{number}: {}", cut_if(window.start > 0))?;
    let column = part.start.saturating_sub(window.start);
    let margin = " ".repeat(alloc, words.len().saturating_add(column))?;
    let carets = part.end.min(window.end).saturating_sub(part.start).max(1);
    let carets = "^".repeat(alloc, carets)?;
    for byte in window.bytes() {
        words.push(shown_byte(*byte))?;
    }
    let cut = cut_if(window.end < line.len());
    write!(words, "{cut}\n{margin}{carets}\n{sentences}\n")?;
    Ok(words)
}

/// What is shown where a line is cut, if it is.
fn cut_if(cut: bool) -> &'static str {
    if cut { ".." } else { "" }
}

/// What is shown of a line: all of it, or this many bytes with a part's beginning.
fn window_round<'a>(line: &'a [u8], position: usize) -> Part<'a> {
    let whole = Part::whole(line);
    if line.len() <= MOST_WHOLE {
        return whole;
    }
    whole
        .split(position.saturating_sub(BEFORE))
        .1
        .split(WINDOW)
        .0
}

fn shown_byte(byte: u8) -> char {
    match byte {
        _ if is_spacing(byte) => ' ',
        _ if byte.is_ascii_graphic() => char::from(byte),
        _ => '?',
    }
}
