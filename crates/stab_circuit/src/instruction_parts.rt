//! A line cut into its name, arguments and targets, or what has no line's shape in it.
use crate::line::ends_with;
use crate::meanings::is_close;
use crate::part::Part;
use crate::sentences;
use stab_instructions::{first_piece, is_brace, is_spacing};

/// A part of a line, and what is wrong with it and what to do.
pub(crate) type Finding<'a> = (Part<'a>, &'static str);

/// The parts of a line that has the shape of one.
#[derive(Clone, Copy)]
pub(crate) struct InstructionParts<'a> {
    pub(crate) name: Part<'a>,
    /// With their brackets; empty if there are none.
    pub(crate) arguments: Part<'a>,
    pub(crate) targets: Part<'a>,
    /// Whether a brace is last.
    pub(crate) opens: bool,
}

fn is_name_byte(byte: u8) -> bool {
    byte.is_ascii_alphanumeric() || byte == b'_'
}

/// The parts of the content of a line, or from the left the first that has no line's shape.
pub(crate) fn parts_of<'a>(content: Part<'a>) -> Result<InstructionParts<'a>, Finding<'a>> {
    let bytes = content.bytes();
    match bytes.first() {
        Some(first) if first.is_ascii_alphabetic() => {}
        _ => return Err(no_name(content)),
    }
    let length = bytes.iter().take_while(|b| is_name_byte(**b)).count();
    let (name, rest) = content.split(length);
    let (_, rest) = bracketed(rest, b'[', b']', sentences::TAG_NOT_CLOSED)?;
    let (arguments, rest) = bracketed(rest, b'(', b')', sentences::ARGUMENTS_NOT_CLOSED)?;
    without_brace(arguments)?;
    let opens = ends_with(rest.bytes(), b'{');
    let targets = if opens { rest.split_last().0 } else { rest };
    match targets.bytes().first() {
        Some(first) if !is_spacing(*first) => {
            return Err((targets.split(1).0, sentences::NOT_SEPARATE));
        }
        _ => without_brace(targets)?,
    }
    Ok(InstructionParts {
        name,
        arguments,
        targets,
        opens,
    })
}

/// What is where a name should be.
fn no_name<'a>(content: Part<'a>) -> Finding<'a> {
    let sentences = match content.bytes().first() {
        Some(_) if is_close(content.bytes()) => sentences::NO_BLOCK_OPEN,
        Some(b'}') => sentences::CLOSE_NOT_ALONE,
        Some(b'{') => sentences::OPEN_NOT_AFTER_COUNT,
        _ => sentences::NO_NAME,
    };
    (content.split(1).0, sentences)
}

/// What brackets directly in front hold, with them, or nothing if there are none, and what follows.
fn bracketed<'a>(
    part: Part<'a>,
    opening: u8,
    closing: u8,
    not_closed: &'static str,
) -> Result<(Part<'a>, Part<'a>), Finding<'a>> {
    let bytes = part.bytes();
    if bytes.first() != Some(&opening) {
        return Ok(part.split(0));
    }
    match first_piece(bytes, closing) {
        (inside, Some(_)) => Ok(part.split(inside.len().saturating_add(1))),
        (_, None) => Err((part.split(1).0, not_closed)),
    }
}

/// The first brace in a part, if it can't be there.
fn without_brace<'a>(part: Part<'a>) -> Result<(), Finding<'a>> {
    match part.bytes().iter().position(|b| is_brace(*b)) {
        Some(position) => Err((part.split(position).1.split(1).0, sentences::BRACE_WITHIN)),
        None => Ok(()),
    }
}
