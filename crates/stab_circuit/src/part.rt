//! Parts of a line, by their positions in it.
use crate::line::content;
use stab_instructions::without_spacing_in_front;
use std::alloc::{AllocError, Global};

/// A part of a line: the positions of its first byte and of the one after its last.
#[derive(Clone, Copy)]
pub(crate) struct Part<'a> {
    pub(crate) line: &'a [u8],
    pub(crate) start: usize,
    pub(crate) end: usize,
}

impl<'a> Part<'a> {
    /// All of a line.
    pub(crate) fn whole(line: &'a [u8]) -> Part<'a> {
        let end = line.len();
        Part {
            line,
            start: 0,
            end,
        }
    }

    /// Another part of its line.
    pub(crate) fn between(self, start: usize, end: usize) -> Part<'a> {
        Part { start, end, ..self }
    }

    /// Its bytes.
    pub(crate) fn bytes(self) -> &'a [u8] {
        self.line.get(self.start..self.end).unwrap_or(&[])
    }

    /// Its first bytes, this many, and what follows them.
    pub(crate) fn split(self, count: usize) -> (Part<'a>, Part<'a>) {
        let position = self.start.saturating_add(count).min(self.end);
        (
            self.between(self.start, position),
            self.between(position, self.end),
        )
    }

    /// It without its last byte, and this byte.
    pub(crate) fn split_last(self) -> (Part<'a>, Part<'a>) {
        self.split(self.bytes().len().saturating_sub(1))
    }

    /// Its first bytes that are no ASCII, up to the next of the line that is.
    pub(crate) fn beyond_ascii(self) -> Option<Part<'a>> {
        let position = self.bytes().iter().position(|b| !b.is_ascii())?;
        let start = self.start.saturating_add(position);
        let rest = self.between(start, self.line.len());
        let length = rest.bytes().iter().take_while(|b| !b.is_ascii()).count();
        Some(rest.split(length).0)
    }

    /// It without a comment and the spacing at both ends.
    pub(crate) fn trimmed(self) -> Part<'a> {
        let bytes = self.bytes();
        let rest = without_spacing_in_front(bytes);
        let spacing = bytes.len().saturating_sub(rest.len());
        self.split(spacing).1.split(content(bytes).len()).0
    }
}

/// What is before, between and after separators, empty parts too.
pub(crate) fn pieces<'a>(
    alloc: Global,
    part: Part<'a>,
    separators: &[u8],
) -> Result<Vec<Part<'a>>, AllocError> {
    let mut pieces = Vec::new(alloc);
    let mut start = part.start;
    for (position, byte) in part.bytes().iter().enumerate() {
        if separators.contains(byte) {
            let end = part.start.saturating_add(position);
            pieces.push(part.between(start, end))?;
            start = end.saturating_add(1);
        }
    }
    pieces.push(part.between(start, part.end))?;
    Ok(pieces)
}

/// The words between spacing.
pub(crate) fn words<'a>(alloc: Global, part: Part<'a>) -> Result<Vec<Part<'a>>, AllocError> {
    let mut words = Vec::new(alloc);
    for piece in pieces(alloc, part, b" \t\r")? {
        if !piece.bytes().is_empty() {
            words.push(piece)?;
        }
    }
    Ok(words)
}
