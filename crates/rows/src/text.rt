//! The texts of a row.
use crate::format::Wrong;
use hex::FromHex;
use std::alloc::Global;
use std::fmt::{self, Display, Formatter, Write};

/// Puts a line and its line end after a text, or, if it begins with `\*` and a number, its rest that many
/// times.
pub(crate) fn push_line(alloc: Global, text: &mut Vec<u8>, line: &str) -> Result<(), Wrong> {
    if let Some(repeated) = line.strip_prefix("\\*") {
        return push_repeated(alloc, text, repeated);
    }
    push_part(text, line)?;
    text.push(b'\n')?;
    Ok(())
}

/// Puts what follows a number that many times after a text.
fn push_repeated(alloc: Global, text: &mut Vec<u8>, repeated: &str) -> Result<(), Wrong> {
    let (digits, part) = repeated.split_once(' ').unwrap_or((repeated, ""));
    let mut bytes = Vec::new(alloc);
    push_part(&mut bytes, part)?;
    for _ in 0..number_of(digits)? {
        text.extend_from_slice(bytes.as_slice())?;
    }
    Ok(())
}

/// The number of these digits.
pub(crate) fn number_of(digits: &str) -> Result<usize, Wrong> {
    digits
        .parse::<usize>()
        .map_err(|_| Wrong("this is no number"))
}

/// Puts a part after a text: `\` and two hexadecimal digits stand for a byte, and all else for itself.
fn push_part(text: &mut Vec<u8>, part: &str) -> Result<(), Wrong> {
    let mut pieces = part.split('\\');
    if let Some(first) = pieces.next() {
        text.extend_from_slice(first.as_bytes())?;
    }
    for piece in pieces {
        push_escaped(text, piece.as_bytes())?;
    }
    Ok(())
}

/// Puts the byte that the first two digits stand for after a text, and then the rest.
fn push_escaped(text: &mut Vec<u8>, piece: &[u8]) -> Result<(), Wrong> {
    let (digits, rest) = piece.split_at(piece.len().min(2));
    text.push(byte_of(digits)?)?;
    text.extend_from_slice(rest)?;
    Ok(())
}

/// Puts the bytes that pairs of hexadecimal digits stand for after others.
pub(crate) fn push_bytes(bytes: &mut Vec<u8>, digits: &str) -> Result<(), Wrong> {
    for pair in digits.split_whitespace() {
        bytes.push(byte_of(pair.as_bytes())?)?;
    }
    Ok(())
}

/// The byte of two hexadecimal digits.
fn byte_of(digits: &[u8]) -> Result<u8, Wrong> {
    match <[u8; 1] as FromHex>::from_hex(digits) {
        Ok(bytes) => Ok(bytes[0]),
        Err(_) => Err(Wrong("these are not two hexadecimal digits")),
    }
}

/// Bytes as a text of rows: those that are no printed characters of ASCII as `\` and two digits.
#[derive(Drop)]
pub struct Shown<'a>(pub &'a [u8]);

impl<'a> Display for Shown<'a> {
    fn fmt<W: Write>(&self, f: &mut Formatter<W>) -> fmt::Result {
        for byte in self.0 {
            match byte {
                b'\\' | 0..=31 | 127..=255 => write!(f, "\\{byte:02X}")?,
                _ => f.write_char(char::from(*byte))?,
            }
        }
        Ok(())
    }
}
