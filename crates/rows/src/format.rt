//! Rows as they are in a file.
ghost use Rattle.std.specs.Prelude.{◌<◌, vec_len, IfOk, All};

use crate::row::WorkedRow;
use crate::text::{number_of, push_bytes, push_line};
use std::alloc::{AllocError, AllocFailed, Global};

/// Why a line is not read, or memory was refused.
#[derive(Clone, Copy)]
pub struct Wrong(pub &'static str);

impl From<AllocError> for Wrong {
    fn from(_error: AllocError) -> Wrong {
        Wrong("memory was refused")
    }
}

impl<T: Drop> From<AllocFailed<T>> for Wrong {
    fn from(_error: AllocFailed<T>) -> Wrong {
        Wrong("memory was refused")
    }
}

/// The line of a file, from 1, at which it is not rows, and why.
#[derive(Clone, Copy)]
pub struct Unread {
    pub line: usize,
    pub wrong: Wrong,
}

/// What an indented line belongs to.
#[derive(Clone, Copy, PartialEq, Eq)]
enum Section {
    /// Nothing: no row is open.
    Between,
    /// The row, none of whose texts is open.
    WorkedRow,
    Circuit,
    Script,
    Output,
    Error,
}

/// The rows of a text.
pub fn read_rows(alloc: Global, text: &str) -> Result<Vec<WorkedRow>, Unread>
    ensures with_words { IfOk result (λ rows. All (λ row. 0 < vec_len row.words) rows.items) }
{
    let mut rows = Vec::new(alloc);
    let mut section = Section::Between;
    let mut number: usize = 0;
    for line in text.lines() {
        number = number.saturating_add(1);
        match take_line(alloc, &mut rows, section, number, line) {
            Ok(next) => section = next,
            Err(wrong) => return Err(Unread {
                line: number,
                wrong,
            }),
        }
    }
    with_words(rows)
}

/// The rows, if each of them has words.
fn with_words(rows: Vec<WorkedRow>) -> Result<Vec<WorkedRow>, Unread>
    ensures with_words { IfOk result (λ rows. All (λ row. 0 < vec_len row.words) rows.items) }
{
    match rows.iter().find(|row| row.words.is_empty()) {
        Some(row) => Err(Unread {
            line: row.line,
            wrong: Wrong("this row has no words"),
        }),
        None => Ok(rows),
    }
}

/// Takes a line into the rows, and says what an indented line after it belongs to.
fn take_line(
    alloc: Global,
    rows: &mut Vec<WorkedRow>,
    section: Section,
    number: usize,
    line: &str,
) -> Result<Section, Wrong> {
    if line.is_empty() {
        return Ok(Section::Between);
    }
    if line.starts_with('#') {
        return Ok(section);
    }
    if let Some(name) = line.strip_prefix("row ") {
        rows.push(WorkedRow::new(alloc, number, String::from_str(alloc, name)?))?;
        return Ok(Section::WorkedRow);
    }
    match rows.last_mut() {
        Some(row) if section != Section::Between => take_into(alloc, row, section, line),
        _ => Err(Wrong("a row begins with `row` and its name")),
    }
}

/// Takes a line into a row.
fn take_into(
    alloc: Global,
    row: &mut WorkedRow,
    section: Section,
    line: &str,
) -> Result<Section, Wrong> {
    if let Some(text) = line.strip_prefix("    ") {
        push_text(alloc, row, section, text)?;
        return Ok(section);
    }
    let (field, value) = line.split_once(' ').unwrap_or((line, ""));
    let next = take_field(alloc, row, field, value)?;
    if next != Section::WorkedRow && !value.is_empty() {
        push_text(alloc, row, next, value)?;
    }
    Ok(next)
}

/// Takes a field into a row, except the texts that it may have.
fn take_field(
    alloc: Global,
    row: &mut WorkedRow,
    field: &str,
    value: &str,
) -> Result<Section, Wrong> {
    match field {
        "circuit" => {
            row.circuits.push(Vec::new(alloc))?;
            Ok(Section::Circuit)
        }
        "script" => Ok(Section::Script),
        "output" => Ok(Section::Output),
        "error" => Ok(Section::Error),
        _ => {
            take_value(alloc, row, field, value)?;
            Ok(Section::WorkedRow)
        }
    }
}

/// Takes the value of a field that has no text.
fn take_value(alloc: Global, row: &mut WorkedRow, field: &str, value: &str) -> Result<(), Wrong> {
    match field {
        "words" => push_value(alloc, &mut row.words, value),
        "shows" => push_value(alloc, &mut row.output.parts, value),
        "tells" => push_value(alloc, &mut row.error.parts, value),
        "bytes" => push_bytes(&mut row.output.bytes, value),
        _ => take_number(row, field, value),
    }
}

/// Takes the value of a field that is said once.
fn take_number(row: &mut WorkedRow, field: &str, value: &str) -> Result<(), Wrong> {
    match field {
        "status" => row.status = status_of(value)?,
        "room" => row.room = number_of(value)?,
        "devices" => row.on_failing_devices = on_failing(value)?,
        _ => return Err(Wrong("no field has this name")),
    }
    Ok(())
}

/// Puts a value after the others of its field.
fn push_value(alloc: Global, values: &mut Vec<String>, value: &str) -> Result<(), Wrong> {
    values.push(String::from_str(alloc, value)?)?;
    Ok(())
}

fn status_of(digits: &str) -> Result<u8, Wrong> {
    u8::try_from(number_of(digits)?).map_err(|_| Wrong("a status is at most 255"))
}

fn on_failing(value: &str) -> Result<bool, Wrong> {
    if value == "failing" {
        return Ok(true);
    }
    Err(Wrong("the devices of a row are `failing`, or not given"))
}

/// Puts a line after the text that is open.
fn push_text(
    alloc: Global,
    row: &mut WorkedRow,
    section: Section,
    line: &str,
) -> Result<(), Wrong> {
    match section {
        Section::Circuit => match row.circuits.last_mut() {
            Some(circuit) => push_line(alloc, circuit, line),
            None => Err(Wrong("an indented line belongs to no text")),
        },
        Section::Script => push_line(alloc, &mut row.script, line),
        Section::Output => push_line(alloc, &mut row.output.bytes, line),
        Section::Error => push_line(alloc, &mut row.error.bytes, line),
        Section::Between | Section::WorkedRow => Err(Wrong("an indented line belongs to no text")),
    }
}
