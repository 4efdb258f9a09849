ghost use Rattle.std.specs.Prelude.{◌≡◌, vec_len, IsTrue};

use crate::text::Shown;
use std::alloc::Global;
use std::fmt::{self, Display, Formatter, Write};

/// A worked example: what stabsim is asked, in one or several ways, and what it writes each time.
pub struct WorkedRow {
    /// The line of its file at which it begins, from 1.
    pub line: usize,
    pub name: String,
    /// The words of each command line, without the program's name.
    pub words: Vec<String>,
    /// The circuits, each of which has the same outcome; with none, it is the empty circuit.
    pub circuits: Vec<Vec<u8>>,
    pub script: Vec<u8>,
    pub output: Wanted,
    pub error: Wanted,
    pub status: u8,
    /// How many bytes standard output takes before it fails.
    pub room: usize,
    /// Whether it is run over devices that fail, too.
    pub on_failing_devices: bool,
}

// Written out, so that a proof sees the drop of a row as one call, and not one for each of its parts.
impl Drop for WorkedRow {
    fn drop(self) {
        let WorkedRow {
            line: _,
            name: _,
            words: _,
            circuits: _,
            script: _,
            output: _,
            error: _,
            status: _,
            room: _,
            on_failing_devices: _,
        } = self;
    }
}

impl Display for WorkedRow {
    fn fmt<W: Write>(&self, f: &mut Formatter<W>) -> fmt::Result {
        let WorkedRow {
            status,
            output,
            error,
            ..
        } = self;
        write!(f, "  wanted  {status}, {output}, {error}")
    }
}

impl WorkedRow {
    /// A row that begins at this line, on which nothing else is said yet.
    pub(crate) fn new(alloc: Global, line: usize, name: String) -> WorkedRow {
        WorkedRow {
            line,
            name,
            words: Vec::new(alloc),
            circuits: Vec::new(alloc),
            script: Vec::new(alloc),
            output: Wanted::new(alloc),
            error: Wanted::new(alloc),
            status: 0,
            room: 65_536,
            on_failing_devices: false,
        }
    }
}

/// What an output must have: exactly these bytes, or only these texts somewhere in it.
#[derive(Drop)]
pub struct Wanted {
    pub bytes: Vec<u8>,
    pub parts: Vec<String>,
}

impl Wanted {
    /// Nothing.
    pub(crate) fn new(alloc: Global) -> Wanted {
        Wanted {
            bytes: Vec::new(alloc),
            parts: Vec::new(alloc),
        }
    }

    /// Whether an output has what is wanted. The bytes may differ only if the row gives only parts.
    pub fn is_met(&self, found: &[u8]) -> bool
        ensures same { IsTrue result → vec_len self.now.parts ≡ 0 → found.now ≡ self.now.bytes.items }
    {
        self.has_bytes(found) && self.has_parts(found)
    }

    fn has_bytes(&self, found: &[u8]) -> bool
        ensures same { IsTrue result → vec_len self.now.parts ≡ 0 → found.now ≡ self.now.bytes.items }
    {
        let in_parts = self.bytes.is_empty() && !self.parts.is_empty();
        in_parts || self.bytes.as_slice() == found
    }

    fn has_parts(&self, found: &[u8]) -> bool {
        match str::from_utf8(found) {
            Ok(text) => self.parts.iter().all(|part| text.contains(part.as_str())),
            Err(_) => self.parts.is_empty(),
        }
    }
}

impl Display for Wanted {
    fn fmt<W: Write>(&self, f: &mut Formatter<W>) -> fmt::Result {
        for part in &self.parts {
            write!(f, "{part} .. ")?;
        }
        write!(f, "{}", Shown(self.bytes.as_slice()))
    }
}
