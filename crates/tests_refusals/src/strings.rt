//! The calls that make an output in memory or a Pauli string.
use crate::sheet::show_string;
use crate::stop::Stop;
use crate::trial::Trial;
use stab_io::write_all;
use stab_pauli::{Letter, MemoryOutput, Pauli};
use std::alloc::Global;

/// More letters than fit into one block of words.
const LETTERS: usize = 300;

/// A call that makes an output or a string.
#[derive(Clone, Copy)]
pub enum Maker {
    Output,
    Identity,
    Single,
    Copy,
}

/// The calls.
pub const MAKERS: &[(&str, Maker)] = &[
    ("MemoryOutput::new", Maker::Output),
    ("Pauli::identity", Maker::Identity),
    ("Pauli::single", Maker::Single),
    ("Pauli::copy", Maker::Copy),
];

/// A call that makes an output, before it one without room, or a string, perhaps from another one, with
/// what was made last.
#[derive(Drop)]
pub struct Making {
    maker: Maker,
    output: MemoryOutput,
    source: Pauli,
    made: Pauli,
}

impl Trial for Making {
    type Call = Maker;

    fn new(alloc: Global, maker: Maker) -> Result<Making, Stop> {
        Ok(Making {
            maker,
            output: MemoryOutput::new(alloc, 0)?,
            source: Pauli::single(alloc, LETTERS, 7, Letter::X)?,
            made: Pauli::identity(alloc, 0)?,
        })
    }

    fn call(&mut self, alloc: Global) -> Result<(), Stop> {
        match self.maker {
            Maker::Output => self.output = MemoryOutput::new(alloc, 5)?,
            Maker::Identity => self.made = Pauli::identity(alloc, LETTERS)?,
            Maker::Single => self.made = Pauli::single(alloc, LETTERS, 299, Letter::Y)?,
            Maker::Copy => self.made = self.source.copy(alloc)?,
        }
        Ok(())
    }

    // The output takes as many of these bytes as it has room for.
    fn show(&mut self, _alloc: Global, out: &mut MemoryOutput) -> Result<(), Stop> {
        let _ = write_all(&mut self.output, b"sixteen");
        write_all(out, self.output.bytes())?;
        show_string(out, &self.source)?;
        show_string(out, &self.made)
    }
}
