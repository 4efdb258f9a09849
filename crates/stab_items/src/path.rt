ghost use Rattle.std.specs.Prelude.{◌++◌, codes};
ghost use Rattle.std.specs.Fmt.{decimal};
ghost use Rattle.stab_io.specs.Devices.{WritesAll};
ghost use Rattle.stab_items.specs.Paths.{path_text};

use itoa::Buffer;
use stab_io::{Output, Refusal, write_all};
use std::marker::Model;

/// Where an item is or an edit is made: the positions of the blocks around it, the outermost first, of
/// which there are at most 16, and a position in the innermost list. Positions are counted from 0.
#[derive(Clone, Copy, Debug, PartialEq, Eq)]
pub struct Path {
    /// The blocks' positions, and then zeros.
    blocks: [usize; 16],
    depth: usize,
    position: usize,
}

impl Model for Path {
    ghost use Rattle.stab_items.specs.Paths.{Path as PathValue};

    ghost Value = { PathValue };

    ghost use Rattle.stab_items.specs.inner.StoredPaths.{path_of, stored_path, stored_path_of, IsPaddedPath};

    ghost view = { path_of };

    ghost invariant = { IsPaddedPath };

    ghost inverse = { stored_path };

    ghost inverse_ok = { stored_path_of };
}

impl Path {
    ghost use Rattle.std.specs.Prelude.{◌≡◌, ◌<◌, ◌≤◌, ◌∷◌, length, slice_get, Some};
    ghost use Rattle.stab_items.specs.Paths.{numbers};

    /// The path of these numbers, of which there are 1 to 17.
    pub fn new(positions: &[usize]) -> Path
        requires some { 0 < length positions.now }
        requires few { length positions.now ≤ 17 }
        ensures value { numbers result ≡ positions.now }
    {
        let depth = positions.len() - 1;
        let mut blocks = [0; 16];
        blocks[..depth].copy_from_slice(&positions[..depth]);
        Path {
            blocks,
            depth,
            position: positions[depth],
        }
    }

    /// The first number: a position in the outermost list.
    pub fn first(&self) -> usize
        ensures value { slice_get (numbers self.now) 0 ≡ Some result }
    {
        if self.depth == 0 {
            self.position
        } else {
            self.blocks[0]
        }
    }

    /// The positions of the blocks around, the outermost first.
    pub fn blocks(&self) -> &[usize]
        ensures value { result.now ≡ self.now.blocks }
    {
        &self.blocks[..self.depth]
    }

    /// The position in the innermost list.
    pub fn position(&self) -> usize
        ensures value { result ≡ self.now.position }
    {
        self.position
    }
}

/// Writes a number in decimal.
fn write_number<O: Output>(out: &mut O, number: usize) -> Result<(), Refusal>
    ensures writes { WritesAll (O.seen out.old) (O.seen out.new) (decimal number) result }
{
    let mut digits = Buffer::new();
    write_all(out, digits.format(number).as_bytes())
}

/// Writes the position of a block, with a slash after it.
fn write_block<O: Output>(out: &mut O, position: usize) -> Result<(), Refusal>
    ensures writes { WritesAll (O.seen out.old) (O.seen out.new) (decimal position ++ codes "/") result }
{
    write_number(out, position)?;
    write_all(out, b"/")
}

/// Writes a path's numbers in decimal, joined by slashes, and takes no memory. It does not flush.
///
/// Refusal `WriteFault` if a write failed; what was written is then a prefix of the text, and
/// nothing more is tried.
pub fn write_path<O: Output>(out: &mut O, path: &Path) -> Result<(), Refusal>
    ensures writes { WritesAll (O.seen out.old) (O.seen out.new) (path_text path.now) result }
{
    let blocks = path.blocks();
    for block in blocks {
        write_block(out, *block)?;
    }
    write_number(out, path.position())
}
