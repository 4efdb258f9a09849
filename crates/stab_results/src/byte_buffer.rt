ghost use Rattle.std.specs.Prelude.{◌≡◌, ◌≤◌, ◌+◌, ◌++◌, List, ℕ, [], ◌∷◌, length, take, OnOk};
ghost use Rattle.std.specs.Fmt.{decimal};
ghost use Rattle.stab_results.specs.inner.ByteBuffer.{Puts};

use itoa::Buffer;
use stab_io::{Output, Refusal, write_all};
use std::marker::Model;

/// How many bytes are gathered before they go out.
const ROOM: usize = 1024;

/// Bytes that are gathered on their way to an output. Contracts see those that it holds.
///
/// What is held goes out if there is no room for more, and by `send` at the end.
#[derive(Drop)]
pub(crate) struct ByteBuffer {
    bytes: [u8; ROOM],
    held: usize,
}

impl Model for ByteBuffer {
    ghost Value = { List ℕ };

    ghost view = { λ g. take g.held g.bytes };

    ghost invariant = { λ g. g.held ≤ 1024 };
}

impl ByteBuffer {
    /// Holds nothing yet.
    pub(crate) fn new() -> ByteBuffer
        ensures empty { result ≡ [] }
    {
        ByteBuffer {
            bytes: [0; ROOM],
            held: 0,
        }
    }

    /// Sends all that is held.
    pub(crate) fn send<O: Output>(&mut self, out: &mut O) -> Result<(), Refusal>
        ensures puts { Puts (O.seen out.old) (O.seen out.new) self.old self.new [] result }
        ensures empty { OnOk result (self.new ≡ []) }
    {
        write_all(out, self.bytes.split_at(self.held).0)?;
        self.held = 0;
        Ok(())
    }

    /// Puts one byte; what is held goes out first if there is no room.
    pub(crate) fn push<O: Output>(&mut self, out: &mut O, byte: u8) -> Result<(), Refusal>
        ensures puts { Puts (O.seen out.old) (O.seen out.new) self.old self.new (byte ∷ []) result }
    {
        if self.held == ROOM {
            self.send(out)?;
        }
        self.bytes[self.held] = byte;
        self.held += 1;
        Ok(())
    }

    /// Holds bytes for which there is room.
    fn hold(&mut self, bytes: &[u8])
        requires room { length self.old + length bytes.now ≤ 1024 }
        ensures held { self.new ≡ self.old ++ bytes.now }
    {
        let end = self.held + bytes.len();
        self.bytes[self.held..end].copy_from_slice(bytes);
        self.held = end;
    }

    /// Puts a block of bytes; what is held goes out first if there is no room.
    pub(crate) fn put_bytes<O: Output>(&mut self, out: &mut O, bytes: &[u8]) -> Result<(), Refusal>
        requires short { length bytes.now ≤ 1024 }
        ensures puts { Puts (O.seen out.old) (O.seen out.new) self.old self.new bytes.now result }
    {
        if bytes.len() > ROOM - self.held {
            self.send(out)?;
        }
        self.hold(bytes);
        Ok(())
    }

    /// Puts the bytes, one after another.
    pub(crate) fn put<O: Output>(&mut self, out: &mut O, bytes: &[u8]) -> Result<(), Refusal>
        ensures puts { Puts (O.seen out.old) (O.seen out.new) self.old self.new bytes.now result }
    {
        for byte in bytes {
            self.push(out, *byte)?;
        }
        Ok(())
    }

    /// Puts a number in decimal.
    pub(crate) fn put_decimal<O: Output>(
        &mut self,
        out: &mut O,
        number: usize,
    ) -> Result<(), Refusal>
        ensures puts { Puts (O.seen out.old) (O.seen out.new) self.old self.new (decimal number) result }
    {
        let mut digits = Buffer::new();
        self.put(out, digits.format(number).as_bytes())
    }
}
