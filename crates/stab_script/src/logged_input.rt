//! An input in memory that keeps a log of its reads.
ghost use Rattle.std.specs.Prelude.{◌≡◌, ◌<◌, ◌≤◌, ◌++◌, ◌∷◌, [], length, Some, None, IfSome};
ghost use Rattle.stab_script.specs.Watchers.{Logs};
ghost use Rattle.stab_script.specs.LoggedInputs.{logged_input};

use crate::watcher::Watcher;
use stab_io::{DeviceFault, Input, MemoryOutput};
use std::alloc::Global;
use std::marker::Model;

/// A read: how many bytes the output held when it was made, and what it handed over.
#[derive(Drop)]
pub struct LoggedRead<'a> {
    written: usize,
    given: &'a [u8],
}

impl<'a> Model for LoggedRead<'a> {
    ghost use Rattle.stab_script.specs.Watchers.{Asked};

    ghost Value = { Asked };

    ghost view = { λ r. record { written = r.written; given = r.given.now } };
}

impl<'a> LoggedRead<'a> {
    /// How many bytes the output held.
    pub fn written(&self) -> usize
        ensures value { result ≡ self.now.written }
    {
        self.written
    }

    /// The bytes that were handed over.
    pub fn given(&self) -> &'a [u8]
        ensures value { result.now ≡ self.now.given }
    {
        self.given
    }
}

/// An honest input of bytes in memory that gives them in pieces, never fails, and keeps a log of
/// the reads that `KeepsLog` makes of it.
///
/// The log is given up if memory is refused, or if a read is made without the output.
#[derive(Drop)]
pub struct LoggedInput<'a> {
    rest: &'a [u8],
    piece: usize,
    log: Vec<LoggedRead<'a>>,
    preserved: bool,
}

impl<'a> Model for LoggedInput<'a> {
    ghost use Rattle.std.specs.Prelude.{◌<◌};
    ghost use Rattle.stab_script.specs.LoggedInputs.{LoggedBytes, log_of};

    ghost Value = { LoggedBytes };

    ghost view = { λ d. record { unread = d.rest.now; piece = d.piece; log = log_of d.preserved d.log.items } };

    ghost invariant = { λ d. 0 < d.piece };
}

impl<'a> LoggedInput<'a> {
    /// An input that will hand over these bytes, at most `piece` in a read, with an empty log.
    pub fn new(alloc: Global, bytes: &'a [u8], piece: usize) -> LoggedInput<'a>
        requires some { 0 < piece }
        ensures value { result ≡ record { unread = bytes.entry.now; piece = piece; log = Some [] } }
    {
        LoggedInput {
            rest: bytes,
            piece,
            log: Vec::new(alloc),
            preserved: true,
        }
    }

    /// The reads so far, oldest first, if there is a log.
    pub fn reads(&self) -> Option<&[LoggedRead<'a>]>
        ensures value { IfSome result (λ reads. self.now.log ≡ Some reads.now) }
        ensures none { result ≡ None → self.now.log ≡ None }
    {
        if self.preserved {
            Some(self.log.as_slice())
        } else {
            None
        }
    }

    /// Hands over what fits into a buffer of this many bytes.
    fn next_piece(&mut self, most: usize) -> &'a [u8]
        ensures fits { length result.now ≤ most }
        ensures some { 0 < most → length result.now ≡ 0 → self.old.unread ≡ [] }
        ensures split { self.old.unread ≡ result.now ++ self.new.unread }
        ensures rest { self.new ≡ record self.old { unread = self.new.unread } }
    {
        let count = most.min(self.rest.len()).min(self.piece);
        let (front, rest) = self.rest.split_at(count);
        self.rest = rest;
        front
    }

    /// Puts a read into the log, or gives the log up.
    fn note(&mut self, written: usize, given: &'a [u8])
        ensures rest { self.new ≡ record self.old { log = self.new.log } }
        ensures logs { Logs self.old.log self.new.log (record { written = written; given = given.now } ∷ []) }
    {
        if self.log.push(LoggedRead { written, given }).is_err() {
            self.preserved = false;
        }
    }

    /// Gives the log up.
    fn forget(&mut self)
        ensures value { self.new ≡ record self.old { log = None } }
    {
        self.preserved = false;
    }
}

impl Input for LoggedInput<'_> {
    ghost seen = { logged_input };

    fn read(&mut self, buf: &mut [u8]) -> Result<usize, DeviceFault> {
        self.forget();
        let given = self.next_piece(buf.len());
        buf[..given.len()].copy_from_slice(given);
        Ok(given.len())
    }
}

/// The watcher that notes each read in the log of its input.
pub struct KeepsLog;

impl<'a> Watcher<LoggedInput<'a>, MemoryOutput> for KeepsLog {
    ghost log = { λ d. d.log };

    fn read(
        script: &mut LoggedInput<'a>,
        out: &MemoryOutput,
        buf: &mut [u8],
    ) -> Result<usize, DeviceFault> {
        let given = script.next_piece(buf.len());
        script.note(out.bytes().len(), given);
        buf[..given.len()].copy_from_slice(given);
        Ok(given.len())
    }
}
