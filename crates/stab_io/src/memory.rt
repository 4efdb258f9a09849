ghost use Rattle.std.specs.Prelude.{◌≡◌, ℕ, ◌<◌, ◌≤◌, List, [], length, replicate, vec_len, vec_capacity, IfOk, IfErr, true, false};
ghost use Rattle.stab_io.specs.Devices.{Reads, Writes, Flushes};
ghost use Rattle.stab_io.specs.MemoryDevices.{CutBytes, RoomyBytes, list_input, cut_input, endless_input, roomy_output, TakesWhatFits, FlushesAsSet, GivesWhatFits, GivesAPiece};
ghost use Rattle.stab_io.specs.declared.refusal.Refusal.TheVariants.{OutOfMemory};

use super::device::{DeviceFault, Input, Output};
use super::refusal::Refusal;
use std::alloc::Global;
use std::marker::Model;

/// An honest input of bytes in memory, which never fails. Contracts see the unread bytes.
#[derive(Drop)]
pub struct MemoryInput<'a> {
    rest: &'a [u8],
}

impl<'a> Model for MemoryInput<'a> {
    ghost Value = { List ℕ };

    ghost view = { λ d. d.rest.now };
}

impl<'a> MemoryInput<'a> {
    /// An input that will hand over these bytes.
    pub fn new(bytes: &'a [u8]) -> MemoryInput<'a>
        ensures unread { result ≡ bytes.entry.now }
    {
        MemoryInput { rest: bytes }
    }
}

impl Input for MemoryInput<'_> {
    ghost seen = { list_input };

    fn read(&mut self, buf: &mut [u8]) -> Result<usize, DeviceFault>
        ensures reads { Reads (list_input self.old) (list_input self.new) result buf.new }
        ensures exact { GivesWhatFits self.old self.new result buf.new }
    {
        let count = buf.len().min(self.rest.len());
        let (front, rest) = self.rest.split_at(count);
        buf[..count].copy_from_slice(front);
        self.rest = rest;
        Ok(count)
    }
}

/// An honest input of bytes in memory that gives them in pieces, and fails from a given read on.
/// Contracts see all of it.
#[derive(Drop)]
pub struct CutInput<'a> {
    rest: &'a [u8],
    piece: usize,
    fail_at: u64,
    reads: u64,
    failures: u64,
}

impl<'a> Model for CutInput<'a> {
    ghost Value = { CutBytes };

    ghost view = { λ d. record { unread = d.rest.now; piece = d.piece; fail_at = d.fail_at; reads = d.reads; failures = d.failures } };

    ghost invariant = { λ d. 0 < d.piece };
}

impl<'a> CutInput<'a> {
    /// An input that gives at most `piece` of these bytes in a read, and of which every read
    /// fails from number `fail_at` on, counted from 1; 0 is for never.
    pub fn new(bytes: &'a [u8], piece: usize, fail_at: u64) -> CutInput<'a>
        requires some { 0 < piece }
        ensures value { result ≡ record { unread = bytes.entry.now; piece = piece; fail_at = fail_at; reads = 0; failures = 0 } }
    {
        CutInput {
            rest: bytes,
            piece,
            fail_at,
            reads: 0,
            failures: 0,
        }
    }
}

impl Input for CutInput<'_> {
    ghost seen = { cut_input };

    fn read(&mut self, buf: &mut [u8]) -> Result<usize, DeviceFault>
        ensures reads { Reads (cut_input self.old) (cut_input self.new) result buf.new }
        ensures exact { GivesAPiece self.old self.new result buf.new }
    {
        self.reads = self.reads.saturating_add(1);
        if self.fail_at > 0 && self.reads >= self.fail_at {
            self.failures = self.failures.saturating_add(1);
            return Err(DeviceFault);
        }
        let count = buf.len().min(self.rest.len()).min(self.piece);
        let (front, rest) = self.rest.split_at(count);
        buf[..count].copy_from_slice(front);
        self.rest = rest;
        Ok(count)
    }
}

/// An input that fills every buffer with one byte, for ever. Contracts see the byte.
#[derive(Drop)]
pub struct EndlessInput {
    byte: u8,
}

impl Model for EndlessInput {
    ghost Value = { ℕ };

    ghost view = { λ d. d.byte };
}

impl EndlessInput {
    /// An input of this byte without end.
    pub fn new(byte: u8) -> EndlessInput
        ensures value { result ≡ byte }
    {
        EndlessInput { byte }
    }
}

impl Input for EndlessInput {
    // Its bytes are no list, so it can't be an honest input.
    ghost seen = { λ _. endless_input };

    fn read(&mut self, buf: &mut [u8]) -> Result<usize, DeviceFault>
        ensures reads { Reads endless_input endless_input result buf.new }
        ensures same { self.new ≡ self.old }
        ensures all { IfOk result (λ n. n ≡ length buf.old) }
        ensures filled { buf.new ≡ replicate (length buf.old) self.old }
    {
        buf.fill(self.byte);
        Ok(buf.len())
    }
}

/// An honest output in memory with a fixed room. Contracts see what was written, the room, whether
/// flushes fail, and the counts of flushes and failures.
pub struct MemoryOutput {
    bytes: Vec<u8>,
    room: usize,
    flush_fails: bool,
    flushes: u64,
    failures: u64,
}

// Written out, so that a proof sees the drop of an output as one call, and not one for each of its parts.
impl Drop for MemoryOutput {
    fn drop(self) {
        let MemoryOutput {
            bytes: _,
            room: _,
            flush_fails: _,
            flushes: _,
            failures: _,
        } = self;
    }
}

impl Model for MemoryOutput {
    ghost Value = { RoomyBytes };

    ghost view = { λ o. record { written = o.bytes.items; room = o.room; flush_fails = o.flush_fails; flushes = o.flushes; failures = o.failures } };

    ghost invariant = { λ o. (vec_len o.bytes ≤ o.room) × (o.room ≤ vec_capacity o.bytes) };
}

impl MemoryOutput {
    /// An output that takes `room` bytes and then fails; all its memory is taken here.
    ///
    /// Refusal `OutOfMemory` alone.
    pub fn new(alloc: Global, room: usize) -> Result<MemoryOutput, Refusal>
        ensures ok { IfOk result (λ o. o ≡ record { written = []; room = room; flush_fails = false; flushes = 0; failures = 0 }) }
        ensures err { IfErr result (λ r. r ≡ OutOfMemory) }
    {
        Ok(MemoryOutput {
            bytes: Vec::with_capacity(alloc, room)?,
            room,
            flush_fails: false,
            flushes: 0,
            failures: 0,
        })
    }

    /// The bytes that were written.
    pub fn bytes(&self) -> &[u8]
        ensures value { result.now ≡ self.now.written }
    {
        self.bytes.as_slice()
    }

    /// Lets every flush fail from now on.
    pub fn fail_flush(&mut self)
        ensures set { self.new ≡ record self.old { flush_fails = true } }
    {
        self.flush_fails = true;
    }
}

impl Output for MemoryOutput {
    ghost seen = { roomy_output };

    fn write(&mut self, bytes: &[u8]) -> Result<usize, DeviceFault>
        ensures writes { Writes (roomy_output self.old) (roomy_output self.new) result bytes.now }
        ensures exact { TakesWhatFits self.old self.new result bytes.now }
    {
        let count = bytes.len().min(self.room - self.bytes.len());
        if count == 0 && !bytes.is_empty() {
            self.failures = self.failures.saturating_add(1);
            return Err(DeviceFault);
        }
        self.bytes.extend_from_slice(&bytes[..count]).unwrap();
        Ok(count)
    }

    fn flush(&mut self) -> Result<(), DeviceFault>
        ensures flushes { Flushes (roomy_output self.old) (roomy_output self.new) result }
        ensures exact { FlushesAsSet self.old self.new result }
    {
        self.flushes = self.flushes.saturating_add(1);
        if self.flush_fails {
            self.failures = self.failures.saturating_add(1);
            return Err(DeviceFault);
        }
        Ok(())
    }
}
