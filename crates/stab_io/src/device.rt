ghost use Rattle.std.specs.Prelude.{◌≡◌};
ghost use Rattle.stab_io.specs.Devices.{InputView, OutputView, Reads, Writes, Flushes, WritesAll};
ghost use Rattle.stab_io.specs.StdDevices.{DeviceState, reader_seen, writer_seen};
ghost use Rattle.stab_io.specs.inner.Reported.{Reports, TakesNoneAsError};

use super::refusal::Refusal;
use std::io;
use std::io::{Read, Write};
use std::marker::Model;

/// A read, a write or a flush failed.
#[derive(Clone, Copy, Debug, PartialEq, Eq)]
pub struct DeviceFault;

/// What bytes are read from.
///
/// An honest input hands over the bytes that it has, in order, and loses none. An input may be
/// dishonest; then nothing is known of its bytes, but it still counts its failures. The count of
/// failures stays at 2^64 - 1 once it gets there.
pub trait Input {
    // The input as contracts see it: whether it is honest, its unread bytes, its failures.
    ghost seen: { Self → InputView };

    /// Reads bytes into the front of the buffer, and says how many.
    ///
    /// Into a buffer that isn't empty it reads at least one byte, or none at the end, or fails.
    /// A failed read hands over none.
    fn read(&mut self, buf: &mut [u8]) -> Result<usize, DeviceFault>
        ensures reads { Reads (seen self.old) (seen self.new) result buf.new };
}

/// What bytes are written to.
///
/// An honest output keeps the bytes that it took, in order, and no others. An output may be
/// dishonest; then nothing is known of its bytes, but it still counts its flushes and failures.
/// Each count stays at 2^64 - 1 once it gets there.
pub trait Output {
    // The output as contracts see it: whether it is honest, its written bytes, its flushes and
    // failures.
    ghost seen: { Self → OutputView };

    /// Writes bytes from the front, and says how many: at least one if there are any.
    ///
    /// A failed write takes none.
    fn write(&mut self, bytes: &[u8]) -> Result<usize, DeviceFault>
        ensures writes { Writes (seen self.old) (seen self.new) result bytes.now };

    /// Makes sure that what was written has gone out.
    fn flush(&mut self) -> Result<(), DeviceFault>
        ensures flushes { Flushes (seen self.old) (seen self.new) result };
}

/// Any reader or writer of std.
///
/// It hands over what the reader gave, and passes on what it is given. If std shows the bytes of
/// a reader or writer, as of a slice that is read or a vector that is written, it is an honest
/// device of these bytes.
///
/// Every error is counted as a failure, of whatever kind it is, and so is a write that takes none
/// of at least one byte. Contracts see the reader or writer and the counts.
#[derive(Drop)]
pub struct Device<T> {
    inner: T,
    flushes: u64,
    failures: u64,
}

impl<T> Model for Device<T> {
    ghost Value = { DeviceState T };

    ghost view = { λ d. record { inner = d.inner; flushes = d.flushes; failures = d.failures } };
}

impl<T> Device<T> {
    /// A device around a reader or a writer, which was not flushed and has not failed yet.
    pub fn new(inner: T) -> Device<T>
        ensures unused { result ≡ record { inner = inner; flushes = 0; failures = 0 } }
    {
        Device {
            inner,
            flushes: 0,
            failures: 0,
        }
    }

    // Reports what std answered, and counts an error, of whatever kind, as one failure.
    fn reported<A>(&mut self, answer: io::Result<A>) -> Result<A, DeviceFault>
        ensures reported { Reports answer self.old self.new result }
    {
        match answer {
            Ok(value) => Ok(value),
            Err(_) => {
                self.failures = self.failures.saturating_add(1);
                Err(DeviceFault)
            }
        }
    }
}

// What std answered to a write of this many bytes, except that none taken of at least one is an error.
fn taken(answer: io::Result<usize>, given: usize) -> io::Result<usize>
    ensures taken { TakesNoneAsError answer given result }
{
    match answer {
        Ok(0) if given > 0 => Err(io::ErrorKind::WriteZero.into()),
        Ok(count) => Ok(count),
        Err(error) => Err(error),
    }
}

impl<T: Read> Input for Device<T> {
    ghost seen = { reader_seen T.remaining };

    fn read(&mut self, buf: &mut [u8]) -> Result<usize, DeviceFault> {
        let answer = self.inner.read(buf);
        self.reported(answer)
    }
}

impl<T: Write> Output for Device<T> {
    ghost seen = { writer_seen T.contents };

    fn write(&mut self, bytes: &[u8]) -> Result<usize, DeviceFault> {
        let answer = self.inner.write(bytes);
        self.reported(taken(answer, bytes.len()))
    }

    fn flush(&mut self) -> Result<(), DeviceFault> {
        self.flushes = self.flushes.saturating_add(1);
        let answer = self.inner.flush();
        self.reported(answer)
    }
}

/// Writes all the bytes, in as many writes as the output needs, and does not flush.
///
/// Refusal `WriteFault` if a write failed; what was written is then a prefix of the bytes, and
/// nothing more is tried.
pub fn write_all<O: Output>(out: &mut O, bytes: &[u8]) -> Result<(), Refusal>
    ensures writes { WritesAll (O.seen out.old) (O.seen out.new) bytes.now result }
{
    let mut rest = bytes;
    while !rest.is_empty() {
        match out.write(rest) {
            Ok(count) => rest = rest.split_at(count).1,
            Err(DeviceFault) => return Err(Refusal::WriteFault),
        }
    }
    Ok(())
}
