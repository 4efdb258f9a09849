//! Devices around readers and writers that fail.

use stab_io::write_all;
use stab_pauli::{Device, DeviceFault, Input, Output, Refusal};
use std::alloc::Global;
use std::io;
use std::io::{Read, Write};

// Gives two bytes a call. The call with this number, counted from 1, fails.
#[derive(Drop)]
struct FailingReader {
    bytes: &'static [u8],
    calls: usize,
    fails_at: usize,
}

impl Read for FailingReader {
    fn read(&mut self, buf: &mut [u8]) -> io::Result<usize> {
        self.calls = self.calls.saturating_add(1);
        if self.calls == self.fails_at {
            return Err(io::ErrorKind::Interrupted.into());
        }
        let most = buf.len().min(2);
        self.bytes.read(&mut buf[..most])
    }
}

// Takes two bytes a call, and counts the calls. The one with this number fails with an error of this kind,
// or, if it is a write and there is none, takes no bytes.
#[derive(Drop)]
struct FailingWriter<'a> {
    written: &'a mut Vec<u8>,
    calls: &'a mut usize,
    fails_at: usize,
    kind: Option<io::ErrorKind>,
}

impl Write for FailingWriter<'_> {
    fn write(&mut self, buf: &[u8]) -> io::Result<usize> {
        *self.calls = self.calls.saturating_add(1);
        if *self.calls == self.fails_at {
            return match self.kind {
                Some(kind) => Err(kind.into()),
                None => Ok(0),
            };
        }
        let count = buf.len().min(2);
        self.written.extend_from_slice(&buf[..count])?;
        Ok(count)
    }

    fn flush(&mut self) -> io::Result<()> {
        *self.calls = self.calls.saturating_add(1);
        match self.kind {
            Some(kind) if *self.calls == self.fails_at => Err(kind.into()),
            _ => Ok(()),
        }
    }
}

// What five reads of a text of five bytes answer.
fn reads(fails_at: usize) -> [Result<usize, DeviceFault>; 5] {
    let mut input = Device::new(FailingReader {
        bytes: b"abcde",
        calls: 0,
        fails_at,
    });
    let mut buf = [0u8; 4];
    let mut answers = [Ok(0); 5];
    for answer in answers.iter_mut() {
        *answer = input.read(&mut buf);
    }
    answers
}

#[test]
fn a_failed_read_is_reported(rt: HostRuntime) {
    let fault = Err(DeviceFault);
    for (fails_at, answers) in [
        (0, [Ok(2), Ok(2), Ok(1), Ok(0), Ok(0)]),
        (1, [fault, Ok(2), Ok(2), Ok(1), Ok(0)]),
        (3, [Ok(2), Ok(2), fault, Ok(1), Ok(0)]),
        (4, [Ok(2), Ok(2), Ok(1), fault, Ok(0)]),
    ] {
        assert_eq!(rt; reads(fails_at), answers, "{fails_at}");
    }
}

// Whether the first of two texts fails to be written by a writer that fails once, and the second is written.
fn fails_once(writer: FailingWriter, texts: [&str; 2]) -> bool {
    let mut out = Device::new(writer);
    let [first, second] = texts;
    let failed = write_all(&mut out, first.as_bytes()) == Err(Refusal::WriteFault);
    failed && write_all(&mut out, second.as_bytes()).is_ok()
}

// Whether that holds, and the writer then has these bytes after this many calls.
fn writes(
    alloc: Global,
    fails_at: usize,
    kind: Option<io::ErrorKind>,
    texts: [&str; 2],
    (bytes, made): (&str, usize),
) -> bool {
    let (mut written, mut calls) = (Vec::new(alloc), 0);
    let failed = fails_once(
        FailingWriter {
            written: &mut written,
            calls: &mut calls,
            fails_at,
            kind,
        },
        texts,
    );
    failed && written.as_slice() == bytes.as_bytes() && calls == made
}

// Where a writer fails, what it is given, what it then has, and how often it was called.
const FAILURES: &[(usize, Option<io::ErrorKind>, [&str; 2], &str, usize)] = &[
    (1, Some(io::ErrorKind::Interrupted), ["abcde", ""], "", 1),
    (2, Some(io::ErrorKind::BrokenPipe), ["abcde", ""], "ab", 2),
    (3, None, ["abcde", ""], "abcd", 3),
    (
        2,
        Some(io::ErrorKind::Interrupted),
        ["abc", "xyz"],
        "abxyz",
        4,
    ),
];

// Whether the first of two flushes fails, and the second and a write of nothing succeed.
fn flushes(alloc: Global) -> bool {
    let (mut written, mut calls) = (Vec::new(alloc), 0);
    let mut out = Device::new(FailingWriter {
        written: &mut written,
        calls: &mut calls,
        fails_at: 1,
        kind: Some(io::ErrorKind::Interrupted),
    });
    out.flush() == Err(DeviceFault) && out.flush().is_ok() && out.write(b"") == Ok(0)
}

#[test]
fn a_failed_write_or_flush_is_reported_and_not_tried_again(rt: HostRuntime) {
    for &(fails_at, kind, texts, bytes, calls) in FAILURES {
        let right = writes(rt.alloc(), fails_at, kind, texts, (bytes, calls));
        assert!(rt; right, "{bytes}");
    }
    let right = flushes(rt.alloc());
    assert!(rt; right, "flushes");
}
