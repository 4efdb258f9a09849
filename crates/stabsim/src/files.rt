//! The files and streams that a run reads and writes.
//!
//! A file that is written keeps what it held until there is something to replace it, so a run that
//! is refused leaves it as it was.
ghost use Rattle.std.specs.Io.{ReadsAtMost};

use stab_pauli::Refusal;
use std::fs::{File, Metadata, OpenFile, OpenOptions};
use std::io::{BufWriter, Read, Stdin, Stdout, Write};
use std::os::unix::fs::MetadataExt;
use std::rt::Files;
use std::{fs, io};

/// By which path the standard input is found among the files.
pub(crate) const STANDARD_INPUT: &str = "/dev/stdin";

/// A file that is written from its beginning, over what it held.
///
/// It is cut at the first byte that is written to it, or at a flush, which comes after a run without a
/// fault. What is no regular file, such as a pipe or a terminal, is never cut.
#[derive(Drop)]
pub(crate) struct Replaced {
    file: File,
    is_to_be_cut: bool,
}

impl Replaced {
    /// Opens a file to be written, and makes it if there is none.
    pub(crate) fn open<R: Files<File = File>>(files: &R, path: &str) -> io::Result<Replaced> {
        let file = OpenOptions::new()
            .write(true)
            .create(true)
            .open(files, path)?;
        let is_to_be_cut = file.metadata()?.is_file();
        Ok(Replaced { file, is_to_be_cut })
    }

    /// Takes out what the file held, unless that was done.
    fn cut(&mut self) -> io::Result<()> {
        if self.is_to_be_cut {
            self.file.set_len(0)?;
            self.is_to_be_cut = false;
        }
        Ok(())
    }
}

impl Write for Replaced {
    fn write(&mut self, bytes: &[u8]) -> io::Result<usize> {
        if !bytes.is_empty() {
            self.cut()?;
        }
        self.file.write(bytes)
    }

    fn flush(&mut self) -> io::Result<()> {
        self.cut()?;
        self.file.flush()
    }
}

/// What a job reads.
#[derive(Drop)]
pub(crate) enum Reader {
    /// A file, and the error of its last read that failed.
    File(File, Option<io::Error>),
    Standard(Stdin),
    /// No bytes: at its end from the beginning.
    Nothing,
}

impl Reader {
    /// Opens a file to be read.
    pub(crate) fn open<R: Files<File = File>>(files: &R, path: &str) -> io::Result<Reader> {
        Ok(Reader::File(fs::open(files, path)?, None))
    }

    /// What the system said to the last read of a file that failed.
    pub(crate) fn error(&self) -> Option<&io::Error> {
        match self {
            Reader::File(_, error) => error.as_ref(),
            _ => None,
        }
    }
}

impl Read for Reader {
    ghost use Rattle.stabsim.specs.Readers.{bytes_left};

    // So a device around no bytes is an honest one, as the empty circuit of `edit` is.
    ghost remaining = { bytes_left };

    fn read(&mut self, buf: &mut [u8]) -> io::Result<usize> {
        match self {
            Reader::File(file, error) => read_noted(file, error, buf),
            Reader::Standard(stdin) => stdin.read(buf),
            Reader::Nothing => Ok(0),
        }
    }
}

/// Reads a file, and notes the error of a read that fails.
fn read_noted(file: &mut File, noted: &mut Option<io::Error>, buf: &mut [u8]) -> io::Result<usize>
    ensures bound { ReadsAtMost result buf.new }
{
    match file.read(buf) {
        Ok(count) => Ok(count),
        Err(error) => {
            let kind = error.kind();
            *noted = Some(error);
            Err(kind.into())
        }
    }
}

/// Where the output of a job goes.
#[derive(Drop)]
pub(crate) enum Sink {
    File(Replaced),
    Standard(Stdout),
}

impl Write for Sink {
    fn write(&mut self, bytes: &[u8]) -> io::Result<usize> {
        match self {
            Sink::File(file) => file.write(bytes),
            Sink::Standard(stdout) => stdout.write(bytes),
        }
    }

    fn flush(&mut self) -> io::Result<()> {
        match self {
            Sink::File(file) => file.flush(),
            Sink::Standard(stdout) => stdout.flush(),
        }
    }
}

/// How the output of a job goes there: each write at once, or gathered into large ones.
#[derive(Drop)]
pub(crate) enum Writer {
    AtOnce(Sink),
    Gathered(BufWriter<Sink>),
}

impl Write for Writer {
    fn write(&mut self, bytes: &[u8]) -> io::Result<usize> {
        match self {
            Writer::AtOnce(sink) => sink.write(bytes),
            Writer::Gathered(writer) => writer.write(bytes),
        }
    }

    fn flush(&mut self) -> io::Result<()> {
        match self {
            Writer::AtOnce(sink) => sink.flush(),
            Writer::Gathered(writer) => writer.flush(),
        }
    }
}

/// A writer that notes whether it was given a byte.
#[derive(Drop)]
pub(crate) struct NotedWriter<W> {
    writer: W,
    is_empty: bool,
}

impl<W> NotedWriter<W> {
    /// A writer to which nothing was written.
    pub(crate) fn new(writer: W) -> NotedWriter<W> {
        NotedWriter {
            writer,
            is_empty: true,
        }
    }

    /// Whether it was given no byte.
    pub(crate) fn is_empty(&self) -> bool {
        self.is_empty
    }
}

impl<W: Write> Write for NotedWriter<W> {
    fn write(&mut self, bytes: &[u8]) -> io::Result<usize> {
        self.is_empty &= bytes.is_empty();
        self.writer.write(bytes)
    }

    fn flush(&mut self) -> io::Result<()> {
        self.writer.flush()
    }
}

/// The refusals whose line says all that there is to say.
const PLAIN: [Refusal; 5] = [
    Refusal::TooLong,
    Refusal::ReadFault,
    Refusal::WriteFault,
    Refusal::NotDeterministic,
    Refusal::OutOfMemory,
];

/// The most bytes of a line that are stored: the line of a fault has fewer.
const MOST_STORED: usize = 96;

/// A writer that keeps the first line that is written to it.
#[derive(Drop)]
pub(crate) struct FirstLine<W> {
    writer: W,
    line: [u8; MOST_STORED],
    length: usize,
    is_ended: bool,
}

impl<W> FirstLine<W> {
    /// A writer to which nothing was written.
    pub(crate) fn new(writer: W) -> FirstLine<W> {
        FirstLine {
            writer,
            line: [0; MOST_STORED],
            length: 0,
            is_ended: false,
        }
    }

    /// Whether the first line says that a circuit was refused for what it contains.
    pub(crate) fn refuses_circuit(&self) -> bool {
        let line = self.line.split_at(self.length.min(MOST_STORED)).0;
        self.is_ended
            && PLAIN
                .iter()
                .all(|refusal| !line.ends_with(refusal.name().as_bytes()))
    }

    /// Keeps bytes that were written, as far as they belong to the first line.
    fn keep(&mut self, bytes: &[u8]) {
        for byte in bytes {
            self.is_ended |= *byte == b'\n';
            if !self.is_ended && self.length < MOST_STORED {
                self.line[self.length] = *byte;
                self.length += 1;
            }
        }
    }
}

impl<W: Write> Write for FirstLine<W> {
    fn write(&mut self, bytes: &[u8]) -> io::Result<usize> {
        let count = self.writer.write(bytes)?;
        self.keep(bytes.split_at(count).0);
        Ok(count)
    }

    fn flush(&mut self) -> io::Result<()> {
        self.writer.flush()
    }
}

/// Whether two paths come to one regular file, by links too.
pub(crate) fn are_one_file<R: Files>(files: &R, path: &str, other: &str) -> bool {
    match (fs::metadata(files, path), fs::metadata(files, other)) {
        (Ok(one), Ok(two)) => is_node_of(&one, &two),
        _ => false,
    }
}

/// Whether what is known of two files says that they are one regular file.
fn is_node_of(one: &Metadata, two: &Metadata) -> bool {
    one.is_file() && one.dev() == two.dev() && one.ino() == two.ino()
}
