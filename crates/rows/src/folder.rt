//! The files of a folder, and the sums of their rows.
ghost use Rattle.std.specs.Prelude.{◌≡◌, ◌<◌, IsTrue};

use crate::format::{Unread, Wrong, read_rows};
use crate::row::WorkedRow;
use crate::trial::{Failure, try_row};
use std::alloc::AllocError;
use std::fmt::{self, Display, Formatter, Write};
use std::fs::DirEntry;
use std::{fs, io};

/// What became of the files of a folder and of their rows.
#[derive(Clone, Copy)]
pub(crate) struct Sums {
    files: usize,
    rows: usize,
    failed: usize,
}

impl Sums {
    /// Whether there were rows, and nothing failed.
    pub(crate) fn is_good(self) -> bool
        ensures ran { IsTrue result → 0 < self.rows }
        ensures passed { IsTrue result → self.failed ≡ 0 }
    {
        self.rows > 0 && self.failed == 0
    }

    fn count_failure(&mut self) {
        self.failed = self.failed.saturating_add(1);
    }
}

impl Display for Sums {
    fn fmt<W: Write>(&self, f: &mut Formatter<W>) -> fmt::Result {
        let Sums {
            files,
            rows,
            failed,
        } = *self;
        write!(f, "{rows} rows of {files} files, of which {failed} failed")
    }
}

/// Runs the rows of each file of a folder whose name ends in `.rows`, and reports those that fail.
pub(crate) fn run_folder(rt: &HostRuntime, folder: &str) -> io::Result<Sums> {
    let mut sums = Sums {
        files: 0,
        rows: 0,
        failed: 0,
    };
    for entry in fs::read_dir(rt, folder)? {
        run_entry(rt, &entry?, &mut sums)?;
    }
    Ok(sums)
}

/// Runs the rows of a file, if its name ends in `.rows`.
fn run_entry(rt: &HostRuntime, entry: &DirEntry, sums: &mut Sums) -> io::Result<()> {
    if entry.file_name().ends_with(".rows") {
        return run_file(rt, entry, sums);
    }
    Ok(())
}

/// Runs the rows of a file.
fn run_file(rt: &HostRuntime, entry: &DirEntry, sums: &mut Sums) -> io::Result<()> {
    sums.files = sums.files.saturating_add(1);
    let name = entry.file_name();
    let text = fs::read_to_string(rt, entry.path())?;
    match read_rows(rt.alloc(), text.as_str()) {
        Ok(rows) => run_rows(rt, name, rows.as_slice(), sums),
        Err(unread) => {
            sums.count_failure();
            let Unread {
                line,
                wrong: Wrong(why),
            } = unread;
            eprintln!(rt; "{name}, line {line}: {why}")
        }
    }
}

/// Runs rows, which are in a file of this name.
fn run_rows(rt: &HostRuntime, name: &str, rows: &[WorkedRow], sums: &mut Sums) -> io::Result<()> {
    for row in rows {
        run_row(rt, name, row, sums)?;
    }
    Ok(())
}

/// Runs a row.
fn run_row(rt: &HostRuntime, name: &str, row: &WorkedRow, sums: &mut Sums) -> io::Result<()> {
    sums.rows = sums.rows.saturating_add(1);
    match try_row(rt.alloc(), row) {
        Ok(()) => Ok(()),
        Err(Failure::Memory) => Err(AllocError.into()),
        Err(Failure::Run(report)) => {
            sums.count_failure();
            eprintln!(rt; "{name}, {report}")
        }
    }
}
