//! The program `rows`: runs the worked examples that are text in `data/`, each a row of what
//! stabsim is asked and what it must write. `data/README` says how a row is written.
//!
//! What a row is, and how rows are read, is `rows`'.
//!
//! - `text`: the texts of a row, with escapes, and bytes in hexadecimal.
//! - `row`: a row, and whether bytes are what it wants.
//! - `format`: the rows of a file.
//! - `run`: a run of stabsim over devices in memory, and whether it is what a row wants.
//! - `trial`: all the runs of a row, and where one differs from it.
//! - `folder`: the files of a folder, and the sums of their rows.
//!
//! All reports go to standard error. The status is 1 if a row failed, a file is not rows, or there
//! was no row at all.
//!
//! Proved: a run that is accepted as what its row wants has its status, and its bytes if the row says
//! them all and not only parts; each row that is read has words, so it is run.
#![tactic(auto)]

mod folder;
mod format;
mod row;
mod run;
mod text;
mod trial;

use folder::{Sums, run_folder};
use std::process::ExitCode;
use std::{env, io};

fn main(rt: HostRuntime) -> ExitCode {
    let passed = match sums(&rt) {
        Ok(sums) => {
            let _ = eprintln!(rt; "{sums}");
            sums.is_good()
        }
        Err(error) => {
            let _ = eprintln!(rt; "rows: {error}");
            false
        }
    };
    ExitCode::from(if passed { 0 } else { 1 })
}

/// Runs the rows of the folder that the first word names, or of the one that the program is run in.
fn sums(rt: &HostRuntime) -> io::Result<Sums> {
    match env::args(rt)?.nth(1) {
        Some(folder) => run_folder(rt, folder.as_str()),
        None => run_folder(rt, "."),
    }
}
