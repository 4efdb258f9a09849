//! What replies say of a circuit, as texts: those of commands and those of edit scripts.
//!
//! In the order in which data flows; each module uses only those before it:
//!
//! - `random`: why nothing was written of errors, with the bit that is not the same for all coins and a coin that decides it.
//! - `writing`: texts one after another, the front of a row's line, and the flush that ends a run.
//! - `fault_line`: the lines that say a fault.
//! - `single_error_sites`: the sites for single errors at a step. `single_error_list`: the single errors of a circuit.
//! - `single_error_lines`, `single_error_bits`: a table of single errors as lines, and as shots.
//! - `error_lines`: errors as lines.
//! - `doubt_lines`: marks that may be meant in another way, as lines.
//! - `missing_observable`: an observable that the circuit lacks, as a line.
//!
//! `specs/` says what each reply is, for `stab_commands`, which finds it, and for `stab_script`, which asks for it: how a
//! call ends (`Endings`), rows of a group (`Rows`), which bits are the same for all random bits (`Deterministic`), what
//! single errors flip (`SingleErrorTables`), distances (`Distances`), marks that may be meant in another way (`DoubtLines`), observables that
//! are asked for but not there (`MissingObservables`), coins that decide (`Deciders`, `CoinTables`, `Reasons`).
//!
//! Source: this project's own.
//!
//! Proved: what is written is the text that is asked for, or a first part of it if the output failed.
#![tactic(auto)]

mod doubt_lines;
mod error_lines;
mod fault_line;
mod missing_observable;
mod random;
mod single_error_bits;
mod single_error_lines;
mod single_error_list;
mod single_error_sites;
mod writing;

pub use doubt_lines::report_doubts;
pub use error_lines::{write_all_errors, write_errors, write_where};
pub use fault_line::{write_decider, write_fault, write_refused};
pub use missing_observable::report_missing;
pub use random::{Bit, Decider, FaultsRefused, Random};
pub use single_error_bits::{write_row, write_shots};
pub use single_error_lines::{write_lines, write_single_error};
pub use single_error_list::{PlacedSingleError, placed_single_errors};
pub use writing::{finish, write_head, write_texts};
