//! Errors: what goes wrong at once in a circuit, what each error flips, and the least number of them that
//! flip an observable and no detector.
//!
//! In the order in which data flows; each module uses only those before it:
//!
//! - `letters`: of which letters errors are made.
//! - `placed`: letters at sites, and errors of them.
//! - `error_lists`: errors at one or two sites, added to others.
//! - `tags`, `marks`, `marked`: the errors that a circuit marks.
//! - `doubts`: marks that may be meant in another way.
//! - `everywhere`: the errors at each step.
//! - `rows`: what an error flips, by the table of single errors.
//! - `parts`: the parts of errors that flip more than two detectors.
//! - `error_table`: the errors of a circuit, and their table.
//! - `observed`: the table in which one observable alone counts.
//! - `search`: the least number of errors that are unseen; of all, or of those alone that flip at most two detectors; with any observable, or with one;
//!   and how many such sets there are.
//! - `laws`: each circuit has a table of errors and a distance.
//! - `everywhere_laws`: a record wrong by itself is one more `!`; errors everywhere leave no Pauli out.
//!
//! Source: this project's own.
//!
//! Proved: the errors are those of `specs/Errors.antt`, in order, split as `specs/Parts.antt` says if graph-like
//! ones are asked for. Each one's row names exactly the bits that are the same whatever the coins and that the
//! run with all of its single errors put in has otherwise, whatever the coins (`specs/ErrorTables.antt`). Least sets are
//! unseen by runs, and no smaller ones are (`specs/Unseen.antt`). A record wrong by itself is one more `!`, and errors
//! everywhere leave no Pauli out (`specs/EverywhereLaws.antt`).
#![tactic(auto)]

mod doubts;
mod error_lists;
mod error_table;
mod everywhere;
pub mod everywhere_laws;
pub mod laws;
mod letters;
mod marked;
mod marks;
mod observed;
mod parts;
mod placed;
mod rows;
mod search;
mod tags;

pub use doubts::{Doubt, DoubtfulMark, doubtful_marks};
pub use error_table::{ErrorTable, errors};
pub use placed::{Error, PlacedLetter};
pub use search::{count_distance, distance, graphlike_distance};
