//! The least number of errors that flip an observable and no detector: an exact search in a table of errors, or as MaxSAT.
//!
//! - `row`, `table`: what each error flips. `answer`: the answers, and the trait that reports progress.
//! - `least`: the call, which searches part 1 of 1. `distinct`: errors that flip the same count once. `enough_errors`: errors that are enough, of one of the `classes` of detectors
//!   each. `sets`: what is found, in order.
//! - `sizes`: one error is tried, then two, and so on. `searching`: the search itself.
//! - `errors`: the errors ready for a search. `steps`: which of them can be the first of a set. `index`, `keys`: which errors to try.
//!   `candidates`: of which each set has one. `covers`: which flip many detectors. `pairs`: which are never tried together.
//! - `existence`: whether there is a logical error at all. `elimination` finds one, or a `certificate` that there is none; `logical`:
//!   the check of what was found.
//! - `graphlike`: the call for only those errors that flip at most two detectors. `parts`: these errors of a table.
//! - `edges`, `graph`: these errors as edges. `cycles`, `sources`, `labels`: shortest paths. `bounds`: what labels
//!   prove.
//! - `count`: the call for how many least logical errors there are. `groups`: rows with the number of errors that have each. `counting`: the
//!   search that counts. `choices`: which errors it tries.
//! - `part_search`: the call for what one part of a search finds, a whole too. `search_part`: parts, and their answers. `digest`: of what is
//!   searched.
//! - `laws`: each table has an answer; all parts of a search are the whole search.
//! - `literal`: a variable, or its opposite. `sums`: variables for what errors flip together. `problem`: the problem of a table of errors.
//! - `writing`: its text.
//!
//! Sources: C. Gidney, Stim: a fast stabilizer circuit simulator (2021), for detectors, observables and tables of
//! errors; the format `p wcnf` of the MaxSAT Evaluations, with a top weight.
//!
//! Proved: the answer is as `specs/LogicalErrors.antt` says: a shortest logical error, or that each one has more
//! errors than asked for, or that none exists; and the same of errors that flip at most two detectors
//! (`specs/Graphlike.antt`). The count is that of `specs/Counts.antt`. If all parts find nothing, there is nothing
//! (`specs/SearchParts.antt`).
//!
//! Proved of MaxSAT: an assignment that meets the hard clauses of a table's problem is a logical error of as many errors as it breaks soft clauses,
//! and each logical error is such an assignment (`specs/Questions.antt`); and the text is that of the problem (`specs/Problems.antt`).
#![tactic(auto)]

mod answer;
mod bounds;
mod candidates;
mod certificate;
mod choices;
mod classes;
mod count;
mod counting;
mod covers;
mod cycles;
mod digest;
mod distinct;
mod edges;
mod elimination;
mod enough_errors;
mod errors;
mod existence;
mod graph;
mod graphlike;
mod groups;
mod index;
mod keys;
mod labels;
pub mod laws;
mod least;
mod literal;
mod logical;
mod pairs;
mod part_search;
mod parts;
mod problem;
mod row;
mod search_part;
mod searching;
mod sets;
mod sizes;
mod sources;
mod steps;
mod sums;
mod table;
mod writing;

pub use answer::{Answer, Progress, Unwatched};
pub use count::count_least;
pub use edges::is_graphlike;
pub use graphlike::least_graphlike_error;
pub use least::least_logical_error;
pub use literal::Literal;
pub use part_search::least_in_part;
pub use problem::Problem;
pub use search_part::{PartAnswer, SearchPart};
pub use table::Table;
pub use writing::write_problem;
