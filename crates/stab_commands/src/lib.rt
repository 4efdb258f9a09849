//! The commands that write what runs of a circuit give, or what is found out about a circuit, from bytes to bytes.
//!
//! What is found out is defined in `specs/` of `stab_report`, if not here. The command `edit` is `stab_script`'s.
//!
//! In the order in which data flows; each module uses only those before it:
//!
//! - `widths`: how many shots go through a circuit at once.
//! - `packed`: the bits of lanes in `01` and `b8`.
//! - `lanes`: the bits of lanes in any format.
//! - `bits`: what is shown of a shot.
//! - `shots`: the shots of a circuit, written one after another.
//! - `run`: the commands that write the shots of a circuit.
//! - `stabilisers`: the command that writes the stabilisers of the state after a run.
//! - `part_laws`: outputs of parts are joined to that of all shots.
//! - `coin_positions`: the coins that decide, and the steps at which they do.
//! - `coin_runs`: the runs that have one coin 1, as lanes.
//! - `doubts`: the marks of a circuit that may be meant in another way.
//! - `check`: the command that writes the numbers of a circuit, or what is wrong with it.
//! - `deterministic`: the command that says which detectors and observables are the same for all random bits.
//! - `coin_rows`: the rows of a table of coins.
//! - `deciders`: the coins that decide each detector and observable.
//! - `faults`: the command that writes which detectors and observables each single error flips.
//! - `searched`: the errors that a distance is searched among, and the command that writes them.
//! - `distance`: the command that finds the least number of errors that flip an observable and no detector.
//! - `counted_distance`: the command that finds it of all errors, and how many least sets there are.
//! - `part_distance`: the command that writes what one part of the search for it finds.
//! - `each_distance`: the command that finds this number for each observable in turn.
//! - `question`: the command that does any of these.
//! - `coins`: the command that writes which bits of a run each coin decides.
//! - `reasons`: the command that names the coins which decide those that are not the same for all coins.
//! - `laws`: reduced rows determine their group; `check` counts what runs give; circuits have tables of coins, in which no coin
//!   decides a bit that is the same for all random bits.
//!
//! Sources: Stim's commands `sample` and `detect` with its result formats, for the commands of those names;
//! `docs/use/stim.md` says where they differ. For coins, Pauli frames that are propagated over one run (`stab_sampler`). The
//! rest is this project's own.
//!
//! Proved on `run_sample` and `run_detect`: a call ends by cases. The text was refused, by its own fault
//! or unread, and the output is untouched; or it was given whole, and the output took what the
//! stabiliser rules give for its circuit and the coins of each shot, in the format asked for, and one
//! flush; or it failed once, or the answer is 20, after a prefix. How many shots go at once, and in which words, changes
//! nothing of that. `run_stabilisers` ends by such cases, over the reduced rows of the state after shot 0; memory is then
//! refused before the first row. `specs/inner/` has what only private contracts cite.
//!
//! Proved of the commands that find something out: a call ends by cases. The text was refused, by its own fault or unread, and the output is
//! untouched; or it was given whole, and the output took what is written of its circuit, and one flush;
//! or it failed once; or the answer is 20 before the first byte. So `run_deterministic`, `run_faults`
//! and `run_distance` end, over the bits that are the same for all random bits; over what each single error flips, by
//! runs with it and without it, for all random bits (`SingleErrorTables.antt`); and over a least set of errors
//! that no detector sees and an observable does, by runs with them and without them
//! (`Distances.antt`). If a bit is not the same for all coins, `run_faults` and `run_distance` name the
//! first such, and the first coin that decides it, before they write anything. These two and `run_check` report marks
//! that may be meant in another way, after a call without a fault (`DoubtLines.antt`).
//!
//! The table of a circuit has a row for each coin that decides an outcome, and its bits are those in which runs
//! with that coin flipped differ from runs without, for all random bits; other coins change nothing, and each run is the run
//! with all coins 0, inverted by the rows of its coins (`Coins.antt`). The lanes of `CoinRuns` give these rows. `run_coins`
//! and `run_explain` write the table by row and by column, as its lines come: memory may be refused after some first bytes
//! (`CoinTables.antt`, `Reasons.antt`); and a bit is the same for all random bits if and only if no coin is
//! named for it (`laws::deterministic_has_no_decider`). `run_check` writes the numbers of the circuit, by cases of its
//! own (`specs/Checks.antt`): if a text was refused, the fault is that of the text, and some bytes were sent, of
//! which nothing more is claimed.
#![tactic(auto)]

mod bits;
mod check;
mod coin_positions;
mod coin_rows;
mod coin_runs;
mod coins;
mod counted_distance;
mod deciders;
mod deterministic;
mod distance;
mod doubts;
mod each_distance;
mod faults;
mod lanes;
pub mod laws;
mod packed;
mod part_distance;
pub mod part_laws;
mod question;
mod reasons;
mod run;
mod searched;
mod shots;
mod stabilisers;
mod widths;

pub use bits::Shown;
pub use check::run_check;
pub use coin_runs::CoinRuns;
pub use coins::{run_coins, write_coins};
pub use counted_distance::run_counted_distance;
pub use deterministic::run_deterministic;
pub use distance::{Distance, find_distance, run_distance, write_distance};
pub use each_distance::run_each_distance;
pub use faults::run_faults;
pub use part_distance::run_part_distance;
pub use question::run_question;
pub use reasons::{has_bit, run_explain, write_why};
pub use run::{run_detect, run_detect_shots, run_sample, run_sample_shots};
pub use searched::run_searched_errors;
pub use shots::send_shots;
pub use stabilisers::run_stabilisers;
