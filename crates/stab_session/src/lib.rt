//! Sessions: runs of circuits that are recorded with their checkpoints, and follow edits as a splice and a frame.
//!
//! Runs, replays and frames over what is left of a run are `stab_recording`'s, whose names are here too.
//!
//! In the order in which data flows; each module uses only those before it:
//!
//! - `counting`, `past_sites`, `flips`: for edits by Pauli gates, how long a run's lists are after some steps, a frame
//!   past the changed sites, and lists changed in place.
//! - `recording`, `rest`, `conjugating`: the recording of a circuit, and how it follows an edit: by a replay of the steps that
//!   changed and what comes after it of the old run, or by a frame alone.
//! - `opening`: how a recording is made for the first time.
//! - `pending`: edits of a circuit that can be taken back.
//! - `paulis`: the change of Pauli gates that an edit amounts to, in each round of the blocks around its
//!   place, if it is of such gates alone.
//! - `change`: that, and where the steps of the edited circuit come again.
//! - `session`: a circuit with what its run gives, to be read and edited; a round that is split off
//!   leaves the run.
//!
//! Source: sessions, and how a run follows an edit, are this project's own.
//!
//! Proved: what is recorded is the run of the circuit's steps from the first one on, whatever edits it followed, with
//! checkpoints at most a stride from each other (`specs/Recordings.antt`); if memory is refused it is as before. How many steps an edit
//! takes, and between which checkpoints, is in `specs/Counts.antt`, and how many coins it asks for in the contract of
//! `Recording::follow`.
//!
//! Proved: what a session shows is the run of its items from the first step on, whatever edits it
//! took and whatever rounds were split off: `specs/Headline.antt` says so. How many steps an edit
//! carries out, how many coins it may ask for if it is refused, and how many checkpoints of the state a
//! session keeps, is in `specs/Bounds.antt`, over `specs/Counts.antt`.
//! `specs/inner/` has what only private contracts cite.
#![tactic(auto)]

mod change;
mod conjugating;
mod counting;
mod flips;
mod opening;
mod past_sites;
mod paulis;
mod pending;
mod recording;
mod rest;
mod session;

pub use opening::{Recorded, record_run};
pub use past_sites::PauliChange;
pub use recording::{Followed, Recording};
pub use session::{OpenRefused, Report, Session};
pub use stab_circuit::Edit;
pub use stab_recording::{Shot, run_once};
pub use stab_run::{Coins, ListCoins, SeedCoins};
