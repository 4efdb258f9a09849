//! The library: all that a program of your own needs, from one crate.
//!
//! Each name is one of a crate below, whose `src/lib.rt` says what is proved of it. Commands from bytes to bytes, and the words of
//! a command line, are in `stab_cli`. `docs/build/library.md` has the names by subject, and `tools/reference.py` prints their calls.
//!
//! Source: this project's own.
//!
//! Proved: nothing beside what the crates below prove.
#![tactic(auto)]

pub use stab_circuit::{
    circuit_of_text, read_circuit, read_item, write_circuit, write_explanation,
};
pub use stab_commands::CoinRuns;
pub use stab_error_model::{Error, ErrorTable, distance, errors};
pub use stab_gates::{Gate, Letter, PairGate, Phase};
pub use stab_instructions::{Axis, ControlledPair, Factor, MeasureTarget, Measurement, Qubit};
pub use stab_io::{
    Device, DeviceFault, Fault, Input, MemoryInput, MemoryOutput, Output, Refusal, write_all,
};
pub use stab_items::{
    Circuit, Cursor, Detectors, Edit, Item, Path, Refused, Repeat, Span, Step, StepItem, Steps,
    write_path,
};
pub use stab_jobs::ErrorLetters;
pub use stab_pauli::{Pauli, PauliRows};
pub use stab_recording::{Sampler, Shot, run_once};
pub use stab_regions::{SingleErrorTable, deterministic, single_errors};
pub use stab_results::{Format, Kinds, write_entries, write_shot};
pub use stab_run::{Coins, ListCoins, Outputs, SeedCoins, apply_steps};
pub use stab_sampler::{
    Draw, Reference, SeedLanes, Shots, UnitLanes, Wide, Word, run_lanes, run_shots,
};
pub use stab_search::{Answer, Progress, Table, Unwatched, least_logical_error};
pub use stab_session::{Followed, OpenRefused, Recorded, Recording, Report, Session, record_run};
pub use stab_tableau::{Collapse, Tableau};
pub use stab_ways::{Turn, Way, way_of};
