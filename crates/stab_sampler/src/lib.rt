//! Many shots of one circuit, as lanes of Pauli frames over one run.
//!
//! All shots go through the same gates and measure the same strings; their states differ only by signs, and so by a Pauli string
//! each. One run, with all coins 0, is recorded; each shot is a lane, a bit of a word, that is propagated over that run.
//!
//! In the order in which data flows; each module uses only those before it:
//!
//! - `word`, `wide`: this many bits, one for each lane; those of 64 lanes, and of 64 N.
//! - `letters`: the letters of all lanes at a qubit, and what gates make of them.
//! - `frames`: a Pauli string for each lane.
//! - `lanes`: what each lane has flipped so far.
//! - `streams`: the words of a shot's stream, whose lowest bits are its coins.
//! - `coins`: what is drawn in all lanes, and the coins of shots of a seed.
//! - `units`: words of which one lane is 1, and coins of which each lane has one that is 1.
//! - `blocks`: the words of 64 lanes and the bytes of eight, out of wider ones; the bits of 64 lanes as bytes, one lane after another.
//! - `measure`: one outcome, on all lanes: the rule by which they differ from the run.
//! - `step`, `steps`: one step of the run, and those of one instruction, on all lanes.
//! - `part`: some steps of a circuit on all lanes.
//! - `part_recording`: a run with all coins 0, and what is recorded of the last steps that it went over.
//! - `reference`: such a run and what is recorded of all of it, over which all batches of lanes are propagated. It carries out no round that comes again.
//! - `checkpoints`: what is stored of lanes after a round, and whether lanes are as they were then.
//! - `repeated_flips`: what lanes flipped in some rounds, appended again.
//! - `rounds`: the rounds of a block on all lanes, which flip again what they flipped once they are as they were before.
//! - `shots`, `flips`: what this many shots give, by the run and what the lanes flip.
//! - `run`: all steps of a circuit, recorded and propagated over by turns; or propagated over by a reference.
//! - `batches`: shots of a seed, each with lists of its own.
//!
//! Source: C. Gidney, Stim: a fast stabilizer circuit simulator (2021), for shots as lanes of frames beside a
//! reference. It differs in that each shot has numbered coins of its own, and is exactly the run with them.
//!
//! Proved: each lane goes over the steps as a Pauli frame does by the rules of `stab_frames`, with its own coins
//! (`specs/Differences.antt`); and each lane, and each shot that is made of one, is the run that the group rules of `stab_run` give for the
//! circuit and the coins of its shot.
#![tactic(auto)]

mod batches;
mod blocks;
mod checkpoints;
mod coins;
mod flips;
mod frames;
mod lanes;
mod letters;
mod measure;
mod part;
mod part_recording;
mod reference;
mod repeated_flips;
mod rounds;
mod run;
mod shots;
mod step;
mod steps;
mod streams;
mod units;
mod wide;
mod word;

pub use batches::run_shots;
pub use blocks::{write_blocks, write_bytes, write_part, write_row};
pub use coins::{Draw, SeedLanes};
pub use flips::flip_bits;
pub use frames::Frames;
pub use lanes::{Lanes, looked_up, observables, write_lane};
pub use letters::Letters;
pub use measure::RecordedPivots;
pub use part::{propagate_along, propagate_part};
pub use reference::Reference;
pub use run::run_lanes;
pub use shots::Shots;
pub use step::push_when;
pub use units::{UnitLanes, UnitWord};
pub use wide::Wide;
pub use word::Word;
