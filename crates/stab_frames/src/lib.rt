//! Pauli frames: how a run differs from another whose circuit differs by Pauli gates, or whose coins differ.
//!
//! A frame is a Pauli string, which flips the sign of each stabiliser that it anticommutes with, and a bit
//! for each record, 1 if it is flipped. It follows the steps of a circuit at the cost of some bits,
//! while a run costs a tableau. A pivot of each random measurement, a stabiliser that anticommutes with it,
//! says which string is multiplied on if two runs project on different outcomes.
//!
//! The laws are in this order; each function of these modules does nothing, and its contract is a law:
//!
//! - `step_laws`: steps keep two points different by a frame; frames multiply, what they flip adds, and when
//!   a frame is none.
//! - `pivot_laws`: which pivots are enough for a frame, that each run has right ones, and where they come from.
//! - `run_laws`: whole runs, after an edit by Pauli gates or with other coins, are old ones, flipped; and
//!   a tableau of the one is one of the other, once signs of its rows are flipped.
//!
//! And the calls that keep frames, in the order in which data flows:
//!
//! - `pivots`: pivots of a run's random outcomes, within a bound of memory.
//! - `pivot_recorder`: what a run records of the steps that it carries out: pivots, and how far back they look.
//! - `letters`: the table of what gates make of letters, and what they make of those of a frame.
//! - `bits`: lists of bits, counted, and put after others as a frame flips them.
//! - `conjugated_states`: stored states, conjugated by the letters of a frame.
//! - `propagation`: a frame on its way, with what it has flipped.
//! - `draw`: which coins differ on its way.
//! - `propagate_step`, `instruction`: one step on its way, and those of one instruction.
//!
//! A frame on its way over the steps that a cursor has left is `stab_recording`'s.
//!
//! In `specs/`, `Frames`, `RunPivots` and `FrameSteps` say what a frame is and what a step makes of it, `Images` what a gate does to letters, `Flips`
//! and `PivotsOfSteps` what it flips and which pivots it needs; `Pivots`, `Propagations` and `OtherCoins`
//! say what the calls keep; the laws are in files named after these modules.
//!
//! Sources: C. Gidney, Stim: a fast stabilizer circuit simulator (2021), for Pauli frames; S. Aaronson and
//! D. Gottesman, Improved simulation of stabilizer circuits (2004), for measurements. It differs in that
//! coins are numbered: both runs are given, and a frame gives each bit of the one from the other's, while
//! Stim's frames are right up to outcomes that are drawn again.
//!
//! Proved: the laws, over the group rules that runs themselves are stated by (`stab_run`, `specs/Runs.antt`).
//! Steps that are carried out with pivots recorded are those of the run, and the strings are true of it; a frame
//! propagated over the steps of an instruction has the letters and flips that the laws say. `specs/inner/` has what only
//! private contracts cite, and those of calls that `stab_recording` alone makes.
#![tactic(auto)]

mod bits;
mod conjugated_states;
mod draw;
mod instruction;
mod letters;
pub mod pivot_laws;
mod pivot_recorder;
mod pivots;
mod propagate_step;
mod propagation;
pub mod run_laws;
pub mod step_laws;

pub use bits::{append_flipped, append_flipped_additions, between, bit_at, count_ones};
pub use conjugated_states::apply_frame_to;
pub use draw::{Draw, SameCoins};
pub use instruction::propagate_instruction;
pub use letters::{Images, controlled_letter};
pub use pivot_recorder::PivotRecorder;
pub use pivots::Pivots;
pub use propagate_step::Known;
pub use propagation::Propagation;
