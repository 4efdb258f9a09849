//! Recorded runs: checkpoints on the way, rounds that are repeated, and frames over what is left of a run.
//!
//! In the order in which data flows; each module uses only those before it, except that `differing_checkpoints`, `new_checkpoints`,
//! `checkpoint_positions`, `recurrence`, `loop_folding` and `runs` add calls to the replay of `replay`:
//!
//! - `recorded_steps`: steps that a run carries out, with pivots of its random outcomes.
//! - `propagate`: steps on the way of a frame, until all are past, the frame is gone, or a pivot is missing.
//! - `other_coins`: steps on its way from a run to one that has other coins there.
//! - `checkpoint`: checkpoints, which are states stored before a step; when they are stored, and how they move.
//! - `meeting`: whether another run agrees with a checkpoint, or a run with one of its own again.
//! - `repeated_output`: what a run gave, appended again.
//! - `frames_between`: the frame by which a run differs from a checkpoint.
//! - `propagated_output`: what a run gave, repeated as a frame changes it.
//! - `states`, `rest_of_run`: states that a frame changes, and a frame over the rest of a run.
//! - `old_run`: what is stored of the run before an edit.
//! - `differing_checkpoints`, `new_checkpoints`, `checkpoint_positions`, `recurrence`, `loop_folding`, `replay`: a run from a checkpoint
//!   on, up to a checkpoint of an older run at which they agree; where its checkpoints are; and loop folding: rounds of a block that
//!   come again in it, exactly or up to a frame.
//! - `round_grouping`, `runs`: which rounds of blocks are looked at; runs, which are replays of all steps with no older run.
//! - `whole_run`, `with_pivots`, `sampler`: what a run gives; the same with a pivot for each random outcome; one circuit made ready for
//!   many runs.
//!
//! Coins, one step and the laws of runs are `stab_run`'s, frames `stab_frames`'. What is recorded of a circuit, and how it follows
//! an edit, is `stab_session`'.
//!
//! Sources: Stim's circuit file format, for what the steps of a circuit do to records, detectors and observables;
//! D. Gottesman, Stabilizer codes and quantum error correction (1997), and S. Aaronson and D. Gottesman, Improved
//! simulation of stabilizer circuits (2004), section III, for its qubits; C. Gidney, Stim: a fast stabilizer circuit
//! simulator (2021), for Pauli frames. When checkpoints are stored, and how loops fold, is this project's own.
//!
//! Proved: a frame propagated over the steps of a cursor has the letters and flips that the laws of `stab_frames` say, and its pivots
//! are enough for them. A run gives the records, randomness, detectors and observables that the group rules of `stab_run`
//! (`specs/Runs.antt`) give for the circuit's unrolled steps, and depends on no coin but those that decide; its trace is
//! sound. Each shot of a sampler is such a run, whatever became of the shots before it. A replay gives what comes after a checkpoint of
//! its circuit's run, and ends after the last step or at a checkpoint of the older run (`specs/Replays.antt`). `meets`
//! answers yes exactly if the other run comes to the state of the checkpoint, with the same records as far back as is
//! looked, and with the same coin to come unless none decides any more (`specs/Meets.antt`). `specs/inner/` has what only
//! private contracts cite.
#![tactic(auto)]

mod checkpoint;
mod checkpoint_positions;
mod differing_checkpoints;
mod frames_between;
mod loop_folding;
mod meeting;
mod new_checkpoints;
mod old_run;
mod other_coins;
mod propagate;
mod propagated_output;
mod recorded_steps;
mod recurrence;
mod repeated_output;
mod replay;
mod rest_of_run;
mod round_grouping;
mod runs;
mod sampler;
mod states;
mod whole_run;
mod with_pivots;

pub use checkpoint::{Checkpoint, Meeting, count_before, save_all, shifted, take_moved};
pub use meeting::{are_fixed, comes_again, has_one, may_have_coin, meets};
pub use old_run::OldRun;
pub use other_coins::propagate_with_coins;
pub use propagate::{Propagated, Stop, propagate_steps};
pub use propagated_output::{append_propagated, lengths_propagated, repeat_pivots};
pub use recorded_steps::run_recording_pivots;
pub use repeated_output::{part_between, repeat_outputs};
pub use replay::{End, Plan, Replay};
pub use rest_of_run::propagate_rest;
pub use round_grouping::{MOST_SINGLE, is_long, taken_together};
pub use sampler::{Sampler, run_once};
pub use states::{apply_frame, propagated_checkpoint};
pub use whole_run::Shot;
pub use with_pivots::{RunWithPivots, run_with_pivots};
