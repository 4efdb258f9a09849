//! Coins, what one step of a circuit does and means, and the laws of runs.
//!
//! In the order in which data flows; each module uses only those before it:
//!
//! - `coins`: the bits that decide outcomes which nothing else decides.
//! - `records`: what steps have given so far, and the parity of the records that `rec[-k]` names.
//! - `measure`: measurements that ask for a coin only if the coin decides, and their pivots.
//! - `step`, `step_with_pivot`, `steps`: one step on a tableau, the same with its pivot, and the steps of one
//!   instruction or of detectors.
//! - `same`, `alike`, `window`: which steps are the same as others, how many after two positions are, and how far back they look.
//! - `search`, `edited`: where rounds are that are written out, and which an edited circuit has, by those that it had. They are looked for
//!   only in circuits without blocks, and only as far as looking for them costs little: none may be found if there are some, or a round or
//!   two later. What is found is compared step by step.
//! - `laws`: each function does nothing: its contract is a law of runs, and the check proves it.
//!
//! `specs/` says which bit each coin is, what the steps of a circuit make of its qubits and records, and
//! how a program that carries them out follows them; `Laws` and `RoundLaws` state what a run depends on and when rounds
//! come again, and `Ends` when no step distinguishes two points of runs. `stab_items` says which steps a circuit
//! has; runs of some or all of them are `stab_recording`'s.
//!
//! Sources: Stim's circuit file format, for what the steps of a circuit do to records, detectors and observables;
//! D. Gottesman, Stabilizer codes and quantum error correction (1997), and S. Aaronson and D. Gottesman, Improved
//! simulation of stabilizer circuits (2004), section III, for its qubits; D. J. Bernstein, ChaCha, a variant of
//! Salsa20 (2008), for the coins of a seed. It differs in that the coin of each measurement is given by number, and in
//! that a detector is the parity of its records.
//!
//! Proved: coins are one fixed sequence of bits by number, which no call changes, and a seed gives
//! the bits of ChaCha8 that `specs/Coins.antt` names. A step, and the steps of one instruction, lead a
//! tableau and what was gathered from one point to the next (`specs/Points.antt`,
//! `specs/ProgramStates.antt`), and ask for at most as many coins as decide. That where steps end and
//! what they give is the run by the group rules of `specs/Runs.antt` is one of the laws. What is found are rounds of the same
//! steps, one after the other (`specs/Repeats.antt` of `stab_items`); no step looks further back than is reported.
#![tactic(auto)]

mod alike;
mod coins;
mod edited;
pub mod laws;
mod measure;
mod records;
mod same;
mod search;
mod step;
mod step_with_pivot;
mod steps;
mod window;

pub use coins::{Coins, ListCoins, SeedCoins, seed_coins};
pub use edited::edited_rounds;
pub use measure::write_product;
pub use records::{Addition, Lengths, Outputs, looked_up, observables, parity};
pub use search::find_rounds;
pub use step::{apply_step, as_gate, flip};
pub use step_with_pivot::apply_step_with_pivot;
pub use steps::apply_steps;
