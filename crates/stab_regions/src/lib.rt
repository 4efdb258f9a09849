//! Regions: which parities of records are the same for all random bits, and which inserted Paulis
//! flip them, as one pass backwards through the steps finds it.
//!
//! - `laws`, `single_error_laws`: what regions say of the bits that runs give.
//! - `parities`: some parities by their numbers, and those that are in one of two lists alone.
//! - `rows`: for each qubit the parities that X flips there, and those that Z does.
//! - `lookbacks`: for each lookback the parities whose regions have that record.
//! - `gates`, `steps`, `products`: how these rows change from after a step to before it.
//! - `region_rows`, `marks`, `effects`, `walk`: all of this at one point, moved a step backwards: the regions of parities, and the
//!   effects of letters, by the same rows.
//! - `sites`, `single_error_rows`, `site_rows`: where single errors are asked for at a step, and what each of them flips.
//! - `counts`, `sweep`, `single_error_table`, `effect_table`: the pass over a whole circuit, and the calls that answer by it.
//!
//! Sources: M. McEwen, D. Bacon and C. Gidney, Relaxing hardware requirements for surface code circuits using
//! time-dynamics (2023), for regions, and C. Gidney, Stim: a fast stabilizer circuit simulator (2021), for frames.
//! Regions with signs, tables of them and their laws are this project's own.
//!
//! Proved: the laws; that `deterministic` says of each detector and observable whether its bit is the same
//! for all random bits, and that `single_errors` gives for each single error exactly the deterministic bits by which the runs
//! with it and without it differ, for all random bits, and that single errors which are put in together, in any
//! order, flip the bits that an odd number of their rows name: `specs/SingleErrors.antt`; and that `single_error_effects` gives
//! all that each single error flips and leaves (`specs/Effects.antt`). Within: rows which show the
//! regions after a step are changed into rows that show those before it, up to signs (`specs/Rows.antt`);
//! and the regions of all parities at the end of steps, moved backwards over one after another, are
//! those at each point before it, with marks at those that a step does not keep
//! (`specs/inner/RegionsAt.antt`).
#![tactic(auto)]

mod counts;
mod effect_table;
mod effects;
mod gates;
pub mod laws;
mod lookbacks;
mod marks;
mod parities;
mod products;
mod region_rows;
mod rows;
pub mod single_error_laws;
mod single_error_rows;
mod single_error_table;
mod site_rows;
mod sites;
mod steps;
mod sweep;
mod walk;

pub use effect_table::{EffectTable, single_error_effects};
pub use single_error_table::{SingleErrorTable, deterministic, single_errors};
