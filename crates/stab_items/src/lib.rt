//! Items and circuits: instructions and blocks, their steps, their print and their edits.
//!
//! `stab_instructions` says what one line means; how circuits are read from their text is `stab_circuit`'s. `specs/` says which
//! items a text stands for, what their steps are, what is printed of them and what an edit leaves; `specs/inner` is of private
//! contracts.
//!
//! - `instruction`: instructions, which keep their numbers.
//! - `item`: instructions and blocks, which keep the numbers of one round.
//! - `summary`: the numbers that are stored.
//! - `copy`: copies of items.
//! - `print`: the one text of items.
//! - `step`, `instruction_steps`, `steps`: the steps of an instruction, one at a time and together.
//! - `detectors`: detectors one after the other.
//! - `window`: how far back steps look.
//! - `path`: the positions of items.
//! - `edit`: how a circuit is edited at a path, and which steps that changes.
//! - `judge`, `commit`: judging an edit by what items keep, and making it.
//! - `circuit`: circuits, editing one, splitting a round off a block, the item at a path, the item that a step belongs to,
//!   the steps after each occurrence of an item in blocks, and the blocks of which the steps come again.
//! - `same`: instructions and items that stand for the same steps.
//! - `walk`, `cursor`: the unrolled steps of a circuit, from any position on.
//!
//! Source: Stim's circuit file format (.stim) without noise, in Stim's repository
//! `doc/file_format_stim_circuit.md`. `docs/use/circuit-text.md` says where this differs. Paths and edits are this project's own.
//!
//! Proved: qubits, observables, steps, records and detectors of items, and the lookbacks before them, are those of their
//! unrolled steps, counted up to a limit, whatever a block keeps; each item keeps the rules of lines, whoever made it; what is
//! printed of items is their one text; a copy is the same item; the steps of an instruction are given as they are unrolled,
//! and look back no further than is reported.
//!
//! Proved: qubits and observables of a circuit are those of its items, and steps, records, detectors and what refuses a whole
//! circuit those of its unrolled steps; the path that is given for a step is that of its item; an edit leaves exactly the items
//! that `specs/Edits.antt` gives, or is refused by what refuses it first and leaves the circuit as it was; in each round of the
//! blocks around its place it leaves the steps after what it takes out and what it puts in, and how many these are is reported;
//! where the steps of an outermost block come again, how often, and how far back they look is reported for each such block; a
//! split of a round leaves exactly the items that `specs/Splits.antt` gives, and all steps, or is refused as that says.
#![tactic(auto)]

mod circuit;
mod commit;
mod copy;
mod cursor;
mod detectors;
mod edit;
mod instruction;
mod instruction_steps;
mod item;
mod judge;
mod path;
mod print;
mod same;
mod step;
mod steps;
mod summary;
mod walk;
mod window;

pub use circuit::{Circuit, Repeat, StepItem, StepItems};
pub use copy::{copied_item, push_copies};
pub use cursor::Cursor;
pub use detectors::Detectors;
pub use edit::{Edit, Refused, Span};
pub use instruction::Instruction;
pub use instruction_steps::{controlled_gate, measured_step, step_at, step_count};
pub use item::{Item, Part, items_summary};
pub use path::{Path, write_path};
pub use print::{write_all_items, write_item_coordinates, write_one_item};
pub use step::Step;
pub use steps::{Steps, part, steps_from};
pub use summary::{STEPS_CAP, Summary};
pub use window::{furthest, furthest_detector, furthest_of, furthest_of_steps};
