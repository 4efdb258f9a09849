//! Circuits and their text: reading and printing it, and what is wrong with a text that was refused, in words.
//!
//! `stab_instructions` says what one line means, and `stab_items` has circuits with their edits and steps: their names are here
//! too. A fault names a refusal and a line: the word or the item at fault is found in it, and sentences say what is wrong and
//! what to do.
//!
//! - `line`: what is left of a line, and its shape.
//! - `word`: words between spacing, and decimal numbers.
//! - `target`, `argument`: the parts of an instruction.
//! - `detector`: the records of a detector.
//! - `spaced_target`, `plain_line`: targets that are numbers alone, and the line of an instruction on
//!   such targets, read at once.
//! - `factor`, `control`: the targets that are products, and those of controlled gates.
//! - `meanings`: what a line means, or why it is refused.
//! - `input`: reading an input whole.
//! - `first_lines`: the first line of a text: where it ends, and what a look at its bytes says.
//! - `hashes`: hashes of the first bytes of a line or a stretch, by which it is looked for.
//! - `known_lines`: lines that were read, so that one that comes again is not read again.
//! - `stretches`: the same for many lines at once, one after the other.
//! - `reader`: the items of a text's lines, with the blocks that are open.
//! - `whole_text`: the items of a text, by its stretches and lines.
//! - `reading`: circuits and items of texts, and the text of a circuit.
//! - `laws`: what holds between all texts and all items.
//! - `part`: parts of a line, by their positions in it.
//! - `sentences`: what is wrong and what to do, for each kind of word.
//! - `instruction_parts`: a line cut into its name, arguments and targets, or what has no line's shape in it.
//! - `unread_names`: what is wrong with a name, with the names that Stim reads and stabsim doesn't.
//! - `nearest`: the name that is nearest to a word.
//! - `faulty_line`, `faulty_targets`: the word at fault in a line, as it is read.
//! - `refused_item`: the item that looks back too far, or after which the steps are too many.
//! - `shown`: a line with carets under a part of it.
//! - `explanation`: all of it, and `write_explanation`, which the other crates call.
//!
//! Sources: Stim's circuit file format (.stim) without noise, in Stim's repository
//! `doc/file_format_stim_circuit.md`, and its list of gates, for the names that are left out. `docs/use/circuit-text.md` says
//! where this differs. The words of explanations are this project's own.
//!
//! Proved of lines: a content is read as exactly what it means, or refused as exactly what refuses it first;
//! a printed line that is read again means the same (`proofs/LineLaws.antt`).
//!
//! Proved of texts: every text is that of one circuit or has one fault, and never both; it is read as exactly
//! the items that it stands for, or refused with exactly its fault, and after the limit of a text
//! only what one read brings is read; one item's text without a fault stands for one item; what is printed
//! of any circuit stands for its items and no others, within the limit of a text, however it was put
//! together; an edit leaves the steps before the first changed one and after the
//! outermost item around its place.
//!
//! Proved of explanations: what is written is some bytes after what was written before, all of them if the call
//! is done, and a first part of them if the output failed; if the answer is 20, nothing is
//! written. The words themselves are tested.
#![tactic(auto)]

mod argument;
mod control;
mod detector;
mod explanation;
mod factor;
mod faulty_line;
mod faulty_targets;
mod first_lines;
mod hashes;
mod input;
mod instruction_parts;
mod known_lines;
pub mod laws;
mod line;
mod meanings;
mod nearest;
mod part;
mod plain_line;
mod reader;
mod reading;
mod refused_item;
mod sentences;
mod shown;
mod spaced_target;
mod stretches;
mod target;
mod unread_names;
mod whole_text;
mod word;

pub use explanation::write_explanation;
pub use factor::read_product;
pub use input::read_text;
pub use line::{content, ends_with, starts_with};
pub use meanings::{is_close, meaning};
pub use plain_line::instruction_in_front;
pub use reading::{circuit_of_text, read_circuit, read_item, write_circuit};
pub use stab_items::{Circuit, Cursor, Edit, Item, Path, Refused, Step};
pub use word::{capped_value, is_number};
