//! One line of a circuit's text: what it means, and how it is printed.
//!
//! A line is cut to its content, and the content means nothing, the opening or the end of a block,
//! or an instruction, or it is refused. `specs/` says which; the reader of lines is
//! `stab_circuit`. Which lines belong together is not known here: that is for `stab_items`.
//!
//! The text is Stim's, without noise: the Stim circuit file format (.stim), in Stim's repository
//! `doc/file_format_stim_circuit.md`. `docs/use/circuit-text.md` says where this differs.
//!
//! - `search`, `spacing`: where bytes are in a line, the parts between commas, and spacing.
//! - `sequence`, `range`: lists, and numbers with their ranges.
//! - `axis`, `product`: the letters X, Y and Z, and products of them on different qubits.
//! - `coordinates`, `located`, `detector`: coordinates, targets after them, and the records of a detector after them.
//! - `control`: the targets of controlled gates.
//! - `operation`: instructions, and what a line means.
//! - `table`, `name`: the names of all instructions, and what each stands for.
//! - `print`: the one text of an instruction, and of the opening of a block.
//!
//! `specs/` says what a content means (`meaning_of`), which rules that keeps, and what is printed of it;
//! `specs/inner` has what only private contracts use.
//!
//! Proved: what is printed of an instruction or an opening is its one text, and the targets of a
//! line that is not refused are as they must be: qubits of a pair or a product differ.
#![tactic(auto)]

mod axis;
mod control;
mod coordinates;
mod detector;
mod located;
mod name;
mod operation;
mod print;
mod product;
mod range;
mod search;
mod sequence;
mod spacing;
mod table;

pub use axis::Axis;
pub use control::{Control, ControlTarget, ControlledPair};
pub use coordinates::Coordinates;
pub use detector::{DetectorTargets, FEW_RECORDS, SHORT_COORDINATES};
pub use located::Located;
pub use name::{Instruction, Name};
pub use operation::{Kind, Line, Measurement, Operation};
pub use print::{write_detector_coordinates, write_opening, write_operation};
pub use product::{Factor, Product};
pub use range::{Count, Lookback, Lookbacks, MeasureTarget, ObservableNumber, Pair, Qubit};
pub use search::{first_piece, has_brace, is_brace, position_of};
pub use sequence::Sequence;
pub use spacing::{is_blank, is_spacing, without_spacing, without_spacing_in_front, word_len};
