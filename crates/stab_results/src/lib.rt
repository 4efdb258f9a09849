//! The bits of one shot, as bytes in Stim's result formats.
//!
//! - `format`: the five formats, and what kinds of bits a shot has.
//! - `byte_buffer`: bytes gathered on their way to an output, which then gets many at a time.
//! - `one_positions`: the positions of the 1 bits, one after another.
//! - `formats`: a shot in each of the formats.
//! - `shot`: `write_shot`, `write_entries` and `write_ones`, which the other crates call.
//!
//! Source: Stim's documentation of its result formats, of which `ptb64` is left out: a call writes one
//! shot.
//!
//! Proved: `write_shot`, `write_entries` and `write_ones` write exactly the bytes of `specs/Formats.antt`, or a
//! prefix of them if the output failed, and never flush.
#![tactic(auto)]

mod byte_buffer;
mod format;
mod formats;
mod one_positions;
mod shot;

pub use format::{Format, Kinds};
pub use shot::{write_entries, write_ones, write_shot};
