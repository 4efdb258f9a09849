//! What every other crate of stabsim builds on: refusals, and the devices that bytes come from and go to.
//!
//! - `refusal`: why a text, a command or a call was refused, with its number, name and line.
//! - `device`: the traits `Input` and `Output`, and `Device` around any reader or writer of std.
//! - `memory`: inputs and outputs in memory, whole, cut into pieces or without end.
//!
//! Sources: the numbers and names of refusals and what a device promises are this project's own; calls of
//! devices are those of std's `Read` and `Write`, except that each error is one counted failure.
//!
//! Proved: each device counts its failures, and an honest one keeps to its bytes; those in memory are
//! known exactly, with their room, pieces and failing calls.
#![tactic(auto)]

mod device;
mod memory;
mod refusal;

pub use device::{Device, DeviceFault, Input, Output, write_all};
pub use memory::{CutInput, EndlessInput, MemoryInput, MemoryOutput};
pub use refusal::{Fault, Refusal};
