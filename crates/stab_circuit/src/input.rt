ghost use Rattle.std.specs.Prelude.{◌≡◌};
ghost use Rattle.stab_circuit.specs.Inputs.{ReadsText};

use stab_io::{DeviceFault, Input, Refusal};
use std::alloc::Global;

/// The most bytes of a text.
pub const MOST_BYTES: usize = 16_777_216;

/// Reads all of the input.
///
/// Refusals: `TooLong` for a text of more than 16,777,216 bytes, of which at most 4,096 bytes after
/// the limit are read, and then no more; `ReadFault` if the input failed; `OutOfMemory`.
pub fn read_text<I: Input>(alloc: Global, input: &mut I) -> Result<Vec<u8>, Refusal>
    ensures reads { ReadsText (I.seen input.old) (I.seen input.new) result }
{
    let mut text = Vec::new(alloc);
    let mut buf = [0u8; 4096];
    'reads: loop {
        match input.read(&mut buf) {
            Err(DeviceFault) => return Err(Refusal::ReadFault),
            Ok(count) => {
                if count == 0 {
                    return Ok(text);
                }
                if count > MOST_BYTES - text.len() {
                    return Err(Refusal::TooLong);
                }
                text.extend_from_slice(buf.split_at(count).0)?;
            }
        }
    }
}
