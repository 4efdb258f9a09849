//! Entries of 1 bits at positions, as results name them.

use stab_pauli::{MemoryOutput, Refusal};
use stab_results::{Kinds, write_entries};
use std::alloc::Global;
use std::test::Fail;

const M: Kinds = Kinds::Measurements;

const D: Kinds = Kinds::Detectors(2);

// Whether an output with this much room answers and has what it should if the entries of some positions are written.
fn is_right_in(
    alloc: Global,
    kinds: Kinds,
    positions: &[u32],
    bytes: &[u8],
    room: usize,
) -> Result<bool, Refusal> {
    let mut out = MemoryOutput::new(alloc, room)?;
    let answer = write_entries(&mut out, kinds, positions);
    let preserved = out.bytes() == bytes.split_at(room.min(bytes.len())).0;
    match answer {
        Ok(()) => Ok(preserved && room >= bytes.len()),
        Err(refusal) => Ok(preserved && room < bytes.len() && refusal == Refusal::WriteFault),
    }
}

// Whether this holds of each room up to that for all bytes.
fn are_entries(
    alloc: Global,
    kinds: Kinds,
    positions: &[u32],
    bytes: &[u8],
) -> Result<bool, Refusal> {
    for room in 0..=bytes.len() {
        if !is_right_in(alloc, kinds, positions, bytes, room)? {
            return Ok(false);
        }
    }
    Ok(true)
}

const ENTRIES: &[(Kinds, &[u32], &[u8])] = &[
    (M, &[], b""),
    (M, &[0, 12, 4_294_967_295], b" M0 M12 M4294967295"),
    (D, &[0, 1, 2, 5], b" D0 D1 L0 L3"),
    // They come in the order of the positions.
    (D, &[3, 0], b" L1 D0"),
];

#[test]
fn an_entry_is_that_of_its_place(rt: HostRuntime) -> Result<(), Fail> {
    for &(kinds, positions, bytes) in ENTRIES {
        let right = are_entries(rt.alloc(), kinds, positions, bytes)?;
        assert!(rt; right, "{positions:?}");
    }
    Ok(())
}
