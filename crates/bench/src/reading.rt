use super::clock;
use super::failure::Failure;
use stab_circuit::{Circuit, read_circuit};
use stab_pauli::MemoryInput;
use std::alloc::Global;
use std::time::CpuClock;

/// The best of this many readings counts, since other programs disturb the rest.
const READINGS: u32 = 5;

/// The seconds of reading a circuit text, by the best of several readings.
pub fn best_time<R: CpuClock + AllocGlobal>(rt: &R, text: &[u8]) -> Result<f64, Failure> {
    let mut least = f64::INFINITY;
    for _ in 0..READINGS {
        least = least.min(time_of_reading(rt, text)?);
    }
    Ok(least)
}

/// The seconds of reading a circuit text once, without that of letting the circuit go.
fn time_of_reading<R: CpuClock + AllocGlobal>(rt: &R, text: &[u8]) -> Result<f64, Failure> {
    let start = clock::now(rt);
    let _circuit = circuit_of_text(rt.alloc(), text)?;
    clock::since(rt, start)
}

/// The circuit that a text stands for.
pub fn circuit_of_text(alloc: Global, text: &[u8]) -> Result<Circuit, Failure> {
    Ok(read_circuit(alloc, &mut MemoryInput::new(text))?)
}
