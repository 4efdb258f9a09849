//! How many shots go through a circuit at once.
ghost use Rattle.std.specs.Prelude.{◌<◌, ◌≤◌};

use stab_circuit::Circuit;

/// How many bytes the bits of shots that go at once take at most, besides the room that a growing list keeps unused. On its way out a
/// bit of all of them takes up to 25 bytes more. The run over which they are propagated takes up to three for each of its bits, and
/// for what is recorded of it 4 MiB and a pointer for each random outcome.
const MOST_BYTES: usize = 12 * 1024 * 1024;

/// How many bits a shot has: its records, detectors and observables.
fn bits_of_shot(circuit: &Circuit) -> usize {
    let shown = circuit.records().saturating_add(circuit.detectors());
    shown.saturating_add(circuit.observables())
}

/// Whether the bits of this many lanes, this many in each, stay within the bytes that they may take.
fn fits(bits: usize, lanes: usize) -> bool {
    bits.saturating_mul(lanes / 8) <= MOST_BYTES
}

/// Numbers of lanes, the most first.
const WIDTHS: [usize; 3] = [1_024, 512, 256];

/// How many shots go at once, of which each has this many bits.
fn most_lanes(bits: usize) -> usize
    ensures some { 0 < result }
    ensures few { result ≤ 1024 }
{
    for lanes in WIDTHS {
        if fits(bits, lanes) {
            return lanes;
        }
    }
    64
}

/// How many shots go through a circuit at once, if this many are asked for.
pub(crate) fn shots_at_once(circuit: &Circuit, shots: usize) -> usize
    ensures some { 0 < result }
    ensures few { result ≤ 1024 }
{
    if shots <= 64 {
        return 64;
    }
    most_lanes(bits_of_shot(circuit))
}
