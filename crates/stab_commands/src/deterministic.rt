//! The command that says which detectors and observables are the same for all random bits.
ghost use Rattle.std.specs.Prelude.{◌≡◌, ◌≤◌, ◌+◌, None, length};
ghost use Rattle.stab_items.specs.Steps.{check_of, qubits_of, unroll, observables_of};
ghost use Rattle.stab_items.specs.Views.{circuit_items};
ghost use Rattle.stab_regions.specs.SingleErrors.{bits_in};
ghost use Rattle.stab_report.specs.Endings.{SendsFound};
ghost use Rattle.stab_report.specs.Deterministic.{EndsDeterministic, IsDeterministicText, kinds_of};

use stab_circuit::{Circuit, read_circuit};
use stab_io::{Fault, Input, Output};
use stab_regions::deterministic;
use stab_report::finish;
use stab_results::{Format, Kinds, write_shot};
use std::alloc::Global;

/// Of a circuit's bits, of which there are this many, the first are detectors and the rest observables.
pub(crate) fn kinds_of(circuit: &Circuit, bits: usize) -> Kinds
    requires all { bits ≡ bits_in (circuit_items circuit.now) }
    ensures value { result ≡ kinds_of (circuit_items circuit.now) }
{
    Kinds::Detectors(bits - circuit.observables())
}

/// Writes which of a circuit's bits are deterministic, and flushes.
fn send_deterministic<O: Output>(
    alloc: Global,
    circuit: &Circuit,
    out: &mut O,
    format: Format,
) -> Result<(), Fault>
    requires checked { check_of (circuit_items circuit.now) ≡ None }
    ensures sends { SendsFound (IsDeterministicText format (circuit_items circuit.now)) (O.seen out.old) (O.seen out.new) result }
{
    let deterministic = deterministic(alloc, circuit, circuit.qubits())?;
    let kinds = kinds_of(circuit, deterministic.len());
    write_shot(out, format, kinds, deterministic.as_slice())?;
    finish(out)
}

/// Reads a circuit, and writes a bit for each of its detectors and then for each of its observables,
/// as one shot in a format: 1 if it is the same for all random bits of a run on as many qubits as
/// the circuit names.
///
/// Reading, the flush and the faults are those of `run_sample`, except that 20 comes before the first
/// byte.
pub fn run_deterministic<I: Input, O: Output>(
    alloc: Global,
    input: &mut I,
    out: &mut O,
    format: Format,
) -> Result<(), Fault>
    ensures ends { EndsDeterministic format (I.seen input.old) (I.seen input.new) (O.seen out.old) (O.seen out.new) result }
{
    let circuit = read_circuit(alloc, input)?;
    send_deterministic(alloc, &circuit, out, format)
}
