//! Sessions that are refused with their circuit and coins.
use stab_circuit::{Circuit, read_circuit};
use stab_pauli::{Fault, MemoryInput, Refusal};
use stab_session::{ListCoins, OpenRefused, Session};
use std::alloc::Global;
use std::test::Fail;

fn read(alloc: Global, text: &str) -> Result<Circuit, Fault> {
    read_circuit(alloc, &mut MemoryInput::new(text.as_bytes()))
}

/// Whether an opening on no qubits is refused, and a session has these records and this randomness that is opened on one qubit
/// with the circuit and the coins that came back.
fn opens_again(
    alloc: Global,
    text: &str,
    bits: &[bool],
    records: &[bool],
    free: &[bool],
) -> Result<bool, Fault> {
    let circuit = read(alloc, text)?;
    match Session::open(alloc, circuit, 0, 1, ListCoins::new(bits)) {
        Ok(_) => Ok(false),
        Err(refused) => {
            let out_of_range = refused.fault == Fault::whole(Refusal::QubitOutOfRange);
            Ok(shows_after(alloc, refused, records, free) && out_of_range)
        }
    }
}

fn shows_after(
    alloc: Global,
    refused: OpenRefused<ListCoins>,
    records: &[bool],
    free: &[bool],
) -> bool {
    match Session::open(alloc, refused.circuit, 1, 65_536, refused.coins) {
        Ok(session) => {
            session.records() == records
                && session.free() == free
                && session.detectors().is_empty()
                && session.observables().is_empty()
        }
        Err(_) => false,
    }
}

const REFUSED: &[(&str, &[bool], &[bool], &[bool])] = &[
    (
        "REPEAT 2 {\nTICK\nM 0\n}",
        &[],
        &[false, false],
        &[false, false],
    ),
    (
        "H 0\nM 0\nMX 0",
        &[true, true],
        &[true, true],
        &[true, true],
    ),
];

#[test]
fn a_refused_opening_hands_circuit_and_coins_back(rt: HostRuntime) -> Result<(), Fail> {
    for &(text, bits, records, free) in REFUSED {
        let opens = opens_again(rt.alloc(), text, bits, records, free)?;
        assert!(rt; opens, "{text}");
    }
    Ok(())
}
