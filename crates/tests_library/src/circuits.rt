//! Texts of circuits and of items.
use crate::answers::assert_same;
use crate::made_items::tagged_tick;
use stab_circuit::{Circuit, Path, Refused, read_circuit, read_item, write_circuit};
use stab_io::write_all;
use stab_items::write_one_item;
use stab_pauli::{EndlessInput, Fault, MemoryInput, MemoryOutput, Refusal};
use std::alloc::Global;
use std::test::Fail;

/// The refusal's number and line, or zeros.
pub(crate) fn fault_of<T: Drop>(answer: Result<T, Fault>) -> (u8, u64) {
    match answer {
        Ok(_) => (0, 0),
        Err(fault) => (fault.refusal.number(), fault.line),
    }
}

pub(crate) fn read(alloc: Global, text: &str) -> Result<Circuit, Fault> {
    read_circuit(alloc, &mut MemoryInput::new(text.as_bytes()))
}

/// Whether a circuit is printed as this text.
pub(crate) fn prints(alloc: Global, circuit: &Circuit, text: &str) -> Result<bool, Refusal> {
    let mut out = MemoryOutput::new(alloc, 2048)?;
    let written = write_circuit(&mut out, circuit);
    Ok(written.is_ok() && out.bytes() == text.as_bytes())
}

/// The number and line of a refusal, if its item came back.
fn fault_with_item(refused: Refused) -> (u8, u64) {
    let Refused { fault, item } = refused;
    if is_there(item) {
        (fault.refusal.number(), fault.line)
    } else {
        (0, 0)
    }
}

pub(crate) fn is_there<T: Drop>(value: Option<T>) -> bool {
    value.is_some()
}

/// What refuses an item, and how many steps a circuit has that is this item.
fn item_of(alloc: Global, text: &str) -> ((u8, u64), usize) {
    let item = match read_item(alloc, text.as_bytes()) {
        Ok(item) => item,
        Err(fault) => return ((fault.refusal.number(), fault.line), 0),
    };
    let mut circuit = Circuit::new(alloc);
    match circuit.insert(Path::new(&[0]), item) {
        Ok(()) => ((0, 0), circuit.steps()),
        Err(refused) => (fault_with_item(refused), 0),
    }
}

const ITEMS: &[(&str, u8, u64, usize)] = &[
    ("CX 0 1 2 3", 0, 0, 2),
    ("\nREPEAT 3 {\nX 0\n\nM 0\n}\n# pivot\n", 0, 0, 6),
    ("DETECTOR rec[-7]", 0, 0, 1),
    ("REPEAT 9 {\nTICK\n}", 0, 0, 0),
    ("H 0\nH 1", 11, 2, 0),
    ("H 0\nNOPE", 11, 2, 0),
    ("REPEAT 3 {\n}\n\nX 0", 11, 4, 0),
    ("H 0\n}", 5, 2, 0),
    ("NOPE", 1, 1, 0),
    ("REPEAT 2 {\nX 0", 5, 1, 0),
    ("", 11, 0, 0),
    (" \n# pivot", 11, 0, 0),
];

/// The texts of a circuit's items, one after another.
fn items_text(alloc: Global, circuit: &Circuit) -> Result<MemoryOutput, Refusal> {
    let mut out = MemoryOutput::new(alloc, 2048)?;
    for item in circuit.items() {
        write_one_item(&mut out, item)?;
        write_all(&mut out, b"--\n")?;
    }
    Ok(out)
}

#[test]
fn items_are_lent_in_order(rt: HostRuntime) -> Result<(), Fail> {
    let circuit = read(rt.alloc(), "X 0\nTICK[a]\nREPEAT 2 {\nM 0\n}\nX 0")?;
    let texts = items_text(rt.alloc(), &circuit)?;
    let expected = "X 0\n--\nTICK[a]\n--\nREPEAT 2 {\n    M 0\n}\n--\nX 0\n--\n";
    assert!(rt; texts.bytes() == expected.as_bytes());
    Ok(())
}

#[test]
fn a_made_item_is_read_back(rt: HostRuntime) -> Result<(), Fail> {
    let mut circuit = read(rt.alloc(), "X 0\n")?;
    let made = tagged_tick(rt.alloc())?;
    let put = circuit.insert(Path::new(&[0]), made);
    let text = "TICK[by hand]\nX 0\n";
    let again = read(rt.alloc(), text)?;
    assert!(rt;
        put.is_ok() && prints(rt.alloc(), &circuit, text)? && prints(rt.alloc(), &again, text)?
    );
    Ok(())
}

#[test]
fn an_item_is_read_alone_and_a_text_without_end_refused(rt: HostRuntime) {
    for &(text, number, line, steps) in ITEMS {
        let found = item_of(rt.alloc(), text);
        assert_same(&rt, &found, &((number, line), steps), text);
    }
    let endless = read_circuit(rt.alloc(), &mut EndlessInput::new(b' '));
    assert_eq!(rt; fault_of(endless), (14, 0));
}
