//! Rounds that come again, in blocks and written out: where they are in the steps, and that their pivots count once.
use stab_circuit::read_circuit;
use stab_items::Repeat;
use stab_pauli::MemoryInput;
use stab_run::find_rounds;
use stab_sampler::Reference;
use std::alloc::Global;
use std::test::Fail;

/// After a step, a block of two steps; one without a step, one of one round and a step alone; and at step 9 one of three steps,
/// of which the last looks back to three records before the round.
const BLOCKS: &str = "H 0
REPEAT 3 {
X 0
M 0
}
REPEAT 2 {
TICK
}
REPEAT 1 {
X 0
}
M 0
REPEAT 2 {
REPEAT 2 {
M 0
}
DETECTOR rec[-5]
}
";

#[test]
fn blocks_with_rounds_stand_in_the_steps(rt: HostRuntime) -> Result<(), Fail> {
    let circuit = read_circuit(rt.alloc(), &mut MemoryInput::new(BLOCKS.as_bytes()))?;
    let wanted = [
        Repeat {
            first: 1,
            length: 2,
            rounds: 3,
            window: 0,
        },
        Repeat {
            first: 9,
            length: 3,
            rounds: 2,
            window: 3,
        },
    ];
    let repeats = circuit.repeats(rt.alloc())?;
    assert!(rt; repeats.as_slice() == wanted.as_slice());
    Ok(())
}

#[test]
fn a_pivot_that_rounds_have_again_counts_once(rt: HostRuntime) -> Result<(), Fail> {
    // More outcomes are random than pivots may be stored.
    let text = "REPEAT 200000 {\nH 0\nM 0\n}\n";
    let circuit = read_circuit(rt.alloc(), &mut MemoryInput::new(text.as_bytes()))?;
    let reference = Reference::of(rt.alloc(), &circuit, 1)?;
    assert!(rt; reference.is_some());
    Ok(())
}

/// The lines before rounds, those of a round, how many rounds there are, and the lines after them.
type Case = (&'static str, &'static str, usize, &'static str);

/// The lines of a case.
fn text_of(alloc: Global, case: Case) -> Result<Vec<u8>, Fail> {
    let (before, round, count, following) = case;
    let mut text = Vec::from_slice(alloc, before.as_bytes())?;
    for _ in 0..count {
        text.extend_from_slice(round.as_bytes())?;
    }
    text.extend_from_slice(following.as_bytes())?;
    Ok(text)
}

/// Where rounds of three steps are found after a round that differs. The search tries step 0, which never comes again; then
/// step 1, which doesn't come again as a round; and then the first step at which rounds may begin, four or more further: step 6.
#[test]
fn written_rounds_stand_in_the_steps(rt: HostRuntime) -> Result<(), Fail> {
    let alloc = rt.alloc();
    let case = (
        "H 0\nM 0\nDETECTOR rec[-1]\n",
        "X 1\nM 0\nDETECTOR rec[-1] rec[-2]\n",
        3000,
        "M 1\n",
    );
    let text = text_of(alloc, case)?;
    let circuit = read_circuit(alloc, &mut MemoryInput::new(text.as_slice()))?;
    let wanted = [Repeat {
        first: 6,
        length: 3,
        rounds: 2999,
        window: 2,
    }];
    let found = find_rounds(alloc, &circuit)?;
    assert!(rt; found.as_slice() == wanted.as_slice());
    Ok(())
}

/// Rounds that have few steps in all are not looked for.
#[test]
fn rounds_of_few_steps_are_not_found(rt: HostRuntime) -> Result<(), Fail> {
    let alloc = rt.alloc();
    let text = text_of(alloc, ("H 0\n", "X 1\nM 0\n", 4000, "M 1\n"))?;
    let circuit = read_circuit(alloc, &mut MemoryInput::new(text.as_slice()))?;
    let found = find_rounds(alloc, &circuit)?;
    assert!(rt; found.is_empty());
    Ok(())
}
